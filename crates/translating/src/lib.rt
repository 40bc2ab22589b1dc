// Translating (document 01, "Vector code"): a graph handed over as tables becomes a program in three lent sections, or is refused.
#![tactic(auto)]

mod counts;
mod expressions;
mod programs;
mod sections;

ghost use Rattle.std.specs.Prelude.{◌≡◌};
ghost use Rattle.rules.specs.Limits.{vector_bytes};
ghost use Rattle.rules.specs.Calls.{translating};
ghost use Rattle.translating.specs.Programs.{program_given};

use rules::answers::Refusal;
use rules::program::ProgramHead;

// Translates a graph for windows of so many bytes. ROOM leaves the sections as they are; another refusal leaves them all zero.
pub fn translate(
    head: &[u64],
    nodes: &[u64],
    work_len: u64,
    table_len: u64,
    prologue: &mut [u32],
    body: &mut [u32],
    epilogue: &mut [u32],
) -> Result<ProgramHead, Refusal>
    ensures { program_given result prologue.new body.new epilogue.new ≡ translating vector_bytes head.now nodes.now work_len table_len prologue.old body.old epilogue.old }
{
    if let Err(refusal) = refusals_translating::judge(
        head, nodes, work_len, table_len, prologue, body, epilogue,
    ) {
        translating_rows::refuse(refusal, prologue, body, epilogue);
        return Err(refusal);
    }
    translating_rows::clear(prologue, body, epilogue);
    let header = graph::header_of(head);
    let links = graph::Links::new(head, nodes);
    Ok(programs::emit(header, &links, prologue, body, epilogue))
}
