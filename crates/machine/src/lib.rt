// The vector machine (document 01, "Vector code"): it runs any program that anybody hands it, and gives one fixed answer.
#![tactic(auto)]

mod elements;
mod instructions;
mod passes;
mod sections;

ghost use Rattle.std.specs.Prelude.{◌≡◌};
ghost use Rattle.rules.specs.Limits.{vector_bytes};
ghost use Rattle.rules.specs.Calls.{running};
ghost use Rattle.machine.specs.Running.{ran};

use crate::elements::Element;
use crate::passes::Run;
use crate::sections::Section;
use rules::answers::Refusal;
use rules::program::ProgramHead;

// Runs a program on a budget of steps, and gives the steps done. Work holds what was stored, also where the run stopped.
#[tactic(auto, using(crate::proofs::PassLaws::run_goes, crate::proofs::PassLaws::run_refused, refusals_machine::proofs::ReadyLaws::ready))]
pub fn run(
    head: ProgramHead,
    prologue: &[u32],
    body: &[u32],
    epilogue: &[u32],
    budget: u64,
    work: &mut [u8],
    table: &[u8],
) -> Result<u64, Refusal>
    ensures { ran result work.new ≡ running vector_bytes head prologue.now body.now epilogue.now budget work.old table.now }
{
    let width = refusals_machine::begin(head, prologue, body, epilogue, work, table)?;
    let run = Run {
        element: Element::from(width),
        budget,
        table,
    };
    let prologue = Section {
        entries: prologue,
        rows: head.prologue,
    };
    let body = Section {
        entries: body,
        rows: head.body,
    };
    let epilogue = Section {
        entries: epilogue,
        rows: head.epilogue,
    };
    run.sections(head.f, prologue, body, epilogue, work)
}
