// The one-step call: a bare sheet is placed by a rule and translated at once. It is judged first, 5 to 9 on the bare sheet and its
// lines; then it is placed into tables of the call's own, and those are translated.
#![tactic(auto)]

ghost use Rattle.std.specs.Prelude.{◌≡◌};
ghost use Rattle.rules.specs.Limits.{vector_bytes};
ghost use Rattle.rules.specs.Calls.{planning};
ghost use Rattle.planning.specs.Planning.{plan_given};

use rules::answers::Refusal;
use rules::limits::{HEAD_ENTRIES, NODE_ENTRIES};
use rules::program::ProgramHead;

// Plans a bare sheet for windows of so many bytes. ROOM leaves the sections as they are; another refusal leaves them all zero.
pub fn plan(
    rule: u64,
    head: &[u64],
    nodes: &[u64],
    work_len: u64,
    table_len: u64,
    prologue: &mut [u32],
    body: &mut [u32],
    epilogue: &mut [u32],
) -> Result<ProgramHead, Refusal>
    ensures { plan_given result prologue.new body.new epilogue.new ≡ planning vector_bytes rule head.now nodes.now work_len table_len prologue.old body.old epilogue.old }
{
    if let Err(refusal) = refusals_planning::judge(
        rule, head, nodes, work_len, table_len, prologue, body, epilogue,
    ) {
        translating_rows::refuse(refusal, prologue, body, epilogue);
        return Err(refusal);
    }
    let mut placed_head = [0u64; HEAD_ENTRIES];
    let mut placed_nodes = [0u64; NODE_ENTRIES];
    placing::place(rule, head, nodes, &mut placed_head, &mut placed_nodes)?;
    translating::translate(
        &placed_head,
        &placed_nodes,
        work_len,
        table_len,
        prologue,
        body,
        epilogue,
    )
}
