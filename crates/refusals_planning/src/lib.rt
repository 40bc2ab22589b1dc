// Whether a bare sheet can be planned: the one-step call's refusals, in their order. Each check is another crate's; here they are
// put in order. After them neither OFFSET nor LONG is ever given, so the placed graph is not judged here.
#![tactic(auto)]

ghost use Rattle.std.specs.Prelude.{◌≡◌, IfOk};
ghost use Rattle.rules.specs.Limits.{vector_bytes};
ghost use Rattle.rules.specs.Answers.{first, of_result};
ghost use Rattle.rules.specs.Kinds.{rule_number};
ghost use Rattle.rules.specs.Calls.{bare_checks};
ghost use Rattle.graph.specs.Headers.{graph_in};
ghost use Rattle.refusals_planning.specs.Judging.{tables_short, line_checks};

use graph::Header;
use rules::answers::Refusal;
use rules::kinds::Rule;
use rules::limits::{HEAD_ENTRIES, NODE_ENTRIES, SECTION_ENTRIES};

fn tables_short(
    head: &[u64],
    nodes: &[u64],
    prologue: &[u32],
    body: &[u32],
    epilogue: &[u32],
) -> bool
    ensures { result ≡ tables_short head.now nodes.now prologue.now body.now epilogue.now }
{
    head.len() < HEAD_ENTRIES
        || nodes.len() < NODE_ENTRIES
        || prologue.len() < SECTION_ENTRIES
        || body.len() < SECTION_ENTRIES
        || epilogue.len() < SECTION_ENTRIES
}

// BARE, WINDOW, ALIGN, BOUNDS and CARRY.
#[tactic(auto, using(graph_lines::proofs::StepLaws::steps))]
fn judge_lines(header: Header, nodes: &[u64], work_len: u64, table_len: u64) -> Result<(), Refusal>
    ensures { of_result result ≡ first (line_checks work_len table_len (graph_in header nodes.now)) }
{
    graph_lines::bare(header, nodes)?;
    graph_lines::windows(work_len, table_len)?;
    graph_lines::align(header, nodes)?;
    graph_lines::bounds(header, nodes, work_len, table_len)?;
    graph_lines::carry(header, nodes)
}

// The first refusal: ROOM, a rule above 3, RANGE and SHAPE, then the lines.
pub fn judge(
    rule: u64,
    head: &[u64],
    nodes: &[u64],
    work_len: u64,
    table_len: u64,
    prologue: &[u32],
    body: &[u32],
    epilogue: &[u32],
) -> Result<Rule, Refusal>
    ensures result_value { of_result result ≡ first (bare_checks vector_bytes rule head.now nodes.now work_len table_len prologue.now body.now epilogue.now) }
    ensures rule_value { IfOk result (λ r. rule_number r ≡ rule) }
{
    if tables_short(head, nodes, prologue, body, epilogue) {
        return Err(Refusal::Room);
    }
    let rule = Rule::try_from(rule)?;
    graph::check(head, nodes)?;
    judge_lines(graph::header_of(head), nodes, work_len, table_len)?;
    Ok(rule)
}
