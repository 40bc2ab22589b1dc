// Whether a graph can be translated: translating's refusals, in the order of their numbers. Each check is another crate's; here
// they are put in order.
#![tactic(auto)]

ghost use Rattle.std.specs.Prelude.{◌≡◌, ◌||◌};
ghost use Rattle.rules.specs.Limits.{vector_bytes};
ghost use Rattle.rules.specs.Answers.{first, of_result};
ghost use Rattle.rules.specs.Checks.{section_short};
ghost use Rattle.rules.specs.Calls.{translate_answer};
ghost use Rattle.graph.specs.Headers.{graph_in};
ghost use Rattle.refusals_translating.specs.Judging.{address_checks, size_check};

use graph::Header;
use rules::answers::Refusal;
use rules::limits::SECTION_ENTRIES;

const LONG_MOST: u64 = 1020;

fn sections_short(prologue: &[u32], body: &[u32], epilogue: &[u32]) -> bool
    ensures { result ≡ (section_short prologue.now || section_short body.now || section_short epilogue.now) }
{
    prologue.len() < SECTION_ENTRIES
        || body.len() < SECTION_ENTRIES
        || epilogue.len() < SECTION_ENTRIES
}

// WINDOW, ALIGN, BOUNDS and CARRY.
#[tactic(auto, using(graph_lines::proofs::StepLaws::steps))]
fn judge_addresses(
    header: Header,
    nodes: &[u64],
    work_len: u64,
    table_len: u64,
) -> Result<(), Refusal>
    ensures { of_result result ≡ first (address_checks (graph_in header nodes.now) work_len table_len) }
{
    graph_lines::windows(work_len, table_len)?;
    graph_lines::align(header, nodes)?;
    graph_lines::bounds(header, nodes, work_len, table_len)?;
    graph_lines::carry(header, nodes)
}

// LONG, by the graph's size.
#[tactic(auto, using(crate::proofs::JudgeLaws::size_refused, crate::proofs::JudgeLaws::size_passed))]
fn judge_size(head: &[u64], nodes: &[u64]) -> Result<(), Refusal>
    ensures { of_result result ≡ size_check head.now nodes.now }
{
    if LONG_MOST < graph_size::size(head, nodes) {
        return Err(Refusal::Long);
    }
    Ok(())
}

// The first refusal, ROOM before all others.
#[tactic(auto, using(graph_lines::proofs::StepLaws::steps, crate::proofs::JudgeLaws::order))]
pub fn judge(
    head: &[u64],
    nodes: &[u64],
    work_len: u64,
    table_len: u64,
    prologue: &[u32],
    body: &[u32],
    epilogue: &[u32],
) -> Result<(), Refusal>
    ensures { of_result result ≡ translate_answer vector_bytes head.now nodes.now work_len table_len prologue.now body.now epilogue.now }
{
    if sections_short(prologue, body, epilogue) {
        return Err(Refusal::Room);
    }
    graph::check(head, nodes)?;
    judge_addresses(graph::header_of(head), nodes, work_len, table_len)?;
    graph_offsets::offset_check(head, nodes)?;
    judge_size(head, nodes)
}
