// Whether a sheet can be placed: what placing refuses, in its order. ROOM, a rule above 3, RANGE and SHAPE as if read, BARE, ALIGN.
#![tactic(auto)]

ghost use Rattle.std.specs.Prelude.{◌≡◌, ◌||◌, IfOk};
ghost use Rattle.rules.specs.Limits.{vector_bytes};
ghost use Rattle.rules.specs.Answers.{first, of_result};
ghost use Rattle.rules.specs.Kinds.{rule_number};
ghost use Rattle.rules.specs.Checks.{head_short, nodes_short};
ghost use Rattle.rules.specs.Calls.{place_answer};
ghost use Rattle.graph.specs.Headers.{graph_in};
ghost use Rattle.refusals_placing.specs.Judging.{tables_short, line_checks};

use graph::Header;
use rules::answers::Refusal;
use rules::kinds::Rule;
use rules::limits::{HEAD_ENTRIES, NODE_ENTRIES};

// Whether one of a sheet's two tables is too short.
fn too_short(head: &[u64], nodes: &[u64]) -> bool
    ensures { result ≡ (head_short head.now || nodes_short nodes.now) }
{
    head.len() < HEAD_ENTRIES || nodes.len() < NODE_ENTRIES
}

// Whether one of the four tables is.
fn lacks_room(head: &[u64], nodes: &[u64], placed_head: &[u64], placed_nodes: &[u64]) -> bool
    ensures { result ≡ tables_short head.now nodes.now placed_head.now placed_nodes.now }
{
    too_short(head, nodes) || too_short(placed_head, placed_nodes)
}

// The lines of a sheet that passes as if read: BARE, then ALIGN.
#[tactic(auto, using(graph_lines::proofs::StepLaws::steps))]
fn judge_lines(head: Header, nodes: &[u64]) -> Result<(), Refusal>
    ensures { of_result result ≡ first (line_checks (graph_in head nodes.now)) }
{
    graph_lines::bare(head, nodes)?;
    graph_lines::align(head, nodes)
}

// The first refusal of a rule and a sheet, and of the tables lent for the placed graph; else the rule by its name.
pub fn judge(
    rule: u64,
    head: &[u64],
    nodes: &[u64],
    placed_head: &[u64],
    placed_nodes: &[u64],
) -> Result<Rule, Refusal>
    ensures result_value { of_result result ≡ place_answer vector_bytes rule head.now nodes.now placed_head.now placed_nodes.now }
    ensures rule_value { IfOk result (λ r. rule_number r ≡ rule) }
{
    if lacks_room(head, nodes, placed_head, placed_nodes) {
        return Err(Refusal::Room);
    }
    let rule = Rule::try_from(rule)?;
    graph::check(head, nodes)?;
    judge_lines(graph::header_of(head), nodes)?;
    Ok(rule)
}
