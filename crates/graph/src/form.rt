// "Checked by 3 and 4 as if read": the header, then the rows in their order, then the end.
ghost use Rattle.std.specs.Prelude.{◌≡◌};
ghost use Rattle.rules.specs.Limits.{vector_bytes};
ghost use Rattle.rules.specs.Answers.{of_result};
ghost use Rattle.rules.specs.Tables.{graph_of};
ghost use Rattle.rules.specs.Checks.{form_check};
ghost use Rattle.graph.specs.Headers.{graph_in};
ghost use Rattle.graph.specs.Forms.{RowsFound, end_found};

use crate::headers::{Header, count_in, header_of, in_range};
use rules::answers::Refusal;
use rules::limits::{FIRST_NODE_LINE, HEADER_LINE, NODES};

// The rows in their order, on each RANGE before SHAPE: how many nodes wait after them.
#[tactic(auto, using(crate::proofs::RowChecks::row_range, crate::proofs::RowChecks::row_shape))]
fn judge_rows(head: Header, nodes: &[u64]) -> Result<u64, Refusal>
    ensures { RowsFound (graph_in head nodes.now) result }
{
    let mut waiting = 0;
    for k in 0..head.count {
        let line = (k as u64) + FIRST_NODE_LINE;
        let row = tables::row_at(nodes, k);
        if !ranges::row_ok(head.width, row.kind, row.x, row.y) {
            return Err(Refusal::Range(line));
        }
        let taken = ranges::takes(row.kind);
        if waiting < taken {
            return Err(Refusal::Shape(line));
        }
        waiting = waiting - taken + 1;
    }
    Ok(waiting)
}

// "a 65th node, not one waiting at the end"
#[tactic(auto, using(std::proofs::lemmas::Bool::Decides::nat_tests))]
fn judge_end(count: u64, waiting: u64) -> Result<(), Refusal>
    ensures { of_result result ≡ end_found count waiting }
{
    if NODES < count || waiting != 1 {
        return Err(Refusal::Shape(count.min(NODES) + FIRST_NODE_LINE));
    }
    Ok(())
}

#[tactic(auto, using(crate::proofs::HeaderLaws::head_refused, crate::proofs::HeaderLaws::rows_refused, crate::proofs::HeaderLaws::rows_waiting))]
pub(crate) fn form(head: &[u64], nodes: &[u64]) -> Result<(), Refusal>
    ensures { of_result result ≡ form_check vector_bytes (graph_of head.now nodes.now) }
{
    if !in_range(head) {
        return Err(Refusal::Range(HEADER_LINE));
    }
    let waiting = judge_rows(header_of(head), nodes)?;
    judge_end(count_in(head), waiting)
}
