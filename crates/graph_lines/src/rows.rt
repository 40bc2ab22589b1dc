// 5 BARE: "place is the first line with a shift or a 32nd node".
ghost use Rattle.std.specs.Prelude.{◌≡◌, ◌||◌, eqb, leb};
ghost use Rattle.rules.specs.Limits.{bare_most};
ghost use Rattle.rules.specs.Frames.{shift_kind};
ghost use Rattle.rules.specs.Answers.{of_result};
ghost use Rattle.rules.specs.Checks.{bare_check};
ghost use Rattle.graph.specs.Headers.{graph_in};

use crate::lines::first_at_fault;
use graph::Header;
use rules::answers::Refusal;
use rules::limits::SHIFT_KIND;
use rules::sheet::Row;

const BARE_MOST: u8 = 31;

// A shift, or a 32nd node.
fn row_not_bare(row: Row, k: u8) -> bool
    ensures { result ≡ (eqb row.kind shift_kind || leb bare_most k) }
{
    row.kind == SHIFT_KIND || BARE_MOST <= k
}

pub fn bare(head: Header, nodes: &[u64]) -> Result<(), Refusal>
    ensures { of_result result ≡ bare_check (graph_in head nodes.now) }
{
    match first_at_fault(head, nodes, row_not_bare) {
        Some(line) => Err(Refusal::Bare(line)),
        None => Ok(()),
    }
}
