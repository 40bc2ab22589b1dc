// The nodes' lines in their order: the first of which a test says yes.
ghost use Rattle.tables.specs.Rows.{row_at};
ghost use Rattle.graph_lines.specs.Lines.{FirstLine};

use graph::Header;
use rules::limits::FIRST_NODE_LINE;
use rules::sheet::Row;

// The line of the first node that is at fault, by its row and its number.
#[tactic(auto, unfolding(crate::specs::Lines::FirstLine))]
pub(crate) fn first_at_fault<F: Fn(Row, u8) -> bool>(
    head: Header,
    nodes: &[u64],
    at_fault: F,
) -> Option<u64>
    requires { F.IsAlwaysCallable at_fault }
    ensures { FirstLine (λ k yes. F.post at_fault (row_at nodes.now k) k yes) head.count result }
{
    for k in 0..head.count {
        if at_fault(tables::row_at(nodes, k), k) {
            return Some((k as u64) + FIRST_NODE_LINE);
        }
    }
    None
}
