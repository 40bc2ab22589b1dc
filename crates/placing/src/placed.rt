// The placed graph handed back: its rows and its head, the unused entries zero.
ghost use Rattle.std.specs.Prelude.{◌≡◌, ◌*◌, ◌≤◌, length};
ghost use Rattle.rules.specs.Limits.{vector_bytes, nodes_most, head_entries, row_entries};
ghost use Rattle.rules.specs.Kinds.{rule_number};
ghost use Rattle.rules.specs.Tables.{padded, graph_of, head_of};
ghost use Rattle.rules.specs.Calls.{placed_graph};
ghost use Rattle.graph.specs.Headers.{graph_in};
ghost use Rattle.placing.specs.Handing.{BareSheet, head_with, RowsPlaced};

use crate::records::MovedNodes;
use crate::rows::{Writer, write};
use graph::Header;
use placing_targets::moves_by;
use rules::kinds::Rule;
use rules::limits::{HEAD_COUNT, HEAD_D, HEAD_N, HEAD_S, V};
use rules::nodes::Offset;
use rules::units::ByteOffset;

// The rows of the placed tree; how many there are.
fn put_rows(rule: Rule, head: Header, nodes: &[u64], placed_nodes: &mut [u64]) -> u8
    requires bare_sheet { BareSheet (graph_in head nodes.now) }
    requires nodes_most_in_bounds { row_entries * nodes_most ≤ length placed_nodes.old }
    ensures { RowsPlaced (rule_number rule) (graph_in head nodes.now) placed_nodes.old placed_nodes.new result }
{
    let moves = moves_by(rule, head, nodes);
    let sheet = MovedNodes::new(nodes, moves, head.count);
    let c = ByteOffset(head.store.0 % V);
    tables::clear(placed_nodes);
    let mut rows = Writer::new(placed_nodes);
    write(&sheet, head.count - 1, Offset::At(c), &mut rows);
    rows.row
}

// The header's fields as they were, and the number of nodes.
#[tactic(auto, using(crate::proofs::HandingLaws::head_handed))]
fn put_head(head: &[u64], count: u8, placed_head: &mut [u64])
    requires { head_entries ≤ length placed_head.old }
    ensures { placed_head.new ≡ padded (length placed_head.old) (head_with head.now count) }
{
    tables::clear(placed_head);
    tables::put(placed_head, HEAD_D, tables::entry(head, HEAD_D));
    tables::put(placed_head, HEAD_N, tables::entry(head, HEAD_N));
    tables::put(placed_head, HEAD_S, tables::entry(head, HEAD_S));
    tables::put(placed_head, HEAD_COUNT, count as u64);
}

pub(crate) fn hand_back(
    rule: Rule,
    head: &[u64],
    nodes: &[u64],
    placed_head: &mut [u64],
    placed_nodes: &mut [u64],
)
    requires bare_sheet { BareSheet (graph_of head.now nodes.now) }
    requires head_entries_in_bounds { (head_entries ≤ length placed_head.old) × (row_entries * nodes_most ≤ length placed_nodes.old) }
    ensures placed_head_after { placed_head.new ≡ padded (length placed_head.old) (head_of (placed_graph vector_bytes (rule_number rule) (graph_of head.now nodes.now))) }
    ensures placed_nodes_after { placed_nodes.new ≡ padded (length placed_nodes.old) (placed_graph vector_bytes (rule_number rule) (graph_of head.now nodes.now)).nodes }
{
    let header = graph::header_of(head);
    let count = put_rows(rule, header, nodes, placed_nodes);
    put_head(head, count, placed_head);
}
