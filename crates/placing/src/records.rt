// The nodes of a bare sheet as a rule moves them, each with the offset that its placed tree has. A node's inputs come before it,
// so one pass in the order of the table knows them all.
ghost use Rattle.std.specs.Prelude.{◌≡◌, ◌+◌, ◌≤◌, ◌<◌};
ghost use Rattle.rules.specs.Limits.{vector_bytes, nodes_most};
ghost use Rattle.rules.specs.Trees.{node_at};
ghost use Rattle.graph.specs.Links.{left_in, lefts, Linked};
ghost use Rattle.placing.specs.Moves.{meeting_at, op_offset};
ghost use Rattle.placing.specs.Records.{record_of, Recorded};

use graph::ROWS;
use graph_offsets::{agree, join};
use placing_targets::Moves;
use rules::limits::V;
use rules::nodes::{Node, NodeRecord, Offset};
use rules::units::ByteOffset;

// The nodes' records, where each op's left input is, and what the rule moves.
#[derive(Drop)]
pub(crate) struct MovedNodes {
    pub(crate) records: [NodeRecord; ROWS],
    pub(crate) lefts: [u8; ROWS],
    pub(crate) moves: Moves,
}

// Where the two inputs of an op go: nowhere if they agree, else to where they meet.
pub(crate) fn meeting_at(meeting: ByteOffset, left: Offset, right: Offset) -> Offset
    ensures { result ≡ meeting_at meeting.0 left right }
{
    if agree(left, right) {
        Offset::Undefined
    } else {
        Offset::At(meeting)
    }
}

// An op's offset: where its inputs meet, or else the one that they agree on.
fn op_offset(meeting: ByteOffset, left: Offset, right: Offset) -> Offset
    ensures { result ≡ op_offset meeting.0 left right }
{
    let to = meeting_at(meeting, left, right);
    let agreed = join(left, right);
    join(to, agreed)
}

impl MovedNodes {
    // The record of node k, from those before it.
    #[tactic(auto, using(crate::proofs::RecordLaws::recording))]
    fn record_at(&self, nodes: &[u64], k: u8) -> NodeRecord
        requires k_lt_nodes_most { k < nodes_most }
        requires linked { Linked (node_at nodes.now) (left_in self.now.lefts) (k + 1) }
        requires recorded { Recorded vector_bytes self.now nodes.now k }
        ensures { result ≡ record_of vector_bytes self.now.moves nodes.now k }
    {
        let node = tables::node_at(nodes, k);
        let offset = match node {
            Node::Load(load) => join(self.moves.loads, Offset::At(ByteOffset(load.address.0 % V))),
            Node::Splat(_) => Offset::Undefined,
            Node::Op(_) => {
                let at = k as usize;
                let left = self.records[self.lefts[at] as usize].offset;
                let right = self.records[at - 1].offset;
                op_offset(self.moves.meeting, left, right)
            }
            Node::Shift(shift) => Offset::At(shift.to),
        };
        NodeRecord { node, offset }
    }

    // Of the first so many nodes of a table.
    #[tactic(auto, using(crate::proofs::RecordLaws::all_recorded))]
    pub(crate) fn new(nodes: &[u64], moves: Moves, count: u8) -> Self
        requires count_le_nodes_most { count ≤ nodes_most }
        requires linked { Linked (node_at nodes.now) (left_in (lefts (node_at nodes.now) nodes_most)) count }
        ensures moves_kept { result.moves ≡ moves }
        ensures inputs { result.lefts ≡ lefts (node_at nodes.now) nodes_most }
        ensures recorded { Recorded vector_bytes result nodes.now count }
    {
        let none = NodeRecord {
            node: Node::Splat(0),
            offset: Offset::Undefined,
        };
        let mut made = MovedNodes {
            records: [none; ROWS],
            lefts: graph::left_inputs(nodes),
            moves,
        };
        for k in 0..count {
            made.records[k as usize] = made.record_at(nodes, k);
        }
        made
    }
}
