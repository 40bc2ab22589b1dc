// A graph that passes its check, node by node: each with its inputs, whose numbers are lower. What is made of a graph's tree, a size,
// offsets, code, is made along these.
ghost use Rattle.std.specs.Prelude.{◌≡◌, ◌+◌, ◌≤◌, ◌<◌, get_or};
ghost use Rattle.rules.specs.Limits.{vector_bytes, nodes_most};
ghost use Rattle.rules.specs.Tables.{graph_of};
ghost use Rattle.theory.proofs.FormLaws.{Formed};
ghost use Rattle.graph.specs.NodeTables.{NodeTable};
ghost use Rattle.graph.specs.Linking.{NodeIs};

use crate::headers::header_of;
use crate::links::{ROWS, left_inputs};
use rules::nodes::{LoadAt, Node, ShiftBy};
use std::marker::Model;

// A node, and beside its own fields the numbers of its inputs.
#[derive(Clone, Copy)]
pub enum LinkedNode {
    Load(LoadAt),
    Splat(u64),
    Op { operation: u64, left: u8, right: u8 },
    Shift { by: ShiftBy, child: u8 },
}

// The rows of the nodes, the left input of each that is an op, and how many nodes there are.
#[derive(Drop)]
pub struct Links<'a> {
    nodes: &'a [u64],
    left: [u8; ROWS],
    count: u8,
}

impl<'a> Model for Links<'a> {
    ghost use Rattle.std.specs.Prelude.{◌<◌, ◌≤◌};
    ghost use Rattle.rules.specs.Limits.{nodes_most};
    ghost use Rattle.rules.specs.Trees.{node_at};
    ghost use Rattle.graph.specs.Links.{left_in, Linked};
    ghost use Rattle.graph.specs.NodeTables.{NodeTable};

    ghost Value = { NodeTable };

    ghost view = { λ l. record { rows = l.nodes.now; count = l.count } };

    ghost invariant = { λ l. (0 < l.count) × (l.count ≤ nodes_most) × Linked (node_at l.nodes.now) (left_in l.left) l.count };
}

impl<'a> Links<'a> {
    pub fn new(head: &[u64], nodes: &'a [u64]) -> Links<'a>
        requires { Formed vector_bytes (graph_of head.now nodes.now) }
        ensures { result ≡ record { rows = nodes.now; count = get_or head.now 3 0 } }
    {
        Links {
            nodes,
            left: left_inputs(nodes),
            count: header_of(head).count,
        }
    }

    // How many nodes there are.
    pub fn count(&self) -> u8
        ensures value { result ≡ self.now.count }
        ensures most { result ≤ nodes_most }
    {
        self.count
    }

    // The number of the last node.
    pub fn root(&self) -> u8
        ensures { result + 1 ≡ self.now.count }
    {
        self.count - 1
    }

    pub fn node(&self, k: u8) -> LinkedNode
        requires { k < self.now.count }
        ensures inputs { NodeIs self.now.rows k result }
        ensures most { k < nodes_most }
    {
        match tables::node_at(self.nodes, k) {
            Node::Load(from) => LinkedNode::Load(from),
            Node::Splat(value) => LinkedNode::Splat(value),
            Node::Op(operation) => LinkedNode::Op {
                operation,
                left: self.left[k as usize],
                right: k - 1,
            },
            Node::Shift(by) => LinkedNode::Shift { by, child: k - 1 },
        }
    }
}
