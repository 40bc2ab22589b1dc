// G, the number of instructions of a graph's tree, counted no further than LONG needs it: 64 nodes can have 2^64 - 1.
#![tactic(auto)]

ghost use Rattle.std.specs.Prelude.{◌≡◌, ◌<◌};
ghost use Rattle.rules.specs.Code.{G};
ghost use Rattle.graph.specs.Linking.{tree};
ghost use Rattle.graph_size.specs.Sizing.{capped, size_of};

use graph::{LinkedNode, Links};

// "G above 1,020" is LONG, and so is all that this stands for.
const CAP: u64 = 1021;

// The size of the tree that ends at node k.
#[tactic(auto, using(crate::proofs::SizeLaws::capped_most, crate::proofs::SizeLaws::load_size, crate::proofs::SizeLaws::splat_size, crate::proofs::SizeLaws::op_size, crate::proofs::SizeLaws::shift_size))]
fn node_size(links: &Links, k: u8) -> u64
    requires { k < links.now.count }
    ensures { result ≡ capped (G (tree links.now.rows k)) }
{
    match links.node(k) {
        LinkedNode::Load(_) => 1,
        LinkedNode::Splat(_) => 1,
        LinkedNode::Op { left, right, .. } => {
            let one = node_size(links, left);
            let other = node_size(links, right);
            let both = one + other + 1;
            both.min(CAP)
        }
        LinkedNode::Shift { child, .. } => {
            let one = node_size(links, child);
            let both = one + one + 1;
            both.min(CAP)
        }
    }
}

// The size of a graph handed over as tables: of a graph that passes its check the capped G, of any other 0.
#[tactic(auto, using(theory::proofs::Firsts::checked_formed, crate::proofs::SizeLaws::root_size))]
pub fn size(head: &[u64], nodes: &[u64]) -> u64
    ensures { result ≡ size_of head.now nodes.now }
{
    let Ok(()) = graph::check(head, nodes) else {
        return 0;
    };
    let links = Links::new(head, nodes);
    node_size(&links, links.root())
}
