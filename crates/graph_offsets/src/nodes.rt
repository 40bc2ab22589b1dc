// The nodes in their order, each with its offset: a node's inputs come before it.
ghost use Rattle.std.specs.Prelude.{◌≡◌, ◌<◌};
ghost use Rattle.rules.specs.Checks.{line};
ghost use Rattle.graph.specs.Linking.{tree};
ghost use Rattle.graph_offsets.specs.Judging.{judged, Known, NodesFound};

use crate::pairs::{agree, is_at, join};
use graph::{LinkedNode, Links, ROWS};
use rules::answers::Refusal;
use rules::limits::{FIRST_NODE_LINE, V};
use rules::nodes::Offset;
use rules::units::ByteOffset;

// The rule and the offset of node k, from the offsets before it: "An op's inputs must agree"; "A shift's child must have a defined
// offset equal to from; the shift's is to."
#[tactic(auto, using(crate::proofs::JudgeLaws::load_judged, crate::proofs::JudgeLaws::splat_judged, crate::proofs::JudgeLaws::op_kept, crate::proofs::JudgeLaws::op_broken, crate::proofs::JudgeLaws::shift_kept, crate::proofs::JudgeLaws::shift_broken), unfolding(crate::specs::Judging::Known))]
fn judge_node(links: &Links, offsets: &[Offset; ROWS], k: u8) -> Result<Offset, Refusal>
    requires counted { k < links.now.count }
    requires known { Known links.now.rows k offsets.now }
    ensures { result ≡ judged (tree links.now.rows k) (line k) }
{
    let broken = Err(Refusal::Offset((k as u64) + FIRST_NODE_LINE));
    match links.node(k) {
        LinkedNode::Load(from) => Ok(Offset::At(ByteOffset(from.address.0 % V))),
        LinkedNode::Splat(_) => Ok(Offset::Undefined),
        LinkedNode::Op { left, right, .. } => {
            let one = offsets[left as usize];
            let other = offsets[right as usize];
            if agree(one, other) {
                Ok(join(one, other))
            } else {
                broken
            }
        }
        LinkedNode::Shift { by, child } => {
            if is_at(offsets[child as usize], by.from) {
                Ok(Offset::At(by.to))
            } else {
                broken
            }
        }
    }
}

// The rules of all nodes in their order, and the root's offset.
pub(crate) fn judge_nodes(links: &Links) -> Result<Offset, Refusal>
    ensures { NodesFound links.now.rows links.now.count result }
{
    let mut offsets = [Offset::Undefined; ROWS];
    for k in 0..links.count() {
        let offset = judge_node(links, &offsets, k)?;
        offsets[k as usize] = offset;
    }
    Ok(offsets[links.root() as usize])
}
