// Code of a tree (document 001, figure 7): expressions and shifts generate each other. A node's inputs have lower numbers, so
// the number falls.
ghost use Rattle.std.specs.Prelude.{◌≡◌, ◌+◌, ◌<◌};
ghost use Rattle.rules.specs.Limits.{vector_bytes};
ghost use Rattle.rules.specs.Trees.{shift};
ghost use Rattle.rules.specs.Code.{beside, code};
ghost use Rattle.graph.specs.Linking.{tree};
ghost use Rattle.translating.specs.Writing.{Wrote, Ready, blocks_most};

use graph::{LinkedNode, Links};
use rules::nodes::ShiftBy;
use rules::units::VectorNumber;
use translating_rows::Writer;

// What a shift's other copy has added to its addresses, in vectors: one more for next, one less for previous.
fn beside(by: ShiftBy, blocks: VectorNumber) -> VectorNumber
    requires { (0 < blocks.0) × (blocks.0 < blocks_most) }
    ensures { result.0 ≡ beside by.«from».0 by.to.0 blocks.0 }
{
    if by.to.0 < by.from.0 {
        VectorNumber(blocks.0 + 1)
    } else {
        VectorNumber(blocks.0 - 1)
    }
}

// Writes the code of node k's tree with so many vectors added to its addresses, and gives the register of its value. An op's left
// input is generated first.
#[cycle(gen_expr_gen_shift)]
pub(crate) fn gen_expr(links: &Links, k: u8, blocks: VectorNumber, writer: &mut Writer) -> u32
    requires known { k < links.now.count }
    requires ready { Ready (tree links.now.rows k) k blocks.0 writer.old.row writer.old.section.now }
    ensures same_section { writer.new.section.ghost_name ≡ writer.old.section.ghost_name }
    ensures written { Wrote writer.old writer.new (code vector_bytes (tree links.now.rows k) blocks.0 writer.old.row) }
    ensures register { result + 1 ≡ writer.new.row }
{
    match links.node(k) {
        LinkedNode::Load(from) => writer.load(from, blocks),
        LinkedNode::Splat(value) => writer.splat(value),
        LinkedNode::Op {
            operation,
            left,
            right,
        } => {
            let left_register = gen_expr(links, left, blocks, writer);
            let right_register = gen_expr(links, right, blocks, writer);
            writer.op(operation, left_register, right_register)
        }
        LinkedNode::Shift { by, child } => gen_shift(links, by, child, blocks, writer),
    }
}

// The code of a shift: its child twice, this first, then next or previous.
#[cycle(gen_expr_gen_shift)]
fn gen_shift(
    links: &Links,
    by: ShiftBy,
    child: u8,
    blocks: VectorNumber,
    writer: &mut Writer,
) -> u32
    requires known { child < links.now.count }
    requires ready { Ready (shift by.«from».0 by.to.0 (tree links.now.rows child)) (child + 1) blocks.0 writer.old.row writer.old.section.now }
    ensures same_section { writer.new.section.ghost_name ≡ writer.old.section.ghost_name }
    ensures written { Wrote writer.old writer.new (code vector_bytes (shift by.«from».0 by.to.0 (tree links.now.rows child)) blocks.0 writer.old.row) }
    ensures register { result + 1 ≡ writer.new.row }
{
    let moved = beside(by, blocks);
    let this = gen_expr(links, child, blocks, writer);
    let other = gen_expr(links, child, moved, writer);
    writer.pair(by, this, other)
}
