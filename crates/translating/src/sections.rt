// The sections of a program: the tree, whose value is the new block, beside it the old block of the store stream, splices of
// the two, and the store. What each function writes is a section's definition, row by row.
ghost use Rattle.std.specs.Prelude.{◌≡◌, ◌+◌, ◌≤◌};
ghost use Rattle.rules.specs.Limits.{vector_bytes, elements_most};
ghost use Rattle.rules.specs.Units.{width_bytes};
ghost use Rattle.rules.specs.Code.{only_section, prologue_section, body_of, epilogue_of};
ghost use Rattle.translating.specs.Writing.{Written, Wrote, root_of, Roomy, Root, new_and_old};

use crate::counts::{byte_of_element, store_offset};
use crate::expressions::gen_expr;
use graph::Links;
use rules::limits::{BLOCK_ZERO, WORK};
use rules::nodes::LoadAt;
use rules::units::{ByteOffset, ElementNumber, VectorNumber, Width};
use translating_rows::Writer;

// "Body, if F ≥ 2".
const BODY_FROM: u64 = 2;

// The registers of the new block and of the old one.
#[derive(Clone, Copy)]
struct Blocks {
    new: u32,
    old: u32,
}

// The tree and, after it, the old block.
fn put_blocks(links: &Links, store: ByteOffset, writer: &mut Writer) -> Blocks
    requires { Root (root_of links.now) store.0 × Roomy writer.old.section.now × (writer.old.row ≡ 0) }
    ensures same_section { writer.new.section.ghost_name ≡ writer.old.section.ghost_name }
    ensures written { Wrote writer.old writer.new (new_and_old store.0 (root_of links.now)) }
    ensures new_register { result.new + 2 ≡ writer.new.row }
    ensures old_register { result.old + 1 ≡ writer.new.row }
{
    let zero = VectorNumber(BLOCK_ZERO);
    let new = gen_expr(links, links.root(), zero, writer);
    let block = LoadAt {
        window: WORK,
        address: store,
    };
    let old = writer.load(block, zero);
    Blocks { new, old }
}

// F = 0: of the new block only the stream's own bytes, from c to c + nD. How many rows it has.
pub(crate) fn put_only(
    links: &Links,
    store: ByteOffset,
    width: Width,
    elements: ElementNumber,
    section: &mut [u32],
) -> u32
    requires { Root (root_of links.now) store.0 × Roomy section.old × (elements.0 ≤ elements_most) }
    ensures { Written section.old section.new 0 result (only_section vector_bytes store.0 (root_of links.now) (width_bytes width) elements.0) }
{
    let mut writer = Writer::new(section);
    let blocks = put_blocks(links, store, &mut writer);
    let start = store_offset(store);
    let len = byte_of_element(width, elements);
    let end = ByteOffset(start.0 + len.0);
    let from_start = writer.splice(blocks.old, blocks.new, start);
    let to_end = writer.splice(from_start, blocks.old, end);
    writer.store(to_end, store);
    writer.row
}

// F ≥ 1: the new block from c on. How many rows it has.
pub(crate) fn put_prologue(links: &Links, store: ByteOffset, section: &mut [u32]) -> u32
    requires { Root (root_of links.now) store.0 × Roomy section.old }
    ensures { Written section.old section.new 0 result (prologue_section vector_bytes store.0 (root_of links.now)) }
{
    let mut writer = Writer::new(section);
    let blocks = put_blocks(links, store, &mut writer);
    let from_start = writer.splice(blocks.old, blocks.new, store_offset(store));
    writer.store(from_start, store);
    writer.row
}

// The whole new block, if there are passes for it. How many rows it has.
pub(crate) fn put_body(
    links: &Links,
    store: ByteOffset,
    full: VectorNumber,
    section: &mut [u32],
) -> u32
    requires { Root (root_of links.now) store.0 × Roomy section.old }
    ensures { Written section.old section.new 0 result (body_of vector_bytes store.0 (root_of links.now) full.0) }
{
    if full.0 < BODY_FROM {
        return 0;
    }
    let mut writer = Writer::new(section);
    let new = gen_expr(links, links.root(), VectorNumber(BLOCK_ZERO), &mut writer);
    writer.store(new, store);
    writer.row
}

// The first eD bytes of the new block, if there are elements left. How many rows it has.
pub(crate) fn put_epilogue(
    links: &Links,
    store: ByteOffset,
    width: Width,
    rest: ElementNumber,
    section: &mut [u32],
) -> u32
    requires { Root (root_of links.now) store.0 × Roomy section.old × (rest.0 ≤ elements_most) }
    ensures { Written section.old section.new 0 result (epilogue_of vector_bytes (width_bytes width) store.0 (root_of links.now) rest.0) }
{
    if rest.0 == 0 {
        return 0;
    }
    let mut writer = Writer::new(section);
    let blocks = put_blocks(links, store, &mut writer);
    let to_end = writer.splice(blocks.new, blocks.old, byte_of_element(width, rest));
    writer.store(to_end, store);
    writer.row
}
