// Lent tables of numbers: reading and writing their entries, and the rows of a node table, three entries each. Every function
// answers for tables of any length: an entry past the end reads as 0, and is not written.
#![tactic(auto)]

ghost use Rattle.std.specs.Prelude.{◌≡◌, [], length, get_or, set};
ghost use Rattle.rules.specs.Tables.{padded};
ghost use Rattle.rules.specs.Trees.{node_at};
ghost use Rattle.tables.specs.Rows.{row_at, row_put};

use rules::kinds::FrameKind;
use rules::nodes::{LoadAt, Node, ShiftBy};
use rules::sheet::Row;
use rules::units::ByteOffset;

// Entries of a row of the node table.
const ROW_ENTRIES: usize = 3;

// Sets every entry to 0.
pub fn clear(table: &mut [u64])
    ensures { table.new ≡ padded (length table.old) [] }
{
    table.fill(0);
}

pub fn entry(table: &[u64], i: usize) -> u64
    ensures { result ≡ get_or table.now i 0 }
{
    table.get(i).copied().unwrap_or(0)
}

pub fn put(table: &mut [u64], i: usize, value: u64)
    ensures { table.new ≡ set table.old i value }
{
    if i < table.len() {
        table[i] = value;
    }
}

// Row k of a node table. A k of one byte keeps its entries' numbers small.
pub fn row_at(table: &[u64], k: u8) -> Row
    ensures { result ≡ row_at table.now k }
{
    let at = ROW_ENTRIES * (k as usize);
    let kind = entry(table, at);
    let x = entry(table, at + 1);
    let y = entry(table, at + 2);
    Row { kind, x, y }
}

pub fn put_row(table: &mut [u64], k: u8, row: Row)
    ensures { table.new ≡ row_put table.old k row }
{
    let at = ROW_ENTRIES * (k as usize);
    put(table, at, row.kind);
    put(table, at + 1, row.x);
    put(table, at + 2, row.y);
}

// The node of row k. An unknown kind, which no checked table has, stands for a splat of 0.
#[tactic(auto, unfolding(rules::specs::Trees::node_at))]
pub fn node_at(table: &[u64], k: u8) -> Node
    ensures { result ≡ node_at table.now k }
{
    let row = row_at(table, k);
    match FrameKind::try_from(row.kind) {
        Ok(FrameKind::Load) => Node::Load(LoadAt {
            window: row.x,
            address: ByteOffset(row.y),
        }),
        Ok(FrameKind::Splat) => Node::Splat(row.x),
        Ok(FrameKind::Op) => Node::Op(row.x),
        Ok(FrameKind::Shift) => Node::Shift(ShiftBy {
            from: ByteOffset(row.x),
            to: ByteOffset(row.y),
        }),
        _ => Node::Splat(0),
    }
}
