// The rows of the placed tree, written in postfix order by recursion on node numbers: a node's inputs come before it.
ghost use Rattle.std.specs.Prelude.{◌≡◌, ◌+◌};
ghost use Rattle.rules.specs.Limits.{vector_bytes};
ghost use Rattle.placing.specs.Writing.{entries_of, row_of, shift_row, HasRoom, Wrote};
ghost use Rattle.placing.specs.Records.{Ready, moved_rows};

use crate::records::{MovedNodes, meeting_at};
use rules::kinds::FrameKind;
use rules::limits::V;
use rules::nodes::{Node, NodeRecord, Offset, ShiftBy};
use rules::sheet::Row;
use rules::units::ByteOffset;

// A node table, and the row that is written next.
#[derive(Drop)]
pub(crate) struct Writer<'a> {
    pub(crate) table: &'a mut [u64],
    pub(crate) row: u8,
}

impl<'a> Writer<'a> {
    pub(crate) fn new(table: &'a mut [u64]) -> Writer<'a>
        ensures same_table { result.table.ghost_name ≡ table.entry.ghost_name }
        ensures entries { result.table.now ≡ table.old }
        ensures first_row { result.row ≡ 0 }
    {
        Writer { table, row: 0 }
    }

    // A node's row.
    fn put(&mut self, node: Node)
        requires { HasRoom self.old (row_of node) }
        ensures { Wrote self.old (row_of node) self.new }
    {
        tables::put_row(self.table, self.row, row_of(node));
        self.row += 1;
    }

    // A shift's row, where both offsets are defined and differ.
    fn shift(&mut self, here: Offset, to: Offset)
        requires { HasRoom self.old (shift_row here to) }
        ensures { Wrote self.old (shift_row here to) self.new }
    {
        let (Offset::At(from), Offset::At(to)) = (here, to) else {
            return;
        };
        if from != to {
            self.put(Node::Shift(ShiftBy { from, to }));
        }
    }
}

// The row that a node is read from.
fn row_of(node: Node) -> Row
    ensures { entries_of result ≡ row_of node }
{
    let (kind, x, y) = match node {
        Node::Load(load) => (FrameKind::Load, load.window, load.address.0),
        Node::Splat(value) => (FrameKind::Splat, value, 0),
        Node::Op(operation) => (FrameKind::Op, operation, 0),
        Node::Shift(shift) => (FrameKind::Shift, shift.from.0, shift.to.0),
    };
    Row {
        kind: kind.number(),
        x,
        y,
    }
}

// The rows of node k's placed tree, and then a shift if it has to go elsewhere.
#[tactic(auto, using(crate::proofs::RowLaws::writing))]
pub(crate) fn write(sheet: &MovedNodes, k: u8, to: Offset, rows: &mut Writer)
    requires ready { Ready vector_bytes sheet.now (k + 1) }
    requires room { HasRoom rows.old (moved_rows vector_bytes sheet.now k to) }
    ensures { Wrote rows.old (moved_rows vector_bytes sheet.now k to) rows.new }
{
    let at = k as usize;
    let NodeRecord { node, offset } = sheet.records[at];
    match node {
        Node::Load(load) => {
            let stands = Offset::At(ByteOffset(load.address.0 % V));
            rows.put(node);
            rows.shift(stands, sheet.moves.loads);
        }
        Node::Splat(_) => rows.put(node),
        Node::Op(_) => {
            let left = sheet.lefts[at];
            let right = k - 1;
            let x = sheet.records[left as usize].offset;
            let y = sheet.records[right as usize].offset;
            let meet = meeting_at(sheet.moves.meeting, x, y);
            write(sheet, left, meet, rows);
            write(sheet, right, meet, rows);
            rows.put(node);
        }
        // A bare sheet has none.
        Node::Shift(_) => unreachable!(),
    }
    rows.shift(offset, to);
}
