// The header, and with it a whole sheet into tables that are all zero.
ghost use Rattle.std.specs.Prelude.{◌≡◌, [], ◌∷◌, ◌≤◌, length};
ghost use Rattle.std.proofs.lemmas.List.Edits.{sets};
ghost use Rattle.rules.specs.Reading.{sheet_of, header_line};
ghost use Rattle.sheet.specs.Cursors.{line_bytes};
ghost use Rattle.sheet.specs.Left.{sheet_left, filled, Zeroed};

use crate::lines::read_lines;
use rules::answers::Refusal;
use rules::limits::{FIRST_NODE_LINE, HEAD_COUNT, HEAD_D, HEAD_N, HEAD_S, HEADER_LINE};
use rules::sheet::{Cursor, Fields};

// Writes D, n, S and the number of nodes.
fn put_head(head: &mut [u64], f: Fields, count: u64)
    ensures { head.new ≡ sets head.old 0 (f.x ∷ f.y ∷ f.z ∷ count ∷ []) }
{
    tables::put(head, HEAD_D, f.x);
    tables::put(head, HEAD_N, f.y);
    tables::put(head, HEAD_S, f.z);
    tables::put(head, HEAD_COUNT, count);
}

// A sheet whose line 1 is a header.
fn after_header(text: &[u8], f: Fields, head: &mut [u64], nodes: &mut [u64]) -> Result<(), Refusal>
    requires next_le_line_bytes { f.next ≤ line_bytes }
    requires zeroed { Zeroed head.old nodes.old }
    ensures { sheet_left result head.new nodes.new ≡ filled (length head.old) (length nodes.old) (header_line text.now f) }
{
    if !ranges::head_ok(f.x, f.y, f.z) {
        return Err(Refusal::Range(HEADER_LINE));
    }
    let first = Cursor {
        at: f.next,
        line: FIRST_NODE_LINE,
        count: 0,
        waiting: 0,
    };
    match read_lines(text, ranges::width_of(f.x), first, nodes) {
        Ok(count) => {
            put_head(head, f, count);
            Ok(())
        }
        Err(refusal) => {
            tables::clear(nodes);
            Err(refusal)
        }
    }
}

pub(crate) fn sheet(text: &[u8], head: &mut [u64], nodes: &mut [u64]) -> Result<(), Refusal>
    requires { Zeroed head.old nodes.old }
    ensures { sheet_left result head.new nodes.new ≡ filled (length head.old) (length nodes.old) (sheet_of text.now) }
{
    let header = sheet_frames::header_frame(text).ok_or(Refusal::Line(HEADER_LINE))?;
    after_header(text, header, head, nodes)
}
