// What one line after the header does: LINE, then RANGE, then SHAPE, or reading goes on.
ghost use Rattle.std.specs.Prelude.{◌≡◌};
ghost use Rattle.rules.specs.Units.{width_bytes};
ghost use Rattle.rules.specs.Reading.{node_line, end_line, line_at};
ghost use Rattle.sheet.specs.Cursors.{Reached};

use rules::answers::Refusal;
use rules::kinds::FrameKind;
use rules::limits::NODES;
use rules::sheet::{Cursor, Fields, NodeRead, Row};
use rules::units::Width;

// A node frame: what it takes of those that wait is gone, and it waits itself.
fn node_line(width: Width, here: Cursor, f: Fields) -> Result<Option<NodeRead>, Refusal>
    requires { Reached here }
    ensures { result ≡ node_line (width_bytes width) here f }
{
    if !ranges::row_ok(width, f.kind, f.x, f.y) {
        return Err(Refusal::Range(here.line));
    }
    let taken = ranges::takes(f.kind);
    if here.waiting < taken || NODES <= here.count {
        return Err(Refusal::Shape(here.line));
    }
    Ok(Some(NodeRead {
        row: Row {
            kind: f.kind,
            x: f.x,
            y: f.y,
        },
        there: Cursor {
            at: f.next,
            line: here.line + 1,
            count: here.count + 1,
            waiting: here.waiting - taken + 1,
        },
    }))
}

// The end frame; text after it is at fault on the next line.
#[tactic(auto, unfolding(rules::specs::Reading::end_line))]
fn end_line(text: &[u8], here: Cursor, f: Fields) -> Result<Option<NodeRead>, Refusal>
    requires { Reached here }
    ensures { result ≡ end_line text.now here f }
{
    if f.x != here.count || here.waiting != 1 {
        return Err(Refusal::Shape(here.line));
    }
    if f.next < text.len() as u64 {
        return Err(Refusal::Line(here.line + 1));
    }
    Ok(None)
}

pub(crate) fn line_at(text: &[u8], width: Width, here: Cursor) -> Result<Option<NodeRead>, Refusal>
    requires { Reached here }
    ensures { result ≡ line_at text.now (width_bytes width) here }
{
    let frame = sheet_frames::later_frame(text, here.at as u32).ok_or(Refusal::Line(here.line))?;
    if frame.kind == FrameKind::End.number() {
        end_line(text, here, frame)
    } else {
        node_line(width, here, frame)
    }
}
