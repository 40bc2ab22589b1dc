// The frame that stands at a place of the text: its kind byte, its fields and its line feed. Every text and every place of 32
// bits is answered for: past the end of the text there is no frame.
#![tactic(auto)]

mod digits;

ghost use Rattle.std.specs.Prelude.{◌≡◌, ◌≤◌, ◌<◌, ◌^◌, false};
ghost use Rattle.rules.specs.Frames.{digits, frame_of, frame_at};
ghost use Rattle.rules.specs.Kinds.{frame_number};
ghost use Rattle.sheet_frames.specs.Numbers.{digits_most, short, kind_at};
ghost use Rattle.sheet_frames.specs.Headers.{header_of, later_of};

use crate::digits::{digit, number};
use rules::kinds::FrameKind;
use rules::limits::LINE_FEED;
use rules::sheet::Fields;

// The digits of the kind byte.
const KIND: usize = 2;

// The first digit of every kind.
const ZERO: u8 = b'0';

// A frame whose fields have so many digits, one field after the other.
#[inline(always)]
fn frame<const X: usize, const Y: usize, const Z: usize>(
    text: &[u8],
    at: u32,
    kind: FrameKind,
) -> Option<Fields>
    requires x_le_digits_most { X ≤ digits_most }
    requires y_le_digits_most { Y ≤ digits_most }
    requires z_le_digits_most { Z ≤ digits_most }
    requires kind_digits { short text.now at 2 ≡ false }
    ensures { result ≡ frame_of text.now at (frame_number kind) (digits X Y Z) }
{
    let x = at as usize + KIND;
    let y = x + X;
    let z = y + Y;
    let end = z + Z;
    let feed = *text.get(end)?;
    if feed != LINE_FEED {
        return None;
    }
    Some(Fields {
        kind: kind.number(),
        x: number(&text[x..y])?,
        y: number(&text[y..z])?,
        z: number(&text[z..end])?,
        next: end as u64 + 1,
    })
}

// The kind that the kind byte at a place names, by its second digit.
fn kind_at(text: &[u8], place: u32) -> Option<FrameKind>
    ensures { result ≡ kind_at text.now place }
{
    let at = place as usize;
    let second = *text.get(at + 1)?;
    if text[at] != ZERO {
        return None;
    }
    let number = digit(second)?;
    FrameKind::try_from(number).ok()
}

// The table of frames: each kind's fields by how many digits they have.
#[inline(always)]
#[tactic(auto, using(crate::proofs::FrameLaws::no_kind, crate::proofs::FrameLaws::kind_digits))]
fn frame_at(text: &[u8], place: u32) -> Option<Fields>
    ensures { result ≡ frame_at text.now place }
{
    let kind = kind_at(text, place)?;
    match kind {
        FrameKind::Header => frame::<2, 4, 4>(text, place, kind),
        FrameKind::Load => frame::<2, 4, 0>(text, place, kind),
        FrameKind::Splat => frame::<16, 0, 0>(text, place, kind),
        FrameKind::Op => frame::<2, 0, 0>(text, place, kind),
        FrameKind::Shift => frame::<2, 2, 0>(text, place, kind),
        FrameKind::End => frame::<2, 0, 0>(text, place, kind),
    }
}

// A frame on a line after the first, which no header is.
pub fn later_frame(text: &[u8], place: u32) -> Option<Fields>
    ensures { result ≡ later_of (frame_at text.now place) }
{
    frame_at(text, place).filter(|f| f.kind != FrameKind::Header.number())
}

// The header on line 1, and no other frame.
pub fn header_frame(text: &[u8]) -> Option<Fields>
    ensures { result ≡ header_of (frame_at text.now 0) }
{
    frame_at(text, 0).filter(|f| f.kind == FrameKind::Header.number())
}
