// A printed line: ten bytes as upper-case hexadecimal, and a line feed.
ghost use Rattle.std.specs.Prelude.{◌≡◌, [], ◌∷◌, ◌++◌, ◌+◌, ◌*◌, ◌≤◌, ◌<◌, length};
ghost use Rattle.std.proofs.lemmas.List.Edits.{sets};
ghost use Rattle.rules.specs.Printing.{digit_byte, hex, line_feed, line_bytes, line};
ghost use Rattle.printing.specs.Lines.{line_length};

use rules::limits::LINE_FEED;
use rules::printing::Figures;

const RADIX: u8 = 16;

const TEN: u8 = 10;

#[tactic(auto, unfolding(rules::specs::Printing::digit_byte))]
fn digit_byte(digit: u8) -> u8
    requires { digit < 16 }
    ensures { result ≡ digit_byte digit }
{
    if digit < TEN {
        b'0' + digit
    } else {
        b'A' + (digit - TEN)
    }
}

// The fields in their order, the most significant byte first.
fn line_bytes(label: u64, f: Figures) -> [u8; 10]
    ensures { result ≡ line_bytes label f }
{
    let [.., label] = label.to_be_bytes();
    let [.., answer] = f.answer.to_be_bytes();
    let [.., place] = f.place.to_be_bytes();
    let [.., shifts] = f.shifts.to_be_bytes();
    let [.., size_1, size_0] = f.size.to_be_bytes();
    let [.., steps_3, steps_2, steps_1, steps_0] = f.steps.to_be_bytes();
    [
        label, answer, place, shifts, size_1, size_0, steps_3, steps_2, steps_1, steps_0,
    ]
}

// Writes bytes as digits from a place on, and a line feed after them.
fn put_hex(out: &mut [u8], at: usize, said: &[u8])
    requires { at + 2 * length said.now < length out.old }
    ensures { out.new ≡ sets out.old at (hex said.now ++ (line_feed ∷ [])) }
{
    for (i, byte) in said.iter().enumerate() {
        let here = at + 2 * i;
        out[here] = digit_byte(*byte / RADIX);
        out[here + 1] = digit_byte(*byte % RADIX);
    }
    out[at + 2 * said.len()] = LINE_FEED;
}

pub(crate) fn put_line(out: &mut [u8], at: usize, label: u64, f: Figures)
    requires { at + line_length ≤ length out.old }
    ensures { out.new ≡ sets out.old at (line label f) }
{
    put_hex(out, at, &line_bytes(label, f));
}
