// Several texts in one input, as `edges` reads them: a case begins at a dash, its name goes to the next line feed, and its text from
// there to the next dash or the end.
ghost use Rattle.std.specs.Prelude.{◌≡◌, ◌==◌, ◌<◌, ◌≤◌, length, IfSome};
ghost use Rattle.std.specs.List.{position};
ghost use Rattle.printing.specs.Cases.{found, text_start, case_at};

use rules::limits::LINE_FEED;

const DASH: u8 = b'-';

// Where a case's text starts, and the place past it.
#[derive(Clone, Copy, PartialEq, Eq)]
pub struct Case {
    pub start: usize,
    pub past: usize,
}

// How many others stand before a byte.
fn passed(byte: u8, bytes: &[u8]) -> Option<usize>
    ensures { result ≡ position (λ b. b == byte) bytes.now }
{
    bytes.iter().position(|b| *b == byte)
}

// Where a byte stands first, from a place on.
fn place_of(byte: u8, input: &[u8], from: usize) -> Option<usize>
    ensures { result ≡ found byte input.now «from» }
{
    let passed = passed(byte, input.get(from..)?)?;
    Some(from + passed)
}

// Where the text of a case starts, whose dash is at a place.
fn text_start(input: &[u8], dash: usize) -> usize
    ensures { result ≡ text_start input.now dash }
{
    match place_of(LINE_FEED, input, dash) {
        Some(feed) => feed + 1,
        None => input.len(),
    }
}

// The next case from a place on. It lies within the input, and its text further on.
pub fn case_at(input: &[u8], from: usize) -> Option<Case>
    ensures value { result ≡ case_at input.now «from» }
    ensures within { IfSome result (λ c. («from» < c.start) × (c.start ≤ c.past) × (c.past ≤ length input.now)) }
{
    let dash = place_of(DASH, input, from)?;
    let start = text_start(input, dash);
    let past = place_of(DASH, input, start).unwrap_or(input.len());
    Some(Case { start, past })
}
