// What the programs `places` and `edges` print, as functions on slices (document 01, "The program `places`"): the four lines of a
// text, and the line of the graph as it is drawn.
#![tactic(auto)]

mod cases;
mod figures;
mod lines;

ghost use Rattle.std.specs.Prelude.{◌≡◌, take};
ghost use Rattle.rules.specs.Limits.{text_most};
ghost use Rattle.rules.specs.Calls.{reading};
ghost use Rattle.rules.specs.Printing.{printed, drawn};
ghost use Rattle.sheet.specs.Left.{sheet_left};

pub use cases::{Case, case_at};
use figures::told;
use rules::answers::Refusal;
use rules::limits::{HEAD_ENTRIES, NODE_ENTRIES, TEXT_MOST};

const RULES: usize = 4;

// Twenty digits and a line feed.
const LINE: usize = 21;

// The label of the drawn line: FF.
const DRAWN: u64 = 255;

// Reads the first bytes of a text.
fn read_start(text: &[u8], head: &mut [u64], nodes: &mut [u64]) -> Result<(), Refusal>
    ensures { sheet_left result head.new nodes.new ≡ reading (take text_most text.now) head.old nodes.old }
{
    let most = text.len().min(TEXT_MOST);
    sheet::read(&text[..most], head, nodes)
}

// The four lines of `places`.
pub fn places(text: &[u8]) -> [u8; 84]
    ensures { result ≡ printed text.now }
{
    let mut head = [0u64; HEAD_ENTRIES];
    let mut nodes = [0u64; NODE_ENTRIES];
    let answer = read_start(text, &mut head, &mut nodes);
    let mut out = [0u8; RULES * LINE];
    for rule in 0..RULES {
        let label = rule as u64;
        let figures = figures::placed_figures(answer, &head, &nodes, label);
        lines::put_line(&mut out, rule * LINE, label, told(figures));
    }
    out
}

// The line of the graph as it is drawn.
pub fn drawn(text: &[u8]) -> [u8; 21]
    ensures { result ≡ drawn text.now }
{
    let mut head = [0u64; HEAD_ENTRIES];
    let mut nodes = [0u64; NODE_ENTRIES];
    let answer = read_start(text, &mut head, &mut nodes);
    let figures = figures::drawn_figures(answer, &head, &nodes);
    let mut out = [0u8; LINE];
    lines::put_line(&mut out, 0, DRAWN, told(figures));
    out
}
