// The reader of loop sheets (document 01, "Loop sheet", and "Reading" under the numbers that are given back): any bytes are a
// sheet or get one fixed refusal.
#![tactic(auto)]

mod header;
mod line;
mod lines;

ghost use Rattle.std.specs.Prelude.{◌≡◌};
ghost use Rattle.rules.specs.Calls.{reading};
ghost use Rattle.sheet.specs.Left.{sheet_left};

use rules::answers::Refusal;
use rules::limits::{HEAD_ENTRIES, NODE_ENTRIES};

// Reads a sheet into two lent tables: head takes D, n, S and the number of nodes, nodes each node's kind and fields. ROOM
// leaves both as they were; every other refusal leaves them all zero.
pub fn read(text: &[u8], head: &mut [u64], nodes: &mut [u64]) -> Result<(), Refusal>
    ensures { sheet_left result head.new nodes.new ≡ reading text.now head.old nodes.old }
{
    if head.len() < HEAD_ENTRIES || nodes.len() < NODE_ENTRIES {
        return Err(Refusal::Room);
    }
    tables::clear(head);
    tables::clear(nodes);
    header::sheet(text, head, nodes)
}
