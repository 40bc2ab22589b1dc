// The header of a graph handed over as tables: the head's first four entries, as the calls use them.
ghost use Rattle.std.specs.Prelude.{◌≡◌, get_or};
ghost use Rattle.graph.specs.Headers.{head_in_range, header_of};

use rules::limits::{HEAD_COUNT, HEAD_D, HEAD_N, HEAD_S, NODES};
use rules::units::{ByteOffset, Width};

// D as a width, n, S, and the number of nodes.
#[derive(Clone, Copy)]
pub struct Header {
    pub width: Width,
    pub elements: u64,
    pub store: ByteOffset,
    pub count: u8,
}

// Whether D, n and S are in their ranges.
pub(crate) fn in_range(head: &[u64]) -> bool
    ensures { result ≡ head_in_range head.now }
{
    ranges::head_ok(
        tables::entry(head, HEAD_D),
        tables::entry(head, HEAD_N),
        tables::entry(head, HEAD_S),
    )
}

// The number of nodes that a head names.
pub(crate) fn count_in(head: &[u64]) -> u64
    ensures { result ≡ get_or head.now 3 0 }
{
    tables::entry(head, HEAD_COUNT)
}

// The header of a head that passes; of any other what of it fits, and "1 to 64" rows.
pub fn header_of(head: &[u64]) -> Header
    ensures { result ≡ header_of head.now }
{
    Header {
        width: ranges::width_of(tables::entry(head, HEAD_D)),
        elements: tables::entry(head, HEAD_N),
        store: ByteOffset(tables::entry(head, HEAD_S)),
        count: count_in(head).min(NODES) as u8,
    }
}
