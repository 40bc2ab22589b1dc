// Bytes, elements and vectors are counted apart: the conversions by D and V that the sections need, and p + n = B·F + e.
ghost use Rattle.std.specs.Prelude.{◌≡◌, ◌≤◌};
ghost use Rattle.rules.specs.Limits.{vector_bytes, elements_most};
ghost use Rattle.rules.specs.Units.{width_bytes, byte_of_element, element_of_byte};
ghost use Rattle.rules.specs.Offsets.{store_offset};
ghost use Rattle.rules.specs.Code.{full_vectors, rest_elements};

use rules::limits::V;
use rules::units::{ByteOffset, ElementNumber, VectorNumber, Width};

// F and e: how many whole vectors end in the stream, and the elements after the last of them.
#[derive(Clone, Copy)]
pub(crate) struct Split {
    pub full: VectorNumber,
    pub rest: ElementNumber,
}

fn element_of_byte(width: Width, at: ByteOffset) -> ElementNumber
    ensures { result ≡ element_of_byte (width_bytes width) at }
{
    let d = width.bytes();
    ElementNumber(at.0 / d)
}

pub(crate) fn byte_of_element(width: Width, i: ElementNumber) -> ByteOffset
    requires { i.0 ≤ elements_most }
    ensures { result ≡ byte_of_element (width_bytes width) i }
{
    let d = width.bytes();
    ByteOffset(i.0 * d)
}

// c, where the stream starts in its first vector.
pub(crate) fn store_offset(store: ByteOffset) -> ByteOffset
    ensures { result.0 ≡ store_offset vector_bytes store.0 }
{
    ByteOffset(store.0 % V)
}

pub(crate) fn split_stream(width: Width, elements: ElementNumber, store: ByteOffset) -> Split
    requires { elements.0 ≤ elements_most }
    ensures full_value { result.full.0 ≡ full_vectors vector_bytes (width_bytes width) elements.0 store.0 }
    ensures rest_value { result.rest.0 ≡ rest_elements vector_bytes (width_bytes width) elements.0 store.0 }
{
    let first = element_of_byte(width, store_offset(store));
    let d = width.bytes();
    let lanes = V / d;
    let end = first.0 + elements.0;
    Split {
        full: VectorNumber(end / lanes),
        rest: ElementNumber(end % lanes),
    }
}
