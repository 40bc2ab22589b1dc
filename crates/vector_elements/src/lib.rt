// Vectors of sixteen bytes and their elements: read by number, lowest byte first, and put into a vector again, at every width by
// one function. Vectors that are read are lent: the compiler reads a lent vector in place, and handed over by value it would be
// copied and taken apart.
#![tactic(auto)]

ghost use Rattle.std.specs.Prelude.{◌≡◌, ◌+◌, ◌*◌, ◌/◌, ◌%◌, ◌≤◌, ◌++◌, length};
ghost use Rattle.std.proofs.Math.Seq.{paste};
ghost use Rattle.rules.specs.Limits.{vector_bytes};
ghost use Rattle.rules.specs.Elements.{element, of_bytes, to_bytes};

use operations::elements::Element;
use rules::limits::V;

// V, the bytes of a vector.
pub const VECTOR_BYTES: usize = V as usize;

pub type Vector = [u8; VECTOR_BYTES];

// An element as its bytes, the lowest first.
pub trait Lane: Element {
    fn read(bytes: &[u8]) -> Self
        requires { length bytes.now ≡ Self.BYTES }
        ensures { Self.value result ≡ of_bytes bytes.now };

    fn write(self, bytes: &mut [u8])
        requires { length bytes.old ≡ Self.BYTES }
        ensures { bytes.new ≡ to_bytes Self.BYTES (Self.value self) };
}

impl Lane for u8 {
    fn read(bytes: &[u8]) -> u8 {
        bytes[0]
    }

    fn write(self, bytes: &mut [u8]) {
        bytes[0] = self;
    }
}

impl Lane for u16 {
    fn read(bytes: &[u8]) -> u16 {
        u16::from_le_bytes([bytes[0], bytes[1]])
    }

    fn write(self, bytes: &mut [u8]) {
        bytes.copy_from_slice(&u16::to_le_bytes(self));
    }
}

impl Lane for u32 {
    fn read(bytes: &[u8]) -> u32 {
        u32::from_le_bytes([bytes[0], bytes[1], bytes[2], bytes[3]])
    }

    fn write(self, bytes: &mut [u8]) {
        bytes.copy_from_slice(&u32::to_le_bytes(self));
    }
}

impl Lane for u64 {
    fn read(bytes: &[u8]) -> u64 {
        u64::from_le_bytes([
            bytes[0], bytes[1], bytes[2], bytes[3], bytes[4], bytes[5], bytes[6], bytes[7],
        ])
    }

    fn write(self, bytes: &mut [u8]) {
        bytes.copy_from_slice(&u64::to_le_bytes(self));
    }
}

// How many elements a vector has.
pub fn count<E: Lane>() -> usize
    ensures { result ≡ vector_bytes / E.BYTES }
{
    VECTOR_BYTES / E::BYTES
}

// Where element k begins in a vector; k goes modulo the elements that a vector has, so that every number is one.
fn first_byte<E: Lane>(k: usize) -> usize
    ensures first { result ≡ k % (vector_bytes / E.BYTES) * E.BYTES }
    ensures fits { result + E.BYTES ≤ vector_bytes }
{
    k % count::<E>() * E::BYTES
}

// Element k of a vector.
#[tactic(auto, unfolding(rules::specs::Elements::element))]
pub fn at<E: Lane>(v: &Vector, k: usize) -> E
    ensures { E.value result ≡ element E.BYTES v.now (k % (vector_bytes / E.BYTES) * E.BYTES) }
{
    let first = first_byte::<E>(k);
    let end = first + E::BYTES;
    E::read(&v[first..end])
}

// Element k of a vector is x from now on.
pub fn put<E: Lane>(v: &mut Vector, k: usize, x: E)
    ensures { v.new ≡ paste v.old (k % (vector_bytes / E.BYTES) * E.BYTES) (to_bytes E.BYTES (E.value x)) E.BYTES }
{
    let first = first_byte::<E>(k);
    let end = first + E::BYTES;
    x.write(&mut v[first..end]);
}

// Two elements of eight bytes, the lower first.
pub fn joined(low: u64, high: u64) -> Vector
    ensures { result ≡ to_bytes 8 low ++ to_bytes 8 high }
{
    let mut v = [0u8; VECTOR_BYTES];
    put(&mut v, 0, low);
    put(&mut v, 1, high);
    v
}
