// The blocks of the two windows (document 01, "Vector code"): the load rule and the store rule. A load reads the part of a window
// that it names, or zeros where there is none; a store writes the part, or says that work has none. Both answer for every pass.
#![tactic(auto, unfolding(rules::specs::Vectors::block_zero, rules::specs::Vectors::inside, rules::specs::Vectors::loaded, rules::specs::Vectors::stored))]

ghost use Rattle.std.specs.Prelude.{◌≡◌, ◌+◌, ◌≤◌, ◌<◌, IfSome, length, take, drop};
ghost use Rattle.rules.specs.Limits.{vector_bytes};
ghost use Rattle.rules.specs.PlainLoop.{window};
ghost use Rattle.rules.specs.Vectors.{block_of, loaded};
ghost use Rattle.vector_blocks.specs.Places.{place_of, too_many};
ghost use Rattle.vector_blocks.specs.Storing.{stores, storing};

use rules::limits::{BLOCK_ZERO, V};
use rules::units::{ByteOffset, VectorNumber};
use vector_elements::{VECTOR_BYTES, Vector};

// A pass whose block lies past every window at every address: a window has fewer than 2^63 bytes, which is 2^59 blocks. Every pass
// from here on is outside, so none has to be counted further.
const FAR: u64 = BLOCK_ZERO + 576460752303423488;

// Where the block that holds address + 16 * pass begins in a window of len bytes, if it lies inside.
fn place_of(address: u32, pass: VectorNumber, len: usize) -> Option<ByteOffset>
    requires { len < too_many }
    ensures place { result ≡ place_of vector_bytes len (block_of vector_bytes address pass.0) }
    ensures fits { IfSome result (λ start. start.0 + vector_bytes ≤ len) }
{
    let block = (address as u64) / V + pass.0.min(FAR);
    if block < BLOCK_ZERO {
        return None;
    }
    let first = V * (block - BLOCK_ZERO);
    let end = first + V;
    if (len as u64) < end {
        return None;
    }
    Some(ByteOffset(first))
}

// The window that a load names: work, or table.
fn window<'a>(work: &'a [u8], table: &'a [u8], from: u32) -> &'a [u8]
    ensures { result.now ≡ window from work.now table.now }
{
    if from == 0 { work } else { table }
}

// The sixteen-byte part of work or of table that starts at a byte offset.
fn fetch<'a>(work: &'a [u8], table: &'a [u8], from: u32, start: ByteOffset) -> &'a [u8]
    requires { start.0 + vector_bytes ≤ length (window from work.now table.now) }
    ensures { result.now ≡ take vector_bytes (drop start.0 (window from work.now table.now)) }
{
    let first = start.0 as usize;
    let end = first + VECTOR_BYTES;
    &window(work, table, from)[first..end]
}

// A part of sixteen bytes, by value. It is written out: of a copy in memory the compiler makes two, and a load waits for the first.
fn vector_of(part: &[u8]) -> Vector
    requires { length part.now ≡ vector_bytes }
    ensures { result ≡ part.now }
{
    [
        part[0], part[1], part[2], part[3], part[4], part[5], part[6], part[7], part[8], part[9],
        part[10], part[11], part[12], part[13], part[14], part[15],
    ]
}

// The load rule: the part that is named, or zeros where there is none.
pub fn load<'a>(
    work: &'a [u8],
    table: &'a [u8],
    from: u32,
    address: u32,
    pass: VectorNumber,
) -> Vector
    ensures { result ≡ loaded vector_bytes (window from work.now table.now) (block_of vector_bytes address pass.0) }
{
    match place_of(address, pass, window(work, table, from).len()) {
        Some(start) => vector_of(fetch(work, table, from, start)),
        None => [0u8; VECTOR_BYTES],
    }
}

// The store rule: the part that is named is written, or false where work has none.
pub fn store(work: &mut [u8], address: u32, pass: VectorNumber, v: Vector) -> bool
    ensures { stores result work.new ≡ storing vector_bytes work.old (block_of vector_bytes address pass.0) v }
{
    let Some(start) = place_of(address, pass, work.len()) else {
        return false;
    };
    let first = start.0 as usize;
    let end = first + VECTOR_BYTES;
    work[first..end].copy_from_slice(&v);
    true
}
