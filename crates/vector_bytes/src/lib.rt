// vshiftpair, vsplice and splat (document 01, "Vector code"): the bytes of two vectors reordered, and one value in every element.
// Vectors go by value, and every function answers for every argument.
#![tactic(auto)]

ghost use Rattle.std.specs.Prelude.{◌≡◌, ◌+◌, ◌-◌, ◌*◌, ◌/◌, ◌%◌, ◌^◌, ◌<◌};
ghost use Rattle.rules.specs.Limits.{vector_bytes};
ghost use Rattle.rules.specs.Units.{width_bytes};
ghost use Rattle.rules.specs.Vectors.{vsplat, vshiftpair, vsplice};

use rules::limits::V;
use rules::units::Width;
use vector_elements::{Lane, VECTOR_BYTES, Vector};

// The bytes of an element of eight.
const HALF: u64 = 8;

// The bits of one byte, and of the seven others of an element of eight.
const BYTE_BITS: u64 = 8;

const REST_BITS: u64 = 56;

// The element of eight bytes that starts m bytes into the lower of two neighbours. The shift up goes in two steps: for m = 0 it is
// by all 64 bits, and one step must be by fewer.
fn straddling(low: u64, high: u64, m: u64) -> u64
    requires { m < 8 }
    ensures { result ≡ low / 256 ^ m + 256 ^ (8 - m) * (high % 256 ^ m) }
{
    let bits = BYTE_BITS * m;
    let rest = REST_BITS - bits;
    let below = low >> bits;
    let above = high << BYTE_BITS << rest;
    below + above
}

// Sixteen bytes of the two joined, from the amount modulo 16 on: two elements of eight bytes, each out of two neighbours among the
// four of the pair. The vectors are never laid side by side in memory, since a load across what was just stored in pieces waits
// for the stores.
pub fn vshiftpair(v1: Vector, v2: Vector, amount: u32) -> Vector
    ensures { result ≡ vshiftpair vector_bytes v1 v2 (amount % vector_bytes) }
{
    let at = (amount as u64) % V;
    let m = at % HALF;
    let second: u64 = vector_elements::at(&v1, 1);
    let third: u64 = vector_elements::at(&v2, 0);
    let middle = straddling(second, third, m);
    if at < HALF {
        let first: u64 = vector_elements::at(&v1, 0);
        let lowest = straddling(first, second, m);
        return vector_elements::joined(lowest, middle);
    }
    let fourth: u64 = vector_elements::at(&v2, 1);
    let highest = straddling(third, fourth, m);
    vector_elements::joined(middle, highest)
}

// The first bytes of v1, as many as the amount says, and the rest of v2; from 16 on all of v1. Every byte is chosen by its own
// test: a loop that stops at the amount would go byte by byte.
#[tactic(auto, using(crate::proofs::SpliceLaws::spliced))]
pub fn vsplice(v1: Vector, v2: Vector, amount: u32) -> Vector
    ensures { result ≡ vsplice v1 v2 amount }
{
    let stop = amount as usize;
    let mut r = [0u8; VECTOR_BYTES];
    for i in 0..VECTOR_BYTES {
        r[i] = if i < stop { v1[i] } else { v2[i] };
    }
    r
}

// The value in every element of E, cut to its width.
fn splat<E: Lane>(value: u64) -> Vector
    ensures { result ≡ vsplat vector_bytes E.BYTES value }
{
    let x = E::cut(value);
    let mut r = [0u8; VECTOR_BYTES];
    for k in 0..vector_elements::count::<E>() {
        vector_elements::put(&mut r, k, x);
    }
    r
}

// The value in every element, cut to its width.
pub fn vsplat(width: Width, value: u64) -> Vector
    ensures { result ≡ vsplat vector_bytes (width_bytes width) value }
{
    match width {
        Width::One => splat::<u8>(value),
        Width::Two => splat::<u16>(value),
        Width::Four => splat::<u32>(value),
        Width::Eight => splat::<u64>(value),
    }
}
