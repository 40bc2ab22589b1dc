// The range rules (document 01, "3 RANGE: a field outside its range") as one piece: a sheet that is read and one that is
// handed over as tables are judged by the same functions. Each answers for all numbers.
#![tactic(auto)]

ghost use Rattle.std.specs.Prelude.{◌≡◌, ◌%◌, eqb};
ghost use Rattle.rules.specs.Limits.{vector_bytes};
ghost use Rattle.rules.specs.Units.{width_bytes};
ghost use Rattle.rules.specs.Ranges.{head_ok, load_ok, splat_ok, op_ok, shift_ok, row_ok, takes};
ghost use Rattle.ranges.specs.Widths.{width_of};

use rules::kinds::FrameKind;
use rules::limits::{FOUR_MODULUS, ONE_MODULUS, TWO_MODULUS, V};
use rules::units::Width;

const ELEMENTS_MOST: u64 = 4096;

const ADDRESS_MOST: u64 = 65535;

const WINDOWS: u64 = 2;

const OPERATIONS: u64 = 6;

// The header's fields.
#[tactic(auto, unfolding(rules::specs::Ranges::head_ok, rules::specs::Units::is_width, rules::specs::Units::width_of))]
pub fn head_ok(d: u64, n: u64, s: u64) -> bool
    ensures { result ≡ head_ok d n s }
{
    n <= ELEMENTS_MOST && s <= ADDRESS_MOST && Width::try_from(d).is_ok()
}

// The width of D bytes; what is no width is taken as the widest, and head_ok refuses it first.
#[tactic(auto, unfolding(crate::specs::Widths::width_of, rules::specs::Units::width_of))]
pub fn width_of(d: u64) -> Width
    ensures { result ≡ width_of d }
{
    Width::try_from(d).unwrap_or(Width::Eight)
}

#[tactic(auto, unfolding(rules::specs::Ranges::load_ok))]
fn load_ok(window: u64, address: u64) -> bool
    ensures { result ≡ load_ok window address }
{
    window < WINDOWS && address <= ADDRESS_MOST
}

#[tactic(auto, unfolding(rules::specs::Ranges::splat_ok, rules::specs::Elements::modulus))]
fn splat_ok(width: Width, value: u64) -> bool
    ensures { result ≡ splat_ok (width_bytes width) value }
{
    match width {
        Width::One => value < ONE_MODULUS,
        Width::Two => value < TWO_MODULUS,
        Width::Four => value < FOUR_MODULUS,
        Width::Eight => true,
    }
}

#[tactic(auto, unfolding(rules::specs::Ranges::op_ok))]
fn op_ok(operation: u64) -> bool
    ensures { result ≡ op_ok operation }
{
    operation < OPERATIONS
}

// The width is a constant in each case: no division is left in the compiled code.
pub fn is_multiple(width: Width, x: u64) -> bool
    ensures { result ≡ eqb (x % width_bytes width) 0 }
{
    match width {
        Width::One => x % 1 == 0,
        Width::Two => x % 2 == 0,
        Width::Four => x % 4 == 0,
        Width::Eight => x % 8 == 0,
    }
}

#[tactic(auto, unfolding(rules::specs::Ranges::shift_ok))]
fn shift_ok(width: Width, from: u64, to: u64) -> bool
    ensures { result ≡ shift_ok vector_bytes (width_bytes width) from to }
{
    from < V && to < V && is_multiple(width, from) && is_multiple(width, to) && from != to
}

// A node's fields by its kind. A header and an end are no nodes.
#[tactic(auto, unfolding(rules::specs::Ranges::row_ok))]
pub fn row_ok(width: Width, kind: u64, x: u64, y: u64) -> bool
    ensures { result ≡ row_ok vector_bytes (width_bytes width) kind x y }
{
    match FrameKind::try_from(kind) {
        Ok(FrameKind::Load) => load_ok(x, y),
        Ok(FrameKind::Splat) => splat_ok(width, x),
        Ok(FrameKind::Op) => op_ok(x),
        Ok(FrameKind::Shift) => shift_ok(width, x, y),
        _ => false,
    }
}

// How many of the nodes that wait a node takes.
#[tactic(auto, unfolding(rules::specs::Ranges::takes))]
pub fn takes(kind: u64) -> u64
    ensures { result ≡ takes kind }
{
    match FrameKind::try_from(kind) {
        Ok(FrameKind::Op) => 2,
        Ok(FrameKind::Shift) => 1,
        _ => 0,
    }
}
