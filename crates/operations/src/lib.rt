// The six operations on two elements (document 01, "Operations on unsigned elements modulo 2^(8D)"), at each width: what the lanes
// of a vector and the plain loop both do. Sums and differences wrap at the element's width, so nothing carries into the next
// element. Every function answers for every argument.
#![tactic(auto)]

ghost use Rattle.std.specs.Prelude.{◌≡◌, ◌%◌, min};
ghost use Rattle.rules.specs.Units.{width_bytes};
ghost use Rattle.rules.specs.Elements.{modulus, operate, signed_less};
ghost use Rattle.operations.specs.Numbered.{operation_number, operation_of};

use elements::Element;
use rules::kinds::Unknown;
use rules::units::Width;

pub mod elements;

// The operations, in the order of their numbers.
#[derive(Clone, Copy, PartialEq, Eq)]
pub enum Operation {
    Add,
    Subtract,
    Minimum,
    Maximum,
    SignedMinimum,
    SignedMaximum,
}

impl TryFrom<u64> for Operation {
    type Error = Unknown;

    ghost try_from_gives = { λ number r. r ≡ operation_of number };

    fn try_from(number: u64) -> Result<Operation, Unknown> {
        match number {
            0 => Ok(Operation::Add),
            1 => Ok(Operation::Subtract),
            2 => Ok(Operation::Minimum),
            3 => Ok(Operation::Maximum),
            4 => Ok(Operation::SignedMinimum),
            5 => Ok(Operation::SignedMaximum),
            _ => Err(Unknown(number)),
        }
    }
}

// Half a turn on, two's complement stands in the order of the unsigned numbers; the compiler makes one signed comparison of it.
fn signed_less<E: Element>(x: E, y: E) -> bool
    ensures { result ≡ signed_less E.BYTES (E.value x) (E.value y) }
{
    let left = x.turned();
    let right = y.turned();
    left.less(right)
}

// The operation on two elements of one width.
#[tactic(auto, unfolding(rules::specs::Elements::operate))]
pub fn operated<E: Element>(operation: Operation, x: E, y: E) -> E
    ensures { E.value result ≡ operate E.BYTES (operation_number operation) (E.value x) (E.value y) }
{
    match operation {
        Operation::Add => x.sum(y),
        Operation::Subtract => x.difference(y),
        Operation::Minimum => if y.less(x) { y } else { x },
        Operation::Maximum => if x.less(y) { y } else { x },
        Operation::SignedMinimum => if signed_less(y, x) { y } else { x },
        Operation::SignedMaximum => if signed_less(x, y) { y } else { x },
    }
}

// The operation of a number on two elements of one width. One above the last is the last.
#[tactic(auto, using(crate::proofs::OperationLaws::known))]
pub fn operate_as<E: Element>(operation: u64, x: E, y: E) -> E
    ensures { E.value result ≡ operate E.BYTES operation (E.value x) (E.value y) }
{
    let known = Operation::try_from(operation).unwrap_or(Operation::SignedMaximum);
    operated(known, x, y)
}

// The operation on two numbers, each cut to the width of E first.
fn operate_on_cut<E: Element>(operation: u64, x: u64, y: u64) -> u64
    ensures { result ≡ operate E.BYTES operation (x % modulus E.BYTES) (y % modulus E.BYTES) }
{
    operate_as(operation, E::cut(x), E::cut(y)).number()
}

// The operation on two elements of a width that only a run knows; what does not fit the width is cut off first.
pub fn operate(width: Width, operation: u64, x: u64, y: u64) -> u64
    ensures { result ≡ operate (width_bytes width) operation (x % modulus (width_bytes width)) (y % modulus (width_bytes width)) }
{
    match width {
        Width::One => operate_on_cut::<u8>(operation, x, y),
        Width::Two => operate_on_cut::<u16>(operation, x, y),
        Width::Four => operate_on_cut::<u32>(operation, x, y),
        Width::Eight => operate_on_cut::<u64>(operation, x, y),
    }
}
