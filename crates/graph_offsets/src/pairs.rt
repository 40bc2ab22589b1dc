// Two offsets together: whether they agree, and which of them an op has; and whether one is where a shift takes it from.
ghost use Rattle.std.specs.Prelude.{◌≡◌};
ghost use Rattle.rules.specs.Offsets.{agree, join, is_at};

use rules::nodes::Offset;
use rules::units::ByteOffset;

// "undefined agrees with everything"
pub fn agree(a: Offset, b: Offset) -> bool
    ensures { result ≡ agree a b }
{
    match (a, b) {
        (Offset::At(x), Offset::At(y)) => x == y,
        _ => true,
    }
}

// "the defined one if either is, else undefined"
pub fn join(a: Offset, b: Offset) -> Offset
    ensures { result ≡ join a b }
{
    match a {
        Offset::Undefined => b,
        Offset::At(_) => a,
    }
}

// "a defined offset equal to from"
pub(crate) fn is_at(a: Offset, from: ByteOffset) -> bool
    ensures { result ≡ is_at a from.0 }
{
    matches!(a, Offset::At(x) if x == from)
}
