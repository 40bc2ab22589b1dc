// Bytes, elements and vectors are counted apart: a byte offset is never used as an element number. The conversions by D
// and V are in specs/Units.antt.
ghost use Rattle.std.specs.Prelude.{◌≡◌};
ghost use Rattle.rules.specs.Units.{width_bytes, width_of};

// A number of bytes from the start of a window or of a vector.
#[derive(Clone, Copy, PartialEq, Eq)]
pub struct ByteOffset(pub u64);

// The number of an element in the loop, from 0.
#[derive(Clone, Copy, PartialEq, Eq)]
pub struct ElementNumber(pub u64);

// The number of a vector: a block of a window, or a pass of the machine.
#[derive(Clone, Copy, PartialEq, Eq)]
pub struct VectorNumber(pub u64);

// The width D of an element: 1, 2, 4 or 8 bytes and no other.
#[derive(Clone, Copy, PartialEq, Eq)]
pub enum Width {
    One,
    Two,
    Four,
    Eight,
}

// A number of bytes that is no width.
#[derive(Clone, Copy, PartialEq, Eq)]
pub struct NoWidth(pub u64);

impl Width {
    // D.
    pub fn bytes(self) -> u64
        ensures { result ≡ width_bytes self }
    {
        match self {
            Width::One => 1,
            Width::Two => 2,
            Width::Four => 4,
            Width::Eight => 8,
        }
    }
}

impl TryFrom<u64> for Width {
    type Error = NoWidth;

    ghost try_from_gives = { λ d r. r ≡ width_of d };

    #[tactic(auto, unfolding(crate::specs::Units::width_of))]
    fn try_from(d: u64) -> Result<Width, NoWidth> {
        match d {
            1 => Ok(Width::One),
            2 => Ok(Width::Two),
            4 => Ok(Width::Four),
            8 => Ok(Width::Eight),
            _ => Err(NoWidth(d)),
        }
    }
}
