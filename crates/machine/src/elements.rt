// What instructions go by of an element, found once a run: a splat then goes by two numbers and not by the width.
ghost use Rattle.std.specs.Prelude.{ℕ, ◌≡◌, ◌+◌, ◌*◌, ◌^◌, ◌<◌, ◌≤◌};
ghost use Rattle.rules.specs.Limits.{vector_bytes};
ghost use Rattle.rules.specs.Units.{width_bytes};
ghost use Rattle.rules.specs.Elements.{modulus};
ghost use Rattle.rules.specs.Vectors.{vsplat};

use rules::units::Width;

// An element's width, and what its splats go by: its largest value, and the number of eight bytes that has 1 in every element. A
// value that fits, times that number, is the value in every element.
#[derive(Clone, Copy)]
pub(crate) struct Element {
    pub width: Width,
    pub largest: u64,
    pub ones: u64,
    ghost bound: { largest + 1 ≡ modulus (width_bytes width) },
    ghost room: { largest * ones < 2 ^ 64 },
    ghost spread: { (v : ℕ) → v ≤ largest → vsplat vector_bytes 8 (v * ones) ≡ vsplat vector_bytes (width_bytes width) v },
}

impl From<Width> for Element {
    ghost from_gives = { λ width element. element.width ≡ width };

    #[tactic(auto, using(crate::proofs::SpreadLaws::spreads), unfolding(rules::specs::Elements::modulus))]
    fn from(width: Width) -> Element {
        match width {
            Width::One => Element {
                width,
                largest: 0xFF,
                ones: 0x0101_0101_0101_0101,
            },
            Width::Two => Element {
                width,
                largest: 0xFFFF,
                ones: 0x0001_0001_0001_0001,
            },
            Width::Four => Element {
                width,
                largest: 0xFFFF_FFFF,
                ones: 0x0000_0001_0000_0001,
            },
            Width::Eight => Element {
                width,
                largest: 0xFFFF_FFFF_FFFF_FFFF,
                ones: 1,
            },
        }
    }
}
