// An element of D bytes as a type: u8, u16, u32 or u64. What is done at every width rests on what is here: the number that an
// element is, and sums and differences that wrap at its width.
#![tactic(auto, unfolding(rules::specs::Elements::modulus))]

ghost use Rattle.std.specs.Prelude.{◌≡◌, ℕ, ◌+◌, ◌-◌, ◌*◌, ◌/◌, ◌%◌, ◌<◌, ltb, refl};
ghost use Rattle.rules.specs.Limits.{vector_bytes};
ghost use Rattle.rules.specs.Elements.{modulus};

use rules::limits::{FOUR_MODULUS, ONE_MODULUS, TWO_MODULUS};

// The top bit at each width: the lowest element that two's complement reads as negative.
const TOP_ONE: u8 = 128;

const TOP_TWO: u16 = 32768;

const TOP_FOUR: u32 = 2147483648;

const TOP_EIGHT: u64 = 9223372036854775808;

pub trait Element: Copy {
    // D.
    const BYTES: usize;

    ghost BYTES: { ℕ };

    // The unsigned number that an element is.
    ghost value: { Self → ℕ };

    // What does not fit the width is cut off.
    fn cut(number: u64) -> Self
        ensures { value result ≡ number % modulus BYTES };

    fn number(self) -> u64
        ensures { result ≡ value self };

    fn sum(self, other: Self) -> Self
        ensures { value result ≡ (value self + value other) % modulus BYTES };

    fn difference(self, other: Self) -> Self
        ensures { value result ≡ (value self + (modulus BYTES - value other)) % modulus BYTES };

    fn less(self, other: Self) -> bool
        ensures { result ≡ ltb (value self) (value other) };

    // Half a turn on.
    fn turned(self) -> Self
        ensures fits { value self < modulus BYTES }
        ensures turned { value result ≡ (value self + modulus BYTES / 2) % modulus BYTES };

    // A vector has whole elements.
    ghost whole: { vector_bytes / BYTES * BYTES ≡ vector_bytes };
}

impl Element for u8 {
    const BYTES: usize = 1;

    ghost BYTES = { 1 };

    ghost value = { λ x. x };

    fn cut(number: u64) -> u8 {
        (number % ONE_MODULUS) as u8
    }

    fn number(self) -> u64 {
        u64::from(self)
    }

    fn sum(self, other: u8) -> u8 {
        u8::wrapping_add(self, other)
    }

    fn difference(self, other: u8) -> u8 {
        u8::wrapping_sub(self, other)
    }

    fn less(self, other: u8) -> bool {
        self < other
    }

    fn turned(self) -> u8 {
        u8::wrapping_add(self, TOP_ONE)
    }

    ghost whole = { refl };
}

impl Element for u16 {
    const BYTES: usize = 2;

    ghost BYTES = { 2 };

    ghost value = { λ x. x };

    fn cut(number: u64) -> u16 {
        (number % TWO_MODULUS) as u16
    }

    fn number(self) -> u64 {
        u64::from(self)
    }

    fn sum(self, other: u16) -> u16 {
        u16::wrapping_add(self, other)
    }

    fn difference(self, other: u16) -> u16 {
        u16::wrapping_sub(self, other)
    }

    fn less(self, other: u16) -> bool {
        self < other
    }

    fn turned(self) -> u16 {
        u16::wrapping_add(self, TOP_TWO)
    }

    ghost whole = { refl };
}

impl Element for u32 {
    const BYTES: usize = 4;

    ghost BYTES = { 4 };

    ghost value = { λ x. x };

    fn cut(number: u64) -> u32 {
        (number % FOUR_MODULUS) as u32
    }

    fn number(self) -> u64 {
        u64::from(self)
    }

    fn sum(self, other: u32) -> u32 {
        u32::wrapping_add(self, other)
    }

    fn difference(self, other: u32) -> u32 {
        u32::wrapping_sub(self, other)
    }

    fn less(self, other: u32) -> bool {
        self < other
    }

    fn turned(self) -> u32 {
        u32::wrapping_add(self, TOP_FOUR)
    }

    ghost whole = { refl };
}

impl Element for u64 {
    const BYTES: usize = 8;

    ghost BYTES = { 8 };

    ghost value = { λ x. x };

    fn cut(number: u64) -> u64 {
        number
    }

    fn number(self) -> u64 {
        self
    }

    fn sum(self, other: u64) -> u64 {
        u64::wrapping_add(self, other)
    }

    fn difference(self, other: u64) -> u64 {
        u64::wrapping_sub(self, other)
    }

    fn less(self, other: u64) -> bool {
        self < other
    }

    fn turned(self) -> u64 {
        u64::wrapping_add(self, TOP_EIGHT)
    }

    ghost whole = { refl };
}
