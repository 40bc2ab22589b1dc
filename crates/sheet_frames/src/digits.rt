// Upper-case hexadecimal: what a byte stands for as a digit, and what a run of digits spells, the most significant first.
ghost use Rattle.std.specs.Prelude.{◌≡◌, ◌≤◌, length};
ghost use Rattle.sheet_frames.specs.Numbers.{digit_at, digits_most, number_at};

// What one digit counts of the next.
const BASE: u64 = 16;

const TEN: u64 = 10;

#[tactic(auto, unfolding(crate::specs::Numbers::digit_at, rules::specs::Digits::is_digit, rules::specs::Digits::digit_of))]
pub(crate) fn digit(b: u8) -> Option<u64>
    ensures { result ≡ digit_at b }
{
    if b.is_ascii_digit() {
        return Some((b - b'0') as u64);
    }
    if b'A' <= b && b <= b'F' {
        return Some((b - b'A') as u64 + TEN);
    }
    None
}

// The number that all of some bytes spell. Where it stands in line, their number is known to the compiler, and no loop is left.
#[inline(always)]
pub(crate) fn number(digits: &[u8]) -> Option<u64>
    requires { length digits.now ≤ digits_most }
    ensures { result ≡ number_at digits.now 0 (length digits.now) }
{
    let mut value = 0;
    for b in digits {
        value = value * BASE + digit(*b)?;
    }
    Some(value)
}
