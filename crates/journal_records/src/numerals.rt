//! Numbers as texts of a fixed count of digits.
ghost use Rattle.std.specs.Prelude.{◌≡◌, ◌+◌, ◌≤◌, ◌<◌, ◌++◌};
ghost use Rattle.arrayvec.specs.ArrayVec.{array_vec_len};
ghost use Rattle.journal_records.specs.Numerals as spec;

use arrayvec::ArrayVec;

/// The digit of a value below 16: 0 to 9, a to f.
#[tactic(auto, unfolding(crate::specs::Numerals::digit))]
fn digit(value: u64) -> u8
    requires { value < 16 }
    ensures { result ≡ spec.digit value }
{
    if value < 10 {
        48 + value as u8
    } else {
        87 + value as u8
    }
}

/// Appends so many digits of a number in a base, the lowest last.
pub(crate) fn push_numeral<const N: usize>(
    text: &mut ArrayVec<u8, N>,
    base: u64,
    width: usize,
    number: u64,
)
    requires base { 1 < base }
    requires most { base ≤ 16 }
    requires room { array_vec_len text.old + width ≤ N }
    ensures items { text.new.items ≡ text.old.items ++ spec.numeral base width number }
    ensures len { array_vec_len text.new ≡ array_vec_len text.old + width }
{
    if width == 0 {
        return;
    }
    push_numeral(text, base, width - 1, number / base);
    text.push(digit(number % base));
}

/// What an octet is worth as a digit.
#[tactic(auto, unfolding(crate::specs::Numerals::digit_value))]
fn digit_value(octet: u8) -> u64
    ensures { result ≡ spec.digit_value octet }
{
    if octet < 87 {
        u64::from(octet.saturating_sub(48))
    } else {
        u64::from(octet - 87)
    }
}

/// The number once a digit more is read.
#[tactic(auto, unfolding(crate::specs::Numerals::after_digit))]
fn after_digit(base: u64, number: u64, octet: u8) -> u64
    ensures { result ≡ spec.after_digit base number octet }
{
    number.wrapping_mul(base).wrapping_add(digit_value(octet))
}

/// What a text is worth as digits in a base, in 64 bits. Of a text that isn't a number's this says nothing.
pub(crate) fn number_of(base: u64, text: &[u8]) -> u64
    ensures { result ≡ spec.number_of base text.now }
{
    let mut number = 0;
    for octet in text {
        number = after_digit(base, number, *octet);
    }
    number
}
