//! The digits of a number, and how they may stand.

ghost use Rattle.std.specs.Prelude.{◌≡◌, ◌≤◌, ◌<◌, ◌^◌, ◌↔◌, IsTrue, length};
ghost use Rattle.decimal_amounts.specs.Decimals.{AreGrouped, ArePlain, IsDigit, IsWhole, value_of};

/// The longest text of an amount, in bytes. What so many digits write is less than 10^38, which fits 128 bits.
pub const MOST_AMOUNT_BYTES: usize = 38;

/// How many bytes a group has, with the one behind it.
const GROUP: usize = 4;

/// What all digits of a text write, as if nothing stood between them.
pub(crate) fn digits_in(text: &[u8]) -> u128
    requires { length text.now ≤ 38 }
    ensures value { result ≡ value_of text.now }
    ensures small { result < 10 ^ 38 }
{
    let mut value = 0;
    for byte in text {
        if is_digit(*byte) {
            value = value * 10 + u128::from(*byte - b'0');
        }
    }
    value
}

/// Whether a byte is a decimal digit.
fn is_digit(byte: u8) -> bool
    ensures { IsTrue result ↔ IsDigit byte }
{
    byte >= 48 && byte <= 57
}

/// Whether all bytes are digits.
pub(crate) fn are_digits(text: &[u8]) -> bool
    ensures { IsTrue result ↔ ArePlain text.now }
{
    text.iter().all(|byte| *byte >= 48 && *byte <= 57)
}

/// Whether a text is digits, alone or in groups of three.
pub(crate) fn is_whole(text: &[u8], group: u8) -> bool
    ensures { IsTrue result ↔ IsWhole group text.now }
{
    are_digits(text) || are_grouped(text, group)
}

/// Whether a text is digits in more groups than one.
fn are_grouped(text: &[u8], group: u8) -> bool
    ensures { IsTrue result ↔ AreGrouped group text.now }
{
    let count = text.len();
    if count < GROUP || count % GROUP == 0 {
        return false;
    }
    for place in 0..count {
        let byte = text[place];
        let is_between = (count - place) % GROUP == 0;
        if is_between && byte != group || !is_between && !is_digit(byte) {
            return false;
        }
    }
    true
}
