//! Amounts as decimal numbers in text.

ghost use Rattle.std.specs.Prelude.{◌≡◌, ◌≤◌, ◌<◌, ℕ, IfErr, IfNone, IfOk, IfSome, IsTrue, length, slice_index};
ghost use Rattle.csv_table.specs.Forms.{has_minus, without_minus};
ghost use Rattle.decimal_amounts.specs.Decimals.{HasDecimals, HasNoSize, IsAmount, IsFaultOf, IsSize, group_byte};
ghost use Rattle.decimal_amounts.specs.Decimals.{mark_byte};

use crate::digits::{MOST_AMOUNT_BYTES, are_digits, digits_in, is_whole};
use crate::scale::{Scaled, in_units};

/// What stands before the decimals of an amount.
#[derive(Clone, Copy, Debug, PartialEq, Eq)]
pub enum Mark {
    /// A point, as in `1,234.56`.
    Point,
    /// A comma, as in `1.234,56`.
    Comma,
}

/// Why a text is no amount.
#[derive(Clone, Copy, Debug, PartialEq, Eq)]
pub enum AmountFault {
    /// It is longer than 38 bytes.
    Long,
    /// It is no decimal number: maybe a `-`, then digits, and maybe a mark with digits behind it. Before a mark digits
    /// may stand in groups of three, or be left out.
    Form,
    /// It has decimals beyond the places that there are, and these are not all 0.
    Fine,
    /// Its size is more than 1000000000000 units.
    Large,
}

impl Mark {
    /// The byte before the decimals.
    fn byte(self) -> u8
        ensures { result ≡ mark_byte self }
    {
        match self {
            Mark::Point => b'.',
            Mark::Comma => b',',
        }
    }

    /// The byte between groups of three digits.
    fn group(self) -> u8
        ensures { result ≡ group_byte self }
    {
        match self {
            Mark::Point => b',',
            Mark::Comma => b'.',
        }
    }
}

/// The amount that a text writes, in units of 10^-`places`: exactly, or the reason why there is none. There are 0 to 9
/// places.
pub fn units_of(text: &[u8], mark: Mark, places: u32) -> Result<i64, AmountFault>
    requires { places ≤ 9 }
    ensures units { IfOk result (IsAmount mark text.now places) }
    ensures fault { IfErr result (IsFaultOf mark text.now places) }
{
    if text.len() > MOST_AMOUNT_BYTES {
        return Err(AmountFault::Long);
    }
    let size = match size_of(without_minus(text), mark, places) {
        Ok(size) => size as i64,
        Err(fault) => return Err(fault),
    };
    if begins_with_minus(text) {
        Ok(-size)
    } else {
        Ok(size)
    }
}

/// The units that a number without a sign writes.
fn size_of(number: &[u8], mark: Mark, places: u32) -> Result<u64, AmountFault>
    requires short { length number.now ≤ 38 }
    requires places { places ≤ 9 }
    ensures size { IfOk result (IsSize mark number.now places) }
    ensures fault { IfErr result (HasNoSize mark number.now places) }
{
    let Some(decimals) = decimals_of(number, mark) else {
        return Err(AmountFault::Form);
    };
    match in_units(digits_in(number), decimals as u32, places) {
        Scaled::Units(units) => Ok(units),
        Scaled::Fine => Err(AmountFault::Fine),
        Scaled::Large => Err(AmountFault::Large),
    }
}

/// A text without a `-` that it begins with.
fn without_minus(text: &[u8]) -> &[u8]
    ensures { result.now ≡ without_minus text.now }
{
    if begins_with_minus(text) {
        &text[1..]
    } else {
        text
    }
}

/// Whether a text begins with `-`.
fn begins_with_minus(text: &[u8]) -> bool
    ensures minus { result ≡ has_minus text.now }
    ensures some { IsTrue result → 0 < length text.now }
{
    !text.is_empty() && text[0] == b'-'
}

/// How many decimals a number without a sign has. None: the text is no such number.
fn decimals_of(number: &[u8], mark: Mark) -> Option<usize>
    ensures found { IfSome result (HasDecimals mark number.now) }
    ensures few { IfSome result (λ count. count ≤ length number.now) }
    ensures none { IfNone result ((count : ℕ) → ¬ HasDecimals mark number.now count) }
{
    if number.is_empty() {
        return None;
    }
    let at = place_of(number, mark.byte());
    if at == number.len() {
        return if are_digits(number) { Some(0) } else { None };
    }
    let (whole, decimals) = (&number[..at], &number[at + 1..]);
    if decimals.is_empty() || !are_digits(decimals) || !is_whole(whole, mark.group()) {
        return None;
    }
    Some(decimals.len())
}

/// The place of the first such byte, or how long the text is where it has none.
fn place_of(text: &[u8], sought: u8) -> usize
    ensures within { result ≤ length text.now }
    ensures before { (k : ℕ) → k < result → ¬ (slice_index text.now k ≡ sought) }
    ensures found { result < length text.now → slice_index text.now result ≡ sought }
{
    for (place, byte) in text.iter().enumerate() {
        if *byte == sought {
            return place;
        }
    }
    text.len()
}
