//! Amounts and counts, as people read them.

ghost use Rattle.std.specs.Prelude.{◌≡◌, ◌≤◌, ◌++◌, ◌^◌, OnOk, length, drop};
ghost use Rattle.page_text.specs.Figures.{amount_text, count_text, grouped, last_digits, size_text};

use itoa::Buffer;
use std::alloc::AllocError;

/// The most decimal places that amounts are shown with.
pub const MOST_DECIMALS: u32 = 9;

/// Adds an amount of minor units, of which a unit has ten to the power of `decimals`: with a minus sign where it is
/// below 0, groups of three digits, and as many decimal places.
pub fn add_amount(text: &mut Vec<u8>, decimals: u32, amount: i128) -> Result<(), AllocError>
    requires { decimals ≤ MOST_DECIMALS }
    ensures { OnOk result (text.new.items ≡ text.old.items ++ amount_text decimals amount) }
{
    if amount < 0 {
        text.extend_from_slice("\u{2212}".as_bytes())?;
    }
    add_size(text, decimals, amount.unsigned_abs())
}

/// Adds minor units without their sign.
fn add_size(text: &mut Vec<u8>, decimals: u32, size: u128) -> Result<(), AllocError>
    requires { decimals ≤ MOST_DECIMALS }
    ensures { OnOk result (text.new.items ≡ text.old.items ++ size_text decimals size) }
{
    add_count(text, size / 10_u128.pow(decimals))?;
    if decimals > 0 {
        text.push(b'.')?;
        add_last_digits(text, decimals, size)?;
    }
    Ok(())
}

/// Adds a number, with groups of three digits.
pub fn add_count(text: &mut Vec<u8>, number: u128) -> Result<(), AllocError>
    ensures { OnOk result (text.new.items ≡ text.old.items ++ count_text number) }
{
    let mut digits = Buffer::new();
    add_grouped(text, digits.format(number).as_bytes())
}

/// Adds digits in groups of three.
fn add_grouped(text: &mut Vec<u8>, digits: &[u8]) -> Result<(), AllocError>
    ensures { OnOk result (text.new.items ≡ text.old.items ++ grouped digits.now) }
{
    for place in 0..digits.len() {
        text.push(digits[place])?;
        let left = digits.len() - place - 1;
        if left % 3 == 0 && left > 0 {
            text.extend_from_slice("\u{202F}".as_bytes())?;
        }
    }
    Ok(())
}

/// Adds the last digits of a number, `count` of them, with noughts in front.
pub fn add_last_digits(text: &mut Vec<u8>, count: u32, number: u128) -> Result<(), AllocError>
    requires { count ≤ 19 }
    ensures { OnOk result (text.new.items ≡ text.old.items ++ last_digits count number) }
{
    let mut left = count;
    while left > 0 {
        left -= 1;
        text.push(b'0' + (number / 10_u128.pow(left) % 10) as u8)?;
    }
    Ok(())
}
