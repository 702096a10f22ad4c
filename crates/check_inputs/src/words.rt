//! The words of a report.

ghost use Rattle.std.specs.Prelude.{◌≡◌, ◌++◌, [], OnOk, Option, codes, decimal, flat_map};
ghost use Rattle.std.specs.Fmt.{signed_decimal};
ghost use Rattle.check_inputs.specs.Messages.{around, fact_line, place_text, remark_line, shown, shown_byte};
ghost use Rattle.check_inputs.specs.declared.words.TheConstants.{MOST_FIELD_BYTES};

use itoa::Buffer;
use page_text::add_code;
use std::alloc::AllocError;

/// The most bytes of a field that are shown.
pub(crate) const MOST_FIELD_BYTES: usize = 64;

/// The most faults of a file that are named.
pub(crate) const MOST_FAULTS: u64 = 100;

/// Adds a text.
pub(crate) fn add(text: &mut Vec<u8>, more: &str) -> Result<(), AllocError>
    ensures { OnOk result (text.new.items ≡ text.old.items ++ more.now) }
{
    text.extend_from_slice(more.as_bytes())?;
    Ok(())
}

/// Adds a number.
pub(crate) fn add_number(text: &mut Vec<u8>, number: u64) -> Result<(), AllocError>
    ensures { OnOk result (text.new.items ≡ text.old.items ++ decimal number) }
{
    let mut digits = Buffer::new();
    text.extend_from_slice(digits.format(number).as_bytes())?;
    Ok(())
}

/// Adds a field between words.
pub(crate) fn add_around(
    text: &mut Vec<u8>,
    before: &str,
    field: &[u8],
    after: &str,
) -> Result<(), AllocError>
    ensures { OnOk result (text.new.items ≡ text.old.items ++ around before.now field.now after.now) }
{
    add(text, before)?;
    add_shown(text, field)?;
    add(text, after)
}

/// Adds two fields between words.
pub(crate) fn add_both(
    text: &mut Vec<u8>,
    before: &str,
    first: &[u8],
    between: &str,
    second: &[u8],
    after: &str,
) -> Result<(), AllocError>
    ensures { OnOk result (text.new.items ≡ text.old.items
        ++ (around before.now first.now between.now ++ around [] second.now after.now)) }
{
    add_around(text, before, first, between)?;
    add_shown(text, second)?;
    add(text, after)?;
    Ok(())
}

/// Adds a field as it stands, but for bytes that cannot be printed, and for what is long.
fn add_shown(text: &mut Vec<u8>, field: &[u8]) -> Result<(), AllocError>
    ensures { OnOk result (text.new.items ≡ text.old.items ++ shown field.now) }
{
    let end = field.len().min(MOST_FIELD_BYTES);
    add_bytes(text, &field[..end])?;
    if field.len() > MOST_FIELD_BYTES {
        return add(text, "..");
    }
    Ok(())
}

/// Adds bytes, each as it is shown.
fn add_bytes(text: &mut Vec<u8>, bytes: &[u8]) -> Result<(), AllocError>
    ensures { OnOk result (text.new.items ≡ text.old.items ++ flat_map shown_byte bytes.now) }
{
    for place in 0..bytes.len() {
        add_byte(text, bytes[place])?;
    }
    Ok(())
}

/// Adds a byte, or its two digits to the base 16 where it cannot be printed.
fn add_byte(text: &mut Vec<u8>, byte: u8) -> Result<(), AllocError>
    ensures { OnOk result (text.new.items ≡ text.old.items ++ shown_byte byte) }
{
    if byte >= 32 && byte <= 126 {
        text.push(byte)?;
        return Ok(());
    }
    add_code(text, byte)
}

/// Begins a line about the file of a path.
pub(crate) fn add_path(text: &mut Vec<u8>, path: &str) -> Result<(), AllocError>
    ensures { OnOk result (text.new.items ≡ text.old.items ++ (path.now ++ codes ": ")) }
{
    add(text, path)?;
    add(text, ": ")
}

/// Adds where a fault stands, if it stands anywhere.
pub(crate) fn add_place(
    text: &mut Vec<u8>,
    kind: &str,
    place: Option<u64>,
) -> Result<(), AllocError>
    ensures { OnOk result (text.new.items ≡ text.old.items ++ place_text kind.now place) }
{
    if let Some(place) = place {
        add(text, kind)?;
        add_number(text, place)?;
        add(text, ": ")?;
    }
    Ok(())
}

/// Adds a line that says how many there are of something in the file of a path.
pub(crate) fn add_fact(
    text: &mut Vec<u8>,
    path: &str,
    what: &str,
    number: u64,
) -> Result<(), AllocError>
    ensures { OnOk result (text.new.items ≡ text.old.items ++ fact_line path.now what.now number) }
{
    add_path(text, path)?;
    add(text, what)?;
    add(text, ": ")?;
    add_number(text, number)?;
    add(text, "\n")
}

/// Adds a line about the file of a path that says what a run does not notice.
pub(crate) fn add_remark(text: &mut Vec<u8>, path: &str, remark: &str) -> Result<(), AllocError>
    ensures { OnOk result (text.new.items ≡ text.old.items ++ remark_line path.now remark.now) }
{
    add_path(text, path)?;
    add(text, "remark: ")?;
    add(text, remark)?;
    add(text, "\n")
}

/// Adds an amount, in minor units.
pub(crate) fn add_amount(text: &mut Vec<u8>, amount: i64) -> Result<(), AllocError>
    ensures { OnOk result (text.new.items ≡ text.old.items ++ signed_decimal amount) }
{
    let mut digits = Buffer::new();
    text.extend_from_slice(digits.format(amount).as_bytes())?;
    Ok(())
}
