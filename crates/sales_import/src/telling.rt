//! The summary of an import as lines of text.

ghost use Rattle.std.specs.Fmt.{signed_decimal};
ghost use Rattle.std.specs.Prelude.{◌≡◌, ◌++◌, IfOk, OnOk, decimal};
ghost use Rattle.sales_import.specs.SummaryText.{numbers_text, reason_line, reason_lines, summary_text, tally_line, without_text};

use crate::{Summary, Tally, all_reasons, words};
use itoa::Buffer;
use sales_lines::Reason;
use std::alloc::{AllocError, Global};

/// The summary of an import as lines of text, which begin with the path of the export. A reason is named where a row was
/// rejected for it.
pub fn summary_text(alloc: Global, path: &str, summary: &Summary) -> Result<Vec<u8>, AllocError>
    ensures { IfOk result (λ text. text.items ≡ summary_text path.now summary.now) }
{
    let mut text = Vec::new(alloc);
    add_tally(&mut text, path, "rows", summary.all)?;
    add_tally(&mut text, path, "usage lines", summary.lines)?;
    add_tally(&mut text, path, "rejected rows", summary.rejected)?;
    add_reasons(&mut text, path, summary, all_reasons().as_slice())?;
    add_tally(&mut text, path, "rows passed over", summary.passed)?;
    Ok(text)
}

/// Adds a line for each of these reasons that a row was rejected for.
fn add_reasons(
    text: &mut Vec<u8>,
    path: &str,
    summary: &Summary,
    reasons: &[Reason],
) -> Result<(), AllocError>
    ensures { OnOk result (text.new.items ≡ text.old.items ++ reason_lines path.now summary.now reasons.now) }
{
    match reasons {
        [] => Ok(()),
        [reason, others @ ..] => {
            add_reason(text, path, *reason, summary.rejected_for(*reason))?;
            add_reasons(text, path, summary, others)
        }
    }
}

/// Adds a line for a reason, if a row was rejected for it.
fn add_reason(
    text: &mut Vec<u8>,
    path: &str,
    reason: Reason,
    tally: Tally,
) -> Result<(), AllocError>
    ensures { OnOk result (text.new.items ≡ text.old.items ++ reason_line path.now reason tally) }
{
    if tally.rows == 0 {
        return Ok(());
    }
    add(text, path)?;
    add(text, ": rejected since ")?;
    add(text, words(reason))?;
    add_numbers(text, tally)
}

/// Adds a line that says how many rows of a kind there are, and what they come to.
fn add_tally(text: &mut Vec<u8>, path: &str, what: &str, tally: Tally) -> Result<(), AllocError>
    ensures { OnOk result (text.new.items ≡ text.old.items ++ tally_line path.now what.now tally) }
{
    add(text, path)?;
    add(text, ": ")?;
    add(text, what)?;
    add_numbers(text, tally)
}

/// Adds how many rows there are and what they come to, and ends the line.
fn add_numbers(text: &mut Vec<u8>, tally: Tally) -> Result<(), AllocError>
    ensures { OnOk result (text.new.items ≡ text.old.items ++ numbers_text tally) }
{
    add(text, ": ")?;
    add_number(text, tally.rows)?;
    add(text, ", amount ")?;
    add_amount(text, tally.amount)?;
    add_without(text, tally.without)?;
    add(text, "\n")
}

/// Adds how many of the rows have no amount that can be read, if there are any.
fn add_without(text: &mut Vec<u8>, without: u64) -> Result<(), AllocError>
    ensures { OnOk result (text.new.items ≡ text.old.items ++ without_text without) }
{
    if without == 0 {
        return Ok(());
    }
    add(text, ", without the amounts of ")?;
    add_number(text, without)
}

/// Adds a number.
fn add_number(text: &mut Vec<u8>, number: u64) -> Result<(), AllocError>
    ensures { OnOk result (text.new.items ≡ text.old.items ++ decimal number) }
{
    let mut digits = Buffer::new();
    text.extend_from_slice(digits.format(number).as_bytes())?;
    Ok(())
}

/// Adds an amount, in units.
fn add_amount(text: &mut Vec<u8>, amount: i128) -> Result<(), AllocError>
    ensures { OnOk result (text.new.items ≡ text.old.items ++ signed_decimal amount) }
{
    let mut digits = Buffer::new();
    text.extend_from_slice(digits.format(amount).as_bytes())?;
    Ok(())
}

/// Adds a text.
fn add(text: &mut Vec<u8>, more: &str) -> Result<(), AllocError>
    ensures { OnOk result (text.new.items ≡ text.old.items ++ more.now) }
{
    text.extend_from_slice(more.as_bytes())?;
    Ok(())
}
