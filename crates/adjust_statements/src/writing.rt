//! Differences as rows.

ghost use Rattle.std.specs.Prelude.{◌≡◌, ◌≤◌, ◌^◌, ◌++◌, ◌∷◌, [], IfErr, IfOk, OnOk, flat_map, length, map};
ghost use Rattle.std.specs.Prelude.{unsigned_abs};
ghost use Rattle.std.specs.Io.KnownBytes.{Appends};
ghost use Rattle.csv_table.specs.Written.{text_of, text_of_row};
ghost use Rattle.line_split.specs.Signs.{with_sign_of};
ghost use Rattle.merge_statements.specs.Refused.{IsOfSystem};
ghost use Rattle.merge_statements.specs.SoFar.{output, total_of_portions};
ghost use Rattle.adjust_statements.specs.Adjusted.{as_rests};
ghost use Rattle.adjust_statements.specs.Differences.{rows_of};
ghost use Rattle.adjust_statements.specs.SoFar.{named_row};

use crate::sums::Sums;
use csv_table::RowWriter;
use itoa::Buffer;
use merge_statements::{Page, Refusal};
use std::alloc::{AllocError, Global};
use std::io::Write;

/// The most that one row holds, in minor units.
const ROW_HOLDS: u128 = 1_000_000_000_000;

/// Rows, how many there are, and what they come to.
#[derive(Drop)]
struct Written {
    text: Vec<u8>,
    count: u64,
    total: i128,
}

/// Adds a row for each use of which there is a difference, and more where one does not hold it. Answers how many rows
/// there are and what they come to.
pub(crate) fn write_sums<W: Write>(
    alloc: Global,
    sums: Sums,
    kind: &str,
    name: &[u8],
    page: &mut Page,
    out: &mut W,
) -> Result<(u64, i128), Refusal>
    requires { length (flat_map rows_of sums) ≤ 10 ^ 18 }
    ensures count { IfOk result (λ sum. sum.0 ≡ length (flat_map rows_of sums)) }
    ensures total { IfOk result (λ sum. sum.1 ≡ total_of_portions (flat_map rows_of sums)) }
    ensures written { IfOk result (λ _. Appends (output W.contents out.old page.old)
        (output W.contents out.new page.new)
        (text_of (map (named_row kind.now) (as_rests name.now (flat_map rows_of sums))))) }
    ensures small { IfOk result (λ sum. unsigned_abs sum.1 ≤ 10 ^ 30) }
    ensures refused { IfErr result IsOfSystem }
{
    let rows = rows_of_sums(alloc, sums, kind, name)?;
    page.push(out, rows.text.as_slice())?;
    Ok((rows.count, rows.total))
}

/// The rows.
fn rows_of_sums(
    alloc: Global,
    mut sums: Sums,
    kind: &str,
    name: &[u8],
) -> Result<Written, AllocError>
    requires { length (flat_map rows_of sums) ≤ 10 ^ 18 }
    ensures text { IfOk result (λ rows. rows.text.items
        ≡ text_of (map (named_row kind.now) (as_rests name.now (flat_map rows_of sums)))) }
    ensures count { IfOk result (λ rows. rows.count ≡ length (flat_map rows_of sums)) }
    ensures total { IfOk result (λ rows. rows.total ≡ total_of_portions (flat_map rows_of sums)) }
{
    let mut rows = RowWriter::new(alloc);
    let mut count = 0;
    let mut total = 0;
    for _use in 0..sums.len() {
        if let Some((usage, sum)) = sums.take_first() {
            count += push_sum(&mut rows, kind, name, usage.as_slice(), sum)?;
            total += sum;
        }
    }
    let text = rows.into_text()?;
    Ok(Written { text, count, total })
}

/// Adds the rows of what a use comes to, and answers how many there are.
fn push_sum(
    rows: &mut RowWriter,
    kind: &str,
    name: &[u8],
    usage: &[u8],
    sum: i128,
) -> Result<u64, AllocError>
    requires { unsigned_abs sum ≤ 10 ^ 30 }
    ensures rows { IfOk result (λ _. rows.new.text ≡ rows.old.text
        ++ text_of (map (named_row kind.now) (as_rests name.now
        (rows_of (record { usage = usage.now; amount = sum }))))) }
    ensures count { IfOk result (λ count. count ≡ length (rows_of (record { usage = usage.now; amount = sum }))) }
{
    let size = sum.unsigned_abs();
    let full = (size / ROW_HOLDS) as u64;
    for _row in 0..full {
        push_row(rows, kind, name, usage, with_sign(sum, ROW_HOLDS))?;
    }
    let left = size % ROW_HOLDS;
    if left == 0 {
        return Ok(full);
    }
    push_row(rows, kind, name, usage, with_sign(sum, left))?;
    Ok(full + 1)
}

/// The number of this size that has the sign of a sum.
fn with_sign(sum: i128, size: u128) -> i128
    requires { size ≤ 10 ^ 12 }
    ensures { result ≡ with_sign_of sum size }
{
    if sum < 0 {
        -(size as i128)
    } else {
        size as i128
    }
}

/// Adds a row.
fn push_row<'a>(
    rows: &mut RowWriter,
    kind: &'a str,
    name: &'a [u8],
    usage: &'a [u8],
    amount: i128,
) -> Result<(), AllocError>
    ensures { OnOk result (rows.new.text ≡ rows.old.text
        ++ text_of_row (named_row kind.now (record { reason = name.now; usage = usage.now; amount = amount }))) }
{
    let mut digits = Buffer::new();
    rows.row(&[
        kind.as_bytes(),
        name,
        usage,
        digits.format(amount).as_bytes(),
    ])?;
    Ok(())
}
