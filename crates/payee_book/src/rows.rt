//! The rows of statements.

ghost use Rattle.std.specs.Io.KnownBytes.{Appends, append_known};
ghost use Rattle.std.specs.Prelude.{unsigned_abs, ◌≡◌, ◌≤◌, ◌<◌, ◌++◌, ◌∷◌, [], All, OnOk, codes, length, map};
ghost use Rattle.std.specs.Fmt.{signed_decimal};
ghost use Rattle.line_split.specs.Signs.{int_sum_by};
ghost use Rattle.csv_table.specs.Written.{text_of, text_of_row};
ghost use Rattle.line_split.specs.declared.TheConstants.{MOST_AMOUNT};
ghost use Rattle.payee_book.specs.declared.rows.TheConstants.{LOOKED_UP_AT_ONCE};
ghost use Rattle.payee_book.specs.Text.{posting_row, residue_rows, run_row, total_row, usage_at};

use crate::Posting;
use crate::book::sum;
use csv_table::RowWriter;
use itoa::Buffer;
use line_split::{Reason, Usage};
use std::alloc::AllocError;
use std::io::{self, Write};

/// How many usage lines are looked up before their rows are written. They lie far apart in memory, and
/// look-ups that follow one another do not wait for each other.
pub(crate) const LOOKED_UP_AT_ONCE: usize = 128;

/// Some of a payee's postings, as many as are looked up at once.
pub(crate) fn write_postings(
    rows: &mut RowWriter,
    usage: &Usage,
    party: &[u8],
    postings: &[Posting],
) -> Result<(), AllocError>
    requires lines { All (λ posting. posting.0 < length usage.now) postings.now }
    requires few { length postings.now ≤ LOOKED_UP_AT_ONCE }
    ensures { OnOk result (rows.new.text ≡ rows.old.text ++ text_of (map (posting_row usage.now (codes "L") party.now) postings.now)) }
{
    let mut names: [&[u8]; LOOKED_UP_AT_ONCE] = [b""; LOOKED_UP_AT_ONCE];
    for place in 0..postings.len() {
        names[place] = usage_of(usage, postings[place].0);
    }
    for place in 0..postings.len() {
        write_posting(rows, "L", party, names[place], postings[place].1)?;
    }
    Ok(())
}

/// The residue's statement. Full pages go on to `out`.
pub(crate) fn write_residue<W: Write>(
    rows: &mut RowWriter,
    usage: &Usage,
    reasons: &[Reason],
    statement: &[Posting],
    out: &mut W,
) -> io::Result<()>
    requires reasons { length reasons.now ≡ length usage.now }
    requires lines { All (λ posting. posting.0 < length usage.now) statement.now }
    requires small { All (λ posting. unsigned_abs posting.1 ≤ MOST_AMOUNT) statement.now }
    ensures { OnOk result (Appends (append_known (W.contents out.old) rows.old.text) (append_known (W.contents out.new) rows.new.text) (text_of (residue_rows usage.now reasons.now statement.now))) }
{
    for posting in statement {
        let reason = reasons[posting.0 as usize].word();
        let name = usage_of(usage, posting.0);
        write_posting(rows, "M", reason.as_bytes(), name, posting.1)?;
        rows.write_full_page_to(out)?;
    }
    Ok(write_total(rows, "T", b"", statement)?)
}

/// What the usage lines come to.
pub(crate) fn write_run(rows: &mut RowWriter, usage: &Usage) -> Result<(), AllocError>
    ensures { OnOk result (rows.new.text ≡ rows.old.text ++ text_of_row (run_row usage.now)) }
{
    let mut lines = Buffer::new();
    let mut amount = Buffer::new();
    rows.row(&[
        b"R",
        b"",
        lines.format(usage.len()).as_bytes(),
        amount.format(total_amount(usage)).as_bytes(),
    ])
}

/// What the usage lines come to, in minor units. There cannot be so many that the sum is too large
/// for its type.
fn total_amount(usage: &Usage) -> i64
    ensures { result ≡ int_sum_by (λ line. line.amount) usage.now }
{
    let mut total = 0;
    for place in 0..usage.len() {
        total += usage.line(place).amount;
    }
    total
}

/// What the use of the line with a number is called.
fn usage_of(usage: &Usage, line: u64) -> &[u8]
    requires { line < length usage.now }
    ensures { result.now ≡ usage_at usage.now line }
{
    usage.line(line as usize).usage
}

/// A posting.
fn write_posting<'a>(
    rows: &mut RowWriter,
    kind: &str,
    whose: &'a [u8],
    usage: &'a [u8],
    amount: i64,
) -> Result<(), AllocError>
    ensures { OnOk result (rows.new.text ≡ rows.old.text ++ text_of_row (kind.now ∷ whose.now ∷ usage.now ∷ signed_decimal amount ∷ [])) }
{
    let mut digits = Buffer::new();
    let amount = digits.format(amount);
    rows.row(&[kind.as_bytes(), whose, usage, amount.as_bytes()])
}

/// What a statement comes to.
pub(crate) fn write_total(
    rows: &mut RowWriter,
    kind: &str,
    whose: &[u8],
    statement: &[Posting],
) -> Result<(), AllocError>
    requires { All (λ posting. unsigned_abs posting.1 ≤ MOST_AMOUNT) statement.now }
    ensures { OnOk result (rows.new.text ≡ rows.old.text ++ text_of_row (total_row kind.now whose.now statement.now)) }
{
    let mut count = Buffer::new();
    let mut total = Buffer::new();
    rows.row(&[
        kind.as_bytes(),
        whose,
        count.format(statement.len()).as_bytes(),
        total.format(sum(statement)).as_bytes(),
    ])
}
