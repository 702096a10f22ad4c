//! Quotes in a CSV text that open and do not end: all that follows is one field.

ghost use Rattle.std.specs.Prelude.{◌≡◌, IfOk, Some, length};
ghost use Rattle.csv.specs.Machine.{step};
ghost use Rattle.csv.specs.Reading.{default_config, strip_bom};
ghost use Rattle.csv.specs.declared.parser.State.{State};
ghost use Rattle.csv_table.specs.Table.{rows_of};
ghost use Rattle.file_form.specs.Quotes.{is_in_quotes, open_quote as quote_in, state_after};
ghost use Rattle.file_form.specs.SoFar.{stand_of};

use csv_table::Rows;
use std::alloc::{AllocError, Global};

/// The row in which a quote opens that does not end, where there is one. It is the last row; the first, the header, is
/// row 0.
pub fn open_quote(alloc: Global, text: &[u8]) -> Result<Option<u64>, AllocError>
    ensures { IfOk result (λ row. row ≡ quote_in text.now) }
{
    if is_left_open(text) {
        Ok(Some(count_rows(alloc, text)?.saturating_sub(1)))
    } else {
        Ok(None)
    }
}

/// Where a reader stands between two bytes.
#[derive(Clone, Copy, Debug, PartialEq, Eq)]
enum Stand {
    /// Before a field.
    Before,
    /// In a field without quotes, or behind the quote that ended one.
    Plain,
    /// In quotes.
    Quoted,
    /// Behind a quote in quotes: it ends them, or the next one doubles it.
    Quote,
}

/// Whether a text ends in quotes.
fn is_left_open(text: &[u8]) -> bool
    ensures { result ≡ is_in_quotes (state_after text.now) }
{
    let mut stand = Stand::Before;
    for byte in behind_mark(text) {
        stand = next_stand(stand, *byte);
    }
    stand == Stand::Quoted
}

/// A text without a byte order mark at its start.
fn behind_mark(text: &[u8]) -> &[u8]
    ensures { result.now ≡ strip_bom text.now }
{
    text.strip_prefix(b"\xEF\xBB\xBF").unwrap_or(text)
}

/// Where a reader stands behind the next byte.
fn next_stand(stand: Stand, byte: u8) -> Stand
    ensures { (state : State) → stand_of state ≡ Some stand
        → stand_of (step default_config state byte).0 ≡ Some result }
{
    match (stand, byte) {
        (Stand::Quoted, b'"') => Stand::Quote,
        (Stand::Quoted, _) => Stand::Quoted,
        (Stand::Before | Stand::Quote, b'"') => Stand::Quoted,
        (_, b',' | b'\r' | b'\n') => Stand::Before,
        (_, _) => Stand::Plain,
    }
}

/// How many rows a text has.
fn count_rows(alloc: Global, text: &[u8]) -> Result<u64, AllocError>
    ensures { IfOk result (λ count. count ≡ length (rows_of text.now)) }
{
    let mut rows = Rows::of(alloc, text);
    let mut count = 0;
    while rows.next()? {
        count += 1;
    }
    Ok(count)
}
