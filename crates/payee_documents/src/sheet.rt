//! The sheet of a payee's portions, as CSV.

ghost use Rattle.std.specs.Prelude.{◌≡◌, ◌++◌, ◌∷◌, [], IfOk, OnOk, map};
ghost use Rattle.csv_table.specs.Written.{text_of, text_of_row};
ghost use Rattle.explain_line.specs.Explanation.{right_text};
ghost use Rattle.page_text.specs.Formulas.{guarded};
ghost use Rattle.page_text.specs.Shown.{shown};
ghost use Rattle.payee_documents.specs.Sheet.{sheet_header, sheet_row, sheet_rows};
ghost use Rattle.payee_portions.specs.Shown.{portion_shown, portions_shown};

use csv_table::RowWriter;
use explain_line::right_word;
use itoa::Buffer;
use page_text::{add_guarded, add_shown};
use payee_portions::Portion;
use std::alloc::{AllocError, Global};

/// The sheet of portions: CSV with the header `row,usage,work,title,territory,right,amount,share,base,portion`, and a
/// row for each portion, in their order. Amounts are minor units, share and base hundredths of a per cent. Bytes of a
/// title that cannot be seen stand by their digits, as `\x1b`; and no text begins a formula.
pub fn sheet_of(alloc: Global, portions: &[Portion<'_>]) -> Result<Vec<u8>, AllocError>
    ensures text { IfOk result (λ text. text.items ≡ text_of (sheet_rows (portions_shown portions.now))) }
{
    let mut rows = RowWriter::new(alloc);
    add_header(&mut rows)?;
    for place in 0..portions.len() {
        add_portion(alloc, &mut rows, &portions[place])?;
    }
    rows.into_text()
}

/// Adds the header.
fn add_header(rows: &mut RowWriter) -> Result<(), AllocError>
    ensures { OnOk result (rows.new.text ≡ rows.old.text ++ text_of_row sheet_header) }
{
    rows.row(&[
        b"row",
        b"usage",
        b"work",
        b"title",
        b"territory",
        b"right",
        b"amount",
        b"share",
        b"base",
        b"portion",
    ])
}

/// Adds the row of a portion.
fn add_portion(alloc: Global, rows: &mut RowWriter, portion: &Portion<'_>) -> Result<(), AllocError>
    ensures { OnOk result (rows.new.text ≡ rows.old.text ++ text_of_row (sheet_row (portion_shown portion.now))) }
{
    let usage = guarded_text(alloc, portion.line.usage)?;
    let work = guarded_text(alloc, portion.line.work)?;
    let title = title_text(alloc, portion.title)?;
    add_fields(
        rows,
        portion,
        usage.as_slice(),
        work.as_slice(),
        title.as_slice(),
        right_word(portion.line.right).as_bytes(),
    )
}

/// Adds the row of a portion, whose texts stand as they are to be read.
fn add_fields<'a>(
    rows: &mut RowWriter,
    portion: &Portion<'_>,
    usage: &'a [u8],
    work: &'a [u8],
    title: &'a [u8],
    right: &'a [u8],
) -> Result<(), AllocError>
    requires usage { usage.now ≡ guarded portion.now.line.usage.now }
    requires work { work.now ≡ guarded portion.now.line.work.now }
    requires title { title.now ≡ guarded (shown portion.now.title.now) }
    requires right { right.now ≡ right_text portion.now.line.right }
    ensures { OnOk result (rows.new.text ≡ rows.old.text ++ text_of_row (sheet_row (portion_shown portion.now))) }
{
    let mut row = Buffer::new();
    let mut territory = Buffer::new();
    let mut amount = Buffer::new();
    let mut share = Buffer::new();
    let mut base = Buffer::new();
    let mut own = Buffer::new();
    rows.row(&[
        row.format(portion.row).as_bytes(),
        usage,
        work,
        title,
        territory.format(portion.line.territory).as_bytes(),
        right,
        amount.format(portion.line.amount).as_bytes(),
        share.format(portion.share).as_bytes(),
        base.format(portion.base).as_bytes(),
        own.format(portion.amount).as_bytes(),
    ])
}

/// A text that begins no formula.
fn guarded_text(alloc: Global, text: &[u8]) -> Result<Vec<u8>, AllocError>
    ensures { IfOk result (λ field. field.items ≡ guarded text.now) }
{
    let mut field = Vec::with_capacity(alloc, text.len())?;
    add_guarded(&mut field, text)?;
    Ok(field)
}

/// A title as a reader sees it, which begins no formula.
fn title_text(alloc: Global, title: &[u8]) -> Result<Vec<u8>, AllocError>
    ensures { IfOk result (λ field. field.items ≡ guarded (shown title.now)) }
{
    let mut text = Vec::with_capacity(alloc, title.len())?;
    add_shown(&mut text, title)?;
    guarded_text(alloc, text.as_slice())
}
