//! Rows on their way to a file.

ghost use Rattle.std.specs.Io.KnownBytes.{Appends};
ghost use Rattle.std.specs.Prelude.{◌≡◌, ◌<◌, ◌∷◌, IfErr, IfOk, OnOk, map};
ghost use Rattle.csv_table.specs.Written.{page_bytes, text_of_row};
ghost use Rattle.sales_import.specs.Imported.{line_header, line_row, output, reject_header, reject_row, sold_of};
ghost use Rattle.sales_import.specs.SoFar.{IsOfLines, IsOfRejected, IsOfRows};

use crate::{ImportFault, words};
use csv_table::RowWriter;
use export_rows::Row;
use itoa::Buffer;
use sales_lines::{Reason, SalesLine};
use std::alloc::{AllocError, Global};
use std::io::{self, Write};

/// Adds the row of a usage line, and passes on a page that is full.
pub(crate) fn push_line<W: Write>(
    page: &mut RowWriter,
    out: &mut W,
    line: &SalesLine<'_>,
) -> Result<(), ImportFault>
    ensures row { OnOk result (Appends (output W.contents out.old page.old) (output W.contents out.new page.new)
        (text_of_row (line_row (sold_of line.now)))) }
    ensures part { OnOk result (page.new.ready < page_bytes) }
    ensures fault { IfErr result IsOfRows }
    ensures lines { IfErr result IsOfLines }
{
    let mut digits = Buffer::new();
    let amount = digits.format(line.amount).as_bytes();
    page.row(&[line.usage, line.work, line.territory, line.right, amount])?;
    match page.write_full_page_to(out) {
        Ok(()) => Ok(()),
        Err(error) => Err(ImportFault::Lines(error)),
    }
}

/// Adds the row of one that is rejected, and passes on a page that is full.
pub(crate) fn push_reject<W: Write>(
    alloc: Global,
    page: &mut RowWriter,
    out: &mut W,
    number: u64,
    reason: Reason,
    row: &Row,
) -> Result<(), ImportFault>
    ensures row { OnOk result (Appends (output W.contents out.old page.old) (output W.contents out.new page.new)
        (text_of_row (reject_row number reason row.now))) }
    ensures part { OnOk result (page.new.ready < page_bytes) }
    ensures fault { IfErr result IsOfRows }
    ensures rejected { IfErr result IsOfRejected }
{
    let mut digits = Buffer::new();
    let number = digits.format(number).as_bytes();
    let fields = fields_of(alloc, number, words(reason).as_bytes(), row)?;
    page.row(fields.as_slice())?;
    match page.write_full_page_to(out) {
        Ok(()) => Ok(()),
        Err(error) => Err(ImportFault::Rejects(error)),
    }
}

/// Writes the header of the usage lines.
pub(crate) fn write_line_header<W: Write>(alloc: Global, out: &mut W) -> Result<(), ImportFault>
    ensures header { OnOk result (Appends (W.contents out.old) (W.contents out.new) (text_of_row line_header)) }
    ensures fault { IfErr result IsOfRows }
    ensures lines { IfErr result IsOfLines }
{
    match write_row(
        alloc,
        out,
        &[b"usage", b"work", b"territory", b"right", b"amount"],
    ) {
        Ok(()) => Ok(()),
        Err(error) => Err(ImportFault::Lines(error)),
    }
}

/// Writes the header of the rejected rows, by that of the export.
pub(crate) fn write_reject_header<W: Write>(
    alloc: Global,
    out: &mut W,
    header: &Row,
) -> Result<(), ImportFault>
    ensures header { OnOk result (Appends (W.contents out.old) (W.contents out.new)
        (text_of_row (reject_header header.now))) }
    ensures fault { IfErr result IsOfRows }
    ensures rejected { IfErr result IsOfRejected }
{
    let fields = fields_of(alloc, b"rejected_row", b"rejected_since", header)?;
    match write_row(alloc, out, fields.as_slice()) {
        Ok(()) => Ok(()),
        Err(error) => Err(ImportFault::Rejects(error)),
    }
}

/// Writes a row.
fn write_row<W: Write>(alloc: Global, out: &mut W, fields: &[&[u8]]) -> io::Result<()>
    ensures { OnOk result (Appends (W.contents out.old) (W.contents out.new)
        (text_of_row (map (λ field. field.now) fields.now))) }
{
    let mut page = RowWriter::new(alloc);
    page.row(fields)?;
    page.write_to(out)
}

/// Two fields, and then those of a row.
fn fields_of<'a>(
    alloc: Global,
    first: &'a [u8],
    second: &'a [u8],
    row: &'a Row,
) -> Result<Vec<&'a [u8]>, AllocError>
    ensures { IfOk result (λ fields. map (λ field. field.now) fields.items ≡ first.now ∷ second.now ∷ row.now) }
{
    let mut fields = Vec::new(alloc);
    fields.push(first)?;
    fields.push(second)?;
    for place in 0..row.len() {
        fields.push(row.field(place))?;
    }
    Ok(fields)
}
