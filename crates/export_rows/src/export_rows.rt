//! The rows of an export.

ghost use Rattle.std.specs.Prelude.{◌≡◌, [], IfOk, false, true};
ghost use Rattle.export_rows.specs.Places.{HasEnded, HasRead, Takes};

use crate::retrying::Retrying;
use crate::{Delimiter, Row, RowFault};
use csv::{ErrorKind, Reader, ReaderBuilder};
use std::alloc::Global;
use std::io::Read;
use std::marker::Model;

/// The rows of an export, read one by one through a small buffer: the row at hand, and what is unread.
#[derive(Drop)]
pub struct ExportRows<R: Read> {
    reader: Reader<Retrying<R>>,
    row: Row,
}

impl<R: Read> Model for ExportRows<R> {
    ghost use Rattle.std.specs.Prelude.{◌≡◌, false, true};
    ghost use Rattle.csv.specs.Reading.{Ready, has_failed, is_flexible, reader_config, reader_state, reader_trim, source_of};
    ghost use Rattle.csv.specs.declared.reader.Trim.TheVariants as trim;
    ghost use Rattle.export_rows.specs.Places.{Place};

    ghost Value = { Place };

    ghost view = { λ b. record {
      row = b.row;
      config = reader_config b.reader;
      state = reader_state b.reader;
      unread = source_of (λ from. R.remaining from.inner) b.reader;
    } };

    ghost invariant = { λ b. has_failed b.reader ≡ false → (reader_trim b.reader ≡ trim.None) × Ready b.reader
        × (is_flexible b.reader ≡ true) };
}

impl<R: Read> ExportRows<R> {
    /// The rows of what a reader gives, before the first. A byte order mark at its start does not count.
    pub fn of(alloc: Global, delimiter: Delimiter, from: R) -> ExportRows<R>
        ensures none { HasRead delimiter (R.remaining from) [] result }
        ensures row { result.row ≡ [] }
    {
        ExportRows {
            reader: ReaderBuilder::new()
                .delimiter(delimiter.byte())
                .has_headers(false)
                .flexible(true)
                .from_reader(alloc, Retrying::of(from)),
            row: Row::none(alloc),
        }
    }

    /// Goes on to the next row, and answers whether there was one. Lines without a byte are no rows.
    pub fn next(&mut self) -> Result<bool, RowFault>
        ensures found { IfOk result (λ found. found ≡ true → Takes self.old self.new) }
        ensures end { IfOk result (λ found. found ≡ false → HasEnded self.old) }
    {
        match self.reader.read_byte_record(&mut self.row.fields) {
            Ok(found) => Ok(found),
            Err(error) => match error.into_kind() {
                ErrorKind::Io(error) => Err(RowFault::Refused(error)),
                _ => Err(RowFault::Memory),
            },
        }
    }

    /// The row at hand.
    pub fn row(&self) -> &Row
        ensures { result.now ≡ self.now.row }
    {
        &self.row
    }
}
