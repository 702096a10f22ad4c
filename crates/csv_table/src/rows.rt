//! The rows of a CSV text, one after another, in one pass.
//!
//! It is the crate `csv` with its default settings and no header handling: the first row is a row
//! like any other, and rows may have any number of fields.

ghost use Rattle.std.specs.Prelude.{◌≡◌, ◌≤◌, ◌+◌, ◌∷◌, ◌↔◌, [], true, false, IfOk, OnErr, IsTrue, length, map, slice_index_or};
ghost use Rattle.csv_table.specs.Table.{rows_of};

use csv::{ByteRecord, Reader, ReaderBuilder};
use std::alloc::{AllocError, Global};
use std::marker::Model;

/// The rows of a text: the one at hand, and those to come.
#[derive(Drop)]
pub struct Rows<'a> {
    reader: Reader<&'a [u8]>,
    row: ByteRecord,
    /// There are no more rows, or memory was refused.
    has_ended: bool,
}

impl<'a> Model for Rows<'a> {
    ghost use Rattle.std.specs.Prelude.{◌≡◌, false, [], if◌then◌else◌};
    ghost use Rattle.csv.specs.Reading.{Ready, default_config, has_failed, reader_config, reader_trim};
    ghost use Rattle.csv.specs.Records.{fields_of};
    ghost use Rattle.csv.specs.declared.reader.Trim.TheVariants as trim;
    ghost use Rattle.csv_table.specs.Walk.{Walk, rows_left};

    ghost Value = { Walk };

    ghost view = { λ b. record { row = fields_of b.row; left = if b.has_ended then [] else rows_left b.reader } };

    ghost invariant = { λ b. b.has_ended ≡ false → (reader_trim b.reader ≡ trim.None) × Ready b.reader × (reader_config b.reader ≡ default_config) × (has_failed b.reader ≡ false) };
}

impl<'a> Rows<'a> {
    /// The rows of a text, before the first.
    pub fn of(alloc: Global, text: &'a [u8]) -> Rows<'a>
        ensures left { result.left ≡ rows_of text.now }
        ensures row { result.row ≡ [] }
        ensures few { length result.left ≤ length text.now + 1 }
    {
        Rows {
            reader: ReaderBuilder::new()
                .has_headers(false)
                .flexible(true)
                .from_reader(alloc, text),
            row: ByteRecord::new(alloc),
            has_ended: false,
        }
    }

    /// Goes on to the next row, and answers whether there was one. Reading from memory fails only
    /// where memory does, and then there are no more rows.
    pub fn next(&mut self) -> Result<bool, AllocError>
        ensures found { IfOk result (λ found. found ≡ true → self.old.left ≡ self.new.row ∷ self.new.left) }
        ensures end { IfOk result (λ found. found ≡ false → (self.old.left ≡ []) × (self.new.left ≡ [])) }
        ensures refused { OnErr result (self.new.left ≡ []) }
    {
        if self.has_ended {
            return Ok(false);
        }
        let Ok(found) = self.reader.read_byte_record(&mut self.row) else {
            self.has_ended = true;
            return Err(AllocError);
        };
        self.has_ended = !found;
        Ok(found)
    }

    /// How many fields the row at hand has. Before the first row there is none.
    pub fn len(&self) -> usize
        ensures { result ≡ length self.now.row }
    {
        self.row.len()
    }

    /// The field at a place of the row at hand, empty where it has none there.
    pub fn field(&self, place: usize) -> &[u8]
        ensures { result.now ≡ slice_index_or self.now.row place [] }
    {
        match self.row.get(place) {
            Some(field) => field,
            None => b"",
        }
    }

    /// Whether the fields of the row at hand are these.
    pub fn is(&self, fields: &[&str]) -> bool
        ensures { IsTrue result ↔ (self.now.row ≡ map (λ field. field.now) fields.now) }
    {
        if self.len() != fields.len() {
            return false;
        }
        for place in 0..fields.len() {
            if self.field(place) != fields[place].as_bytes() {
                return false;
            }
        }
        true
    }
}
