//! A row of an export.

ghost use Rattle.std.specs.Prelude.{◌≡◌, ◌↔◌, [], Any, IsTrue, length, slice_index_or};
ghost use Rattle.export_rows.specs.Places.{HasLineBreak, IsBlank, IsLineBreak};

use csv::ByteRecord;
use std::alloc::Global;
use std::marker::Model;

/// The fields of a row.
#[derive(Drop)]
pub struct Row {
    pub(crate) fields: ByteRecord,
}

impl Model for Row {
    ghost use Rattle.std.specs.Prelude.{ℕ, List};
    ghost use Rattle.csv.specs.Records.{fields_of};

    ghost Value = { List (List ℕ) };

    ghost view = { λ row. fields_of row.fields };
}

impl Row {
    /// A row without fields.
    pub(crate) fn none(alloc: Global) -> Row
        ensures { result ≡ [] }
    {
        Row {
            fields: ByteRecord::new(alloc),
        }
    }

    /// How many fields there are.
    pub fn len(&self) -> usize
        ensures { result ≡ length self.now }
    {
        self.fields.len()
    }

    /// The field at a place, from 0, empty where there is none.
    pub fn field(&self, place: usize) -> &[u8]
        ensures { result.now ≡ slice_index_or self.now place [] }
    {
        match self.fields.get(place) {
            Some(field) => field,
            None => b"",
        }
    }

    /// Whether a field has a byte that ends lines, as it may within quotes.
    pub fn has_line_break(&self) -> bool
        ensures { IsTrue result ↔ HasLineBreak self.now }
    {
        for place in 0..self.len() {
            if has_line_break(self.field(place)) {
                return true;
            }
        }
        false
    }

    /// Whether no field has a byte.
    pub fn is_blank(&self) -> bool
        ensures { IsTrue result ↔ IsBlank self.now }
    {
        for place in 0..self.len() {
            if !self.field(place).is_empty() {
                return false;
            }
        }
        true
    }
}

/// Whether a field has a byte that ends lines.
fn has_line_break(field: &[u8]) -> bool
    ensures { IsTrue result ↔ Any IsLineBreak field.now }
{
    field.iter().any(|byte| *byte == b'\n' || *byte == b'\r')
}
