//! What the values of an export become.

ghost use Rattle.std.specs.Prelude.{◌≡◌, ◌↔◌, IsTrue};
ghost use Rattle.line_split.specs.UsageLine.{IsRight};
ghost use Rattle.value_maps.specs.Maps.{IsValue, fault_of};

use crate::MapFault;
use csv_table::forms::{code, is_printable};
use line_split::MOST_TEXT_BYTES;

/// What a table is of, and so what stands in its second column.
#[derive(Clone, Copy, Debug, PartialEq, Eq)]
pub enum Kind {
    /// Works, as usage lines name them.
    Works,
    /// Territories by their TIS numeric codes.
    Territories,
    /// The rights `P`, `M` and `S`.
    Rights,
}

impl Kind {
    /// Whether a field is such a value.
    pub fn takes(self, field: &[u8]) -> bool
        ensures { IsTrue result ↔ IsValue self field.now }
    {
        match self {
            Kind::Works => is_printable(field, MOST_TEXT_BYTES),
            Kind::Territories => code(field).is_some(),
            Kind::Rights => is_right(field),
        }
    }

    /// What a row is refused for whose second field is no such value.
    pub(crate) fn fault(self, row: u64) -> MapFault
        ensures { result ≡ fault_of self row }
    {
        match self {
            Kind::Works => MapFault::Work(row),
            Kind::Territories => MapFault::Territory(row),
            Kind::Rights => MapFault::Right(row),
        }
    }
}

/// Whether a field is the letter of a right.
fn is_right(field: &[u8]) -> bool
    ensures { IsTrue result ↔ IsRight field.now }
{
    field == b"P".as_slice() || field == b"M".as_slice() || field == b"S".as_slice()
}
