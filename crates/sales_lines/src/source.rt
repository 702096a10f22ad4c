//! Where a value of a row stands.

ghost use Rattle.std.specs.Prelude.{◌≡◌, ◌↔◌, All, IsTrue};
ghost use Rattle.sales_lines.specs.Sources.{IsThere, text_from};

use export_rows::Row;

/// Where a value of each row stands.
#[derive(Drop)]
pub enum Source {
    /// In the field at this place, from 0.
    Place(usize),
    /// Nowhere: it is this text in every row.
    Text(Vec<u8>),
}

impl Source {
    /// The value in a row, empty where the row is too short to have it.
    pub fn text<'a>(&'a self, row: &'a Row) -> &'a [u8]
        ensures { result.now ≡ text_from self.now row.now }
    {
        match self {
            Source::Place(place) => row.field(*place),
            Source::Text(text) => text.as_slice(),
        }
    }

    /// Whether a row has the field.
    pub(crate) fn is_there(&self, row: &Row) -> bool
        ensures { IsTrue result ↔ IsThere row.now self.now }
    {
        match self {
            Source::Place(place) => *place < row.len(),
            Source::Text(_) => true,
        }
    }
}

/// Whether a row has all these fields.
pub(crate) fn are_there(sources: &[Source], row: &Row) -> bool
    ensures { IsTrue result ↔ All (IsThere row.now) sources.now }
{
    match sources {
        [] => true,
        [first, others @ ..] => first.is_there(row) && are_there(others, row),
    }
}
