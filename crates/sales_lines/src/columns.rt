//! Words that say where a value stands.

ghost use Rattle.std.specs.Prelude.{◌≡◌, ◌≤◌, ◌<◌, ◌+◌, ◌^◌, ◌∷◌, List, ℕ, IfErr, IfNone, IfOk, IfSome, option_map};
ghost use Rattle.sales_lines.specs.Columns.{IsInHeader, IsNamed, IsNotOne, IsOnlyNamed, IsPlaceWord, IsSourceOf};
ghost use Rattle.sales_lines.specs.Columns.{IsWordFault, place_of};
ghost use Rattle.sales_lines.specs.declared.column_fault.ColumnFault.TheVariants as faults;
ghost use Rattle.sales_lines.specs.declared.source.Source.TheVariants.{Place};

use crate::{ColumnFault, Source};
use csv_table::forms::number_up_to;
use export_rows::Row;
use std::alloc::Global;

/// The most columns that are counted.
pub const MOST_COLUMNS: u64 = 65_536;

impl Source {
    /// Where a value stands, by a word: `#7` is the seventh field, which a header has to have; `=TEXT` is this text in every row, and any other is
    /// the name of a column in the header. A name that begins with `=`, or is `#` and a number, has to be given by its
    /// place.
    pub fn of(alloc: Global, word: &[u8], header: Option<&Row>) -> Result<Source, ColumnFault>
        ensures source { IfOk result (IsSourceOf (option_map (λ row. row.now) header.entry) word.now) }
        ensures fault { IfErr result (IsWordFault (option_map (λ row. row.now) header.entry) word.now) }
    {
        if let Some(place) = place_in(word) {
            return within(place, header);
        }
        if let Some(text) = text_in(word) {
            return Ok(Source::Text(Vec::from_slice(alloc, text)?));
        }
        let Some(row) = header else {
            return Err(ColumnFault::NoHeader);
        };
        match named(row, word) {
            Ok(place) => Ok(Source::Place(place)),
            Err(fault) => Err(fault),
        }
    }
}

/// A place, which a header has to have.
fn within(place: usize, header: Option<&Row>) -> Result<Source, ColumnFault>
    ensures source { IfOk result (λ source. (source ≡ Place place)
        × IsInHeader (option_map (λ row. row.now) header.entry) place) }
    ensures fault { IfErr result (λ fault. (fault ≡ faults.None)
        × ¬ IsInHeader (option_map (λ row. row.now) header.entry) place) }
{
    match header {
        Some(row) if place >= row.len() => Err(ColumnFault::None),
        _ => Ok(Source::Place(place)),
    }
}

/// The place that a word of a sign and a number says, from 0.
fn place_in(word: &[u8]) -> Option<usize>
    ensures place { IfSome result (λ place. IsPlaceWord word.now × (place ≡ place_of word.now)) }
    ensures none { IfNone result (¬ IsPlaceWord word.now) }
{
    match word {
        [b'#', digits @ ..] => match number_up_to(digits, MOST_COLUMNS) {
            Some(number) if number > 0 => Some(number as usize - 1),
            _ => None,
        },
        _ => None,
    }
}

/// The text behind a sign of equality.
fn text_in(word: &[u8]) -> Option<&[u8]>
    ensures text { IfSome result (λ text. word.now ≡ 61 ∷ text.now) }
    ensures none { IfNone result ((text : List ℕ) → ¬ (word.now ≡ 61 ∷ text)) }
{
    match word {
        [b'=', text @ ..] => Some(text),
        _ => None,
    }
}

/// The place of the only field of a header with a name.
fn named(header: &Row, name: &[u8]) -> Result<usize, ColumnFault>
    ensures place { IfOk result (IsOnlyNamed header.now name.now) }
    ensures fault { IfErr result (IsNotOne header.now name.now) }
{
    let Some(place) = named_from(header, name, 0) else {
        return Err(ColumnFault::None);
    };
    match named_from(header, name, place + 1) {
        None => Ok(place),
        Some(_) => Err(ColumnFault::Many),
    }
}

/// The first place from one on at which a field of a header has a name.
fn named_from(header: &Row, name: &[u8], first: usize) -> Option<usize>
    ensures found { IfSome result (λ place. (first ≤ place) × IsNamed header.now name.now place) }
    ensures small { IfSome result (λ place. place + 1 < 2 ^ 64) }
    ensures before { IfSome result (λ place.
        (other : ℕ) → first ≤ other → other < place → ¬ IsNamed header.now name.now other) }
    ensures none { IfNone result ((other : ℕ) → first ≤ other → ¬ IsNamed header.now name.now other) }
{
    for place in first..header.len() {
        if header.field(place) == name {
            return Some(place);
        }
    }
    None
}
