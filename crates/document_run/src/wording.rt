//! What documents say of a distribution that its inputs don't.

use document_names::TerritoryNames;

/// What documents say of a distribution that its inputs don't.
#[derive(Clone, Copy)]
pub struct Wording<'a> {
    /// What it is called.
    pub title: &'a [u8],
    /// The currency of its amounts; none where it is empty.
    pub currency: &'a [u8],
    /// How many decimal places amounts have: 0 to 9.
    pub decimals: u32,
    /// The names of territories.
    pub territories: &'a TerritoryNames,
}
