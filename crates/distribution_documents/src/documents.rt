//! What the documents of a distribution are made of, and why there are none.

use document_names::{FirstTexts, TerritoryNames};
use page_parts::Distribution;
use settle_run::Divided;
use std::alloc::AllocError;
use thiserror::Error;

/// What the documents of a distribution are made of.
#[derive(Clone, Copy)]
pub struct Documents<'a> {
    /// The usage lines, divided.
    pub divided: &'a Divided,
    /// The titles of works, by what usage lines call them.
    pub titles: &'a FirstTexts,
    /// The names of all accounts; an account without one has an empty one.
    pub names: &'a [Vec<u8>],
    /// The names of territories.
    pub territories: &'a TerritoryNames,
    /// What all documents say of the distribution.
    pub distribution: Distribution<'a>,
}

/// Why documents are not written.
#[derive(Clone, Copy, Debug, PartialEq, Eq, Error)]
pub enum DocumentFault {
    /// Memory was refused.
    #[error("out of room")]
    Room,
    /// The folder refused a file.
    #[error("the folder cannot be written")]
    Refused,
}

impl From<AllocError> for DocumentFault {
    ghost use Rattle.std.specs.Prelude.{◌≡◌};
    ghost use Rattle.distribution_documents.specs.declared.documents.DocumentFault.TheVariants.{Room};

    ghost from_gives = { λ _ given. given ≡ Room };

    fn from(_: AllocError) -> DocumentFault {
        DocumentFault::Room
    }
}
