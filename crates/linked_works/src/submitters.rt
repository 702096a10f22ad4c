//! The names of submitters, and what stands behind them.

ghost use Rattle.std.specs.Prelude.{◌≡◌, ◌↔◌, ◌≤◌, ◌<◌, ◌++◌, ◌∷◌, ℕ, [], Contains, IfNone, IfOk, IfSome, IsTrue, OnErr, if◌then◌else◌, length, slice_index_or};
ghost use Rattle.cwr_share.specs.Joined.{qualified as qualified_text};
ghost use Rattle.cwr_share.specs.declared.numbers.TheConstants.{MOST_SUBMITTER_BYTES};
ghost use Rattle.cwr_share.specs.declared.payees.TheConstants.{MOST_NAME_BYTES};
ghost use Rattle.linked_works.specs.Rows.{names_by};
ghost use Rattle.linked_works.specs.Submitters.{AreSubmitters, IsNameByte, IsSubmitter};

use arrayvec::ArrayVec;
use cwr_share::{MOST_NAME_BYTES, MOST_SUBMITTER_BYTES};
use std::alloc::{AllocError, Global};
use std::marker::Model;

/// The most bytes of a submitter, a colon, and the name of a party or the number of a registration.
const MOST_QUALIFIED_BYTES: usize = MOST_SUBMITTER_BYTES + 1 + MOST_NAME_BYTES;

/// The names of submitters, each once, in the order in which they were added.
#[derive(Drop)]
pub struct Submitters {
    names: Vec<Vec<u8>>,
}

impl Model for Submitters {
    ghost use Rattle.std.specs.Prelude.{ℕ, List};
    ghost use Rattle.linked_works.specs.Rows.{names_by};
    ghost use Rattle.linked_works.specs.Submitters.{AreSubmitters};

    ghost Value = { List (List ℕ) };

    ghost view = { λ s. names_by s.names.items };

    ghost invariant = { λ s. AreSubmitters (names_by s.names.items) };
}

impl Submitters {
    /// No names.
    pub fn none(alloc: Global) -> Submitters
        ensures { result ≡ [] }
    {
        Submitters {
            names: Vec::new(alloc),
        }
    }

    /// Adds a name. Answers whether it was: a text that can be no name, or that is among the names, is not. Where memory
    /// is refused the names stay as they were.
    pub fn add(&mut self, alloc: Global, name: &[u8]) -> Result<bool, AllocError>
        ensures added { IfOk result (λ added. IsTrue added ↔ (IsSubmitter name.now × ¬ Contains self.old name.now)) }
        ensures names { IfOk result (λ added. self.new ≡ (if added then self.old ++ name.now ∷ [] else self.old)) }
        ensures unchanged { OnErr result (self.new ≡ self.old) }
    {
        if !is_submitter(name) {
            return Ok(false);
        }
        match place_of(self.names.as_slice(), name) {
            Some(_) => Ok(false),
            None => {
                self.names.push(Vec::from_slice(alloc, name)?)?;
                Ok(true)
            }
        }
    }

    /// The names, by place.
    pub fn as_slice(&self) -> &[Vec<u8>]
        ensures names { names_by result.now ≡ self.now }
        ensures sound { AreSubmitters self.now }
    {
        self.names.as_slice()
    }
}

/// Whether a text can be the name of a submitter: 1 to 16 letters, digits, `_` and `-`, with no `-` first.
pub fn is_submitter(name: &[u8]) -> bool
    ensures { IsTrue result ↔ IsSubmitter name.now }
{
    !name.is_empty()
        && name.len() <= MOST_SUBMITTER_BYTES
        && name.iter().all(|byte| is_name_byte(*byte))
        && name[0] != b'-'
}

/// Whether a byte is a letter, a digit, `_` or `-`.
fn is_name_byte(byte: u8) -> bool
    ensures { IsTrue result ↔ IsNameByte byte }
{
    byte.is_ascii_alphanumeric() || byte == b'_' || byte == b'-'
}

/// The place of a name.
pub(crate) fn place_of(names: &[Vec<u8>], name: &[u8]) -> Option<usize>
    ensures some { IfSome result (λ place. (place < length names.now)
        × (slice_index_or (names_by names.now) place [] ≡ name.now)) }
    ensures none { IfNone result ((place : ℕ) → place < length names.now
        → ¬ (slice_index_or (names_by names.now) place [] ≡ name.now)) }
{
    for place in 0..names.len() {
        if names[place].as_slice() == name {
            return Some(place);
        }
    }
    None
}

/// A text behind the name of a submitter and a colon.
pub(crate) fn qualified(submitter: &[u8], text: &[u8]) -> ArrayVec<u8, MOST_QUALIFIED_BYTES>
    requires submitter { length submitter.now ≤ MOST_SUBMITTER_BYTES }
    requires text { length text.now ≤ MOST_NAME_BYTES }
    ensures { result.items ≡ qualified_text submitter.now text.now }
{
    let mut name: ArrayVec<u8, MOST_QUALIFIED_BYTES> = ArrayVec::try_from(submitter).unwrap();
    name.push(b':');
    name.try_extend_from_slice(text).unwrap();
    name
}
