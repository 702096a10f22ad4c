//! Share lines: who collects which share of a work, in which territory.

ghost use Rattle.std.specs.Prelude.{◌≡◌, ◌↔◌, ◌<◌, ◌≤◌, ◌+◌, ◌==◌, [], ℕ, List, IfOk, IfErr, IfSome, IfNone, IsTrue, Some, length, not, reverse, slice_index, slice_index_or};
ghost use Rattle.csv_table.specs.Forms.{IsCode, number_of};
ghost use Rattle.cwr_share.specs.CwrFile.{IsFaultOfShare, IsShareRecord, place_of_fault};
ghost use Rattle.cwr_share.specs.Fields.{HasShares, IsFilled, IsMark, IsShare, field_of, share_of, trimmed as trimmed_text, without_spaces_before as from_first_byte};
ghost use Rattle.cwr_share.specs.Registrations.{share_line_of};
ghost use Rattle.cwr_share.specs.ClaimsOn.{is_alike, share_for};
ghost use Rattle.cwr_share.specs.Filed.{recorded_share};
ghost use Rattle.cwr_share.specs.Compiled.{line_by};
ghost use Rattle.cwr_share.specs.Joined.{of_submitter};
ghost use Rattle.cwr_share.specs.declared.numbers.TheConstants.{MOST_PARTY_BYTES, MOST_SUBMITTER_BYTES};

use crate::fields::ShareFields;
use crate::numbers::{PartyName, in_place, qualified};
use crate::{CwrFault, MOST_SHARES};
use csv_table::forms::{code, number_up_to};
use line_split::{FULL_SHARE, Right};
use std::marker::Model;
use tis_tree::Code;

/// What a party collects in a territory, in hundredths of a per cent, or that it collects nothing
/// there.
#[derive(Drop)]
pub struct ShareRecord {
    /// How many interests were opened before it in its registration.
    pub(crate) interest: usize,
    /// The interested party number.
    pub(crate) party: PartyName,
    pub(crate) shares: CollectionShares,
    /// Whether the territory is included or excluded.
    pub(crate) includes: bool,
    pub(crate) territory: Code,
}

/// A share line as a registration keeps it: with the number of its party.
#[derive(Clone, Copy)]
pub(crate) struct RegisteredShare {
    pub(crate) interest: usize,
    pub(crate) party: usize,
    pub(crate) shares: CollectionShares,
    pub(crate) includes: bool,
    pub(crate) territory: Code,
}

/// The collection shares of a share line, in hundredths of a per cent.
#[derive(Clone, Copy, Debug, PartialEq, Eq)]
pub(crate) struct CollectionShares {
    pub(crate) performing: u16,
    pub(crate) mechanical: u16,
    pub(crate) synchronisation: u16,
}

impl Model for ShareRecord {
    ghost use Rattle.cwr_share.specs.Registrations.{ShareLine};

    ghost Value = { ShareLine };

    ghost view = { λ s. record {
      interest = s.interest;
      party = s.party.items;
      performing = s.shares.performing;
      mechanical = s.shares.mechanical;
      synchronisation = s.shares.synchronisation;
      includes = s.includes;
      territory = s.territory;
    } };
}

impl ShareRecord {
    /// Reads a share line, which has this number, below so many others of its registration.
    pub(crate) fn read(
        line: &[u8],
        number: u64,
        fields: &ShareFields,
        interest: usize,
        earlier: usize,
    ) -> Result<ShareRecord, CwrFault>
        requires party { fields.now.party.last < fields.now.party.first + MOST_PARTY_BYTES }
        ensures share { IfOk result (λ share. IsShareRecord earlier fields.now line.now × (share ≡ share_line_of interest fields.now line.now)) }
        ensures fault { IfErr result (λ fault. IsFaultOfShare earlier fields.now line.now number fault) }
        ensures placed { IfErr result (λ fault. place_of_fault fault ≡ Some number) }
    {
        if line.len() < fields.territory.last {
            return Err(CwrFault::Short(number));
        }
        let party = fields.party.of(line);
        if !is_filled(party) {
            return Err(CwrFault::Party(number));
        }
        let Some(shares) = shares_written(line, fields) else {
            return Err(CwrFault::Share(number));
        };
        let Some(includes) = includes(fields.mark.of(line)) else {
            return Err(CwrFault::Mark(number));
        };
        let Some(territory) = territory(fields.territory.of(line)) else {
            return Err(CwrFault::Land(number));
        };
        if earlier >= MOST_SHARES {
            return Err(CwrFault::Many(number));
        }
        Ok(ShareRecord {
            interest,
            party: in_place(trimmed(party)),
            shares,
            includes,
            territory,
        })
    }

    /// How many interests were opened before it in its registration: 0 for a line before the first SPU or SWR.
    pub fn interest(&self) -> usize
        ensures { result ≡ self.now.interest }
    {
        self.interest
    }

    /// The interested party number, without the spaces at its ends.
    pub fn party(&self) -> &[u8]
        ensures { result.now ≡ self.now.party }
    {
        self.party.as_slice()
    }

    /// The collection share for a right, in hundredths of a per cent, also of a line that excludes its territory.
    pub fn recorded(&self, right: Right) -> u16
        ensures { result ≡ recorded_share right self.now }
    {
        match right {
            Right::P => self.shares.performing,
            Right::M => self.shares.mechanical,
            Right::S => self.shares.synchronisation,
        }
    }

    /// What its party collects in the territory for a right: nothing where the territory is excluded.
    pub fn collected(&self, right: Right) -> u16
        ensures { result ≡ share_for right self.now }
    {
        if self.includes {
            self.recorded(right)
        } else {
            0
        }
    }

    /// Whether the territory is included or excluded.
    pub fn includes(&self) -> bool
        ensures { result ≡ self.now.includes }
    {
        self.includes
    }

    /// The TIS numeric code of the territory.
    pub fn territory(&self) -> Code
        ensures { result ≡ self.now.territory }
    {
        self.territory
    }

    /// Whether another share line is of the same interest and party.
    pub fn is_alike(&self, other: &ShareRecord) -> bool
        ensures { result ≡ is_alike self.now other.now }
    {
        self.interest == other.interest && self.party() == other.party()
    }

    /// The same share line behind those of other registrations, which have so many interests. None: there are more
    /// interests than memory could hold.
    pub(crate) fn behind(&self, submitter: &[u8], first: usize) -> Option<ShareRecord>
        requires submitter { length submitter.now ≤ MOST_SUBMITTER_BYTES }
        requires party { length self.now.party ≤ MOST_PARTY_BYTES }
        ensures { IfSome result (λ share. share ≡ of_submitter submitter.now first self.now) }
    {
        let interest = first.checked_add(self.interest)?;
        Some(ShareRecord {
            interest,
            party: qualified(submitter, self.party()),
            shares: self.shares,
            includes: self.includes,
            territory: self.territory,
        })
    }

    /// What is kept of it, where its party has this number.
    pub(crate) fn kept(&self, party: usize) -> RegisteredShare
        ensures line { (parties : List (List ℕ)) → slice_index_or parties party [] ≡ self.now.party → line_by parties result ≡ self.now }
        ensures party { result.party ≡ party }
    {
        RegisteredShare {
            interest: self.interest,
            party,
            shares: self.shares,
            includes: self.includes,
            territory: self.territory,
        }
    }
}

/// The three shares of a share line, where all of them are shares.
fn shares_written(line: &[u8], fields: &ShareFields) -> Option<CollectionShares>
    ensures some { IfSome result (λ shares. HasShares fields.now line.now
        × (shares.performing ≡ share_of (field_of fields.now.performing line.now))
        × (shares.mechanical ≡ share_of (field_of fields.now.mechanical line.now))
        × (shares.synchronisation ≡ share_of (field_of fields.now.synchronisation line.now))) }
    ensures none { IfNone result (¬ HasShares fields.now line.now) }
{
    Some(CollectionShares {
        performing: share_written(fields.performing.of(line))?,
        mechanical: share_written(fields.mechanical.of(line))?,
        synchronisation: share_written(fields.synchronisation.of(line))?,
    })
}

/// The share that a field writes: five spaces are 0.
fn share_written(field: &[u8]) -> Option<u16>
    ensures some { IfSome result (λ share. IsShare field.now × (share ≡ share_of field.now)) }
    ensures none { IfNone result (¬ IsShare field.now) }
{
    if field == b"     ".as_slice() {
        return Some(0);
    }
    let share = number_up_to(field, u64::from(FULL_SHARE))?;
    Some(share as u16)
}

/// Whether an indicator includes or excludes: a blank one includes.
fn includes(field: &[u8]) -> Option<bool>
    ensures some { IfSome result (λ includes. IsMark field.now × (includes ≡ not (slice_index field.now 0 == 69))) }
    ensures none { IfNone result (¬ IsMark field.now) }
{
    if field == b"I".as_slice() || field == b" ".as_slice() {
        Some(true)
    } else if field == b"E".as_slice() {
        Some(false)
    } else {
        None
    }
}

/// Whether a field is printable ASCII and not all spaces.
pub(crate) fn is_filled(field: &[u8]) -> bool
    ensures { IsTrue result ↔ IsFilled field.now }
{
    field.iter().all(|byte| *byte >= 32 && *byte <= 126) && !trimmed(field).is_empty()
}

/// The territory that a field names: a code of four digits.
pub(crate) fn territory(field: &[u8]) -> Option<Code>
    ensures some { IfSome result (λ territory. IsCode field.now × (territory ≡ number_of field.now)) }
    ensures none { IfNone result (¬ IsCode field.now) }
{
    Code::of(code(field)?)
}

/// A text without the spaces at both ends.
pub fn trimmed(text: &[u8]) -> &[u8]
    ensures { result.now ≡ trimmed_text text.now }
{
    without_spaces_after(without_spaces_before(text))
}

/// A text without the spaces before it.
fn without_spaces_before(text: &[u8]) -> &[u8]
    ensures { result.now ≡ from_first_byte text.now }
{
    for place in 0..text.len() {
        if text[place] != b' ' {
            return &text[place..];
        }
    }
    b""
}

/// A text without the spaces after it.
fn without_spaces_after(text: &[u8]) -> &[u8]
    ensures { result.now ≡ reverse (from_first_byte (reverse text.now)) }
{
    for count in 0..text.len() {
        let end = text.len() - count;
        if text[end - 1] != b' ' {
            return &text[..end];
        }
    }
    b""
}
