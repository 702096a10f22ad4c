//! What a run passes over without a word: share lines of territories that its table does not have, and payees of parties that
//! nobody is.

ghost use Rattle.std.specs.Prelude.{◌≡◌, ◌+◌, ◌∷◌, ◌++◌, ◌&&◌, ◌<◌, ◌^◌, [], ℕ, List, false, if◌then◌else◌, true};
ghost use Rattle.cwr_share.specs.CwrFile.{AreSound, IsSound};
ghost use Rattle.cwr_share.specs.Fields.{HasLand};
ghost use Rattle.cwr_share.specs.Lines.{lines_of};
ghost use Rattle.cwr_share.specs.PassedOver.{IsScanOf, IsTallyOf, is_unknown_share, unknown_lines, unused_rows};
ghost use Rattle.cwr_share.specs.Records.{ends_registration, is_share_line, opens_registration, share_fields};

use crate::fields::{SPT, SWT};
use crate::lines::Lines;
use crate::record_type::record_type_of;
use crate::share_line::territory;
use crate::{Payees, RecordType, Registry};
use arrayvec::ArrayVec;
use tis_tree::TisTable;

/// The most lines or rows of a kind that are named.
pub const MOST_NAMED: usize = 10;

/// How many lines or rows there are of some kind, and the numbers of the first ten.
#[derive(Debug, Drop)]
pub struct Tally {
    /// How many there are.
    pub count: u64,
    /// The numbers of the first ten, or of all where they are fewer, from 1 and in order.
    pub first: ArrayVec<u64, MOST_NAMED>,
}

/// The share lines of registrations, replaced ones too, whose territory the table does not have, in a file without faults. A run reads
/// them, and they match no usage line.
pub fn unknown_territories(bytes: &[u8], table: &TisTable) -> Tally
    requires { AreSound (lines_of bytes.now) }
    ensures { IsTallyOf (unknown_lines table.now (lines_of bytes.now)) result }
{
    let mut scan = Scan {
        number: 0,
        is_open: false,
        tally: Tally::none(),
    };
    let mut lines = Lines::of(bytes);
    while let Some(line) = lines.next() {
        scan.add(line, table);
    }
    scan.tally
}

/// The rows of a table of payees whose party no registration in force has. A run has no use for them.
pub fn unused_payees(payees: &Payees, registry: &Registry) -> Tally
    ensures { IsTallyOf (unused_rows registry.now payees.now) result }
{
    let mut tally = Tally::none();
    for place in 0..payees.len() {
        if registry.payee_of(payees.party(place)).is_none() {
            tally.add(place as u64 + 1);
        }
    }
    tally
}

impl Tally {
    /// None so far.
    pub fn none() -> Tally
        ensures { IsTallyOf [] result }
    {
        Tally {
            count: 0,
            first: ArrayVec::new(),
        }
    }

    /// Adds the next, which has this number.
    pub fn add(&mut self, number: u64)
        requires { self.old.count + 1 < 2 ^ 64 }
        ensures { (numbers : List ℕ) → IsTallyOf numbers self.old → IsTallyOf (numbers ++ number ∷ []) self.new }
    {
        self.count += 1;
        if self.first.len() < MOST_NAMED {
            self.first.push(number);
        }
    }
}

/// The lines of a file so far.
#[derive(Drop)]
struct Scan {
    /// How many there are.
    number: u64,
    /// Whether a registration is open after them.
    is_open: bool,
    /// Those of them that are share lines of a registration whose territory the table does not have.
    tally: Tally,
}

impl Scan {
    /// Goes on by the next line.
    fn add(&mut self, line: &[u8], table: &TisTable)
        requires sound { (lines : List (List ℕ)) × IsScanOf table.now lines self.old × IsSound lines line.now }
        requires few { self.old.number + 1 < 2 ^ 64 }
        ensures { (lines : List (List ℕ)) → IsScanOf table.now lines self.old → IsScanOf table.now (lines ++ line.now ∷ []) self.new }
    {
        self.number += 1;
        let is_unknown = self.is_open && is_of_unknown_territory(line, table);
        self.is_open = is_open_behind(self.is_open, line);
        if is_unknown {
            self.tally.add(self.number);
        }
    }
}

/// Whether a registration is open behind a line, by whether one is open before it.
fn is_open_behind(is_open: bool, line: &[u8]) -> bool
    ensures { result ≡ (if ends_registration line.now then opens_registration line.now else is_open) }
{
    match record_type_of(line) {
        RecordType::Registration => true,
        RecordType::Closing => false,
        _ => is_open,
    }
}

/// Whether a line is a share line whose territory the table does not have.
fn is_of_unknown_territory(line: &[u8], table: &TisTable) -> bool
    requires { is_share_line line.now ≡ true → HasLand (share_fields line.now) line.now }
    ensures { result ≡ is_unknown_share table.now line.now }
{
    let fields = match record_type_of(line) {
        RecordType::PublisherShare => SPT,
        RecordType::WriterShare => SWT,
        _ => return false,
    };
    match territory(fields.territory.of(line)) {
        Some(code) => !table.known(code),
        None => unreachable!(),
    }
}
