//! The control records of a CWR 2.2 file, and whether what they count is so.

ghost use Rattle.std.specs.Prelude.{◌≡◌, ◌≤◌, ◌+◌, ◌<◌, ◌^◌, ◌∷◌, ◌++◌, [], ℕ, IfOk, List, OnOk, if◌then◌else◌};
ghost use Rattle.cwr_share.specs.Lines.{lines_of};
ghost use Rattle.cwr_share.specs.Fields.{field_of};
ghost use Rattle.file_form.specs.Types.{is_record};
ghost use Rattle.file_form.specs.Controls.{AreControlsOf, difference, found_in, is_trailer, number_in};
ghost use Rattle.file_form.specs.Controls.{opens_transaction, place_of};
ghost use Rattle.file_form.specs.SoFar.{AreNoted, HasRoom, IsPartOf, IsScanOf, KeepsRest, differences_of};
ghost use Rattle.file_form.specs.SoFar.{lines_behind, part_of};
ghost use Rattle.file_form.specs.declared.controls.Difference.{Difference};

use crate::types::is_type;
use csv_table::forms::number_up_to;
use cwr_share::fields::Field;
use cwr_share::{Lines, MOST_NAMED};
use std::alloc::{AllocError, Global};

/// Group count, of a transmission trailer (TRL).
pub const GROUPS: Field = Field { first: 4, last: 8 };

/// Transaction count, of a transmission trailer (TRL) and of a group trailer (GRT).
pub const TRANSACTIONS: Field = Field { first: 9, last: 16 };

/// Record count, of a transmission trailer (TRL) and of a group trailer (GRT): of all records, headers and trailers
/// too.
pub const RECORDS: Field = Field {
    first: 17,
    last: 24,
};

/// What a trailer counts.
#[derive(Clone, Copy, Debug, PartialEq, Eq)]
pub enum Counted {
    /// Groups, each with its GRH.
    Groups,
    /// Transactions, each with its AGR, NWR, REV, ISW, EXC or ACK.
    Transactions,
    /// Records: lines that are not empty.
    Records,
}

/// A number that a trailer says, and that is another.
#[derive(Clone, Copy, Debug)]
pub struct Difference {
    /// The number of the trailer's line, from 1.
    pub line: u64,
    /// It is the trailer of the file, TRL, and not that of a group, GRT.
    pub is_whole: bool,
    /// What it counts.
    pub counted: Counted,
    /// The number that it says, where it says one.
    pub says: Option<u64>,
    /// How many there are, from the last GRH on, or from the last HDR on.
    pub found: u64,
}

/// What is found of the control records of a file.
#[derive(Drop)]
pub struct Controls {
    /// How many numbers of trailers are not those of the file.
    pub count: u64,
    /// The first ten of them, or all where they are fewer.
    pub first: Vec<Difference>,
    /// The last record is the file's trailer, TRL.
    pub is_closed: bool,
}

/// Looks at the control records of a file. A run reads none of them.
pub fn control_counts(alloc: Global, bytes: &[u8]) -> Result<Controls, AllocError>
    ensures { IfOk result (AreControlsOf (lines_of bytes.now)) }
{
    let mut scan = Scan {
        number: 0,
        group: Part::none(),
        whole: Part::none(),
        controls: Controls {
            count: 0,
            first: Vec::with_capacity(alloc, MOST_NAMED)?,
            is_closed: false,
        },
    };
    let mut lines = Lines::of(bytes);
    while let Some(line) = lines.next() {
        scan.add(line)?;
    }
    Ok(scan.controls)
}

impl Controls {
    /// Notes one difference more.
    fn note(&mut self, difference: Difference) -> Result<(), AllocError>
        requires { self.old.count + 1 < 2 ^ 64 }
        ensures noted { OnOk result ((found : List Difference) → AreNoted found self.old
            → AreNoted (found ++ difference ∷ []) self.new) }
        ensures few { OnOk result (self.new.count ≤ self.old.count + 1) }
        ensures closed { OnOk result (self.new.is_closed ≡ self.old.is_closed) }
    {
        self.count += 1;
        if self.first.len() < MOST_NAMED {
            self.first.push(difference)?;
        }
        Ok(())
    }
}

/// The lines of a file so far.
#[derive(Drop)]
struct Scan {
    /// How many there are.
    number: u64,
    /// What there is from the last GRH on.
    group: Part,
    /// What there is from the last HDR on.
    whole: Part,
    controls: Controls,
}

impl Scan {
    /// Goes on by the next line.
    fn add(&mut self, line: &[u8]) -> Result<(), AllocError>
        requires lines { (lines : List (List ℕ)) × IsScanOf lines self.old }
        requires few { self.old.number + 1 < 2 ^ 64 }
        requires room { self.old.controls.count + 3 < 2 ^ 64 }
        ensures { OnOk result ((lines : List (List ℕ)) → IsScanOf lines self.old
            → IsScanOf (lines ++ line.now ∷ []) self.new) }
    {
        self.number += 1;
        self.group = self.group.behind(line, is_type(line, &["GRH"]));
        self.whole = self.whole.behind(line, is_type(line, &["HDR"]));
        self.controls.is_closed = is_closed_behind(self.controls.is_closed, line);
        self.compare_all(line)?;
        Ok(())
    }

    /// Compares what a line says with what there is, where it is a trailer.
    fn compare_all(&mut self, line: &[u8]) -> Result<(), AllocError>
        requires { self.old.controls.count + 3 < 2 ^ 64 }
        ensures noted { OnOk result ((group whole : List (List ℕ)) (found : List Difference)
            → IsPartOf group self.old.group → IsPartOf whole self.old.whole → AreNoted found self.old.controls
            → AreNoted (found ++ differences_of self.old.number line.now group whole) self.new.controls) }
        ensures rest { OnOk result (KeepsRest self.old self.new) }
    {
        if is_type(line, &["GRT"]) {
            self.compare(line, false, Counted::Transactions)?;
            self.compare(line, false, Counted::Records)?;
        } else if is_type(line, &["TRL"]) {
            self.compare(line, true, Counted::Groups)?;
            self.compare(line, true, Counted::Transactions)?;
            self.compare(line, true, Counted::Records)?;
        }
        Ok(())
    }

    /// Compares what a trailer says with what there is.
    fn compare(&mut self, line: &[u8], is_whole: bool, counted: Counted) -> Result<(), AllocError>
        requires { self.old.controls.count + 1 < 2 ^ 64 }
        ensures noted { OnOk result ((part : List (List ℕ)) (found : List Difference)
            → IsPartOf part (part_of is_whole self.old) → AreNoted found self.old.controls
            → AreNoted (found ++ difference is_whole self.old.number line.now part counted) self.new.controls) }
        ensures few { OnOk result (self.new.controls.count ≤ self.old.controls.count + 1) }
        ensures rest { OnOk result (KeepsRest self.old self.new) }
    {
        let found = self.part(is_whole).found(counted);
        let says = number_in(counted, line);
        if says != Some(found) {
            self.controls.note(Difference {
                line: self.number,
                is_whole,
                counted,
                says,
                found,
            })?;
        }
        Ok(())
    }

    /// The whole file so far, or the last group of it.
    fn part(&self, is_whole: bool) -> Part
        ensures { result ≡ part_of is_whole self.now }
    {
        if is_whole { self.whole } else { self.group }
    }
}

/// Whether the last record is a trailer, behind a line, by whether it is one before.
fn is_closed_behind(is_closed: bool, line: &[u8]) -> bool
    ensures { result ≡ (if is_record line.now then is_trailer line.now else is_closed) }
{
    if line.is_empty() {
        is_closed
    } else {
        is_type(line, &["TRL"])
    }
}

/// The number that a trailer says of what it counts, where it says one.
fn number_in(counted: Counted, line: &[u8]) -> Option<u64>
    ensures { result ≡ number_in (field_of (place_of counted) line.now) }
{
    number_up_to(field_counting(counted).of(line), u64::MAX)
}

/// Where a trailer says how many there are.
fn field_counting(counted: Counted) -> Field
    ensures { result ≡ place_of counted }
{
    match counted {
        Counted::Groups => GROUPS,
        Counted::Transactions => TRANSACTIONS,
        Counted::Records => RECORDS,
    }
}

/// A part of a file.
#[derive(Clone, Copy, Debug)]
struct Part {
    groups: u64,
    transactions: u64,
    records: u64,
}

impl Part {
    /// Nothing yet.
    fn none() -> Part
        ensures { IsPartOf [] result }
    {
        Part {
            groups: 0,
            transactions: 0,
            records: 0,
        }
    }

    /// The part behind the next line, with which another may begin.
    fn behind(self, line: &[u8], begins: bool) -> Part
        requires { HasRoom self }
        ensures { (lines : List (List ℕ)) → IsPartOf lines self → IsPartOf (lines_behind lines line.now begins) result }
    {
        if begins {
            Part::none().with(line)
        } else {
            self.with(line)
        }
    }

    /// The part with one line more.
    fn with(self, line: &[u8]) -> Part
        requires { HasRoom self }
        ensures { (lines : List (List ℕ)) → IsPartOf lines self → IsPartOf (lines ++ line.now ∷ []) result }
    {
        Part {
            groups: self.groups + u64::from(is_type(line, &["GRH"])),
            transactions: self.transactions + u64::from(opens_transaction(line)),
            records: self.records + u64::from(!line.is_empty()),
        }
    }

    /// How many there are of what a trailer counts.
    fn found(self, counted: Counted) -> u64
        ensures { (lines : List (List ℕ)) → IsPartOf lines self → result ≡ found_in counted lines }
    {
        match counted {
            Counted::Groups => self.groups,
            Counted::Transactions => self.transactions,
            Counted::Records => self.records,
        }
    }
}

/// Whether a line begins a transaction.
fn opens_transaction(line: &[u8]) -> bool
    ensures { result ≡ opens_transaction line.now }
{
    is_type(line, &["AGR", "NWR", "REV", "ISW", "EXC", "ACK"])
}
