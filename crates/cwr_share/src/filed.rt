//! Registrations as they stand in their file. A registry keeps no numbers of lines: the file is read again for the registration of
//! one work.

ghost use Rattle.std.specs.Prelude.{◌≡◌, ◌≤◌, ◌+◌, ◌∷◌, ◌++◌, ◌<◌, ◌^◌, [], ℕ, List, IfNone, IfOk, IfSome, None, OnOk, Some, count_by, drop, false, length, true};
ghost use Rattle.cwr_share.specs.CwrFile.{AreSound, IsShareRecord};
ghost use Rattle.cwr_share.specs.Filed.{AreShareRecords, GoesOnBy, IsFiled, IsFiledTo, body_of, last_opening as number_of_opening, opens_work, share_numbers};
ghost use Rattle.cwr_share.specs.Lines.{lines_of};
ghost use Rattle.cwr_share.specs.Records.{ends_registration, is_share_line, opens_registration, share_fields};
ghost use Rattle.cwr_share.specs.Registrations.{share_line_of, share_lines_of};
ghost use Rattle.cwr_share.specs.declared.TheConstants.{MOST_SHARES};

use crate::RecordType;
use crate::fields::{SPT, SWT, ShareFields, WORK};
use crate::lines::Lines;
use crate::record_type::record_type_of;
use crate::share_line::{ShareRecord, trimmed};
use std::alloc::{AllocError, Global};

/// A registration as it stands in its file, whose lines count from 1.
#[derive(Drop)]
pub struct FiledRegistration {
    /// The number of its first line, NWR or REV.
    pub line: u64,
    /// Its share lines, in order.
    pub shares: Vec<ShareRecord>,
    /// The number of each of these.
    pub numbers: Vec<u64>,
}

/// The registration in force of a work, as it stands in a file without faults.
pub fn filed_registration(
    alloc: Global,
    bytes: &[u8],
    work: &[u8],
) -> Result<Option<FiledRegistration>, AllocError>
    requires { AreSound (lines_of bytes.now) }
    ensures filed { IfOk result (IsFiled (lines_of bytes.now) work.now) }
    ensures few { IfOk result (λ filed. IfSome filed (λ filed. length filed.shares.items ≤ MOST_SHARES)) }
{
    match last_opening(bytes, work) {
        Some((line, after)) => Ok(Some(registration_after(alloc, line, after)?)),
        None => Ok(None),
    }
}

/// How many registrations there are in a file, each NWR and REV, whether another takes its place later or not.
pub fn count_registrations(bytes: &[u8]) -> u64
    ensures { result ≡ count_by opens_registration (lines_of bytes.now) }
{
    let mut lines = Lines::of(bytes);
    let mut count = 0;
    while let Some(line) = lines.next() {
        if record_type_of(line) == RecordType::Registration {
            count += 1;
        }
    }
    count
}

/// The number of the last line that begins a registration of a work, and the text after that line.
fn last_opening<'a>(bytes: &'a [u8], work: &[u8]) -> Option<(u64, &'a [u8])>
    ensures found { IfSome result (λ found. number_of_opening (lines_of bytes.now) work.now ≡ Some found.0) }
    ensures after { IfSome result (λ found. lines_of found.1.now ≡ drop found.0 (lines_of bytes.now)) }
    ensures few { IfSome result (λ found. found.0 + length (lines_of found.1.now) ≤ length bytes.now) }
    ensures none { IfNone result (number_of_opening (lines_of bytes.now) work.now ≡ None) }
{
    let mut lines = Lines::of(bytes);
    let mut number: u64 = 0;
    let mut found = None;
    while let Some(line) = lines.next() {
        number += 1;
        if is_opening_of(line, work) {
            found = Some((number, lines.rest()));
        }
    }
    found
}

/// Whether a line begins a registration of a work.
fn is_opening_of(line: &[u8], work: &[u8]) -> bool
    ensures { result ≡ opens_work work.now line.now }
{
    record_type_of(line) == RecordType::Registration && trimmed(WORK.of(line)) == work
}

/// The registration that begins in the line with this number and goes on in the text after it.
fn registration_after(
    alloc: Global,
    line: u64,
    after: &[u8],
) -> Result<FiledRegistration, AllocError>
    requires sound { AreShareRecords (lines_of after.now) }
    requires few { line + length (lines_of after.now) < 2 ^ 64 }
    ensures line { IfOk result (λ filed. filed.line ≡ line) }
    ensures shares { IfOk result (λ filed. filed.shares.items ≡ share_lines_of (body_of (lines_of after.now))) }
    ensures numbers { IfOk result (λ filed. filed.numbers.items ≡ share_numbers (line + 1) (body_of (lines_of after.now))) }
    ensures few { IfOk result (λ filed. length filed.shares.items ≤ MOST_SHARES) }
{
    let mut filing = Filing {
        filed: FiledRegistration {
            line,
            shares: Vec::new(alloc),
            numbers: Vec::new(alloc),
        },
        interest: 0,
        number: line,
    };
    let mut lines = Lines::of(after);
    while let Some(line) = lines.next() {
        if !filing.add(line)? {
            break;
        }
    }
    Ok(filing.filed)
}

/// A registration that is being read.
#[derive(Drop)]
struct Filing {
    filed: FiledRegistration,
    /// How many interests were opened in it.
    interest: usize,
    /// The number of the last line.
    number: u64,
}

impl Filing {
    /// Goes on by the next line. False: the registration has ended before it.
    fn add(&mut self, line: &[u8]) -> Result<bool, AllocError>
        requires sound { (body : List (List ℕ)) × IsFiledTo body self.old × (is_share_line line.now ≡ true → IsShareRecord (count_by is_share_line body) (share_fields line.now) line.now) }
        requires few { self.old.number + 1 < 2 ^ 64 }
        requires shares { length self.old.filed.shares.items ≤ MOST_SHARES }
        ensures shares { IfOk result (λ _. length self.new.filed.shares.items ≤ MOST_SHARES) }
        ensures on { IfOk result (λ on. on ≡ true → GoesOnBy line.now self.old self.new) }
        ensures end { IfOk result (λ on. on ≡ false → (ends_registration line.now ≡ true) × (self.new.filed ≡ self.old.filed)) }
    {
        match record_type_of(line) {
            RecordType::Registration | RecordType::Closing => return Ok(false),
            RecordType::Interest => self.interest += 1,
            RecordType::PublisherShare => self.add_share(line, &SPT)?,
            RecordType::WriterShare => self.add_share(line, &SWT)?,
            RecordType::Other => {}
        }
        self.number += 1;
        Ok(true)
    }

    /// Adds the next line, a share line.
    fn add_share(&mut self, line: &[u8], fields: &ShareFields) -> Result<(), AllocError>
        requires sound { IsShareRecord (length self.old.filed.shares.items) fields.now line.now }
        requires fields { fields.now ≡ share_fields line.now }
        requires few { self.old.number + 1 < 2 ^ 64 }
        ensures shares { OnOk result (self.new.filed.shares.items ≡ self.old.filed.shares.items ++ share_line_of self.old.interest fields.now line.now ∷ []) }
        ensures numbers { OnOk result (self.new.filed.numbers.items ≡ self.old.filed.numbers.items ++ (self.old.number + 1) ∷ []) }
        ensures few { OnOk result (length self.new.filed.shares.items ≤ MOST_SHARES) }
        ensures rest { OnOk result ((self.new.filed.line ≡ self.old.filed.line) × (self.new.interest ≡ self.old.interest) × (self.new.number ≡ self.old.number)) }
    {
        let number = self.number + 1;
        let earlier = self.filed.shares.len();
        let Ok(share) = ShareRecord::read(line, number, fields, self.interest, earlier) else {
            unreachable!()
        };
        self.filed.shares.push(share)?;
        self.filed.numbers.push(number)?;
        Ok(())
    }
}
