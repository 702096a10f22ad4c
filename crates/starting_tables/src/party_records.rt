//! What the records of a party say: its name and its IPI name number.

ghost use Rattle.std.specs.Prelude.{◌≡◌, ◌++◌, ◌&&◌, ◌∷◌, [], ℕ, List, IfOk, OnOk, Some, if◌then◌else◌, nat_eq, true};
ghost use Rattle.std.specs.Cmp.Lexicographic.{pointwise};
ghost use Rattle.cwr_share.specs.Records.{is_share_line, opens_interest};
ghost use Rattle.starting_tables.specs.InForce.{bodies_of};
ghost use Rattle.starting_tables.specs.Parties.{has_ipi as has_ipi_in, has_name as has_name_in, is_publisher as is_publisher_record, name_of as name_by};
ghost use Rattle.starting_tables.specs.Parties.{payee_of as payee_by, record_ipi as ipi_in, record_name as name_in};
ghost use Rattle.starting_tables.specs.Parties.{record_number as number_in, share_party as party_in};
ghost use Rattle.starting_tables.specs.Parties.{whole_name as whole_name_of};
ghost use Rattle.starting_tables.specs.Records.{AreRecordsOf, line_for};

use crate::fields::{
    SPU_IPI, SPU_NAME, SPU_NUMBER, SWR_FIRST_NAME, SWR_IPI, SWR_LAST_NAME, SWR_NUMBER,
};
use crate::in_force::FiledLines;
use crate::numbers::{is_number, qualified};
use cwr_share::fields::TYPE;
use cwr_share::{Lines, Name, RecordType, Sought, record_type_of, share_fields_of, trimmed};
use indexmap::IndexMap;
use std::alloc::{AllocError, Global};
use std::collections::BTreeSet;

/// The parties of share lines, in byte order, and the records that say their names and numbers.
#[derive(Drop)]
pub struct PartyRecords<'a> {
    /// The parties of the share lines.
    pub(crate) parties: BTreeSet<Vec<u8>>,
    /// By number, the last record that has a name.
    pub(crate) named: IndexMap<Name, &'a [u8]>,
    /// By number, the last record that has an IPI name number.
    pub(crate) paid: IndexMap<Name, &'a [u8]>,
}

/// Those of registrations.
pub fn records_of_parties<'a>(
    alloc: Global,
    registrations: &[FiledLines<'a>],
) -> Result<PartyRecords<'a>, AllocError>
    ensures { IfOk result (AreRecordsOf (bodies_of registrations.now)) }
{
    let mut records = PartyRecords {
        parties: BTreeSet::new(alloc),
        named: IndexMap::new(alloc),
        paid: IndexMap::new(alloc),
    };
    for registration in registrations {
        records.add_registration(alloc, registration)?;
    }
    Ok(records)
}

impl<'a> PartyRecords<'a> {
    /// Adds the lines of a registration.
    fn add_registration(
        &mut self,
        alloc: Global,
        registration: &FiledLines<'a>,
    ) -> Result<(), AllocError>
        ensures { (lines : List (List ℕ)) → AreRecordsOf lines self.old
            → OnOk result (AreRecordsOf (lines ++ registration.now.body) self.new) }
    {
        let mut lines = Lines::of(registration.after);
        while let Some(line) = lines.next() {
            match record_type_of(line) {
                RecordType::Registration | RecordType::Closing => break,
                RecordType::Interest => self.add_record(alloc, line)?,
                RecordType::PublisherShare | RecordType::WriterShare => {
                    self.add_share(alloc, line)?
                }
                RecordType::Other => {}
            }
        }
        Ok(())
    }

    /// Adds an SPU or SWR record.
    fn add_record(&mut self, alloc: Global, line: &'a [u8]) -> Result<(), AllocError>
        requires { opens_interest line.now ≡ true }
        ensures { (lines : List (List ℕ)) → AreRecordsOf lines self.old
            → OnOk result (AreRecordsOf (lines ++ line.now ∷ []) self.new) }
    {
        note(alloc, &mut self.named, line, has_name(line))?;
        note(alloc, &mut self.paid, line, has_ipi(line))
    }

    /// Adds a share line.
    fn add_share(&mut self, alloc: Global, line: &[u8]) -> Result<(), AllocError>
        requires { is_share_line line.now ≡ true }
        ensures { (lines : List (List ℕ)) → AreRecordsOf lines self.old
            → OnOk result (AreRecordsOf (lines ++ line.now ∷ []) self.new) }
    {
        let party = share_party(line);
        self.parties.insert(Vec::from_slice(alloc, party)?)?;
        Ok(())
    }

    /// The name of a party, and no bytes where no record has one.
    pub fn name_of(&self, alloc: Global, party: &[u8]) -> Result<Vec<u8>, AllocError>
        ensures { (lines : List (List ℕ)) → AreRecordsOf lines self.now
            → IfOk result (λ name. name.items ≡ name_by lines party.now) }
    {
        match self.named.get(Sought(party)) {
            Some(line) => record_name(alloc, line),
            None => Ok(Vec::new(alloc)),
        }
    }

    /// The payee of a party: its IPI name number, and its own account where no record has one.
    pub(crate) fn payee_of(
        &self,
        alloc: Global,
        submitter: &[u8],
        party: &[u8],
    ) -> Result<Vec<u8>, AllocError>
        ensures { (lines : List (List ℕ)) → AreRecordsOf lines self.now
            → IfOk result (λ payee. payee.items ≡ payee_by submitter.now lines party.now) }
    {
        match self.paid.get(Sought(party)) {
            Some(line) => Vec::from_slice(alloc, record_ipi(line)),
            None => qualified(alloc, submitter, party),
        }
    }
}

/// Notes an SPU or SWR record as the last of its party, where it has what is sought.
fn note<'a>(
    alloc: Global,
    records: &mut IndexMap<Name, &'a [u8]>,
    line: &'a [u8],
    has: bool,
) -> Result<(), AllocError>
    ensures { OnOk result ((party : List ℕ) → line_for records.new party
        ≡ (if pointwise nat_eq (number_in line.now) party && has then Some line.now else line_for records.old party)) }
{
    if has {
        records.insert(Name::of(alloc, record_number(line))?, line)?;
    }
    Ok(())
}

/// Whether a line is an SPU, a publisher's record.
fn is_publisher(line: &[u8]) -> bool
    ensures { result ≡ is_publisher_record line.now }
{
    TYPE.of(line) == b"SPU".as_slice()
}

/// The party of a share line.
fn share_party(line: &[u8]) -> &[u8]
    ensures { result.now ≡ party_in line.now }
{
    trimmed(share_fields_of(line).party.of(line))
}

/// The interested party number of an SPU or SWR record.
fn record_number(line: &[u8]) -> &[u8]
    ensures { result.now ≡ number_in line.now }
{
    if is_publisher(line) {
        trimmed(SPU_NUMBER.of(line))
    } else {
        trimmed(SWR_NUMBER.of(line))
    }
}

/// The IPI name number of an SPU or SWR record.
fn record_ipi(line: &[u8]) -> &[u8]
    ensures { result.now ≡ ipi_in line.now }
{
    if is_publisher(line) {
        trimmed(SPU_IPI.of(line))
    } else {
        trimmed(SWR_IPI.of(line))
    }
}

/// Whether an SPU or SWR record has a name.
fn has_name(line: &[u8]) -> bool
    ensures { result ≡ has_name_in line.now }
{
    if is_publisher(line) {
        !trimmed(SPU_NAME.of(line)).is_empty()
    } else {
        !trimmed(SWR_FIRST_NAME.of(line)).is_empty() || !trimmed(SWR_LAST_NAME.of(line)).is_empty()
    }
}

/// Whether an SPU or SWR record has an IPI name number: eleven digits that are not all 0.
fn has_ipi(line: &[u8]) -> bool
    ensures { result ≡ has_ipi_in line.now }
{
    is_number(11, record_ipi(line))
}

/// The name that an SPU or SWR record has.
fn record_name(alloc: Global, line: &[u8]) -> Result<Vec<u8>, AllocError>
    ensures { IfOk result (λ name. name.items ≡ name_in line.now) }
{
    if is_publisher(line) {
        Vec::from_slice(alloc, trimmed(SPU_NAME.of(line)))
    } else {
        let first = trimmed(SWR_FIRST_NAME.of(line));
        whole_name(alloc, first, trimmed(SWR_LAST_NAME.of(line)))
    }
}

/// A first and a last name with a space between them, where both are there.
fn whole_name(alloc: Global, first: &[u8], last: &[u8]) -> Result<Vec<u8>, AllocError>
    ensures { IfOk result (λ name. name.items ≡ whole_name_of first.now last.now) }
{
    let mut name = Vec::from_slice(alloc, first)?;
    if !first.is_empty() && !last.is_empty() {
        name.push(b' ')?;
    }
    name.extend_from_slice(last)?;
    Ok(name)
}
