//! The table of payees to begin with.

ghost use Rattle.std.specs.Prelude.{◌≡◌, ◌++◌, ℕ, List, IfOk, OnErr, OnOk, codes};
ghost use Rattle.csv_table.specs.Written.{text_of, text_of_row};
ghost use Rattle.cwr_share.specs.Lines.{lines_of};
ghost use Rattle.linked_works.specs.SubmitterPayees.{header};
ghost use Rattle.starting_tables.specs.Parties.{party_row, party_rows, rows_of_parties};
ghost use Rattle.starting_tables.specs.Records.{AreRecordsOf};

use crate::in_force::registrations_in_force;
use crate::party_records::{PartyRecords, records_of_parties};
use csv_table::RowWriter;
use std::alloc::{AllocError, Global};

/// The header of a table of payees, with its line feed.
pub fn parties_header() -> &'static [u8]
    ensures header { result.now ≡ text_of_row header }
    ensures text { result.now ≡ codes "submitter,party,payee,name\n" }
{
    b"submitter,party,payee,name\n"
}

/// Adds the rows of a submitter's file to a table of payees: one for each party of the share lines of its registrations
/// in force, in byte order. Its payee is the IPI name number, of eleven digits that are not all 0, in the last SPU
/// (CWR 2.2, bytes 88 to 98) or SWR record (bytes 116 to 126) of these registrations that has the party's number and
/// such an IPI name number, and else `NAME:PARTY`. Its name is that of the last that has one: of an SPU bytes 31 to 75,
/// of an SWR the first name, bytes 74 to 103, and the last name, bytes 29 to 73; else it is empty. The only error is
/// lack of memory; the table then is as it was.
pub fn add_parties(
    alloc: Global,
    submitter: &[u8],
    file: &[u8],
    table: &mut Vec<u8>,
) -> Result<(), AllocError>
    ensures rows { OnOk result (table.new.items
        ≡ table.old.items ++ text_of (party_rows submitter.now (lines_of file.now))) }
    ensures unchanged { OnErr result (table.new.items ≡ table.old.items) }
{
    let registrations = registrations_in_force(alloc, file)?;
    let records = records_of_parties(alloc, registrations.as_slice())?;
    let text = parties_text(alloc, submitter, &records)?;
    table.extend_from_slice(text.as_slice())
}

/// The rows of parties, as CSV.
fn parties_text(
    alloc: Global,
    submitter: &[u8],
    records: &PartyRecords<'_>,
) -> Result<Vec<u8>, AllocError>
    ensures { (lines : List (List ℕ)) → AreRecordsOf lines records.now
        → IfOk result (λ text. text.items ≡ text_of (rows_of_parties submitter.now lines)) }
{
    let mut rows = RowWriter::new(alloc);
    for party in records.parties.iter() {
        add_row(alloc, &mut rows, submitter, records, party.as_slice())?;
    }
    rows.into_text()
}

/// Adds the row of a party.
fn add_row(
    alloc: Global,
    rows: &mut RowWriter,
    submitter: &[u8],
    records: &PartyRecords<'_>,
    party: &[u8],
) -> Result<(), AllocError>
    ensures { (lines : List (List ℕ)) → AreRecordsOf lines records.now
        → OnOk result (rows.new.text ≡ rows.old.text ++ text_of_row (party_row submitter.now lines party.now)) }
{
    let payee = records.payee_of(alloc, submitter, party)?;
    let name = records.name_of(alloc, party)?;
    rows.row(&[submitter, party, payee.as_slice(), name.as_slice()])
}
