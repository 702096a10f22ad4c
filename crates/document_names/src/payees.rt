//! The names of payees.

ghost use Rattle.std.specs.Prelude.{◌≡◌, ◌<◌, ℕ, List, IfOk, IsTrue, drop, length, map, zip};
ghost use Rattle.std.specs.Option.{option_map};
ghost use Rattle.csv_table.specs.Table.{rows_of};
ghost use Rattle.cwr_share.specs.Lines.{lines_of};
ghost use Rattle.document_names.specs.FirstTexts.{AreFirstTexts, first_text};
ghost use Rattle.document_names.specs.Payees.{begins_with, name_in, named_by, names_in_rows, party_behind};
ghost use Rattle.starting_tables.specs.InForce.{bodies_of, registrations_in_force as in_force};
ghost use Rattle.starting_tables.specs.Records.{AreRecordsOf};

use crate::FirstTexts;
use csv_table::Rows;
use cwr_share::trimmed;
use starting_tables::{PartyRecords, records_of_parties, registrations_in_force};
use std::alloc::{AllocError, Global};

/// The names of accounts in a run over one CWR file, of which an account may be a party: that of the last SPU (CWR 2.2,
/// bytes 31 to 75) or SWR record (bytes 74 to 103, and 29 to 73) of its registrations in force that has the party's
/// number and a name. Empty where there is none.
pub fn names_in_file(
    alloc: Global,
    accounts: &[Vec<u8>],
    file: &[u8],
) -> Result<Vec<Vec<u8>>, AllocError>
    ensures { IfOk result (λ names. map (λ name. name.items) names.items
        ≡ map (λ account. name_in (lines_of file.now) account.items) accounts.now) }
{
    let registrations = registrations_in_force(alloc, file)?;
    let records = records_of_parties(alloc, registrations.as_slice())?;
    let mut names = Vec::new(alloc);
    for place in 0..accounts.len() {
        names.push(records.name_of(alloc, accounts[place].as_slice())?)?;
    }
    Ok(names)
}

/// The names of accounts in a run over the files of several submitters, by their table of payees: the first name of a row
/// with this payee that is not blank, without the spaces at its ends. Empty where there is none.
pub fn names_in_table(
    alloc: Global,
    accounts: &[Vec<u8>],
    table: &[u8],
) -> Result<Vec<Vec<u8>>, AllocError>
    ensures { IfOk result (λ names. map (λ name. name.items) names.items
        ≡ map (λ account. first_text (names_in_rows (drop 1 (rows_of table.now))) account.items) accounts.now) }
{
    let by_payee = names_by_payee(alloc, table)?;
    let mut names = Vec::new(alloc);
    for place in 0..accounts.len() {
        names.push(Vec::from_slice(alloc, by_payee.text_of(accounts[place].as_slice()))?)?;
    }
    Ok(names)
}

/// The names that the rows of a table of payees have, by payee.
fn names_by_payee(alloc: Global, table: &[u8]) -> Result<FirstTexts, AllocError>
    ensures { IfOk result (AreFirstTexts (names_in_rows (drop 1 (rows_of table.now)))) }
{
    let mut names = FirstTexts::none(alloc);
    let mut rows = Rows::of(alloc, table);
    if !rows.next()? {
        return Ok(names);
    }
    while rows.next()? {
        names.note(alloc, trimmed(rows.field(2)), trimmed(rows.field(3)))?;
    }
    Ok(names)
}

/// The names of accounts, with those of a submitter's file added: an account that has none yet, and is a party of this
/// submitter, has the name that the file has for the party, as `names_in_file` finds it.
pub fn with_names_in_file(
    alloc: Global,
    accounts: &[Vec<u8>],
    submitter: &[u8],
    file: &[u8],
    names: &[Vec<u8>],
) -> Result<Vec<Vec<u8>>, AllocError>
    requires { length names.now ≡ length accounts.now }
    ensures { IfOk result (λ found. map (λ name. name.items) found.items
        ≡ map (λ e. named_by submitter.now (lines_of file.now) e.0.items e.1.items) (zip accounts.now names.now)) }
{
    let registrations = registrations_in_force(alloc, file)?;
    let records = records_of_parties(alloc, registrations.as_slice())?;
    let mut found = Vec::new(alloc);
    for place in 0..accounts.len() {
        let (account, name) = (accounts[place].as_slice(), names[place].as_slice());
        found.push(name_of(alloc, &records, submitter, account, name)?)?;
    }
    Ok(found)
}

/// The name of an account, or else that of its party, where it is one of this submitter.
fn name_of(
    alloc: Global,
    records: &PartyRecords<'_>,
    submitter: &[u8],
    account: &[u8],
    name: &[u8],
) -> Result<Vec<u8>, AllocError>
    ensures { (lines : List (List ℕ)) → AreRecordsOf (bodies_of (in_force lines)) records.now
        → IfOk result (λ found. found.items ≡ named_by submitter.now lines account.now name.now) }
{
    if !name.is_empty() {
        return Vec::from_slice(alloc, name);
    }
    match party_of(submitter, account) {
        Some(party) => records.name_of(alloc, party),
        None => Ok(Vec::new(alloc)),
    }
}

/// The party behind a submitter's name and a colon, where an account is one.
fn party_of<'a>(submitter: &[u8], account: &'a [u8]) -> Option<&'a [u8]>
    ensures { option_map (λ party. party.now) result ≡ party_behind submitter.now account.entry.now }
{
    if is_of(submitter, account) {
        Some(&account[submitter.len() + 1..])
    } else {
        None
    }
}

/// Whether an account begins with a submitter's name and a colon.
fn is_of(submitter: &[u8], account: &[u8]) -> bool
    ensures is_of { result ≡ begins_with submitter.now account.now }
    ensures within { IsTrue result → length submitter.now < length account.now }
{
    let end = submitter.len();
    if account.len() <= end {
        return false;
    }
    &account[..end] == submitter && account[end] == b':'
}
