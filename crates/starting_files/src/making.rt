//! A table to begin with, of the files of submitters.

ghost use Rattle.std.specs.Prelude.{◌≡◌, ◌⊎◌, ◌++◌, IfErr, IfOk, OnOk, length};
ghost use Rattle.csv_table.specs.Written.{text_of};
ghost use Rattle.cwr_share.specs.CwrFile.{AreSound};
ghost use Rattle.cwr_share.specs.Lines.{lines_of};
ghost use Rattle.starting_files.specs.Tables.{IsTableOf, header_text, rows_in};
ghost use Rattle.submitted_inputs.specs.Files.{IsFaultOfFile, IsFaultOfFiles};
ghost use Rattle.submitted_inputs.specs.declared.fault.SubmittedFault.TheVariants.{Room};

use linked_works::Submitters;
use starting_tables::{add_parties, add_works, parties_header, works_header};
use std::alloc::{AllocError, Global};
use submitted_inputs::{SubmittedFault, SubmitterFiles, read_with_text};

/// Which table is made.
#[derive(Clone, Copy, Debug, PartialEq, Eq)]
pub enum StartingTable {
    /// The table of works: a row for each registration in force.
    Works,
    /// The table of payees: a row for each party of the share lines of registrations in force.
    Parties,
}

/// The table of the files of submitters with these names: its header, and the rows of each file in their order. The
/// files are read one after another; the first that cannot be read, or that has a fault, is the answer. No more than
/// one is held.
pub fn table_of<F: SubmitterFiles>(
    alloc: Global,
    table: StartingTable,
    submitters: &Submitters,
    files: &F,
) -> Result<Vec<u8>, SubmittedFault>
    ensures text { IfOk result (λ text. IsTableOf table submitters.now (F.holds files.now) text.items) }
    ensures fault { IfErr result (λ fault. (fault ≡ Room)
        ⊎ IsFaultOfFiles (F.holds files.now) (F.refuses files.now) (length submitters.now) fault) }
{
    let mut text = Vec::from_slice(alloc, header_of(table))?;
    let names = submitters.as_slice();
    for place in 0..names.len() {
        let file = sound_file(alloc, files, place)?;
        add_rows(
            alloc,
            table,
            names[place].as_slice(),
            file.as_slice(),
            &mut text,
        )?;
    }
    Ok(text)
}

/// The header of a table, with its line feed.
fn header_of(table: StartingTable) -> &'static [u8]
    ensures { result.now ≡ header_text table }
{
    match table {
        StartingTable::Works => works_header(),
        StartingTable::Parties => parties_header(),
    }
}

/// Adds the rows of a submitter's file.
fn add_rows(
    alloc: Global,
    table: StartingTable,
    submitter: &[u8],
    file: &[u8],
    text: &mut Vec<u8>,
) -> Result<(), AllocError>
    ensures { OnOk result (text.new.items
        ≡ text.old.items ++ text_of (rows_in table submitter.now (lines_of file.now))) }
{
    match table {
        StartingTable::Works => add_works(alloc, submitter, file, text),
        StartingTable::Parties => add_parties(alloc, submitter, file, text),
    }
}

/// The bytes of the file at a place, which have no fault.
fn sound_file<F: SubmitterFiles>(
    alloc: Global,
    files: &F,
    place: usize,
) -> Result<Vec<u8>, SubmittedFault>
    ensures held { IfOk result (λ bytes. F.holds files.now place bytes.items) }
    ensures sound { IfOk result (λ bytes. AreSound (lines_of bytes.items)) }
    ensures fault { IfErr result (λ fault. (fault ≡ Room)
        ⊎ IsFaultOfFile (F.holds files.now) (F.refuses files.now) place fault) }
{
    let (bytes, _) = read_with_text(alloc, files, place)?;
    Ok(bytes)
}
