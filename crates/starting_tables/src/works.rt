//! The table of works to begin with.

ghost use Rattle.std.specs.Prelude.{◌≡◌, ◌++◌, IfOk, OnErr, OnOk, codes};
ghost use Rattle.csv_table.specs.Written.{text_of, text_of_row};
ghost use Rattle.cwr_share.specs.Lines.{lines_of};
ghost use Rattle.linked_works.specs.WorksTable.{header};
ghost use Rattle.starting_tables.specs.Works.{row_by, rows_of_registrations, work_by, works_rows};

use crate::in_force::{FiledLines, registrations_in_force};
use crate::numbers::{is_iswc, qualified};
use csv_table::RowWriter;
use cwr_share::Name;
use indexmap::IndexSet;
use std::alloc::{AllocError, Global};

/// The header of a table of works, with its line feed.
pub fn works_header() -> &'static [u8]
    ensures header { result.now ≡ text_of_row header }
    ensures text { result.now ≡ codes "work,submitter,number,title\n" }
{
    b"work,submitter,number,title\n"
}

/// Adds the rows of a submitter's file to a table of works: one for each registration in force, in the order of the NWR
/// and REV records. Its work is the ISWC of that record (CWR 2.2, bytes 96 to 106) where that is `T` and ten digits
/// that are not all 0 and no earlier row of the file has it, and else `NAME:NUMBER`; its number is the submitter work
/// number (bytes 82 to 95), and its title the work title (bytes 20 to 79), without the spaces at their ends. The only
/// error is lack of memory; the table then is as it was.
pub fn add_works(
    alloc: Global,
    submitter: &[u8],
    file: &[u8],
    table: &mut Vec<u8>,
) -> Result<(), AllocError>
    ensures rows { OnOk result (table.new.items
        ≡ table.old.items ++ text_of (works_rows submitter.now (lines_of file.now))) }
    ensures unchanged { OnErr result (table.new.items ≡ table.old.items) }
{
    let registrations = registrations_in_force(alloc, file)?;
    let text = works_text(alloc, submitter, registrations.as_slice())?;
    table.extend_from_slice(text.as_slice())
}

/// The rows of registrations, as CSV.
fn works_text(
    alloc: Global,
    submitter: &[u8],
    registrations: &[FiledLines<'_>],
) -> Result<Vec<u8>, AllocError>
    ensures { IfOk result (λ text. text.items ≡ text_of (rows_of_registrations submitter.now registrations.now)) }
{
    let mut seen: IndexSet<Name> = IndexSet::new(alloc);
    let mut rows = RowWriter::new(alloc);
    for registration in registrations {
        let iswc = Name::of(alloc, registration.iswc())?;
        let is_first = seen.insert(iswc)?;
        add_row(alloc, &mut rows, submitter, registration, is_first)?;
    }
    rows.into_text()
}

/// Adds the row of a registration, by whether it is the first with its ISWC.
fn add_row(
    alloc: Global,
    rows: &mut RowWriter,
    submitter: &[u8],
    registration: &FiledLines<'_>,
    is_first: bool,
) -> Result<(), AllocError>
    ensures { OnOk result (rows.new.text
        ≡ rows.old.text ++ text_of_row (row_by submitter.now is_first registration.now)) }
{
    let work = work_of(alloc, submitter, registration, is_first)?;
    rows.row(&[
        work.as_slice(),
        submitter,
        registration.number(),
        registration.title(),
    ])
}

/// The work of a registration, by whether it is the first with its ISWC.
fn work_of(
    alloc: Global,
    submitter: &[u8],
    registration: &FiledLines<'_>,
    is_first: bool,
) -> Result<Vec<u8>, AllocError>
    ensures { IfOk result (λ work. work.items ≡ work_by submitter.now is_first registration.now) }
{
    let iswc = registration.iswc();
    if is_first && is_iswc(iswc) {
        Vec::from_slice(alloc, iswc)
    } else {
        qualified(alloc, submitter, registration.number())
    }
}
