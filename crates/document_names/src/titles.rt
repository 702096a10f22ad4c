//! The titles of works.

ghost use Rattle.std.specs.Prelude.{◌≡◌, IfOk, OnOk, drop, ℕ, List, ◌++◌, ◌∷◌, []};
ghost use Rattle.csv_table.specs.Table.{rows_of};
ghost use Rattle.cwr_share.specs.Lines.{lines_of};
ghost use Rattle.document_names.specs.FirstTexts.{AreFirstTexts};
ghost use Rattle.document_names.specs.Titles.{titles_in_rows, titles_of_registrations};

use crate::FirstTexts;
use csv_table::Rows;
use cwr_share::trimmed;
use starting_tables::registrations_in_force;
use std::alloc::{AllocError, Global};

/// The titles of the works of a CWR file, by submitter work number: that of the NWR or REV record in force (CWR 2.2,
/// bytes 20 to 79), without the spaces at its ends.
pub fn titles_in_file(alloc: Global, file: &[u8]) -> Result<FirstTexts, AllocError>
    ensures { IfOk result (AreFirstTexts (titles_of_registrations (lines_of file.now))) }
{
    let registrations = registrations_in_force(alloc, file)?;
    let mut titles = FirstTexts::none(alloc);
    for place in 0..registrations.len() {
        let registration = &registrations[place];
        titles.note(alloc, registration.number(), registration.title())?;
    }
    Ok(titles)
}

/// The titles of the works in a table of works, by the names that usage lines have: the first of a work that is not
/// blank, without the spaces at its ends.
pub fn titles_in_table(alloc: Global, table: &[u8]) -> Result<FirstTexts, AllocError>
    ensures { IfOk result (AreFirstTexts (titles_in_rows (drop 1 (rows_of table.now)))) }
{
    let mut titles = FirstTexts::none(alloc);
    let mut rows = Rows::of(alloc, table);
    if !rows.next()? {
        return Ok(titles);
    }
    while rows.next()? {
        titles.note(alloc, rows.field(0), trimmed(rows.field(3)))?;
    }
    Ok(titles)
}
