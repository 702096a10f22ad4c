//! What a report on several submitters reads before the usage list: the tables, and the CWR files.

ghost use Rattle.std.specs.Prelude.{◌≡◌, ◌==◌, ◌&&◌, ◌⊎◌, IfErr, IfOk, length, map, string_bytes};
ghost use Rattle.submitted_inputs.specs.Submitted.{map_tables};
ghost use Rattle.submitted_inputs.specs.declared.fault.SubmittedFault.TheVariants.{Room};
ghost use Rattle.check_inputs.specs.Checked.{bytes_of, path_of};
ghost use Rattle.check_inputs.specs.LinksSoFar.{are_sound};
ghost use Rattle.check_inputs.specs.SubmittedChecked.{IsFirstUnread};
ghost use Rattle.check_inputs.specs.SubmittedSoFar.{AreSourcesOf, AreTablesRead};

use crate::File;
use crate::submitted_files::{FilesRead, Pages, read_files};
use cwr_share::Payees;
use linked_works::{Submitters, Works};
use std::alloc::{AllocError, Global};
use submitted_inputs::{SubmittedFault, SubmittedTables, SubmitterFiles};
use tis_tree::TisTable;

/// What was read, past each row and line that is refused.
#[derive(Drop)]
pub(crate) struct Sources<'a> {
    /// The names of the submitters.
    pub(crate) names: &'a [Vec<u8>],
    pub(crate) tables: TablesRead<'a>,
    pub(crate) files: FilesRead,
}

impl Sources<'_> {
    /// Nothing that links are made of has a fault.
    pub(crate) fn are_sound(&self) -> bool
        ensures { result ≡ are_sound self.now }
    {
        self.tables.are_sound && self.files.are_sound
    }
}

/// What the tables were read as.
#[derive(Drop)]
pub(crate) struct TablesRead<'a> {
    pub(crate) territories: TisTable,
    /// How many faults the table of territories has.
    pub(crate) tis_faults: u64,
    pub(crate) payees: Payees,
    pub(crate) works: Works<'a>,
    /// The tables of payees and of works have no fault.
    pub(crate) are_sound: bool,
}

/// Reads the tables, and the CWR files with these paths, and adds what is said of each.
pub(crate) fn read_sources<'a, F: SubmitterFiles>(
    alloc: Global,
    pages: &mut Pages,
    submitters: &'a Submitters,
    tables: &SubmittedTables<File>,
    paths: &[String],
    files: &F,
) -> Result<Sources<'a>, SubmittedFault>
    requires { length paths.now ≡ length submitters.now }
    ensures sources { IfOk result (AreSourcesOf submitters.entry.now (map string_bytes paths.now) (F.holds files.now)
        (map_tables path_of tables.now) (map_tables bytes_of tables.now) pages.old pages.new) }
    ensures fault { IfErr result (λ fault. (fault ≡ Room)
        ⊎ IsFirstUnread (F.holds files.now) (F.refuses files.now) (length paths.now) fault) }
{
    let tables = read_tables(alloc, pages, submitters, tables)?;
    let files = read_files(
        alloc,
        pages,
        &tables.works,
        paths,
        files,
        &tables.territories,
        tables.tis_faults,
    )?;
    Ok(Sources {
        names: submitters.as_slice(),
        tables,
        files,
    })
}

/// Reads the tables, and adds what is said of each.
fn read_tables<'a>(
    alloc: Global,
    pages: &mut Pages,
    submitters: &'a Submitters,
    tables: &SubmittedTables<File>,
) -> Result<TablesRead<'a>, AllocError>
    ensures { IfOk result (AreTablesRead submitters.entry.now (map_tables path_of tables.now)
        (map_tables bytes_of tables.now)
        pages.old pages.new) }
{
    let (territories, tis_faults) = pages.sheet.tis(alloc, &tables.territories)?;
    let (payees, payee_faults) = pages
        .sheet
        .submitter_payees(alloc, submitters, &tables.payees)?;
    let (works, works_faults) = pages.sheet.works(alloc, submitters, &tables.works)?;
    Ok(TablesRead {
        territories,
        tis_faults,
        payees,
        works,
        are_sound: have_none(payee_faults, works_faults),
    })
}

/// Whether there are no faults of either kind.
fn have_none(faults: u64, others: u64) -> bool
    ensures { result ≡ ((faults == 0) && (others == 0)) }
{
    faults == 0 && others == 0
}
