//! The documents of a run over the files of several submitters.

ghost use Rattle.std.specs.Prelude.{◌≡◌, IfErr, IfOk, IfSome, List};
ghost use Rattle.distribution_documents.specs.Documents.{File};
ghost use Rattle.distribution_documents.specs.Written.{AreWritten};
ghost use Rattle.document_run.specs.Documented.{AreReady};
ghost use Rattle.document_run.specs.Submitters.{AreSubmittedDocuments, IsNamedSubmitted};
ghost use Rattle.document_run.specs.Wordings.{CanBeShown, wording_shown};
ghost use Rattle.run_inputs.specs.declared.inputs.Tables.{Tables};
ghost use Rattle.submitted_inputs.specs.Submitted.{IsFaultOf, IsReading, map_tables};

use crate::names::{names_in_files, names_in_tables};
use crate::tables::{NamedTables, document_tables};
use crate::wording::Wording;
use distribution_documents::Folder;
use document_names::titles_in_table;
use linked_works::Submitters;
use run_inputs::Input;
use split_run::Plan;
use std::alloc::Global;
use std::sync::Wait;
use std::thread::Threads;
use submitted_inputs::{SubmittedFault, SubmittedTables, SubmitterFiles, read_submitted};

/// Writes all documents of a run over the files of several submitters to a folder, by as many threads as the plan
/// has. The first input that is refused is the answer. The files are read once more for the names of parties that the
/// table of payees has none for. None: no input has a fault, and the folder refused a file.
pub fn document_submitted<
    R: Threads + Wait + Sync,
    I: Input,
    S: SubmitterFiles + Sync,
    F: Folder + Sync,
>(
    rt: &R,
    alloc: Global,
    inputs: SubmittedRun<'_, I, S>,
    wording: &Wording<'_>,
    plan: Plan,
    folder: &F,
) -> Result<Option<Vec<F::Stored>>, SubmittedFault>
    requires { CanBeShown wording.now }
    ensures documents { IfOk result (λ written. IfSome written (λ written. (files : List File)
        × AreSubmittedDocuments inputs.entry.submitters.now (S.holds inputs.entry.files.now)
        (map_tables I.bytes inputs.entry.tables.now) (wording_shown wording.now) files
        × AreWritten F.has written.items files)) }
    ensures read { IfOk result (λ _. (tables : Tables) × IsReading inputs.entry.submitters.now
        (S.holds inputs.entry.files.now) (map_tables I.bytes inputs.entry.tables.now) tables) }
    ensures fault { IfErr result (IsFaultOf inputs.entry.submitters.now (S.holds inputs.entry.files.now)
        (S.refuses inputs.entry.files.now) (map_tables I.bytes inputs.entry.tables.now)) }
{
    let named = read_named(rt, alloc, inputs, plan.thread_count())?;
    Ok(document_tables(rt, alloc, named, wording, plan, folder)?)
}

/// The inputs of a run over the files of several submitters.
#[derive(Drop)]
pub struct SubmittedRun<'a, I, S> {
    /// The names of the submitters.
    pub submitters: &'a Submitters,
    /// The tables.
    pub tables: &'a SubmittedTables<I>,
    /// Where the CWR files are read, by the places of the names.
    pub files: &'a S,
}

/// Reads the inputs, and what the tables and files call works and parties.
fn read_named<R: Threads + Sync, I: Input, S: SubmitterFiles + Sync>(
    rt: &R,
    alloc: Global,
    inputs: SubmittedRun<'_, I, S>,
    threads: u64,
) -> Result<NamedTables, SubmittedFault>
    ensures ready { IfOk result AreReady }
    ensures read { IfOk result (IsNamedSubmitted inputs.entry.submitters.now (S.holds inputs.entry.files.now)
        (map_tables I.bytes inputs.entry.tables.now)) }
    ensures fault { IfErr result (IsFaultOf inputs.entry.submitters.now (S.holds inputs.entry.files.now)
        (S.refuses inputs.entry.files.now) (map_tables I.bytes inputs.entry.tables.now)) }
{
    let SubmittedRun {
        submitters,
        tables,
        files,
    } = inputs;
    let read = read_submitted(rt, alloc, submitters, lent(tables), files, threads)?;
    let titles = titles_in_table(alloc, tables.works.bytes())?;
    let by_table = names_in_tables(alloc, read.registry.parties(), &tables.payees)?;
    let names = names_in_files(alloc, read.registry.parties(), submitters, files, by_table)?;
    Ok(NamedTables {
        tables: read,
        titles,
        names,
    })
}

/// The tables, lent.
fn lent<'a, I>(tables: &'a SubmittedTables<I>) -> SubmittedTables<&'a I>
    ensures { map_tables (λ lent. lent.now) result ≡ tables.entry.now }
{
    SubmittedTables {
        territories: &tables.territories,
        payees: tables.payees.as_ref(),
        works: &tables.works,
        usage: &tables.usage,
    }
}
