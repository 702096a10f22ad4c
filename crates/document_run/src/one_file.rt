//! The documents of a run over one CWR file.

ghost use Rattle.std.specs.Prelude.{◌≡◌, IfErr, IfOk, IfSome, List};
ghost use Rattle.distribution_documents.specs.Documents.{File};
ghost use Rattle.distribution_documents.specs.Written.{AreWritten};
ghost use Rattle.document_run.specs.Documented.{AreReady};
ghost use Rattle.document_run.specs.OneFile.{AreDocumentsOf, IsNamedReading};
ghost use Rattle.document_run.specs.Wordings.{CanBeShown, wording_shown};
ghost use Rattle.run_inputs.specs.Inputs.{HaveNoFault, IsFaultOf, map_inputs};

use crate::tables::{NamedTables, document_tables};
use crate::wording::Wording;
use distribution_documents::Folder;
use document_names::{names_in_file, titles_in_file};
use run_inputs::{Fault, Input, Inputs, read_inputs_in_threads};
use split_run::Plan;
use std::alloc::Global;
use std::sync::Wait;
use std::thread::Threads;

/// Writes all documents of a run over one CWR file to a folder, by as many threads as the plan has. The inputs are read
/// in the order of `Inputs`, and the first that is refused is the answer. None: no input has a fault, and the folder
/// refused a file.
pub fn document_files<R: Threads + Wait + Sync, I: Input, F: Folder + Sync>(
    rt: &R,
    alloc: Global,
    inputs: &Inputs<I>,
    wording: &Wording<'_>,
    plan: Plan,
    folder: &F,
) -> Result<Option<Vec<F::Stored>>, Fault>
    requires { CanBeShown wording.now }
    ensures documents { IfOk result (λ written. IfSome written (λ written. (files : List File)
        × AreDocumentsOf (map_inputs I.bytes inputs.now) (wording_shown wording.now) files
        × AreWritten F.has written.items files)) }
    ensures read { IfOk result (λ _. HaveNoFault (map_inputs I.bytes inputs.now)) }
    ensures fault { IfErr result (IsFaultOf (map_inputs I.bytes inputs.now)) }
{
    let named = read_named(rt, alloc, inputs, plan.thread_count())?;
    Ok(document_tables(rt, alloc, named, wording, plan, folder)?)
}

/// Reads the inputs, and what the CWR file calls works and parties.
fn read_named<R: Threads + Sync, I: Input>(
    rt: &R,
    alloc: Global,
    inputs: &Inputs<I>,
    threads: u64,
) -> Result<NamedTables, Fault>
    ensures ready { IfOk result AreReady }
    ensures read { IfOk result (IsNamedReading (map_inputs I.bytes inputs.now)) }
    ensures fault { IfErr result (IsFaultOf (map_inputs I.bytes inputs.now)) }
{
    let tables = read_inputs_in_threads(rt, alloc, inputs.lent(), threads)?;
    let file = inputs.registrations.bytes();
    let titles = titles_in_file(alloc, file)?;
    let names = names_in_file(alloc, tables.registry.parties(), file)?;
    Ok(NamedTables {
        tables,
        titles,
        names,
    })
}
