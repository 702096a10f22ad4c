//! The documents of a run over its files, in a new folder.

ghost use Rattle.std.specs.Prelude.{◌≡◌, ◌⊎◌, ◌≤◌, Err, IfErr, IfOk, IfSome, IsOk, List, OnErr, Some, string_bytes};
ghost use Rattle.std.specs.Option.{option_map};
ghost use Rattle.distribution_documents.specs.Documents.{File};
ghost use Rattle.distribution_documents.specs.Written.{AreWritten};
ghost use Rattle.document_run.specs.Wordings.{CanBeShown, wording_shown};
ghost use Rattle.run_inputs.specs.Inputs.{map_inputs};
ghost use Rattle.royalty_program.specs.DocumentFiles.{AreDocumentsAsked, AreDocumentsOfInputs, AreDocumentsOver};
ghost use Rattle.royalty_program.specs.DocumentFiles.{AreLandsOver, AreSubmittedDocumentsOver};
ghost use Rattle.royalty_program.specs.DocumentFiles.{IsOfDocuments, IsOfNames};
ghost use Rattle.royalty_program.specs.Folders.{IfWritten, IsFolderLeft, IsLeftOrHasFolder, IsLeftOrKept, IsOfFolder};
ghost use Rattle.royalty_program.specs.Status.{IsOfPaths, IsOfSubmitted, IsRefusal, failure_of_folder};
ghost use Rattle.royalty_program.specs.RunInputs.{IsOfInputs};
ghost use Rattle.royalty_program.specs.SubmittedFiles.{paths_of};

use crate::failure::Failure;
use crate::files::{file_if_given, read_all};
use crate::folders::Folders;
use crate::inputs::{RunInputs, SubmittedInputs};
use crate::sources::Source;
use crate::statements_command::StatementsWords;
use crate::submitted_files::{CwrFiles, read_table_files, what_failed};
use distribution_documents::Folder;
use document_names::TerritoryNames;
use document_run::{SubmittedRun, Wording, document_files, document_submitted};
use run_inputs::Inputs;
use split_run::Plan;
use std::alloc::Global;
use std::io::ErrorKind;
use std::sync::Wait;
use std::thread::Threads;

/// Writes the documents that words ask for to the new folder that they name: whole, or there is none. A path that
/// something has already is refused before anything is read.
pub(crate) fn document_out<R: Threads + Wait + Sync, S: Source + Sync, T: Folders>(
    rt: &R,
    alloc: Global,
    files: &S,
    target: &mut T,
    asked: StatementsWords,
) -> Result<(), Failure>
    requires { asked.decimals ≤ 9 }
    ensures documents { IfOk result (λ _. (documents : List File)
        × T.keeps_folder target.new (string_bytes asked.to) (Some documents)
        × AreDocumentsAsked (S.holds files.now) asked documents) }
    ensures failure { IfErr result IsRefusal }
    ensures files { IfErr result (IsOfDocuments (S.holds files.now) (S.refuses files.now) asked) }
    ensures left { OnErr result (IsLeftOrHasFolder (T.keeps_folder target.old (string_bytes asked.to))
        (T.keeps_folder target.new (string_bytes asked.to)) (AreDocumentsAsked (S.holds files.now) asked)) }
{
    let StatementsWords {
        inputs,
        plan,
        to,
        names,
        title,
        currency,
        decimals,
    } = asked;
    let folder = match target.begin_folder(alloc, to.as_str()) {
        Ok(folder) => folder,
        Err(error) => return Err(unbegun(error.kind(), to)),
    };
    let written = match territories_of(alloc, files, names) {
        Ok(territories) => {
            let wording = Wording {
                title: title.as_bytes(),
                currency: currency.as_bytes(),
                decimals,
                territories: &territories,
            };
            documents_of(rt, alloc, files, inputs, &wording, plan, &folder)
        }
        Err(failure) => Err(failure),
    };
    finish_folder(alloc, target, folder, to, written)
}

/// Sees a folder to its path, if it was written whole, and throws it away otherwise.
fn finish_folder<T: Folders>(
    alloc: Global,
    target: &mut T,
    folder: T::Draft,
    path: String,
    written: Result<Option<Vec<<T::Draft as Folder>::Stored>>, Failure>,
) -> Result<(), Failure>
    ensures kept { IfOk result (λ _. IfWritten written (λ pages. (documents : List File)
        → AreWritten T.Draft.has pages documents → T.keeps_folder target.new (string_bytes path) (Some documents))) }
    ensures failure { IfErr result (λ failure. (written ≡ Err failure) ⊎ (IsOk written × IsOfFolder path failure)) }
    ensures left { OnErr result (IsFolderLeft
        (T.keeps_folder target.old (string_bytes path)) (T.keeps_folder target.new (string_bytes path))
        ⊎ IfWritten written (λ pages. IsLeftOrKept T.Draft.has pages
        (T.keeps_folder target.old (string_bytes path)) (T.keeps_folder target.new (string_bytes path)))) }
{
    match written {
        Ok(Some(pages)) => match target.keep_folder(alloc, folder, pages, path.as_str()) {
            Ok(()) => Ok(()),
            Err(error) => Err(unbegun(error.kind(), path)),
        },
        Ok(None) => {
            target.discard_folder(alloc, folder, path.as_str());
            Err(Failure::Target(path))
        }
        Err(failure) => {
            target.discard_folder(alloc, folder, path.as_str());
            Err(failure)
        }
    }
}

/// The documents of a run, written to a folder. None: the folder refused a file.
fn documents_of<R: Threads + Wait + Sync, S: Source + Sync, F: Folder + Sync>(
    rt: &R,
    alloc: Global,
    files: &S,
    inputs: RunInputs,
    wording: &Wording<'_>,
    plan: Plan,
    folder: &F,
) -> Result<Option<Vec<F::Stored>>, Failure>
    requires { CanBeShown wording.now }
    ensures documents { IfOk result (λ written. IfSome written (λ written. (documents : List File)
        × AreDocumentsOfInputs (S.holds files.now) inputs (wording_shown wording.now) documents
        × AreWritten F.has written.items documents)) }
    ensures failure { IfErr result IsRefusal }
    ensures files { IfErr result (IsOfInputs (S.holds files.now) (S.refuses files.now) inputs) }
{
    match inputs {
        RunInputs::OneFile(inputs) => {
            documents_of_one_file(rt, alloc, files, inputs, wording, plan, folder)
        }
        RunInputs::Submitted(inputs) => {
            documents_of_submitters(rt, alloc, files, inputs, wording, plan, folder)
        }
    }
}

/// The same over one CWR file. All inputs are read, in the order of `Inputs`, before any is parsed.
fn documents_of_one_file<R: Threads + Wait + Sync, S: Source, F: Folder + Sync>(
    rt: &R,
    alloc: Global,
    files: &S,
    inputs: Inputs<String>,
    wording: &Wording<'_>,
    plan: Plan,
    folder: &F,
) -> Result<Option<Vec<F::Stored>>, Failure>
    requires { CanBeShown wording.now }
    ensures documents { IfOk result (λ written. IfSome written (λ written. (documents : List File)
        × AreDocumentsOver (S.holds files.now) (wording_shown wording.now) documents (map_inputs string_bytes inputs)
        × AreWritten F.has written.items documents)) }
    ensures failure { IfErr result IsRefusal }
    ensures files { IfErr result (IsOfPaths (S.holds files.now) (S.refuses files.now)
        (map_inputs string_bytes inputs)) }
{
    let inputs = read_all(files, alloc, inputs)?;
    match document_files(rt, alloc, &inputs, wording, plan, folder) {
        Ok(written) => Ok(written),
        Err(fault) => Err(Failure::from(fault)),
    }
}

/// The same over the files of several submitters. The tables and the usage list are read whole before any is parsed;
/// the files are read where they are needed.
fn documents_of_submitters<R: Threads + Wait + Sync, S: Source + Sync, F: Folder + Sync>(
    rt: &R,
    alloc: Global,
    files: &S,
    inputs: SubmittedInputs,
    wording: &Wording<'_>,
    plan: Plan,
    folder: &F,
) -> Result<Option<Vec<F::Stored>>, Failure>
    requires { CanBeShown wording.now }
    ensures documents { IfOk result (λ written. IfSome written (λ written. (documents : List File)
        × AreSubmittedDocumentsOver (S.holds files.now) (wording_shown wording.now) documents (paths_of inputs)
        × AreWritten F.has written.items documents)) }
    ensures failure { IfErr result IsRefusal }
    ensures files { IfErr result (IsOfSubmitted (S.holds files.now) (S.refuses files.now) (paths_of inputs)) }
{
    let SubmittedInputs {
        tables,
        files: named,
    } = inputs;
    let tables = read_table_files(files, alloc, tables)?;
    let cwr = CwrFiles {
        files,
        paths: named.paths.as_slice(),
    };
    let run = SubmittedRun {
        submitters: &named.names,
        tables: &tables,
        files: &cwr,
    };
    match document_submitted(rt, alloc, run, wording, plan, folder) {
        Ok(written) => Ok(written),
        Err(fault) => Err(what_failed(fault, named.paths)),
    }
}

/// The names of territories in the table of a path; none, where there is no path.
fn territories_of<S: Source>(
    alloc: Global,
    files: &S,
    path: Option<String>,
) -> Result<TerritoryNames, Failure>
    ensures names { IfOk result (λ names. AreLandsOver (S.holds files.now) (option_map string_bytes path) names) }
    ensures failure { IfErr result IsRefusal }
    ensures files { IfErr result (IsOfNames (S.holds files.now) (S.refuses files.now) (option_map string_bytes path)) }
{
    match file_if_given(files, alloc, path)? {
        Some(file) => Ok(TerritoryNames::read(alloc, file.bytes.as_slice())?),
        None => Ok(TerritoryNames::none(alloc)),
    }
}

/// Why no folder could be begun or kept, by the kind of the error.
fn unbegun(kind: ErrorKind, path: String) -> Failure
    ensures failure { IsOfFolder path result }
    ensures kind { result ≡ failure_of_folder kind path }
{
    match kind {
        ErrorKind::OutOfMemory => Failure::Room,
        ErrorKind::AlreadyExists | ErrorKind::DirectoryNotEmpty => Failure::Taken(path),
        _ => Failure::Target(path),
    }
}
