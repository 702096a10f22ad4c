//! A run over the files of several submitters, and an explanation and a check of one.

ghost use Rattle.std.specs.Io.KnownBytes.{Appends};
ghost use Rattle.std.specs.Prelude.{◌≡◌, ◌⊎◌, ℕ, All, Contains, List, false, true, IfErr, IfOk, OnOk, length, map};
ghost use Rattle.std.specs.Prelude.{string_bytes};
ghost use Rattle.check_inputs.specs.Checked.{bytes_of, path_of};
ghost use Rattle.royalty_program.specs.OutputPath.{IsOther};
ghost use Rattle.royalty_program.specs.Status.{IsOfFiles, IsOfSubmitted, IsOfTables, IsRefusal, IsSaidOf};
ghost use Rattle.royalty_program.specs.Status.{IsSubmittedUnchecked, IsSubmittedUnexplained};
ghost use Rattle.royalty_program.specs.SubmittedFiles.{AreSubmittedStatementsOver, AreTablesRead, HoldsAt, IsNoneOf};
ghost use Rattle.royalty_program.specs.SubmittedFiles.{IsOfSomeSubmitted, IsSubmittedExplanationOver};
ghost use Rattle.royalty_program.specs.SubmittedFiles.{IsSubmittedReportOver};
ghost use Rattle.royalty_program.specs.SubmittedFiles.{IsWithin};
ghost use Rattle.royalty_program.specs.SubmittedFiles.{paths_of};
ghost use Rattle.starting_files.specs.Tables.{IsTableOf};
ghost use Rattle.submitted_inputs.specs.Submitted.{map_tables};
ghost use Rattle.royalty_program.specs.declared.failure.Failure.TheVariants.{Room};

use crate::failure::Failure;
use crate::files::{file_if_given, file_of};
use crate::inputs::SubmittedInputs;
use crate::sources::Source;
use crate::starting_command::StartingWords;
use crate::targets::Target;
use check_inputs::{Checked, File, check_submitted};
use explain_line::explain_submitted;
use pair_split::word;
use run_inputs::Fault;
use settle_run::settle_tables_to;
use split_run::Plan;
use starting_files::table_of;
use std::alloc::{AllocError, Global};
use std::io::{self, ErrorKind, Write};
use std::sync::Wait;
use std::thread::Threads;
use submitted_inputs::{SubmittedFault, SubmittedTables, SubmitterFiles, read_submitted};

/// The CWR files of submitters under their paths.
#[derive(Drop)]
pub(crate) struct CwrFiles<'a, S> {
    pub files: &'a S,
    pub paths: &'a [String],
}

impl<'a, S: Source> SubmitterFiles for CwrFiles<'a, S> {
    ghost use Rattle.std.specs.Prelude.{map, string_bytes};
    ghost use Rattle.royalty_program.specs.SubmittedFiles.{HoldsAt, LacksAt, RefusesAt};

    ghost holds = { λ files. HoldsAt (S.holds files.files.now) (map string_bytes files.paths.now) };

    ghost refuses = { λ files. RefusesAt (S.refuses files.files.now) (map string_bytes files.paths.now) };

    ghost lacks = { λ files. LacksAt (S.refuses files.files.now) (map string_bytes files.paths.now) };

    fn read(&self, alloc: Global, place: usize) -> Result<Option<Vec<u8>>, AllocError> {
        if place >= self.paths.len() {
            return Ok(None);
        }
        match self.files.read(alloc, word(self.paths, place)) {
            Ok(bytes) => Ok(Some(bytes)),
            Err(error) if error.kind() == ErrorKind::OutOfMemory => Err(AllocError),
            Err(_) => Ok(None),
        }
    }
}

/// Prints the statements of a run over the files of several submitters. The tables and the usage list are read whole
/// before any is parsed; the files are read where they are needed.
pub(crate) fn settle_submitted<R: Threads + Wait + Sync, S: Source + Sync, W: Write>(
    rt: &R,
    alloc: Global,
    files: &S,
    inputs: SubmittedInputs,
    plan: Plan,
    out: &mut W,
) -> Result<io::Result<()>, Failure>
    ensures statements { IfOk result (λ printed. OnOk printed ((text : List ℕ)
        × Appends (W.contents out.old) (W.contents out.new) text
        × AreSubmittedStatementsOver (S.holds files.now) (paths_of inputs) text)) }
    ensures failure { IfErr result IsRefusal }
    ensures files { IfErr result (IsOfSubmitted (S.holds files.now) (S.refuses files.now) (paths_of inputs)) }
    ensures silent { IfErr result (λ _. out.new ≡ out.old) }
{
    let SubmittedInputs {
        tables,
        files: named,
    } = inputs;
    let tables = read_tables(files, alloc, tables)?;
    let cwr = CwrFiles {
        files,
        paths: named.paths.as_slice(),
    };
    match read_submitted(rt, alloc, &named.names, tables, &cwr, plan.thread_count()) {
        Ok(tables) => match settle_tables_to(rt, alloc, tables, plan, out) {
            Ok(printed) => Ok(printed),
            Err(_) => Err(Failure::Room),
        },
        Err(fault) => Err(what_failed(fault, named.paths)),
    }
}

/// The explanation of a usage line of such a run. The tables and the usage list are read whole before any is parsed;
/// the files are read one after another.
pub(crate) fn explain_in_submitted<S: Source>(
    alloc: Global,
    files: &S,
    inputs: SubmittedInputs,
    row: u64,
) -> Result<Vec<u8>, Failure>
    ensures explanation { IfOk result (λ text.
        IsSubmittedExplanationOver (S.holds files.now) (paths_of inputs) row text.items) }
    ensures failure { IfErr result IsRefusal }
    ensures files { IfErr result (IsSubmittedUnexplained (S.holds files.now) (S.refuses files.now)
        (paths_of inputs) row) }
{
    let SubmittedInputs {
        tables,
        files: named,
    } = inputs;
    let tables = read_tables(files, alloc, tables)?;
    let cwr = CwrFiles {
        files,
        paths: named.paths.as_slice(),
    };
    match explain_submitted(alloc, &named.names, &tables, &cwr, row) {
        Ok(Some(text)) => Ok(text),
        Ok(None) => Err(Failure::Row(row)),
        Err(fault) => Err(what_failed(fault, named.paths)),
    }
}

/// A table to begin with, of the files of submitters.
pub(crate) fn starting_table<S: Source + Sync>(
    alloc: Global,
    files: &S,
    asked: StartingWords,
) -> Result<Vec<u8>, Failure>
    ensures table { IfOk result (λ text. IsTableOf asked.table asked.files.names (HoldsAt (S.holds files.now)
        (map string_bytes asked.files.paths.items)) text.items) }
    ensures failure { IfErr result IsRefusal }
    ensures files { IfErr result (IsOfFiles (S.holds files.now) (S.refuses files.now) asked.files.names
        (map string_bytes asked.files.paths.items)) }
{
    let StartingWords {
        table,
        files: named,
    } = asked;
    let cwr = CwrFiles {
        files,
        paths: named.paths.as_slice(),
    };
    match table_of(alloc, table, &named.names, &cwr) {
        Ok(text) => Ok(text),
        Err(fault) => Err(what_failed(fault, named.paths)),
    }
}

/// The report on the files of such a run. The tables and the usage list are read whole before any is parsed; the files
/// are read one after another.
pub(crate) fn check_in_submitted<S: Source>(
    alloc: Global,
    files: &S,
    inputs: SubmittedInputs,
) -> Result<Checked, Failure>
    requires { length inputs.files.paths.items ≡ length inputs.files.names }
    ensures report { IfOk result (λ checked.
        IsSubmittedReportOver (S.holds files.now) (paths_of inputs) checked.is_sound checked.text.items) }
    ensures failure { IfErr result IsRefusal }
    ensures files { IfErr result (IsSubmittedUnchecked (S.holds files.now) (S.refuses files.now) (paths_of inputs)) }
{
    let SubmittedInputs {
        tables,
        files: named,
    } = inputs;
    let tables = read_table_files(files, alloc, tables)?;
    let paths = named.paths.as_slice();
    let cwr = CwrFiles { files, paths };
    match check_submitted(alloc, &named.names, &tables, paths, &cwr) {
        Ok(checked) => Ok(checked),
        Err(fault) => Err(what_failed(fault, named.paths)),
    }
}

/// What the fault of an input comes to, where the files of the submitters have these paths.
pub(crate) fn what_failed(fault: SubmittedFault, mut paths: Vec<String>) -> Failure
    ensures said { IsWithin (length (map string_bytes paths.items)) fault
        → IsSaidOf (map string_bytes paths.items) fault result }
    ensures beyond { (¬ IsWithin (length (map string_bytes paths.items)) fault) → result ≡ Room }
    ensures refusal { IsRefusal result }
{
    let count = paths.len();
    match fault {
        SubmittedFault::Tis(fault) => Failure::Input(Fault::Tis(fault)),
        SubmittedFault::Payee(fault) => Failure::Input(Fault::Payee(fault)),
        SubmittedFault::Works(fault) => Failure::Works(fault),
        SubmittedFault::Unreadable(place) if place < count => {
            Failure::File(paths.swap_remove(place))
        }
        SubmittedFault::Cwr(place, fault) if place < count => Failure::Registrations {
            fault,
            path: paths.swap_remove(place),
        },
        SubmittedFault::Usage(fault) => Failure::Input(Fault::Usage(fault)),
        SubmittedFault::Unreadable(_) | SubmittedFault::Cwr(_, _) | SubmittedFault::Room => {
            Failure::Room
        }
    }
}

/// The bytes of the tables of these paths, read in this order.
fn read_tables<S: Source>(
    files: &S,
    alloc: Global,
    paths: SubmittedTables<String>,
) -> Result<SubmittedTables<Vec<u8>>, Failure>
    ensures read { IfOk result (λ read.
        AreTablesRead (S.holds files.now) (map_tables string_bytes paths) (map_tables (λ bytes. bytes.items) read)) }
    ensures failure { IfErr result IsRefusal }
    ensures files { IfErr result (λ failure. (failure ≡ Room)
        ⊎ IsOfTables (S.holds files.now) (S.refuses files.now) (map_tables string_bytes paths) failure) }
{
    let SubmittedTables {
        territories,
        payees,
        works,
        usage,
    } = read_table_files(files, alloc, paths)?;
    let payees = match payees {
        Some(file) => Some(file.bytes),
        None => None,
    };
    Ok(SubmittedTables {
        territories: territories.bytes,
        payees,
        works: works.bytes,
        usage: usage.bytes,
    })
}

/// The tables of these paths, read in this order.
pub(crate) fn read_table_files<S: Source>(
    files: &S,
    alloc: Global,
    paths: SubmittedTables<String>,
) -> Result<SubmittedTables<File>, Failure>
    ensures read { IfOk result (λ read.
        AreTablesRead (S.holds files.now) (map_tables string_bytes paths) (map_tables bytes_of read)) }
    ensures paths { IfOk result (λ read. map_tables path_of read ≡ map_tables string_bytes paths) }
    ensures failure { IfErr result IsRefusal }
    ensures files { IfErr result (λ failure. (failure ≡ Room)
        ⊎ IsOfTables (S.holds files.now) (S.refuses files.now) (map_tables string_bytes paths) failure) }
{
    let territories = file_of(files, alloc, paths.territories)?;
    let payees = file_if_given(files, alloc, paths.payees)?;
    let works = file_of(files, alloc, paths.works)?;
    let usage = file_of(files, alloc, paths.usage)?;
    Ok(SubmittedTables {
        territories,
        payees,
        works,
        usage,
    })
}

/// Whether a path is that of a table or of a file of a run over the files of several submitters, by whatever name.
pub(crate) fn is_submitted<T: Target>(
    target: &T,
    inputs: &SubmittedInputs,
    path: &str,
) -> io::Result<bool>
    ensures none { IfOk result (λ is_input. is_input ≡ false → IsNoneOf (paths_of inputs.now) path.now) }
    ensures some { IfOk result (λ is_input. is_input ≡ true
        → IsOfSomeSubmitted (T.one_file target.now path.now) (paths_of inputs.now)) }
{
    let tables = &inputs.tables;
    if let Some(payees) = &tables.payees
        && target.is_one_file(path, payees.as_str())?
    {
        return Ok(true);
    }
    Ok(
        target.is_one_file(path, tables.territories.as_str())?
            || target.is_one_file(path, tables.works.as_str())?
            || target.is_one_file(path, tables.usage.as_str())?
            || is_among(target, inputs.files.paths.as_slice(), path)?,
    )
}

/// Whether a path is one of these, by whatever name.
fn is_among<T: Target>(target: &T, paths: &[String], path: &str) -> io::Result<bool>
    ensures none { IfOk result (λ is_among. is_among ≡ false → All (IsOther path.now) (map string_bytes paths.now)) }
    ensures some { IfOk result (λ is_among. is_among ≡ true → (other : List ℕ)
        × Contains (map string_bytes paths.now) other × T.one_file target.now path.now other) }
{
    for other in paths {
        if target.is_one_file(path, other.as_str())? {
            return Ok(true);
        }
    }
    Ok(false)
}
