//! The inputs of a run over the files of several submitters, read in order.

ghost use Rattle.std.specs.Prelude.{◌≡◌, IfErr, IfOk};
ghost use Rattle.std.specs.Option.{option_map};
ghost use Rattle.csv_table.specs.Table.{rows_of};
ghost use Rattle.linked_works.specs.WorksTable as works_table;
ghost use Rattle.submitted_inputs.specs.Submitted.{AreFoundIn, ArePayees, IsFaultOf, IsFaultOfPayees, IsFaultOfRegistrations, IsReading, map_tables};

use crate::files::{SubmitterFiles, read_files};
use crate::{SubmittedFault, SubmittedTables};
use cwr_share::{PayeeFault, Payees, Registry};
use linked_works::{Submitters, Works, WorksFault, read_payees};
use run_inputs::{Input, Tables, read_territories, read_usage};
use std::alloc::Global;
use std::thread::Threads;

/// Reads the inputs of a run over the files of several submitters, in order: the tables of territories, of payees and of
/// works, the files, side by side by up to `threads` threads, and then the usage lines, in parts by as many. The fault of
/// the first input that has one is the answer. A thread that the system refuses costs time alone.
pub fn read_submitted<R: Threads + Sync, I: Input + Drop, F: SubmitterFiles + Sync>(
    rt: &R,
    alloc: Global,
    submitters: &Submitters,
    tables: SubmittedTables<I>,
    files: &F,
    threads: u64,
) -> Result<Tables, SubmittedFault>
    ensures read { IfOk result (IsReading submitters.now (F.holds files.now) (map_tables I.bytes tables)) }
    ensures fault { IfErr result (IsFaultOf submitters.now (F.holds files.now) (F.refuses files.now)
        (map_tables I.bytes tables)) }
{
    let territories = read_territories(alloc, tables.territories)?;
    let payees = payees_of(alloc, submitters, tables.payees)?;
    let works = works_of(alloc, submitters, tables.works)?;
    let registry = registry_of(rt, alloc, &works, files, &payees, threads as usize)?;
    drop(payees);
    let usage = read_usage(rt, alloc, tables.usage.bytes(), threads)?;
    Ok(Tables {
        territories,
        registry,
        usage,
    })
}

/// The registry of the works, by the files of their submitters.
fn registry_of<R: Threads + Sync, F: SubmitterFiles + Sync>(
    rt: &R,
    alloc: Global,
    works: &Works<'_>,
    files: &F,
    payees: &Payees,
    threads: usize,
) -> Result<Registry, SubmittedFault>
    ensures registry { IfOk result (AreFoundIn works.now.names (F.holds files.now) payees.now works.now.links) }
    ensures fault { IfErr result (IsFaultOfRegistrations works.now.names (F.holds files.now) (F.refuses files.now)
        payees.now works.now.links) }
{
    let read = read_files(rt, alloc, files, works.submitters(), threads)?;
    Ok(works.registry(alloc, read.as_slice(), payees)?)
}

/// The links of a table of works, which is freed when it is read if it was given away.
fn works_of<'a, I: Input + Drop>(
    alloc: Global,
    submitters: &'a Submitters,
    file: I,
) -> Result<Works<'a>, WorksFault>
    ensures works { IfOk result (λ works.
        works_table.IsTableOf submitters.entry.now (rows_of (I.bytes file)) works.links) }
    ensures names { IfOk result (λ works. works.names ≡ submitters.entry.now) }
    ensures fault { IfErr result (works_table.IsFaultOf submitters.entry.now (rows_of (I.bytes file))) }
{
    Works::read(alloc, submitters, file.bytes())
}

/// The payees of a table, which is freed when it is read if it was given away.
fn payees_of<I: Input + Drop>(
    alloc: Global,
    submitters: &Submitters,
    file: Option<I>,
) -> Result<Payees, PayeeFault>
    ensures payees { IfOk result (ArePayees submitters.now (option_map I.bytes file)) }
    ensures fault { IfErr result (λ fault. IsFaultOfPayees submitters.now (option_map I.bytes file) fault) }
{
    read_payees_if_given(alloc, submitters, &file)
}

/// The payees of a table, or those of a table without rows where there is none.
pub fn read_payees_if_given<I: Input>(
    alloc: Global,
    submitters: &Submitters,
    file: &Option<I>,
) -> Result<Payees, PayeeFault>
    ensures payees { IfOk result (ArePayees submitters.now (option_map I.bytes file.now)) }
    ensures fault { IfErr result (λ fault. IsFaultOfPayees submitters.now (option_map I.bytes file.now) fault) }
{
    match file {
        Some(file) => read_payees(alloc, submitters, file.bytes()),
        None => Ok(Payees::none(alloc)),
    }
}
