//! The inputs of a run: three, and a table of payees where there is one.

ghost use Rattle.std.specs.Option.{option_map};
ghost use Rattle.std.specs.Prelude.{IfErr, IfOk, length};
ghost use Rattle.csv_table.specs.Table.{rows_of};
ghost use Rattle.cwr_share.specs.CwrFile as cwr_file;
ghost use Rattle.cwr_share.specs.Lines.{lines_of};
ghost use Rattle.line_split.specs.UsageTable as usage_table;
ghost use Rattle.tis_tree.specs.TisRows as tis_rows;
ghost use Rattle.run_inputs.specs.Inputs.{ArePayees, AreRegistrations, IsFaultOf};
ghost use Rattle.run_inputs.specs.Inputs.{IsFaultOfPayees, IsReading, map_inputs};
ghost use Rattle.run_inputs.specs.Parts.{AreHalvings};

use crate::{Fault, Input, Inputs, Tables};
use cwr_share::{CwrFault, PayeeFault, Payees, Registry};
use line_split::{LineFault, Usage};
use std::alloc::Global;
use std::thread::{Threads, join};
use tis_tree::{TisFault, TisTable};

/// The fewest bytes of the list of usage lines that are worth a thread of their own.
const FEWEST_PART_BYTES: usize = 65_536;

/// How often the list of usage lines is cut in two, each part of it again: as often as there are threads for the parts,
/// and the parts are worth it. The most is 8 parts.
fn halvings_for(threads: u64, usage: &[u8]) -> u32
    ensures halvings { AreHalvings threads (length usage.now) result }
{
    let parts = threads.min((usage.len() / FEWEST_PART_BYTES) as u64);
    if parts >= 8 {
        3
    } else if parts >= 4 {
        2
    } else if parts >= 2 {
        1
    } else {
        0
    }
}

/// Reads the inputs of a run in order, on this thread. The fault of the first input that has one is the answer. An
/// input that was given away is freed as soon as it is read.
pub fn read_inputs<I: Input + Drop>(alloc: Global, inputs: Inputs<I>) -> Result<Tables, Fault>
    ensures read { IfOk result (IsReading (map_inputs I.bytes inputs)) }
    ensures fault { IfErr result (IsFaultOf (map_inputs I.bytes inputs)) }
{
    let territories = read_territories(alloc, inputs.territories)?;
    let payees = payees_of(alloc, inputs.payees)?;
    let registry = registrations_of(alloc, inputs.registrations, &payees)?;
    drop(payees);
    let usage = Usage::read(alloc, inputs.usage.bytes())?;
    Ok(Tables {
        territories,
        registry,
        usage,
    })
}

/// The same, where the registrations are read beside the usage lines, and these by so many threads, up to eight. A
/// thread that the system refuses costs time alone.
pub fn read_inputs_in_threads<R: Threads + Sync, I: Input + Drop>(
    rt: &R,
    alloc: Global,
    inputs: Inputs<I>,
    threads: u64,
) -> Result<Tables, Fault>
    ensures read { IfOk result (IsReading (map_inputs I.bytes inputs)) }
    ensures fault { IfErr result (IsFaultOf (map_inputs I.bytes inputs)) }
{
    let territories = read_territories(alloc, inputs.territories)?;
    let paid = payees_of(alloc, inputs.payees)?;
    let file = inputs.registrations;
    let lines = inputs.usage.bytes();
    let (usage, registry) = join(
        rt,
        || -> Result<Usage, LineFault>
            ensures lines { IfOk result (usage_table.IsTableOf (rows_of lines.entry.now)) }
            ensures fault { IfErr result (usage_table.IsFaultOf (rows_of lines.entry.now)) }
        { read_usage(rt, alloc, lines, threads) },
        || -> Result<Registry, CwrFault>
            ensures registrations { IfOk result (AreRegistrations paid (lines_of (I.bytes file))) }
            ensures fault { IfErr result (cwr_file.IsFaultOf paid (lines_of (I.bytes file))) }
        { registrations_of(alloc, file, &paid) },
    );
    Ok(Tables {
        territories,
        registry: registry?,
        usage: usage?,
    })
}

/// Reads a table of usage lines by so many threads, up to eight. A thread that the system refuses costs time alone.
pub fn read_usage<R: Threads + Sync>(
    rt: &R,
    alloc: Global,
    bytes: &[u8],
    threads: u64,
) -> Result<Usage, LineFault>
    ensures lines { IfOk result (usage_table.IsTableOf (rows_of bytes.now)) }
    ensures fault { IfErr result (usage_table.IsFaultOf (rows_of bytes.now)) }
{
    Usage::read_in_parts(rt, alloc, bytes, halvings_for(threads, bytes))
}

/// Reads a table of territories, which is freed when it is read if it was given away.
pub fn read_territories<I: Input + Drop>(alloc: Global, file: I) -> Result<TisTable, TisFault>
    ensures territories { IfOk result (tis_rows.IsTableOf (rows_of (I.bytes file))) }
    ensures fault { IfErr result (tis_rows.IsFaultOf (rows_of (I.bytes file))) }
{
    TisTable::read(alloc, file.bytes())
}

/// The registrations of an input, which is freed when it is read.
fn registrations_of<I: Input + Drop>(
    alloc: Global,
    file: I,
    payees: &Payees,
) -> Result<Registry, CwrFault>
    ensures registrations { IfOk result (AreRegistrations payees.now (lines_of (I.bytes file))) }
    ensures fault { IfErr result (cwr_file.IsFaultOf payees.now (lines_of (I.bytes file))) }
{
    Registry::paid(alloc, file.bytes(), payees)
}

/// The payees of an input, or those of a table without rows where there is none.
fn payees_of<I: Input + Drop>(alloc: Global, file: Option<I>) -> Result<Payees, PayeeFault>
    ensures payees { IfOk result (ArePayees (option_map I.bytes file)) }
    ensures fault { IfErr result (λ fault. IsFaultOfPayees (option_map I.bytes file) fault) }
{
    match file {
        Some(file) => Payees::read(alloc, file.bytes()),
        None => Ok(Payees::none(alloc)),
    }
}
