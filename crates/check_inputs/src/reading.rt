//! The inputs, each read on past what is refused in it.

ghost use Rattle.std.specs.Prelude.{◌≡◌, ◌<◌, ◌+◌, ◌^◌, [], ℕ, List, IfOk, Option, length};
ghost use Rattle.csv_table.specs.RowTable.{IsReadWithout};
ghost use Rattle.csv_table.specs.Table.{rows_of};
ghost use Rattle.cwr_share.specs.Lines.{lines_of};
ghost use Rattle.cwr_share.specs.declared.cwr_fault.CwrFault.{CwrFault};
ghost use Rattle.check_inputs.specs.Found.{AreRegistrationsWithout};
ghost use Rattle.check_inputs.specs.SoFar.{HasReadAll};
ghost use Rattle.check_inputs.specs.SubmittedFound.{AreInForceWithout};
ghost use Rattle.check_inputs.specs.Report.{cwr_line, fault_lines, row_line};

use crate::messages::Worded;
use crate::told::Told;
use csv_table::{FileFault, Rows, TableReader};
use cwr_share::{CwrFault, CwrReader, InForce, Payees, Registry};
use std::alloc::{AllocError, Global};

/// Reads a table past the rows that are refused, and tells their faults. What is read goes into an empty table.
pub(crate) fn read_past_faults<'a, T: Worded>(
    alloc: Global,
    path: &'a str,
    bytes: &[u8],
    empty: T,
) -> Result<(Told<'a>, T), AllocError>
where
    T::Fault: FileFault,
    requires { T.items empty ≡ [] }
    ensures read { IfOk result (λ read. (out : List (List (List ℕ) × T.Fault))
        × IsReadWithout (T.rules (T.known empty)) (rows_of bytes.now) out (T.items read.1)
        × (read.0.text.items ≡ fault_lines
        (row_line T.message T.Fault.place_in T.Fault.number_in path.entry.now) path.entry.now out)
        × (read.0.count ≡ length out)) }
    ensures known { IfOk result (λ read. T.known read.1 ≡ T.known empty) }
{
    let mut told = Told::none(alloc, path);
    let mut reader = TableReader::of(alloc, bytes, empty)?;
    if !reader.is_headed() {
        // No field of a row stands in the words for it.
        told.row::<T>(&Rows::of(alloc, b""), &reader.headless())?;
    }
    while let Some(fault) = reader.next_fault(alloc)? {
        told.row::<T>(reader.row(), &fault)?;
    }
    told.close()?;
    Ok((told, reader.finish()))
}

/// Reads a CWR file, where what a party claims is paid to its payee. There are no registrations where they have too
/// many payees.
pub(crate) fn read_cwr<'a>(
    alloc: Global,
    path: &'a str,
    bytes: &[u8],
    payees: &Payees,
) -> Result<(Told<'a>, Option<Registry>), AllocError>
    ensures { IfOk result (λ read. (out : List (List ℕ × CwrFault))
        × AreRegistrationsWithout payees.now (lines_of bytes.now) out read.1
        × (read.0.text.items ≡ fault_lines (cwr_line path.entry.now) path.entry.now out)
        × (read.0.count ≡ length out)) }
{
    let (mut told, reader) = read_lines(alloc, path, bytes)?;
    match reader.finish(alloc, payees) {
        Ok(registry) => {
            told.close()?;
            Ok((told, Some(registry)))
        }
        Err(CwrFault::Accounts) => {
            told.cwr(b"", CwrFault::Accounts)?;
            told.close()?;
            Ok((told, None))
        }
        Err(_) => Err(AllocError),
    }
}

/// Reads what is in force in a CWR file.
pub(crate) fn read_in_force<'a>(
    alloc: Global,
    path: &'a str,
    bytes: &[u8],
) -> Result<(Told<'a>, InForce), AllocError>
    ensures { IfOk result (λ read. (out : List (List ℕ × CwrFault)) × AreInForceWithout (lines_of bytes.now) out read.1
        × (read.0.text.items ≡ fault_lines (cwr_line path.entry.now) path.entry.now out)
        × (read.0.count ≡ length out)) }
{
    let (mut told, reader) = read_lines(alloc, path, bytes)?;
    told.close()?;
    let in_force = reader.in_force()?;
    // Its contract says that each work stands once.
    let _each_once = in_force.len();
    Ok((told, in_force))
}

/// Reads the lines of a CWR file past those that are refused, and tells their faults.
fn read_lines<'a, 'b>(
    alloc: Global,
    path: &'a str,
    bytes: &'b [u8],
) -> Result<(Told<'a>, CwrReader<'b>), AllocError>
    ensures read { IfOk result (λ read. HasReadAll (cwr_line path.entry.now)
        (lines_of bytes.entry.now) read.0.text.items read.0.count read.1) }
    ensures path { IfOk result (λ read. read.0.path.now ≡ path.entry.now) }
    ensures few { IfOk result (λ read. read.0.count + 1 < 2 ^ 64) }
{
    let mut told = Told::none(alloc, path);
    let mut reader = CwrReader::of(alloc, bytes);
    while let Some(fault) = reader.next_fault(alloc)? {
        told.cwr(reader.line(), fault)?;
    }
    Ok((told, reader))
}
