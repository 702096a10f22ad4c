//! A table of usage lines that is read in parts, side by side.
ghost use Rattle.std.specs.Prelude.{IfErr, IfOk};
ghost use Rattle.csv_table.specs.Table.{rows_of};
ghost use Rattle.line_split.specs.UsageParts.{AreLinesOf, IsFaultIn};
ghost use Rattle.line_split.specs.UsageTable.{IsFaultOf, IsTableOf};

use crate::usage::{joined, room_for};
use crate::{LineFault, Usage};
use csv_table::{cut_in_two, read_rows, read_table};
use std::alloc::Global;
use std::thread::{Threads, join};

impl Usage {
    /// Reads a table of usage lines as `read` does, in two parts side by side, each of them in two parts again, so many times
    /// over. The lines before a cut tell that it was right: within quotes, the last of them would have a line feed in a field.
    /// So where what stands before a cut is refused, one thread reads it again, with what stands behind it. A thread that the
    /// system refuses costs time alone.
    pub fn read_in_parts<R: Threads + Sync>(
        rt: &R,
        alloc: Global,
        bytes: &[u8],
        halvings: u32,
    ) -> Result<Usage, LineFault>
        ensures lines { IfOk result (IsTableOf (rows_of bytes.now)) }
        ensures fault { IfErr result (IsFaultOf (rows_of bytes.now)) }
    {
        table_in_parts(rt, alloc, bytes, room_for(bytes), halvings)
    }
}

/// Reads a table in parts, in memory for so many lines.
fn table_in_parts<R: Threads + Sync>(
    rt: &R,
    alloc: Global,
    bytes: &[u8],
    room: usize,
    halvings: u32,
) -> Result<Usage, LineFault>
    ensures lines { IfOk result (IsTableOf (rows_of bytes.now)) }
    ensures fault { IfErr result (IsFaultOf (rows_of bytes.now)) }
{
    if halvings == 0 {
        return read_table(alloc, bytes, Usage::with_room(alloc, room)?);
    }
    let Some((first, second)) = cut_in_two(bytes) else {
        return read_table(alloc, bytes, Usage::with_room(alloc, room)?);
    };
    let halvings = halvings - 1;
    let (more, table) = join(
        rt,
        || -> Result<Usage, LineFault>
            ensures lines { IfOk result (AreLinesOf (rows_of second.entry.now)) }
            ensures fault { IfErr result (IsFaultIn (rows_of second.entry.now)) }
        { lines_in_parts(rt, alloc, second, room_for(second), halvings) },
        || -> Result<Usage, LineFault>
            ensures lines { IfOk result (IsTableOf (rows_of first.entry.now)) }
            ensures fault { IfErr result (IsFaultOf (rows_of first.entry.now)) }
        { table_in_parts(rt, alloc, first, room, halvings) },
    );
    match table {
        Ok(table) => joined(table, more),
        Err(LineFault::Memory) => Err(LineFault::Memory),
        // The cut may have been within quotes, or before the header.
        Err(_) => read_table(alloc, bytes, Usage::with_room(alloc, room)?),
    }
}

/// Reads the lines of a text without a header in parts, in memory for so many. Its first row counts as 1.
fn lines_in_parts<R: Threads + Sync>(
    rt: &R,
    alloc: Global,
    bytes: &[u8],
    room: usize,
    halvings: u32,
) -> Result<Usage, LineFault>
    ensures lines { IfOk result (AreLinesOf (rows_of bytes.now)) }
    ensures fault { IfErr result (IsFaultIn (rows_of bytes.now)) }
{
    if halvings == 0 {
        return read_rows(alloc, bytes, Usage::with_room(alloc, room)?);
    }
    let Some((first, second)) = cut_in_two(bytes) else {
        return read_rows(alloc, bytes, Usage::with_room(alloc, room)?);
    };
    let halvings = halvings - 1;
    let (more, lines) = join(
        rt,
        || -> Result<Usage, LineFault>
            ensures lines { IfOk result (AreLinesOf (rows_of second.entry.now)) }
            ensures fault { IfErr result (IsFaultIn (rows_of second.entry.now)) }
        { lines_in_parts(rt, alloc, second, room_for(second), halvings) },
        || -> Result<Usage, LineFault>
            ensures lines { IfOk result (AreLinesOf (rows_of first.entry.now)) }
            ensures fault { IfErr result (IsFaultIn (rows_of first.entry.now)) }
        { lines_in_parts(rt, alloc, first, room, halvings) },
    );
    match lines {
        Ok(lines) => joined(lines, more),
        Err(LineFault::Memory) => Err(LineFault::Memory),
        // The cut may have been within quotes.
        Err(_) => read_rows(alloc, bytes, Usage::with_room(alloc, room)?),
    }
}
