//! All rows of a sales report.

ghost use Rattle.std.specs.Io.KnownBytes.{Appends};
ghost use Rattle.std.specs.Prelude.{◌≡◌, ◌≤◌, [], IfErr, IfOk};
ghost use Rattle.sales_import.specs.Imported.{output};
ghost use Rattle.sales_import.specs.SoFar.{IsImported, IsOfRows};

use crate::going::Going;
use crate::{ImportFault, Summary};
use csv_table::RowWriter;
use export_rows::ExportRows;
use sales_lines::Settings;
use std::alloc::Global;
use std::io::{Read, Write};

/// Makes usage lines of the rows of an export that are left, and adds them to a table below its header. A row that
/// becomes none is added to a table of rejected rows, with its number, from 1, and the reason before it; one that is
/// passed over is counted. One row is in memory at a time, and a page of each table.
pub fn import<R: Read, W: Write, X: Write>(
    alloc: Global,
    settings: &Settings,
    rows: &mut ExportRows<R>,
    lines: &mut W,
    rejects: &mut X,
) -> Result<Summary, ImportFault>
    requires { settings.now.places ≤ 9 }
    ensures imported { IfOk result (IsImported settings.now rows.old (W.contents lines.old) (W.contents lines.new)
        (X.contents rejects.old) (X.contents rejects.new)) }
    ensures fault { IfErr result IsOfRows }
{
    let mut going = Going {
        lines: RowWriter::new(alloc),
        rejects: RowWriter::new(alloc),
        usage: Vec::new(alloc),
        summary: Summary::none(),
    };
    for number in 1..u64::MAX {
        if !rows.next()? {
            let summary = finish(going, lines, rejects)?;
            return Ok(summary);
        }
        going.add_row(alloc, settings, number, rows.row(), lines, rejects)?;
    }
    Err(ImportFault::Memory)
}

/// Passes on what is left of both tables.
fn finish<W: Write, X: Write>(
    mut going: Going,
    lines: &mut W,
    rejects: &mut X,
) -> Result<Summary, ImportFault>
    ensures lines { IfOk result (λ _. Appends (output W.contents lines.old going.lines) (W.contents lines.new) []) }
    ensures rejects { IfOk result (λ _.
        Appends (output X.contents rejects.old going.rejects) (X.contents rejects.new) []) }
    ensures summary { IfOk result (λ summary. summary ≡ going.summary) }
    ensures fault { IfErr result IsOfRows }
{
    if let Err(error) = going.lines.write_to(lines) {
        return Err(ImportFault::Lines(error));
    }
    if let Err(error) = going.rejects.write_to(rejects) {
        return Err(ImportFault::Rejects(error));
    }
    Ok(going.summary)
}
