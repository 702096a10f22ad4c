//! All of an export.

ghost use Rattle.std.specs.Io.KnownBytes.{Appends};
ghost use Rattle.std.specs.Prelude.{◌≡◌, ◌≤◌, [], IfErr, IfOk, IfSome, List, OnOk, Some, false, option_map, true, ℕ};
ghost use Rattle.csv_table.specs.Written.{text_of_row};
ghost use Rattle.export_rows.specs.Places.{HasRead};
ghost use Rattle.sales_import.specs.Exported.{IsFaultOfHeader, IsImport, IsImportFault, reject_header_text};
ghost use Rattle.sales_import.specs.Imported.{line_header};
ghost use Rattle.sales_import.specs.Mapped.{AreSettings};
ghost use Rattle.sales_import.specs.SoFar.{IsOfRows};

use crate::mapping::settings_of;
use crate::page::{write_line_header, write_reject_header};
use crate::{ImportFault, Mapping, Maps, Summary, import};
use export_rows::{ExportRows, Row};
use sales_lines::Settings;
use std::alloc::Global;
use std::io::{Read, Write};

/// Makes a table of usage lines of the rows of an export, and a table of those that become none: each with its number,
/// from 1, and the reason before it. Without a header the table of rejected rows has none. One row is in memory at a time,
/// and a page of each table.
pub fn import_export<R: Read + Drop, W: Write, X: Write>(
    alloc: Global,
    mapping: &Mapping,
    maps: Maps,
    from: R,
    lines: &mut W,
    rejects: &mut X,
) -> Result<Summary, ImportFault>
    requires { mapping.now.places ≤ 9 }
    ensures imported { IfOk result (λ summary. IfSome (R.remaining from) (λ text. IsImport mapping.now maps text
        (W.contents lines.old) (W.contents lines.new) (X.contents rejects.old) (X.contents rejects.new) summary)) }
    ensures fault { IfErr result (λ fault. IfSome (R.remaining from) (λ text. IsImportFault mapping.now text fault)) }
{
    let mut rows = ExportRows::of(alloc, mapping.delimiter, from);
    if mapping.has_header {
        import_below(alloc, mapping, maps, &mut rows, lines, rejects)
    } else {
        import_all(alloc, mapping, maps, &mut rows, lines, rejects)
    }
}

/// The same of an export with a header, before its first row.
fn import_below<R: Read, W: Write, X: Write>(
    alloc: Global,
    mapping: &Mapping,
    maps: Maps,
    rows: &mut ExportRows<R>,
    lines: &mut W,
    rejects: &mut X,
) -> Result<Summary, ImportFault>
    requires places { mapping.now.places ≤ 9 }
    requires header { mapping.now.has_header ≡ true }
    ensures imported { IfOk result (λ summary. (text : List ℕ) → HasRead mapping.now.delimiter (Some text) [] rows.old
        → IsImport mapping.now maps text (W.contents lines.old) (W.contents lines.new) (X.contents rejects.old)
        (X.contents rejects.new) summary) }
    ensures fault { IfErr result (λ fault. (text : List ℕ) → HasRead mapping.now.delimiter (Some text) [] rows.old
        → IsImportFault mapping.now text fault) }
{
    if !rows.next()? {
        return Err(ImportFault::Headless);
    }
    let settings = begin(alloc, mapping, maps, Some(rows.row()), lines, rejects)?;
    let summary = import(alloc, &settings, rows, lines, rejects)?;
    Ok(summary)
}

/// The same of an export without a header, before its first row.
fn import_all<R: Read, W: Write, X: Write>(
    alloc: Global,
    mapping: &Mapping,
    maps: Maps,
    rows: &mut ExportRows<R>,
    lines: &mut W,
    rejects: &mut X,
) -> Result<Summary, ImportFault>
    requires places { mapping.now.places ≤ 9 }
    requires header { mapping.now.has_header ≡ false }
    ensures imported { IfOk result (λ summary. (text : List ℕ) → HasRead mapping.now.delimiter (Some text) [] rows.old
        → IsImport mapping.now maps text (W.contents lines.old) (W.contents lines.new) (X.contents rejects.old)
        (X.contents rejects.new) summary) }
    ensures fault { IfErr result (λ fault. (text : List ℕ) → HasRead mapping.now.delimiter (Some text) [] rows.old
        → IsImportFault mapping.now text fault) }
{
    let settings = begin(alloc, mapping, maps, None, lines, rejects)?;
    let summary = import(alloc, &settings, rows, lines, rejects)?;
    Ok(summary)
}

/// What the words of a mapping say, by the header of an export, if it has one; and the headers of both tables.
fn begin<W: Write, X: Write>(
    alloc: Global,
    mapping: &Mapping,
    maps: Maps,
    header: Option<&Row>,
    lines: &mut W,
    rejects: &mut X,
) -> Result<Settings, ImportFault>
    ensures settings { IfOk result (AreSettings mapping.now maps (option_map (λ row. row.now) header.entry)) }
    ensures lines { OnOk result (Appends (W.contents lines.old) (W.contents lines.new) (text_of_row line_header)) }
    ensures rejects { OnOk result (Appends (X.contents rejects.old) (X.contents rejects.new)
        (reject_header_text (option_map (λ row. row.now) header.entry))) }
    ensures fault { IfErr result (IsFaultOfHeader mapping.now (option_map (λ row. row.now) header.entry)) }
{
    let settings = settings_of(alloc, mapping, maps, header)?;
    write_headers(alloc, header, lines, rejects)?;
    Ok(settings)
}

/// Writes the headers of both tables.
fn write_headers<W: Write, X: Write>(
    alloc: Global,
    header: Option<&Row>,
    lines: &mut W,
    rejects: &mut X,
) -> Result<(), ImportFault>
    ensures lines { OnOk result (Appends (W.contents lines.old) (W.contents lines.new) (text_of_row line_header)) }
    ensures rejects { OnOk result (Appends (X.contents rejects.old) (X.contents rejects.new)
        (reject_header_text (option_map (λ row. row.now) header.entry))) }
    ensures fault { IfErr result IsOfRows }
{
    write_line_header(alloc, lines)?;
    match header {
        Some(row) => {
            write_reject_header(alloc, rejects, row)?;
            Ok(())
        }
        None => Ok(()),
    }
}
