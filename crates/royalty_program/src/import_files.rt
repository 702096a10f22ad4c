//! An import over files.

ghost use Rattle.std.specs.Option.{option_map};
ghost use Rattle.std.specs.Prelude.{◌≡◌, ◌≢◌, ◌≤◌, ◌⊎◌, ◌↔◌, IfErr, IfOk, IfSome, IsTrue, OnErr, OnOk, false};
ghost use Rattle.std.specs.Prelude.{string_bytes, true};
ghost use Rattle.royalty_program.specs.ImportFiles.{AreAllLeft, AreApart, AreKept, AreLeftOrWhole, AreLeftOrWritten};
ghost use Rattle.royalty_program.specs.ImportFiles.{AreMapsOver, AreOthersLeft};
ghost use Rattle.royalty_program.specs.ImportFiles.{IsImportOver, IsMadeOver, IsMapOver, IsNoneOfInputs, IsOfExport};
ghost use Rattle.royalty_program.specs.ImportFiles.{IsInTheWay, IsOfImportOver, IsOfMaps, IsOfOneMap, IsOfPaths};
ghost use Rattle.royalty_program.specs.ImportFiles.{IsOfSomeOfInputs, IsToldOf};
ghost use Rattle.royalty_program.specs.OutputPath.{IsOfGiven};
ghost use Rattle.royalty_program.specs.Status.{IsRefusal};
ghost use Rattle.royalty_program.specs.declared.failure.Failure.TheVariants as failures;
ghost use Rattle.sales_import.specs.SummaryText.{summary_text};

use crate::failure::Failure;
use crate::import_command::{ImportWords, MapPaths, TablePaths};
use crate::sources::{Source, Texts, unread};
use crate::targets::{Target, finish, unkept};
use sales_import::{ImportFault, Mapping, Maps, Summary, import_export, summary_text};
use sales_lines::ColumnFault;
use std::alloc::Global;
use std::io;
use value_maps::{Kind, MapFault, ValueMap};

/// What an import answers: its summary, and whether no row was rejected.
#[derive(Drop)]
pub(crate) struct Imported {
    pub(crate) text: Vec<u8>,
    pub(crate) is_whole: bool,
}

/// Makes usage lines of the rows of an export, and keeps them and the rejected rows in the files that the words name:
/// each whole, or that is as it was. The rejected rows are kept first. A file that is an input's, or that of both, is
/// refused before anything is read.
pub(crate) fn import_out<S: Source + Texts, T: Target>(
    alloc: Global,
    files: &S,
    target: &mut T,
    asked: ImportWords,
) -> Result<Imported, Failure>
    requires { asked.mapping.places ≤ 9 }
    ensures imported { IfOk result (λ imported. IsImportOver (T.keeps target.new) (S.holds files.now)
        (S.gives files.now)
        asked imported.is_whole imported.text.items) }
    ensures failure { IfErr result IsRefusal }
    ensures files { IfErr result (IsOfImportOver (S.holds files.now) (S.gives files.now) (S.refuses files.now) asked) }
    ensures left { AreAllLeft (T.keeps target.old) (T.keeps target.new) ⊎ AreLeftOrWritten (T.keeps target.old)
        (T.keeps target.new) (S.gives files.now) asked.tables asked.mapping }
{
    let ImportWords {
        tables,
        maps,
        mapping,
    } = asked;
    let tables = apart(target, &maps, tables)?;
    let maps = read_maps(alloc, files, maps)?;
    import_apart(alloc, files, target, &mapping, maps, tables)
}

/// The paths of the tables, where those that are written are no inputs, and two.
fn apart<T: Target>(target: &T, maps: &MapPaths, tables: TablePaths) -> Result<TablePaths, Failure>
    ensures same { IfOk result (λ apart. apart ≡ tables) }
    ensures apart { OnOk result (AreApart tables maps.now) }
    ensures failure { IfErr result IsRefusal }
    ensures paths { IfErr result (IsOfPaths tables) }
    ensures in_the_way { IfErr result (IsInTheWay (T.one_file target.now) tables maps.now) }
{
    match is_input(target, &tables, maps, tables.output.as_str()) {
        Ok(false) => {}
        Ok(true) => return Err(Failure::Replaces(tables.output)),
        Err(error) => return Err(unkept(error.kind(), tables.output)),
    }
    match is_input(target, &tables, maps, tables.rejects.as_str()) {
        Ok(false) => {}
        Ok(true) => return Err(Failure::Replaces(tables.rejects)),
        Err(error) => return Err(unkept(error.kind(), tables.rejects)),
    }
    match target.is_one_file(tables.output.as_str(), tables.rejects.as_str()) {
        Ok(false) => Ok(tables),
        Ok(true) => Err(Failure::BothTables(tables.rejects)),
        Err(error) => Err(unkept(error.kind(), tables.rejects)),
    }
}

/// Whether a path is that of the export or of a table of values, by whatever name.
fn is_input<T: Target>(
    target: &T,
    tables: &TablePaths,
    maps: &MapPaths,
    path: &str,
) -> io::Result<bool>
    ensures none { IfOk result (λ is_input. is_input ≡ false → IsNoneOfInputs tables.now maps.now path.now) }
    ensures some { IfOk result (λ is_input. is_input ≡ true
        → IsOfSomeOfInputs (T.one_file target.now path.now) tables.now maps.now) }
{
    Ok(
        target.is_one_file(path, tables.export.as_str())?
            || is_map(target, &maps.works, path)?
            || is_map(target, &maps.territories, path)?
            || is_map(target, &maps.rights, path)?,
    )
}

/// Whether a path is that of a table of values, if there is one.
fn is_map<T: Target>(target: &T, map: &Option<String>, path: &str) -> io::Result<bool>
    ensures none { IfOk result (λ is_map. is_map ≡ false → IfSome map.now (λ map. path.now ≢ string_bytes map)) }
    ensures some { IfOk result (λ is_map. is_map ≡ true
        → IsOfGiven (T.one_file target.now path.now) (option_map string_bytes map.now)) }
{
    match map {
        Some(map) => target.is_one_file(path, map.as_str()),
        None => Ok(false),
    }
}

/// The tables of values, each read whole and looked at before the next.
fn read_maps<S: Source>(alloc: Global, files: &S, paths: MapPaths) -> Result<Maps, Failure>
    ensures maps { IfOk result (AreMapsOver (S.holds files.now) paths) }
    ensures failure { IfErr result IsRefusal }
    ensures files { IfErr result (IsOfMaps (S.holds files.now) (S.refuses files.now) paths) }
{
    let works = read_map(alloc, files, Kind::Works, paths.works)?;
    let territories = read_map(alloc, files, Kind::Territories, paths.territories)?;
    let rights = read_map(alloc, files, Kind::Rights, paths.rights)?;
    Ok(Maps {
        works,
        territories,
        rights,
    })
}

/// The table of values of a path, if there is one.
fn read_map<S: Source>(
    alloc: Global,
    files: &S,
    kind: Kind,
    path: Option<String>,
) -> Result<Option<ValueMap>, Failure>
    ensures map { IfOk result (IsMapOver (S.holds files.now) kind (option_map string_bytes path)) }
    ensures failure { IfErr result IsRefusal }
    ensures file { IfErr result (IsOfOneMap (S.holds files.now) (S.refuses files.now) kind path) }
{
    let Some(path) = path else {
        return Ok(None);
    };
    let bytes = match files.read(alloc, path.as_str()) {
        Ok(bytes) => bytes,
        Err(error) => return Err(unread(error.kind(), path)),
    };
    match ValueMap::read(alloc, kind, bytes.as_slice()) {
        Ok(map) => Ok(Some(map)),
        Err(MapFault::Memory) => Err(Failure::Room),
        Err(fault) => Err(Failure::Map { fault, path }),
    }
}

/// The same over tables of values that were read, where neither file is that of an input, and they are two.
fn import_apart<S: Texts, T: Target>(
    alloc: Global,
    files: &S,
    target: &mut T,
    mapping: &Mapping,
    maps: Maps,
    tables: TablePaths,
) -> Result<Imported, Failure>
    requires places { mapping.now.places ≤ 9 }
    requires apart { string_bytes tables.output ≢ string_bytes tables.rejects }
    ensures imported { IfOk result (λ imported. IsMadeOver (T.keeps target.new)
        (S.gives files.now) tables mapping.now maps
        imported.is_whole imported.text.items) }
    ensures failure { IfErr result IsRefusal }
    ensures files { IfErr result (IsOfExport (S.gives files.now) tables mapping.now) }
    ensures left { AreAllLeft (T.keeps target.old) (T.keeps target.new) ⊎ AreLeftOrWritten (T.keeps target.old)
        (T.keeps target.new) (S.gives files.now) tables mapping.now }
{
    let reader = match files.open(tables.export.as_str()) {
        Ok(reader) => reader,
        Err(error) => return Err(unread(error.kind(), tables.export)),
    };
    let mut lines = match target.begin(alloc, tables.output.as_str()) {
        Ok(draft) => draft,
        Err(error) => return Err(unkept(error.kind(), tables.output)),
    };
    let mut rejected = match target.begin(alloc, tables.rejects.as_str()) {
        Ok(draft) => draft,
        Err(error) => {
            target.discard(lines, tables.output.as_str());
            return Err(unkept(error.kind(), tables.rejects));
        }
    };
    match import_export(alloc, mapping, maps, reader, &mut lines, &mut rejected) {
        Ok(summary) => keep_both(alloc, target, lines, rejected, tables, &summary),
        Err(fault) => {
            target.discard(lines, tables.output.as_str());
            target.discard(rejected, tables.rejects.as_str());
            Err(told(fault, tables))
        }
    }
}

/// Sees both tables to their paths, that of the rejected rows first, and answers the summary.
fn keep_both<T: Target>(
    alloc: Global,
    target: &mut T,
    lines: T::Draft,
    rejected: T::Draft,
    tables: TablePaths,
    summary: &Summary,
) -> Result<Imported, Failure>
    requires { string_bytes tables.output ≢ string_bytes tables.rejects }
    ensures kept { OnOk result (AreKept T.blank (T.Draft.contents lines) (T.Draft.contents rejected)
        (T.keeps target.new) tables) }
    ensures text { IfOk result (λ imported. imported.text.items
        ≡ summary_text (string_bytes tables.export) summary.now) }
    ensures whole { IfOk result (λ imported. IsTrue imported.is_whole ↔ (summary.now.rejected.rows ≡ 0)) }
    ensures failure { IfErr result (λ failure. (failure ≡ failures.Room)
        ⊎ (failure ≡ failures.Target tables.output) ⊎ (failure ≡ failures.Target tables.rejects)) }
    ensures left { AreLeftOrWhole T.blank (T.Draft.contents lines) (T.Draft.contents rejected) (T.keeps target.old)
        (T.keeps target.new) tables }
    ensures others { AreOthersLeft (T.keeps target.old) (T.keeps target.new) tables }
{
    let Ok(text) = summary_text(alloc, tables.export.as_str(), summary) else {
        target.discard(lines, tables.output.as_str());
        target.discard(rejected, tables.rejects.as_str());
        return Err(Failure::Room);
    };
    if let Err(failure) = finish(target, rejected, tables.rejects, Ok(Ok(()))) {
        target.discard(lines, tables.output.as_str());
        return Err(failure);
    }
    finish(target, lines, tables.output, Ok(Ok(())))?;
    Ok(Imported {
        text,
        is_whole: summary.rejected.rows == 0,
    })
}

/// Why there is no import.
fn told(fault: ImportFault, tables: TablePaths) -> Failure
    ensures told { IsToldOf tables fault result }
    ensures refusal { IsRefusal result }
{
    match fault {
        ImportFault::Read(error) => unread(error.kind(), tables.export),
        ImportFault::Lines(error) => unkept(error.kind(), tables.output),
        ImportFault::Rejects(error) => unkept(error.kind(), tables.rejects),
        ImportFault::Headless => Failure::Headless(tables.export),
        ImportFault::Column { fault, word } => match fault {
            ColumnFault::NoHeader => Failure::NoHeader(word),
            ColumnFault::None => Failure::NoColumn {
                word,
                path: tables.export,
            },
            ColumnFault::Many => Failure::ManyColumns {
                word,
                path: tables.export,
            },
            ColumnFault::Memory => Failure::Room,
        },
        ImportFault::Memory => Failure::Room,
    }
}
