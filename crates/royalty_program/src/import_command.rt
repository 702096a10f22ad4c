//! The grammar of the command `import`, and what its words ask for.

ghost use Rattle.std.specs.List.{list_all};
ghost use Rattle.std.specs.Prelude.{◌≡◌, ◌↔◌, ◌≤◌, IfErr, IfOk, IsSome, IsTrue, List, None, codes, map, string_bytes, ℕ};
ghost use Rattle.clap.specs.Words.{found_of, matches_of, rows_of, rule_of};
ghost use Rattle.royalty_program.specs.Args.{IsOptionalArg, file_rule};
ghost use Rattle.royalty_program.specs.Asked.{text_or};
ghost use Rattle.royalty_program.specs.ImportCommand.{AddsArgs, AreImportFrom, AreMapPathsFrom, AreSound, AreTablePathsFrom};
ghost use Rattle.royalty_program.specs.ImportCommand.{AreWanted, IsFlagged, IsImportCommand, IsImportError, IsWanted};
ghost use Rattle.royalty_program.specs.ImportCommand.{IsMappingFrom, add_columns, add_forms, add_tables, add_targets};
ghost use Rattle.royalty_program.specs.ImportCommand.{column_names, delimiter_of, digit_of, export_rule, flag_rule};
ghost use Rattle.royalty_program.specs.ImportCommand.{form_names, import_app, is_condition, is_delimiter, is_digit_text};
ghost use Rattle.royalty_program.specs.ImportCommand.{mark_of, table_names, target_names, texts_of, where_rule};
ghost use Rattle.royalty_program.specs.SubmittedCommand.{files_rule};

use crate::options::{
    file_arg, files_arg, new_command, optional_arg, optional_file_arg, owned, owned_all, owned_or,
};
use crate::submitted_command::wrong_files;
use clap::{Arg, ArgAction, ArgMatches, Command, Error};
use decimal_amounts::Mark;
use export_rows::Delimiter;
use sales_import::{Mapping, Wanted};
use std::alloc::{AllocError, Global};

/// What stands below the help of `import`.
const IMPORT_HELP: &str = "\
EXPORT is a table of sales or uses, CSV or with what --delimiter names between its fields, of any
length. Each of its rows becomes a usage line for `royalty_run run`, or goes to the rejected rows with
the reason, or is passed over since it is blank or not one of those that --where keeps. Nothing stops
at a bad row, and no row is in two places.

COL says where a value stands:
  title        the column of this name in the header, which has to be the only one
  #7           the seventh field of each row
  =TEXT        nowhere: it is TEXT in every row
Several --usage are joined with - between them. Without --works, --territories and --rights, values
stay as they are: a work as usage lines are to name it, a TIS numeric code, P, M or S. Each of these
tables has the header from,to and a row for each value.

Amounts are decimal numbers, as 12.34, 1,234.56 or -0.5, with --decimal-comma 12,34 and 1.234,56.
They become whole units of which --decimals says the places: with 2 12.34 becomes 1234. An amount
that has more places than that is rejected and never rounded, unless they are 0. With 6 an amount of
0.000125 is kept as 125, and the documents show it so with the same --decimals. No amount may be more
than 1000000000000 units.

The rejected rows are CSV with commas. Their number and the reason stand before each row as it was:
correct them, and import the file by itself, without --delimiter. With --no-header they have no
header either, and the seventh field is then #9.

The answer counts the rows, and adds their amounts in units. The status is 1 where one was rejected.

Examples:
  royalty_run import sales.csv --usage use --work isrc --territory land --right =P --amount net \\
    --works works.csv --territories lands.csv --output usage.csv --rejects rejects.csv
  royalty_run import sales.txt --delimiter tab --no-header --where '#1=SR' --usage '#3' --usage '#4' \\
    --work '#9' --territory '#5' --right '#7' --rights rights.csv --amount '#12' --decimals 6 \\
    --output usage.csv --rejects rejects.csv";

/// The words of an import: its files, and how they map rows to usage lines.
#[derive(Drop)]
pub struct ImportWords {
    pub tables: TablePaths,
    pub maps: MapPaths,
    pub mapping: Mapping,
}

/// The paths of the table that is read, and of the two that are written.
#[derive(Drop)]
pub struct TablePaths {
    /// That of the export.
    pub export: String,
    /// That of the usage lines.
    pub output: String,
    /// That of the rejected rows.
    pub rejects: String,
}

/// The paths of the tables by which values become works, territories and rights, as far as they are named.
#[derive(Drop)]
pub struct MapPaths {
    pub works: Option<String>,
    pub territories: Option<String>,
    pub rights: Option<String>,
}

/// Reads the words of an import, the first of which is `import`. Values of `--where`, `--delimiter` and `--decimals` are
/// refused that say nothing.
pub fn read_import(alloc: Global, words: &[String]) -> Result<ImportWords, Error>
    ensures read { IfOk result (AreImportFrom (map string_bytes words.now)) }
    ensures places { IfOk result (λ asked. asked.mapping.places ≤ 9) }
    ensures error { IfErr result (IsImportError (map string_bytes words.now)) }
{
    let matches = import_command(alloc)?.try_get_matches_from(words)?;
    if let Some(message) = what_is_wrong(alloc, &matches)? {
        return Err(wrong_files(import_command(alloc)?, message.as_str())?);
    }
    let asked = read_found(alloc, &matches)?;
    Ok(asked)
}

/// What is wrong with the values that a parse found, if anything is.
fn what_is_wrong(alloc: Global, matches: &ArgMatches<'_>) -> Result<Option<String>, AllocError>
    ensures sound { IfOk result (λ wrong. wrong ≡ None → (words : List (List ℕ))
        → rows_of (found_of matches.now) ≡ matches_of import_app words → AreSound words) }
    ensures wrong { IfOk result (λ wrong. IsSome wrong → (words : List (List ℕ))
        → rows_of (found_of matches.now) ≡ matches_of import_app words → ¬ AreSound words) }
{
    if !are_conditions(matches.get_strs("where")) {
        let message = "a value of '--where <COL=TEXT>' is not a column, a = and a text";
        return Ok(Some(String::from_str(alloc, message)?));
    }
    if !is_delimiter(value_or(matches, "delimiter", "comma")) {
        let message = "the value of '--delimiter <NAME>' is not comma, semicolon, tab or pipe";
        return Ok(Some(String::from_str(alloc, message)?));
    }
    if !is_digit(value_or(matches, "decimals", "2")) {
        let message = "the value of '--decimals <n>' is not 0 to 9";
        return Ok(Some(String::from_str(alloc, message)?));
    }
    Ok(None)
}

/// The words of an import by what a parse found.
fn read_found(alloc: Global, matches: &ArgMatches<'_>) -> Result<ImportWords, AllocError>
    ensures places { IfOk result (λ asked. asked.mapping.places ≤ 9) }
    ensures found { IfOk result (λ asked. (words : List (List ℕ))
        → rows_of (found_of matches.now) ≡ matches_of import_app words → AreImportFrom words asked) }
{
    let tables = read_table_paths(alloc, matches)?;
    let maps = read_map_paths(alloc, matches)?;
    let mapping = read_mapping(alloc, matches)?;
    Ok(ImportWords {
        tables,
        maps,
        mapping,
    })
}

/// The paths of the tables that a parse found.
fn read_table_paths(alloc: Global, matches: &ArgMatches<'_>) -> Result<TablePaths, AllocError>
    ensures { IfOk result (λ tables. (words : List (List ℕ))
        → rows_of (found_of matches.now) ≡ matches_of import_app words → AreTablePathsFrom words tables) }
{
    let export = owned_or(alloc, matches.get_str("EXPORT"), "")?;
    let output = owned_or(alloc, matches.get_str("output"), "")?;
    let rejects = owned_or(alloc, matches.get_str("rejects"), "")?;
    Ok(TablePaths {
        export,
        output,
        rejects,
    })
}

/// The paths of the tables of values that a parse found.
fn read_map_paths(alloc: Global, matches: &ArgMatches<'_>) -> Result<MapPaths, AllocError>
    ensures { IfOk result (λ maps. (words : List (List ℕ))
        → rows_of (found_of matches.now) ≡ matches_of import_app words → AreMapPathsFrom words maps) }
{
    let works = owned(alloc, matches.get_str("works"))?;
    let territories = owned(alloc, matches.get_str("territories"))?;
    let rights = owned(alloc, matches.get_str("rights"))?;
    Ok(MapPaths {
        works,
        territories,
        rights,
    })
}

/// How rows are mapped by what a parse found.
fn read_mapping(alloc: Global, matches: &ArgMatches<'_>) -> Result<Mapping, AllocError>
    ensures places { IfOk result (λ mapping. mapping.places ≤ 9) }
    ensures mapping { IfOk result (λ mapping. (words : List (List ℕ))
        → rows_of (found_of matches.now) ≡ matches_of import_app words → IsMappingFrom words mapping) }
{
    let wanted = wanted_of(alloc, matches.get_strs("where"))?;
    let usage = owned_of(alloc, matches.get_strs("usage"))?;
    let work = owned_or(alloc, matches.get_str("work"), "")?;
    let territory = owned_or(alloc, matches.get_str("territory"), "")?;
    let right = owned_or(alloc, matches.get_str("right"), "")?;
    let amount = owned_or(alloc, matches.get_str("amount"), "")?;
    Ok(Mapping {
        delimiter: delimiter_of(value_or(matches, "delimiter", "comma")),
        has_header: !is_flagged(matches, "no-header"),
        wanted,
        usage,
        work,
        territory,
        right,
        amount,
        mark: mark_of(is_flagged(matches, "decimal-comma")),
        places: digit_of(value_or(matches, "decimals", "2")),
    })
}

/// Whether an option without a value stands among the words.
fn is_flagged(matches: &ArgMatches<'_>, name: &str) -> bool
    ensures { (words : List (List ℕ)) → rows_of (found_of matches.now) ≡ matches_of import_app words
        → (IsTrue result ↔ IsFlagged name.now words) }
{
    match matches.get_str(name) {
        Some(value) => value == "true",
        None => false,
    }
}

/// The value of an option that need not be there, or this where it is not.
fn value_or<'a>(matches: &ArgMatches<'a>, name: &str, missing: &'a str) -> &'a str
    ensures { (words : List (List ℕ)) → rows_of (found_of matches.now) ≡ matches_of import_app words
        → result.now ≡ text_or missing.now import_app name.now words }
{
    match matches.get_str(name) {
        Some(value) => value,
        None => missing,
    }
}

/// Whether each of the values that an option has, if it is given, is a column, a `=` and a text.
fn are_conditions(values: Option<&[&str]>) -> bool
    ensures { result ≡ list_all is_condition (texts_of values.entry) }
{
    match values {
        Some(values) => are_all_conditions(values),
        None => true,
    }
}

/// Whether each value is a column, a `=` and a text.
fn are_all_conditions(values: &[&str]) -> bool
    ensures { result ≡ list_all (λ value. is_condition value.now) values.now }
{
    values.iter().all(|value| is_condition(value))
}

/// Whether a value is a column, a `=` and a text.
fn is_condition(value: &str) -> bool
    ensures { result ≡ is_condition value.now }
{
    match value.as_bytes() {
        [b'=', ..] => false,
        bytes => bytes.contains(&b'='),
    }
}

/// Whether a name says what stands between fields.
fn is_delimiter(name: &str) -> bool
    ensures { result ≡ is_delimiter name.now }
{
    name == "comma" || name == "semicolon" || name == "tab" || name == "pipe"
}

/// What it says.
fn delimiter_of(name: &str) -> Delimiter
    ensures { result ≡ delimiter_of name.now }
{
    if name == "semicolon" {
        return Delimiter::Semicolon;
    }
    if name == "tab" {
        return Delimiter::Tab;
    }
    if name == "pipe" {
        return Delimiter::Pipe;
    }
    Delimiter::Comma
}

/// What stands before decimals.
fn mark_of(is_comma: bool) -> Mark
    ensures { result ≡ mark_of is_comma }
{
    if is_comma { Mark::Comma } else { Mark::Point }
}

/// Whether a text is one digit.
fn is_digit(text: &str) -> bool
    ensures { result ≡ is_digit_text text.now }
{
    let bytes = text.as_bytes();
    bytes.len() == 1 && bytes[0] >= b'0' && bytes[0] <= b'9'
}

/// Its number.
fn digit_of(text: &str) -> u32
    ensures few { result ≤ 9 }
    ensures number { result ≡ digit_of text.now }
{
    if is_digit(text) {
        return u32::from(text.as_bytes()[0] - b'0');
    }
    2
}

/// What rows have to have, by the values COL=TEXT that an option has, if it is given.
fn wanted_of(alloc: Global, values: Option<&[&str]>) -> Result<Vec<Wanted>, AllocError>
    ensures { IfOk result (λ wanted. AreWanted (texts_of values.entry) wanted.items) }
{
    match values {
        Some(values) => wanted_all(alloc, values),
        None => Ok(Vec::new(alloc)),
    }
}

/// What rows have to have, by values COL=TEXT.
fn wanted_all(alloc: Global, values: &[&str]) -> Result<Vec<Wanted>, AllocError>
    ensures { IfOk result (λ wanted. AreWanted (map (λ value. value.now) values.now) wanted.items) }
{
    let mut wanted = Vec::new(alloc);
    for value in values {
        wanted.push(wanted_by(alloc, value)?)?;
    }
    Ok(wanted)
}

/// What a row has to have, by a value COL=TEXT.
fn wanted_by(alloc: Global, value: &str) -> Result<Wanted, AllocError>
    ensures { IfOk result (IsWanted value.now) }
{
    match value.split_once('=') {
        Some((column, text)) => wanted_in(alloc, column, text),
        None => wanted_in(alloc, value, ""),
    }
}

/// A text, and the column that is to have it.
fn wanted_in(alloc: Global, column: &str, text: &str) -> Result<Wanted, AllocError>
    ensures { IfOk result (λ wanted. (string_bytes wanted.column ≡ column.now) × (string_bytes wanted.text ≡ text.now)) }
{
    let column = String::from_str(alloc, column)?;
    let text = String::from_str(alloc, text)?;
    Ok(Wanted { column, text })
}

/// The values that an option has, if it is given, as texts of their own.
fn owned_of(alloc: Global, values: Option<&[&str]>) -> Result<Vec<String>, AllocError>
    ensures { IfOk result (λ owned. map string_bytes owned.items ≡ texts_of values.entry) }
{
    match values {
        Some(values) => owned_all(alloc, values),
        None => Ok(Vec::new(alloc)),
    }
}

pub fn import_command<'a>(alloc: Global) -> Result<Command<'a>, AllocError>
    ensures { IfOk result IsImportCommand }
{
    let command = new_command(
        alloc,
        "import",
        "royalty_run import",
        "Make usage lines of the rows of a sales report",
        IMPORT_HELP,
    )?;
    let command = with_columns(alloc, command)?;
    let command = with_tables(alloc, command)?;
    let command = with_forms(alloc, command)?;
    with_targets(alloc, command)
}

/// A command with the export, and the options that say where values stand.
fn with_columns<'a>(alloc: Global, command: Command<'a>) -> Result<Command<'a>, AllocError>
    ensures { IfOk result (AddsArgs column_names add_columns command.entry) }
{
    command
        .arg(export_arg(alloc))?
        .arg(column_arg(
            alloc,
            "usage",
            "What a use is called; several are joined with - between them",
        ))?
        .arg(one_column_arg(alloc, "work", "The work"))?
        .arg(one_column_arg(alloc, "territory", "The territory"))?
        .arg(one_column_arg(alloc, "right", "The right"))?
        .arg(one_column_arg(alloc, "amount", "The amount, as 12.34"))?
        .arg(where_arg(alloc))
}

/// A command with the options of tables of values.
fn with_tables<'a>(alloc: Global, command: Command<'a>) -> Result<Command<'a>, AllocError>
    ensures { IfOk result (AddsArgs table_names add_tables command.entry) }
{
    command
        .arg(optional_file_arg(alloc, "works", "A table from,to: the works that values are"))?
        .arg(optional_file_arg(
            alloc,
            "territories",
            "A table from,to: the TIS codes that values are",
        ))?
        .arg(optional_file_arg(
            alloc,
            "rights",
            "A table from,to: the rights that values are",
        ))
}

/// A command with the options of how an export and its amounts are written.
fn with_forms<'a>(alloc: Global, command: Command<'a>) -> Result<Command<'a>, AllocError>
    ensures { IfOk result (AddsArgs form_names add_forms command.entry) }
{
    command
        .arg(optional_arg(
            alloc,
            "decimals",
            "n",
            "How many decimal places the units of usage lines have: 0 to 9 [default: 2]",
        ))?
        .arg(flag_arg(
            alloc,
            "decimal-comma",
            "Decimals stand behind a comma, as in 1.234,56",
        ))?
        .arg(optional_arg(
            alloc,
            "delimiter",
            "NAME",
            "What stands between fields: comma, semicolon, tab or pipe [default: comma]",
        ))?
        .arg(flag_arg(
            alloc,
            "no-header",
            "The first row is one like the others, and columns are named by #n",
        ))
}

/// A command with the options of the files that are written.
fn with_targets<'a>(alloc: Global, command: Command<'a>) -> Result<Command<'a>, AllocError>
    ensures { IfOk result (AddsArgs target_names add_targets command.entry) }
{
    command
        .arg(file_arg(alloc, "output", "A file for the usage lines"))?
        .arg(file_arg(alloc, "rejects", "A file for the rejected rows"))
}

/// The path of the export, which is no option.
fn export_arg<'a>(alloc: Global) -> Arg<'a>
    ensures optional { IsOptionalArg (codes "EXPORT") result }
    ensures rule { rule_of result ≡ export_rule }
{
    Arg::new(alloc, "EXPORT")
        .help("The table that usage lines are made of")
        .required(true)
        .action(ArgAction::Set)
}

/// A required option that says where a value stands, and which may stand several times.
fn column_arg<'a>(alloc: Global, name: &'a str, help: &'a str) -> Arg<'a>
    ensures optional { IsOptionalArg name.entry.now result }
    ensures rule { rule_of result ≡ files_rule name.entry.now }
{
    files_arg(alloc, name, help).value_name("COL")
}

/// A required option that says where a value stands.
fn one_column_arg<'a>(alloc: Global, name: &'a str, help: &'a str) -> Arg<'a>
    ensures optional { IsOptionalArg name.entry.now result }
    ensures rule { rule_of result ≡ file_rule name.entry.now }
{
    file_arg(alloc, name, help).value_name("COL")
}

/// The option of what a row has to have, which may stand several times or not at all.
fn where_arg<'a>(alloc: Global) -> Arg<'a>
    ensures optional { IsOptionalArg (codes "where") result }
    ensures rule { rule_of result ≡ where_rule }
{
    optional_arg(
        alloc,
        "where",
        "COL=TEXT",
        "Only rows that have this text there; the others are passed over",
    )
    .action(ArgAction::Append)
}

/// An option without a value.
fn flag_arg<'a>(alloc: Global, name: &'a str, help: &'a str) -> Arg<'a>
    ensures optional { IsOptionalArg name.entry.now result }
    ensures rule { rule_of result ≡ flag_rule name.entry.now }
{
    Arg::new(alloc, name)
        .long(name)
        .help(help)
        .action(ArgAction::SetTrue)
}
