//! How words map the rows of an export to usage lines.

ghost use Rattle.std.specs.Prelude.{◌≡◌, IfErr, IfOk, length, map, option_map, string_bytes};
ghost use Rattle.sales_import.specs.Mapped.{AreConditions, AreSettings, AreSources, IsFaultAmong, IsFaultOfWord};
ghost use Rattle.sales_import.specs.Mapped.{IsMappingFault, columns_wanted};
ghost use Rattle.sales_lines.specs.Columns.{IsSourceOf};

use crate::ImportFault;
use decimal_amounts::Mark;
use export_rows::{Delimiter, Row};
use sales_lines::{ColumnFault, Condition, Settings, Source};
use std::alloc::Global;
use value_maps::ValueMap;

/// What a value has to be for a row to be kept: the word that says where it stands, and the text.
#[derive(Debug, Drop)]
pub struct Wanted {
    pub column: String,
    pub text: String,
}

/// How words map the rows of an export to usage lines. Where a value stands is said as `Source::of` reads it.
#[derive(Debug, Drop)]
pub struct Mapping {
    /// What stands between the fields of the export.
    pub delimiter: Delimiter,
    /// Whether its first row names the columns.
    pub has_header: bool,
    /// A row is kept where all these values are as they have to be.
    pub wanted: Vec<Wanted>,
    /// What its use is called: these values, with `-` between them.
    pub usage: Vec<String>,
    pub work: String,
    pub territory: String,
    pub right: String,
    pub amount: String,
    /// What stands before the decimals of an amount.
    pub mark: Mark,
    /// How many decimal places the units of usage lines have, at most 9.
    pub places: u32,
}

/// The tables by which values become works, territories and rights, as far as there are any.
#[derive(Drop)]
pub struct Maps {
    pub works: Option<ValueMap>,
    pub territories: Option<ValueMap>,
    pub rights: Option<ValueMap>,
}

/// What the words of a mapping say, by the header of an export, if it has one.
pub(crate) fn settings_of(
    alloc: Global,
    mapping: &Mapping,
    maps: Maps,
    header: Option<&Row>,
) -> Result<Settings, ImportFault>
    ensures settings { IfOk result (AreSettings mapping.now maps (option_map (λ row. row.now) header.entry)) }
    ensures fault { IfErr result (IsMappingFault mapping.now (option_map (λ row. row.now) header.entry)) }
{
    let usage = sources(alloc, mapping.usage.as_slice(), header)?;
    let work = source(alloc, &mapping.work, header)?;
    let territory = source(alloc, &mapping.territory, header)?;
    let right = source(alloc, &mapping.right, header)?;
    let amount = source(alloc, &mapping.amount, header)?;
    let conditions = conditions(alloc, mapping.wanted.as_slice(), header)?;
    Ok(Settings {
        width: width(header),
        conditions,
        usage,
        work,
        territory,
        right,
        amount,
        works: maps.works,
        territories: maps.territories,
        rights: maps.rights,
        mark: mapping.mark,
        places: mapping.places,
    })
}

/// How many fields a header has, if there is one.
fn width(header: Option<&Row>) -> Option<usize>
    ensures { result ≡ option_map (λ row. length row.now) header.entry }
{
    match header {
        Some(row) => Some(row.len()),
        None => None,
    }
}

/// Where values stand, by words.
fn sources(
    alloc: Global,
    words: &[String],
    header: Option<&Row>,
) -> Result<Vec<Source>, ImportFault>
    ensures sources { IfOk result (λ sources.
        AreSources (option_map (λ row. row.now) header.entry) (map string_bytes words.now) sources.items) }
    ensures fault { IfErr result (IsFaultAmong (option_map (λ row. row.now) header.entry) (map string_bytes words.now)) }
{
    let mut sources = Vec::new(alloc);
    for word in words {
        let source = source(alloc, word, header)?;
        match sources.push(source) {
            Ok(()) => {}
            Err(_) => return Err(ImportFault::Memory),
        }
    }
    Ok(sources)
}

/// What has to hold of rows, by words and texts.
fn conditions(
    alloc: Global,
    wanted: &[Wanted],
    header: Option<&Row>,
) -> Result<Vec<Condition>, ImportFault>
    ensures conditions { IfOk result (λ conditions.
        AreConditions (option_map (λ row. row.now) header.entry) wanted.now conditions.items) }
    ensures fault { IfErr result (IsFaultAmong (option_map (λ row. row.now) header.entry) (columns_wanted wanted.now)) }
{
    let mut conditions = Vec::new(alloc);
    for each in wanted {
        let source = source(alloc, &each.column, header)?;
        let text = Vec::from_slice(alloc, each.text.as_bytes())?;
        match conditions.push(Condition { source, text }) {
            Ok(()) => {}
            Err(_) => return Err(ImportFault::Memory),
        }
    }
    Ok(conditions)
}

/// Where a value stands, by a word.
fn source(alloc: Global, word: &String, header: Option<&Row>) -> Result<Source, ImportFault>
    ensures source { IfOk result (IsSourceOf (option_map (λ row. row.now) header.entry) (string_bytes word.now)) }
    ensures fault { IfErr result (IsFaultOfWord (option_map (λ row. row.now) header.entry) (string_bytes word.now)) }
{
    match Source::of(alloc, word.as_bytes(), header) {
        Ok(source) => Ok(source),
        Err(ColumnFault::Memory) => Err(ImportFault::Memory),
        Err(fault) => {
            let word = word.clone()?;
            Err(ImportFault::Column { fault, word })
        }
    }
}
