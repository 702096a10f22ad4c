//! Sales reports made into usage lines.
//!
//! A question is the words of an import and, behind a stroke, the export. The heading names the tables of works, of
//! territories and of rights, as far as there are any.

use crate::asked::Asked;
use decimal_amounts::{MOST_PLACES, Mark};
use export_rows::Delimiter;
use row_tables::text_of;
use sales_import::{Mapping, Maps, Wanted, import_export, summary_text};
use std::alloc::{AllocError, Global};
use value_maps::{Kind, MapFault, ValueMap};

/// What an import gives: its two tables, and its summary as a text.
#[derive(Drop)]
struct Imported {
    lines: Vec<u8>,
    rejects: Vec<u8>,
    summary: Vec<u8>,
}

pub fn add_answer(alloc: Global, asked: &Asked<'_>, answer: &mut String) -> anyhow::Result<()> {
    match asked.ask {
        "map" => add_map(alloc, asked, answer),
        _ => add_import(alloc, asked, answer),
    }
}

/// Adds what the first table of the heading makes of each word.
fn add_map(alloc: Global, asked: &Asked<'_>, answer: &mut String) -> anyhow::Result<()> {
    let map = ValueMap::read(alloc, Kind::Works, asked.file(0))?;
    for word in asked.text().split_whitespace() {
        match map.value_of(word.as_bytes()) {
            Some(value) => write!(answer, "[{}]", text_of(value))?,
            None => answer.push_str("none")?,
        }
    }
    Ok(())
}

/// Adds what is asked of an import: a table whole, or the rows below its header.
fn add_import(alloc: Global, asked: &Asked<'_>, answer: &mut String) -> anyhow::Result<()> {
    let imported = import_of(alloc, asked)?;
    match asked.ask {
        "table" => answer.push_str(text_of(imported.lines.as_slice()))?,
        "lines" => answer.push_str(below(text_of(imported.lines.as_slice())))?,
        "rejected" => answer.push_str(text_of(imported.rejects.as_slice()))?,
        "rejects" => answer.push_str(below(text_of(imported.rejects.as_slice())))?,
        "summary" => answer.push_str(text_of(imported.summary.as_slice()))?,
        _ => asked.add_unknown(answer)?,
    }
    Ok(())
}

/// What stands below the first line of a text.
fn below(text: &str) -> &str {
    match text.split_once('\n') {
        Some((_, rows)) => rows,
        None => "",
    }
}

/// What the words and the export of a question give.
fn import_of(alloc: Global, asked: &Asked<'_>) -> anyhow::Result<Imported> {
    let (words, export) = asked.text().split_once(" / ").unwrap_or((asked.text(), ""));
    let mut mapping = mapping_of(alloc, words)?;
    mapping.places = mapping.places.min(MOST_PLACES);
    let maps = Maps {
        works: map_in(alloc, Kind::Works, asked.file(0))?,
        territories: map_in(alloc, Kind::Territories, asked.file(1))?,
        rights: map_in(alloc, Kind::Rights, asked.file(2))?,
    };
    let mut lines = Vec::new(alloc);
    let mut rejects = Vec::new(alloc);
    let export = export.as_bytes();
    let summary = import_export(alloc, &mapping, maps, export, &mut lines, &mut rejects)?;
    Ok(Imported {
        lines,
        rejects,
        summary: summary_text(alloc, "x", &summary)?,
    })
}

/// The mapping that words say.
fn mapping_of(alloc: Global, words: &str) -> Result<Mapping, AllocError> {
    let mut mapping = Mapping {
        delimiter: Delimiter::Comma,
        has_header: true,
        wanted: Vec::new(alloc),
        usage: Vec::new(alloc),
        work: String::new(alloc),
        territory: String::new(alloc),
        right: String::new(alloc),
        amount: String::new(alloc),
        mark: Mark::Point,
        places: 2,
    };
    for word in words.split_whitespace() {
        let (key, value) = word.split_once(':').unwrap_or((word, ""));
        match key {
            "usage" => mapping.usage.push(String::from_str(alloc, value)?)?,
            "work" => mapping.work = String::from_str(alloc, value)?,
            "territory" => mapping.territory = String::from_str(alloc, value)?,
            "right" => mapping.right = String::from_str(alloc, value)?,
            "amount" => mapping.amount = String::from_str(alloc, value)?,
            "where" => mapping.wanted.push(wanted_in(alloc, value)?)?,
            "places" => mapping.places = value.parse().unwrap_or(2),
            "comma" => mapping.mark = Mark::Comma,
            "between" => mapping.delimiter = delimiter_of(value),
            _ => mapping.has_header = false,
        }
    }
    Ok(mapping)
}

/// The table that bytes are, if there are any.
fn map_in(alloc: Global, kind: Kind, bytes: &[u8]) -> Result<Option<ValueMap>, MapFault> {
    if bytes.is_empty() {
        return Ok(None);
    }
    Ok(Some(ValueMap::read(alloc, kind, bytes)?))
}

/// What stands between fields, by its name.
fn delimiter_of(name: &str) -> Delimiter {
    match name {
        "semicolon" => Delimiter::Semicolon,
        "tab" => Delimiter::Tab,
        "pipe" => Delimiter::Pipe,
        _ => Delimiter::Comma,
    }
}

/// A column and the text that it has to have.
fn wanted_in(alloc: Global, word: &str) -> Result<Wanted, AllocError> {
    let (column, text) = word.split_once('~').unwrap_or((word, ""));
    Ok(Wanted {
        column: String::from_str(alloc, column)?,
        text: String::from_str(alloc, text)?,
    })
}
