//! Tables of territories, good and bad.

use crate::asked::{Asked, named_and_numbered};
use csv_table::FileFault;
use std::alloc::{AllocError, Global};
use tis_tree::{Code, TisFault, TisTable};

pub fn add_answer(alloc: Global, asked: &Asked<'_>, answer: &mut String) -> Result<(), AllocError> {
    match asked.ask {
        "code" => write!(answer, "{:?}", code_in(asked.text()).map(Code::number)),
        "fault" => write!(answer, "{}", fault_in(asked.text())),
        "refusal" => add_answer_of(alloc, asked.below(alloc)?.as_slice(), asked, answer),
        "contains" | "known" | "length" => add_answer_of(alloc, asked.file(0), asked, answer),
        _ => asked.add_unknown(answer),
    }
}

/// The code of the number that a text writes.
fn code_in(text: &str) -> Option<Code> {
    Code::of(text.parse().unwrap_or(0))
}

/// Adds what a table answers, or what it is refused for, as the fault's number and the row's.
fn add_answer_of(
    alloc: Global,
    table: &[u8],
    asked: &Asked<'_>,
    answer: &mut String,
) -> Result<(), AllocError> {
    match TisTable::read(alloc, table) {
        Ok(table) => add_answer_by(&table, asked, answer),
        Err(fault) => write!(answer, "{} {:?}", fault.number(), fault.place()),
    }
}

/// Adds whether a table says that a group contains a land, or whether it knows a code, or how many rows it has.
fn add_answer_by(
    table: &TisTable,
    asked: &Asked<'_>,
    answer: &mut String,
) -> Result<(), AllocError> {
    let (group, land) = asked.text().split_once(' ').unwrap_or((asked.text(), ""));
    let found = match (asked.ask, code_in(group), code_in(land)) {
        ("contains", Some(group), Some(land)) => table.contains(group, land),
        ("known", Some(code), _) => table.known(code),
        ("length", _, _) => return write!(answer, "{}", table.len()),
        ("refusal", _, _) => return answer.push_str("taken"),
        _ => return asked.add_unknown(answer),
    };
    write!(answer, "{found}")
}

/// The fault of a name and a row.
fn fault_in(text: &str) -> TisFault {
    let (name, row) = named_and_numbered(text);
    match name {
        "Csv" => TisFault::Csv(row),
        "Code" => TisFault::Code(row),
        "Twice" => TisFault::Twice(row),
        "Group" => TisFault::Group(row),
        "Rows" => TisFault::Rows,
        _ => TisFault::Memory,
    }
}
