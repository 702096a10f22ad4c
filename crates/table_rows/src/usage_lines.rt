//! Tables of usage lines, good and bad.

use crate::asked::{Asked, named_and_numbered};
use csv_table::FileFault;
use line_split::{Line, LineFault, Usage};
use row_tables::text_of;
use std::alloc::{AllocError, Global};

pub fn add_answer(alloc: Global, asked: &Asked<'_>, answer: &mut String) -> Result<(), AllocError> {
    match asked.ask {
        "refusal" | "count" | "lines" => add_answer_of(alloc, asked, answer),
        "fault" => write!(answer, "{}", fault_in(asked.text())),
        _ => asked.add_unknown(answer),
    }
}

/// Adds that a table is taken, or how many lines it has, or each of them; or what it is refused for, as the fault's
/// number and the row's.
fn add_answer_of(alloc: Global, asked: &Asked<'_>, answer: &mut String) -> Result<(), AllocError> {
    let table = asked.below(alloc)?;
    match Usage::read(alloc, table.as_slice()) {
        Ok(usage) => match asked.ask {
            "refusal" => answer.push_str("taken"),
            "count" => write!(answer, "{}", usage.len()),
            _ => add_lines(&usage, answer),
        },
        Err(fault) => write!(answer, "{} {:?}", fault.number(), fault.place()),
    }
}

/// Adds the lines of a table.
fn add_lines(usage: &Usage, answer: &mut String) -> Result<(), AllocError> {
    for place in 0..usage.len() {
        add_line(&usage.line(place), answer)?;
    }
    Ok(())
}

/// Adds the fields of a line, with strokes between them.
fn add_line(line: &Line<'_>, answer: &mut String) -> Result<(), AllocError> {
    let (usage, work) = (text_of(line.usage), text_of(line.work));
    let (territory, right, amount) = (line.territory, line.right, line.amount);
    writeln!(answer, "{usage}|{work}|{territory}|{right:?}|{amount}")
}

/// The fault of a name and a row.
fn fault_in(text: &str) -> LineFault {
    let (name, row) = named_and_numbered(text);
    match name {
        "Csv" => LineFault::Csv(row),
        "Fields" => LineFault::Fields(row),
        "Territory" => LineFault::Territory(row),
        "Right" => LineFault::Right(row),
        "Amount" => LineFault::Amount(row),
        "Lines" => LineFault::Lines,
        _ => LineFault::Memory,
    }
}
