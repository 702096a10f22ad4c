//! Asks the libraries that read a run's inputs, and divide an amount, the rows of tables, and compares their answers.
//!
//! `row_tables` says how a table is written. Which questions it has, its name says: each subject is a module here.
#![tactic(auto)]

mod amounts;
mod asked;
mod csv_tables;
mod division;
mod documents;
mod imports;
mod pairs;
mod payees;
mod registrations;
mod sums;
mod territories;
mod usage_lines;
mod written_rows;

use asked::Asked;
use row_tables::{Rows, Tally, written_out};
use std::alloc::{AllocError, Global};
use std::process::ExitCode;
use std::rt::Files;
use std::{env, fs, io};

fn main(rt: HostRuntime) -> io::Result<ExitCode> {
    let mut are_right = true;
    for name in env::args(&rt)?.skip(1) {
        let tally = ask_table(&rt, name.as_str())?;
        eprint!(rt; "{}", tally.report())?;
        println!(rt; "{name}: {tally}")?;
        are_right = are_right && tally.is_right();
    }
    Ok(if are_right {
        ExitCode::SUCCESS
    } else {
        ExitCode::FAILURE
    })
}

/// Asks all rows of the table in a file.
fn ask_table<R: Files + AllocGlobal>(rt: &R, table: &str) -> io::Result<Tally> {
    let text = fs::read_to_string(rt, table)?;
    let mut tally = Tally::new(rt.alloc());
    let mut rows = Rows::of(rt.alloc(), text.as_str());
    ask_rows(rt, table, &mut rows, &mut tally)?;
    Ok(tally)
}

/// Asks the rows that are left of a table.
fn ask_rows<R: Files + AllocGlobal>(
    rt: &R,
    table: &str,
    rows: &mut Rows<'_>,
    tally: &mut Tally,
) -> Result<(), AllocError> {
    for _ in 0..u64::MAX {
        if !rows.next()? {
            break;
        }
        let found = answer(rt, table, rows)?;
        tally.compare(rt.alloc(), table, rows, found.as_bytes())?;
    }
    Ok(())
}

/// The answer to the row at hand, or why there is none.
fn answer<R: Files + AllocGlobal>(
    rt: &R,
    table: &str,
    rows: &Rows<'_>,
) -> Result<String, AllocError> {
    let mut answer = String::new(rt.alloc());
    if let Err(error) = add_answer(rt, table, rows, &mut answer) {
        answer.clear();
        write!(answer, "no answer: {error}")?;
    }
    Ok(answer)
}

/// Adds the answer to the row at hand, of the files that its heading names.
fn add_answer<R: Files + AllocGlobal>(
    rt: &R,
    table: &str,
    rows: &Rows<'_>,
    answer: &mut String,
) -> anyhow::Result<()> {
    let (ask, names) = rows.heading();
    let files = files_of(rt, names)?;
    let question = written_out(rt.alloc(), rows.question())?;
    let asked = Asked {
        ask,
        files: files.as_slice(),
        question: question.as_slice(),
    };
    match table {
        "division.txt" => division::add_answer(rt.alloc(), &asked, answer),
        "imports.txt" => imports::add_answer(rt.alloc(), &asked, answer),
        "sums.txt" => Ok(sums::add_answer(rt.alloc(), &asked, answer)?),
        "written_rows.txt" => Ok(written_rows::add_answer(rt.alloc(), &asked, answer)?),
        _ => Ok(add_answer_in(rt.alloc(), table, &asked, answer)?),
    }
}

/// Adds the answer of the subject that a table is of.
fn add_answer_in(
    alloc: Global,
    table: &str,
    asked: &Asked<'_>,
    answer: &mut String,
) -> Result<(), AllocError> {
    match table {
        "csv_table.txt" => csv_tables::add_answer(alloc, asked, answer),
        "territories.txt" => territories::add_answer(alloc, asked, answer),
        "usage_lines.txt" => usage_lines::add_answer(alloc, asked, answer),
        "pairs.txt" => pairs::add_answer(alloc, asked, answer),
        "amounts.txt" => amounts::add_answer(asked, answer),
        "registrations.txt" => registrations::add_answer(alloc, asked, answer),
        "payees.txt" => payees::add_answer(alloc, asked, answer),
        "documents.txt" => documents::add_answer(alloc, asked, answer),
        _ => asked.add_unknown(answer),
    }
}

/// What the files have that a heading names, written out.
fn files_of<R: Files + AllocGlobal>(rt: &R, names: &str) -> io::Result<Vec<Vec<u8>>> {
    let mut files = Vec::new(rt.alloc());
    for name in names.split_whitespace() {
        let text = fs::read_to_string(rt, name)?;
        files.push(written_out(rt.alloc(), text.as_str())?)?;
    }
    Ok(files)
}
