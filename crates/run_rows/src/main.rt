//! Asks what stands in tables of explanations, of merged statements, of differences and of runs (`row_tables`), and compares the
//! answers.
//!
//! Its arguments name the tables. A heading has the word for what is asked, and files.
#![tactic(auto)]

mod documents;
mod files;
mod merging;
mod reading;
mod running;
mod several;
mod starting;

use anyhow::{Result, bail};
use row_tables::{Rows, Tally};
use std::alloc::Global;
use std::process::ExitCode;
use std::rt::Files;
use std::sync::Wait;
use std::thread::Threads;
use std::{env, fs, io};

fn main(rt: HostRuntime) -> io::Result<ExitCode> {
    let mut are_right = true;
    for name in env::args(&rt)?.skip(1) {
        let tally = ask_table(&rt, rt.alloc(), name.as_str())?;
        eprint!(rt; "{}", tally.report())?;
        println!(rt; "{name}: {tally}")?;
        are_right = are_right && tally.is_right();
    }
    Ok(if are_right {
        ExitCode::SUCCESS
    } else {
        ExitCode::FAILURE
    })
}

/// Asks the rows of the table in a file.
fn ask_table<R: Files + AllocGlobal + Threads + Wait + Sync>(
    rt: &R,
    alloc: Global,
    name: &str,
) -> io::Result<Tally> {
    let text = fs::read_to_string(rt, name)?;
    let mut tally = Tally::new(alloc);
    ask_rows(
        rt,
        alloc,
        name,
        &mut Rows::of(alloc, text.as_str()),
        &mut tally,
    )?;
    Ok(tally)
}

fn ask_rows<R: Files + AllocGlobal + Threads + Wait + Sync>(
    rt: &R,
    alloc: Global,
    name: &str,
    rows: &mut Rows<'_>,
    tally: &mut Tally,
) -> io::Result<()> {
    for _ in 0..u64::MAX {
        if !rows.next()? {
            break;
        }
        ask_row(rt, alloc, name, rows, tally)?;
    }
    Ok(())
}

fn ask_row<R: Files + AllocGlobal + Threads + Wait + Sync>(
    rt: &R,
    alloc: Global,
    name: &str,
    rows: &Rows<'_>,
    tally: &mut Tally,
) -> io::Result<()> {
    let (ask, of) = rows.heading();
    let found = match answer(rt, alloc, ask, of, rows.question()) {
        Ok(found) => found,
        Err(error) => format!(in alloc; "no answer: {error}")?,
    };
    tally.compare(alloc, name, rows, found.as_bytes())?;
    Ok(())
}

/// The answer to a question below a heading.
fn answer<R: Files + AllocGlobal + Threads + Wait + Sync>(
    rt: &R,
    alloc: Global,
    ask: &str,
    of: &str,
    question: &str,
) -> Result<String> {
    match ask {
        "several" => several::statements(rt, alloc, of, question),
        "title" => documents::title_in_file(rt, alloc, of, question),
        "title_by_hand" => documents::title_in_table(rt, alloc, of, question),
        "name" => documents::name_of(rt, alloc, of, question),
        "territory" => documents::territory(rt, alloc, of, question),
        "sheet" => documents::sheet(rt, alloc, of, question),
        "uses" => documents::uses(rt, alloc, of, question),
        "works" => starting::works(rt, alloc, of, question),
        "parties" => starting::parties(rt, alloc, of, question),
        "names" => several::names(alloc, question),
        "explained" => running::explained(rt, alloc, of, question),
        "statements" => running::statements(rt, alloc, of, question),
        "plan" => running::plan(alloc, question),
        "row" => merging::fields(alloc, question),
        "amount" => merging::amount(alloc, question),
        "count" => merging::count(alloc, question),
        "merged" => merging::merged(alloc, question),
        "adjusted" => merging::adjusted(alloc, question),
        "merged_rows" => merging::merged_rows(alloc, question),
        "checked" => merging::checked(alloc, question),
        "cut" => merging::cut_off(alloc, question),
        "lines" => reading::lines(alloc, of, question),
        "sizes" => reading::sizes(alloc, question),
        _ => bail!("nothing is asked so"),
    }
}
