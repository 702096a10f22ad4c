//! Asks what stands in tables of documents (`row_tables`), which a run writes to a folder in memory, and compares the
//! answers.
//!
//! Its arguments name the tables. A heading has the word for what is asked, and files.
#![tactic(auto)]

mod files;
mod folders;
mod memory;

use anyhow::{Result, bail};
use row_tables::{Rows, Tally};
use std::alloc::Global;
use std::process::ExitCode;
use std::rt::Files;
use std::sync::Wait;
use std::thread::Threads;
use std::{env, fs, io};

fn main(rt: HostRuntime) -> io::Result<ExitCode> {
    let mut are_right = true;
    for name in env::args(&rt)?.skip(1) {
        let tally = ask_table(&rt, rt.alloc(), name.as_str())?;
        eprint!(rt; "{}", tally.report())?;
        println!(rt; "{name}: {tally}")?;
        are_right = are_right && tally.is_right();
    }
    Ok(if are_right {
        ExitCode::SUCCESS
    } else {
        ExitCode::FAILURE
    })
}

/// Asks the rows of the table in a file.
fn ask_table<R: Files + AllocGlobal + Threads + Wait + Sync>(
    rt: &R,
    alloc: Global,
    name: &str,
) -> io::Result<Tally> {
    let text = fs::read_to_string(rt, name)?;
    let mut tally = Tally::new(alloc);
    ask_rows(
        rt,
        alloc,
        name,
        &mut Rows::of(alloc, text.as_str()),
        &mut tally,
    )?;
    Ok(tally)
}

fn ask_rows<R: Files + AllocGlobal + Threads + Wait + Sync>(
    rt: &R,
    alloc: Global,
    name: &str,
    rows: &mut Rows<'_>,
    tally: &mut Tally,
) -> io::Result<()> {
    for _ in 0..u64::MAX {
        if !rows.next()? {
            break;
        }
        ask_row(rt, alloc, name, rows, tally)?;
    }
    Ok(())
}

fn ask_row<R: Files + AllocGlobal + Threads + Wait + Sync>(
    rt: &R,
    alloc: Global,
    name: &str,
    rows: &Rows<'_>,
    tally: &mut Tally,
) -> io::Result<()> {
    let (ask, of) = rows.heading();
    let found = match answer(rt, alloc, ask, of, rows.question()) {
        Ok(found) => found,
        Err(error) => format!(in alloc; "no answer: {error}")?,
    };
    tally.compare(alloc, name, rows, found.as_bytes())?;
    Ok(())
}

/// The answer to a question below a heading.
fn answer<R: Files + AllocGlobal + Threads + Wait + Sync>(
    rt: &R,
    alloc: Global,
    ask: &str,
    of: &str,
    question: &str,
) -> Result<String> {
    match ask {
        "one_file" => folders::of_one_file(rt, alloc, of, question),
        "submitters" => folders::of_submitters(rt, alloc, of, question),
        _ => bail!("nothing is asked so"),
    }
}
