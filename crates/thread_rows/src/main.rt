//! Asks what stands in a table of runs over mailboxes of each kind and over pools (`row_tables`), and compares the
//! answers.
//!
//! Its arguments name the tables. A heading has the word for what is asked, the kind of mailboxes, and the files of
//! the registrations and of the usage lines; a question has numbers.
#![tactic(auto)]

mod asks;
mod gates;
mod inputs;
mod kinds;
mod roll_call;

use row_tables::{Rows, Tally};
use std::alloc::{AllocError, Global};
use std::process::ExitCode;
use std::rt::Files;
use std::sync::Wait;
use std::thread::Threads;
use std::{env, fs, io};

fn main(rt: HostRuntime) -> io::Result<ExitCode> {
    let mut are_right = true;
    for name in env::args(&rt)?.skip(1) {
        let tally = ask_table(&rt, rt.alloc(), name.as_str())?;
        eprint!(rt; "{}", tally.report())?;
        println!(rt; "{name}: {tally}")?;
        are_right = are_right && tally.is_right();
    }
    Ok(if are_right {
        ExitCode::SUCCESS
    } else {
        ExitCode::FAILURE
    })
}

/// Asks the rows of the table in a file.
fn ask_table<R: Files + AllocGlobal + Threads + Wait + Sync>(
    rt: &R,
    alloc: Global,
    name: &str,
) -> io::Result<Tally> {
    let text = fs::read_to_string(rt, name)?;
    let mut tally = Tally::new(alloc);
    ask_rows(
        rt,
        alloc,
        name,
        &mut Rows::of(alloc, text.as_str()),
        &mut tally,
    )?;
    Ok(tally)
}

fn ask_rows<R: Files + AllocGlobal + Threads + Wait + Sync>(
    rt: &R,
    alloc: Global,
    name: &str,
    rows: &mut Rows<'_>,
    tally: &mut Tally,
) -> Result<(), AllocError> {
    for _ in 0..u64::MAX {
        if !rows.next()? {
            break;
        }
        ask_row(rt, alloc, name, rows, tally)?;
    }
    Ok(())
}

fn ask_row<R: Files + AllocGlobal + Threads + Wait + Sync>(
    rt: &R,
    alloc: Global,
    name: &str,
    rows: &Rows<'_>,
    tally: &mut Tally,
) -> Result<(), AllocError> {
    let (ask, of) = rows.heading();
    let found = match asks::answer(rt, alloc, ask, of, rows.question()) {
        Ok(found) => found,
        Err(error) => format!(in alloc; "no answer: {error}")?,
    };
    tally.compare(alloc, name, rows, found.as_bytes())
}
