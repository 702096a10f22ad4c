//! Replays schedules of mailboxes and of pools: those of its standard input, as a model of them in another language
//! answered them, and those of the tables that its arguments name, which were written by hand (`by_hand`).
//!
//! A schedule of the model is `core SENDERS NODES` or `pool SENDERS MAILBOXES NODES`, then its steps, those of a
//! pool `in` a mailbox, each with `moved` or `not` and what a call that it finished answered; then the words; then
//! a blank line. Each answer is compared and, at the end of a schedule, every word.
#![tactic(auto)]

mod by_hand;
mod compare;
mod machine;
mod parse;

use compare::Comparison;
use row_tables::{Rows, Tally};
use std::alloc::{AllocError, Global};
use std::process::ExitCode;
use std::rt::Files;
use std::{env, fs, io};

fn main(rt: HostRuntime) -> io::Result<ExitCode> {
    let mut are_right = true;
    for name in env::args(&rt)?.skip(1) {
        let tally = ask_table(&rt, rt.alloc(), name.as_str())?;
        eprint!(rt; "{}", tally.report())?;
        println!(rt; "{name}: {tally}")?;
        are_right = are_right && tally.is_right();
    }
    let comparison = compare_all(&rt, rt.alloc())?;
    println!(rt; "{comparison}")?;
    Ok(if are_right && comparison.agrees() {
        ExitCode::SUCCESS
    } else {
        ExitCode::FAILURE
    })
}

/// Compares the schedules of standard input.
fn compare_all(rt: &impl Input, alloc: Global) -> io::Result<Comparison> {
    let mut comparison = Comparison::new(alloc);
    for line in rt.lines(alloc) {
        comparison.take(alloc, line?.as_str())?;
    }
    Ok(comparison)
}

/// Asks the rows of the table in a file.
fn ask_table<R: Files + AllocGlobal>(rt: &R, alloc: Global, name: &str) -> io::Result<Tally> {
    let text = fs::read_to_string(rt, name)?;
    let mut tally = Tally::new(alloc);
    ask_rows(alloc, name, &mut Rows::of(alloc, text.as_str()), &mut tally)?;
    Ok(tally)
}

fn ask_rows(
    alloc: Global,
    name: &str,
    rows: &mut Rows<'_>,
    tally: &mut Tally,
) -> Result<(), AllocError> {
    let mut machine = None;
    for _ in 0..u64::MAX {
        if !rows.next()? {
            break;
        }
        let found = by_hand::answer(alloc, &mut machine, rows.question())?;
        tally.compare(alloc, name, rows, found.as_bytes())?;
    }
    Ok(())
}
