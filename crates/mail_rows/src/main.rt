//! Asks what stands in tables of mailboxes and of pools (`row_tables`), and compares the answers.
//!
//! Its arguments name the tables. A heading says what is opened, and the answer of a row is its life:
//! lines with questions, each with what is answered to them.
#![tactic(auto)]

mod lines;
mod mails;
mod pools;

use anyhow::{Result, bail};
use mail_box::{LaneMail, LinkMail, ShyMail};
use pool_box::PoolMail;
use row_tables::{Rows, Tally, text_of};
use std::alloc::Global;
use std::process::ExitCode;
use std::rt::Files;
use std::sync::Wait;
use std::{env, fs, io};

fn main(rt: HostRuntime) -> io::Result<ExitCode> {
    let mut are_right = true;
    for name in env::args(&rt)?.skip(1) {
        let tally = ask_table(&rt, rt.alloc(), name.as_str())?;
        eprint!(rt; "{}", tally.report())?;
        println!(rt; "{name}: {tally}")?;
        are_right = are_right && tally.is_right();
    }
    Ok(if are_right {
        ExitCode::SUCCESS
    } else {
        ExitCode::FAILURE
    })
}

/// Asks the rows of the table in a file.
fn ask_table<R: Files + AllocGlobal + Wait>(
    rt: &R,
    alloc: Global,
    name: &str,
) -> io::Result<Tally> {
    let text = fs::read_to_string(rt, name)?;
    let mut tally = Tally::new(alloc);
    ask_rows(
        rt,
        alloc,
        name,
        &mut Rows::of(alloc, text.as_str()),
        &mut tally,
    )?;
    Ok(tally)
}

fn ask_rows<R: Wait>(
    rt: &R,
    alloc: Global,
    name: &str,
    rows: &mut Rows<'_>,
    tally: &mut Tally,
) -> io::Result<()> {
    for _ in 0..u64::MAX {
        if !rows.next()? {
            break;
        }
        ask_row(rt, alloc, name, rows, tally)?;
    }
    Ok(())
}

fn ask_row<R: Wait>(
    rt: &R,
    alloc: Global,
    name: &str,
    rows: &Rows<'_>,
    tally: &mut Tally,
) -> io::Result<()> {
    let (ask, of) = rows.heading();
    let found = match answer(rt, alloc, ask, of, text_of(rows.wanted())) {
        Ok(found) => found,
        Err(error) => format!(in alloc; "no answer: {error}")?,
    };
    tally.compare(alloc, name, rows, found.as_bytes())?;
    Ok(())
}

/// The life of what a heading says, by the questions in its lines.
fn answer<R: Wait>(rt: &R, alloc: Global, ask: &str, of: &str, lines: &str) -> Result<String> {
    match ask {
        "links" => mails::life(rt, alloc, &LinkMail, of, lines),
        "lanes" => mails::life(rt, alloc, &LaneMail, of, lines),
        "shy-lanes" => mails::life(rt, alloc, &ShyMail(LaneMail), of, lines),
        "pool" => pools::life(alloc, &PoolMail, of, lines),
        _ => bail!("nothing is asked so"),
    }
}
