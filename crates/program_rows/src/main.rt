//! Asks the program `royalty_run` what stands in tables (`row_tables`), and compares its answers.
//!
//! The arguments name the tables. A heading has the word for what is asked, and numbers.
#![tactic(auto)]

mod asks;
mod failures;
mod long_run;
mod outputs;

use anyhow::{Result, bail};
use asks::Disks;
use row_tables::{Rows, Tally, text_of, written_out};
use royalty_program::{Disk, Folders, Source, Target, Texts};
use std::alloc::Global;
use std::process::ExitCode;
use std::rt::{Env, Files};
use std::sync::Wait;
use std::thread::Threads;
use std::{env, fs, io};

fn main(rt: HostRuntime) -> io::Result<ExitCode> {
    let mut disks = Disks {
        files: Disk {
            rt: &rt,
            watched: None,
        },
        target: Disk {
            rt: &rt,
            watched: None,
        },
    };
    let mut are_right = true;
    for name in env::args(&rt)?.skip(1) {
        let tally = ask_table(&rt, rt.alloc(), &mut disks, name.as_str())?;
        eprint!(rt; "{}", tally.report())?;
        println!(rt; "{name}: {tally}")?;
        are_right = are_right && tally.is_right();
    }
    Ok(if are_right {
        ExitCode::SUCCESS
    } else {
        ExitCode::FAILURE
    })
}

/// Asks the rows of the table in a file.
fn ask_table<
    R: Env + Files + AllocGlobal + Threads + Wait + Sync,
    S: Source + Texts + Target + Folders + Sync,
>(rt: &R, alloc: Global, disks: &mut Disks<S>, name: &str) -> io::Result<Tally> {
    let text = fs::read_to_string(rt, name)?;
    let mut tally = Tally::new(alloc);
    let mut rows = Rows::of(alloc, text.as_str());
    ask_rows(rt, alloc, disks, name, &mut rows, &mut tally)?;
    Ok(tally)
}

fn ask_rows<
    R: Env + Files + AllocGlobal + Threads + Wait + Sync,
    S: Source + Texts + Target + Folders + Sync,
>(
    rt: &R,
    alloc: Global,
    disks: &mut Disks<S>,
    name: &str,
    rows: &mut Rows<'_>,
    tally: &mut Tally,
) -> io::Result<()> {
    for _ in 0..u64::MAX {
        if !rows.next()? {
            break;
        }
        let question = written_out(alloc, rows.question())?;
        ask_row(
            rt,
            alloc,
            disks,
            name,
            rows,
            text_of(question.as_slice()),
            tally,
        )?;
    }
    Ok(())
}

fn ask_row<
    R: Env + Files + AllocGlobal + Threads + Wait + Sync,
    S: Source + Texts + Target + Folders + Sync,
>(
    rt: &R,
    alloc: Global,
    disks: &mut Disks<S>,
    name: &str,
    rows: &Rows<'_>,
    question: &str,
    tally: &mut Tally,
) -> io::Result<()> {
    let (ask, of) = rows.heading();
    let found = match answer_of(rt, alloc, disks, ask, of, question) {
        Ok(found) => found,
        Err(error) => format!(in alloc; "no answer: {error}")?,
    };
    tally.compare(alloc, name, rows, found.as_bytes())?;
    Ok(())
}

/// The answer to a question below a heading.
fn answer_of<
    R: Env + Files + AllocGlobal + Threads + Wait + Sync,
    S: Source + Texts + Target + Folders + Sync,
>(
    rt: &R,
    alloc: Global,
    disks: &mut Disks<S>,
    ask: &str,
    of: &str,
    question: &str,
) -> Result<String> {
    match ask {
        "whole" => asks::whole(rt, alloc, disks, question, ' '),
        "with_blanks" => asks::whole(rt, alloc, disks, question, '/'),
        "written" => asks::written(rt, alloc, disks, question),
        "beginning" => asks::beginning(rt, alloc, disks, of, question),
        "teller" => asks::teller(rt, alloc, disks, question),
        "through_held" => asks::through(rt, alloc, disks, question, false),
        "through_stopped" => asks::through(rt, alloc, disks, question, true),
        "through_narrow" => asks::through_narrow(rt, alloc, disks, question),
        "long_run" => long_run::long_run(rt, alloc, disks, question),
        "failure" => failures::text_of_failure(alloc, question),
        _ => bail!("nothing is asked so"),
    }
}
