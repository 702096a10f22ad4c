//! A run whose statements are of many pages.

use crate::asks::{ARROW, Disks, status_of};
use crate::outputs::Output;
use anyhow::Result;
use royalty_program::{Folders, Source, Target, Texts};
use std::alloc::Global;
use std::rt::{Env, Files};
use std::sync::Wait;
use std::thread::Threads;
use std::{env, fs};

/// How a run prints the statements of usage lines, which are kept in a file as long as the run lasts. A question has
/// the usage lines, and the statements.
pub fn long_run<
    R: Env + Files + AllocGlobal + Threads + Wait + Sync,
    S: Source + Texts + Target + Folders + Sync,
>(rt: &R, alloc: Global, disks: &mut Disks<S>, question: &str) -> Result<String> {
    let (uses, statements) = question.split_once(ARROW).unwrap_or((question, ""));
    let folder = env::temp_dir(rt)?;
    let path = format!(in alloc; "{}/royalty_run-long-usage.csv", folder.display())?;
    fs::write(rt, path.as_str(), uses)?;
    let answer = printed_over(rt, alloc, disks, path.as_str(), statements);
    fs::remove_file(rt, path.as_str())?;
    answer
}

/// How a run prints the statements of the usage lines in a file.
fn printed_over<R: Threads + Wait + Sync, S: Source + Texts + Target + Folders + Sync>(
    rt: &R,
    alloc: Global,
    disks: &mut Disks<S>,
    path: &str,
    statements: &str,
) -> Result<String> {
    let line = format!(in alloc;
        "r run --tis territories.csv --cwr two_parties.cwr --usage {path} --workers 2 --readers 1 --nodes 64"
    )?;
    let mut out = Output::open(alloc);
    let mut err = Output::open(alloc);
    let status = status_of(rt, alloc, disks, line.as_str(), ' ', &mut out, &mut err)?;
    printed(alloc, status, &out, statements)
}

/// The status, whether an output has these statements, and whether they are many bytes that came in short writes.
fn printed(alloc: Global, status: u8, out: &Output, statements: &str) -> Result<String> {
    let is_as_written = out.kept() == statements.as_bytes();
    let is_long = out.kept().len() > 200_000;
    let are_short = out.longest < 140_000;
    Ok(format!(in alloc;
        "{status}, as written: {is_as_written}, over 200000 bytes: {is_long}, writes of under 140000: {are_short}"
    )?)
}
