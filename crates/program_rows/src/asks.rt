//! What the rows ask. A question is a line of arguments, one blank apart, and its answer is what the program does with
//! them.
//!
//! An answer has the status, and in brackets what went to standard output and to standard error, with a stroke `|` for
//! each line end.

use crate::outputs::Output;
use anyhow::Result;
use row_tables::text_of;
use royalty_program::{Folders, Source, Target, Texts, program};
use std::alloc::{AllocError, Global};
use std::sync::Wait;
use std::thread::Threads;

/// What divides a line from the text that its answer is compared with.
pub const ARROW: &str = " -> ";

/// The files of the system, once to read from and once to write to.
#[derive(Drop)]
pub struct Disks<S> {
    pub files: S,
    pub target: S,
}

/// How much of an output is shown.
#[derive(Clone, Copy)]
struct Shown {
    /// The most bytes of an output that is shown whole.
    whole: usize,
    /// How many bytes are shown of a longer one, before two dots.
    first: usize,
}

const ALL: Shown = Shown {
    whole: usize::MAX,
    first: usize::MAX,
};

/// The answer to the arguments of a line, between which a sign stands.
pub fn whole<R: Threads + Wait + Sync, S: Source + Texts + Target + Folders + Sync>(
    rt: &R,
    alloc: Global,
    disks: &mut Disks<S>,
    line: &str,
    between: char,
) -> Result<String> {
    let mut out = Output::open(alloc);
    let mut err = Output::open(alloc);
    let status = status_of(rt, alloc, disks, line, between, &mut out, &mut err)?;
    Ok(told(alloc, status, out.kept(), err.kept(), ALL)?)
}

/// Whether the answer to a line is the text that follows it; if not, the answer.
pub fn written<R: Threads + Wait + Sync, S: Source + Texts + Target + Folders + Sync>(
    rt: &R,
    alloc: Global,
    disks: &mut Disks<S>,
    question: &str,
) -> Result<String> {
    let (line, text) = question.split_once(ARROW).unwrap_or((question, ""));
    let answer = whole(rt, alloc, disks, line, ' ')?;
    if answer.as_str() == text {
        return Ok(String::from_str(alloc, "as written")?);
    }
    Ok(answer)
}

/// How the answer to a line begins, by the two numbers of a heading.
pub fn beginning<R: Threads + Wait + Sync, S: Source + Texts + Target + Folders + Sync>(
    rt: &R,
    alloc: Global,
    disks: &mut Disks<S>,
    of: &str,
    line: &str,
) -> Result<String> {
    let (whole, first) = number_first(of)?;
    let first = first.parse::<usize>()?;
    let mut out = Output::open(alloc);
    let mut err = Output::open(alloc);
    let status = status_of(rt, alloc, disks, line, ' ', &mut out, &mut err)?;
    let shown = Shown { whole, first };
    Ok(told(alloc, status, out.kept(), err.kept(), shown)?)
}

/// The status, and which of the outputs has the text that stands in brackets after the line of a question.
pub fn teller<R: Threads + Wait + Sync, S: Source + Texts + Target + Folders + Sync>(
    rt: &R,
    alloc: Global,
    disks: &mut Disks<S>,
    question: &str,
) -> Result<String> {
    let (line, text) = question.split_once(" [").unwrap_or((question, ""));
    let text = text.strip_suffix(']').unwrap_or("no brackets");
    let mut out = Output::open(alloc);
    let mut err = Output::open(alloc);
    let status = status_of(rt, alloc, disks, line, ' ', &mut out, &mut err)?;
    let out_tells = has(alloc, out.kept(), text)?;
    let err_tells = has(alloc, err.kept(), text)?;
    let teller = match (out_tells, err_tells) {
        (true, false) => "out",
        (false, true) => "err",
        (true, true) => "both",
        (false, false) => "neither",
    };
    Ok(format!(in alloc; "{status} {teller}")?)
}

/// What comes through two outputs that hold their bytes back until they are flushed. The first cannot be flushed where
/// it is stopped.
pub fn through<R: Threads + Wait + Sync, S: Source + Texts + Target + Folders + Sync>(
    rt: &R,
    alloc: Global,
    disks: &mut Disks<S>,
    line: &str,
    is_stopped: bool,
) -> Result<String> {
    let mut out = Output::with(alloc, usize::MAX, is_stopped);
    let mut err = Output::open(alloc);
    let status = status_of(rt, alloc, disks, line, ' ', &mut out, &mut err)?;
    Ok(told(alloc, status, out.through(), err.through(), ALL)?)
}

/// What two outputs take that refuse one write, each after a number of bytes. A question has the two numbers before its
/// line.
pub fn through_narrow<R: Threads + Wait + Sync, S: Source + Texts + Target + Folders + Sync>(
    rt: &R,
    alloc: Global,
    disks: &mut Disks<S>,
    question: &str,
) -> Result<String> {
    let (out_room, rest) = number_first(question)?;
    let (err_room, line) = number_first(rest)?;
    let mut out = Output::with(alloc, out_room, false);
    let mut err = Output::with(alloc, err_room, false);
    let status = status_of(rt, alloc, disks, line, ' ', &mut out, &mut err)?;
    Ok(told(alloc, status, out.kept(), err.kept(), ALL)?)
}

/// The status that the program answers to the arguments of a line, between which a sign stands.
pub fn status_of<R: Threads + Wait + Sync, S: Source + Texts + Target + Folders + Sync>(
    rt: &R,
    alloc: Global,
    disks: &mut Disks<S>,
    line: &str,
    between: char,
    out: &mut Output,
    err: &mut Output,
) -> Result<u8> {
    let arguments = arguments_in(alloc, line, between)?;
    let words = arguments.as_slice();
    Ok(program(rt, alloc, &disks.files, &mut disks.target, words, out, err))
}

fn arguments_in(alloc: Global, line: &str, between: char) -> Result<Vec<String>, AllocError> {
    let mut arguments = Vec::new(alloc);
    for argument in line.split(between) {
        arguments.push(String::from_str(alloc, argument)?)?;
    }
    Ok(arguments)
}

/// The number before the first blank, and what follows it.
fn number_first(text: &str) -> Result<(usize, &str)> {
    let (number, rest) = text.split_once(' ').unwrap_or((text, ""));
    Ok((number.parse::<usize>()?, rest))
}

/// A status, and what is shown of the two outputs.
fn told(
    alloc: Global,
    status: u8,
    out: &[u8],
    err: &[u8],
    shown: Shown,
) -> Result<String, AllocError> {
    let (out, out_dots) = shown_of(out, shown);
    let (err, err_dots) = shown_of(err, shown);
    let text = format!(in alloc; "{status} [{out}{out_dots}] [{err}{err_dots}]")?;
    on_one_line(alloc, text.as_str())
}

/// What is shown of an output, and dots where it goes on.
fn shown_of(bytes: &[u8], shown: Shown) -> (&str, &'static str) {
    if bytes.len() <= shown.whole {
        return (text_of(bytes), "");
    }
    (text_of(bytes.get(..shown.first).unwrap_or(bytes)), "..")
}

/// Whether an output has the text in it, which has a stroke for each line end.
fn has(alloc: Global, bytes: &[u8], text: &str) -> Result<bool, AllocError> {
    Ok(on_one_line(alloc, text_of(bytes))?.as_str().contains(text))
}

/// A text on one line, with a stroke for each line end.
pub fn on_one_line(alloc: Global, text: &str) -> Result<String, AllocError> {
    let mut line = String::new(alloc);
    for letter in text.chars() {
        line.push(if letter == '\n' { '|' } else { letter })?;
    }
    Ok(line)
}
