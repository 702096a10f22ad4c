//! The rows of a table, one after the other.

use crate::spelling::spelt;
use std::alloc::{AllocError, Global};

/// What divides a question from its answer, and what begins each line of an answer of several.
const DIVIDER: &str = " =>";

const INDENT: &str = "    ";

/// What is wanted where a row has no answer, so that no answer is right.
const NO_ANSWER: &str = "a row with => between its question and its answer";

/// A table, and the row at hand.
#[derive(Drop)]
pub struct Rows<'a> {
    rest: &'a str,
    /// How many lines of the text were read, and how many up to the row at hand.
    lines: u64,
    place: u64,
    heading: &'a str,
    question: &'a str,
    wanted: Vec<u8>,
}

impl<'a> Rows<'a> {
    /// The table of a text, before its first row.
    pub fn of(alloc: Global, text: &'a str) -> Rows<'a> {
        Rows {
            rest: text,
            lines: 0,
            place: 0,
            heading: "",
            question: "",
            wanted: Vec::new(alloc),
        }
    }

    /// The line in which the row begins, from 1.
    pub fn place(&self) -> u64 {
        self.place
    }

    /// What stands in brackets above the row: its first word, and what follows it.
    pub fn heading(&self) -> (&'a str, &'a str) {
        self.heading.split_once(' ').unwrap_or((self.heading, ""))
    }

    /// The question, as it is written.
    pub fn question(&self) -> &'a str {
        self.question
    }

    /// The bytes of the answer that is wanted.
    pub fn wanted(&self) -> &[u8] {
        self.wanted.as_slice()
    }

    /// Goes to the next row. False: there is none.
    pub fn next(&mut self) -> Result<bool, AllocError> {
        for _ in 0..u64::MAX {
            let Some(line) = self.next_line() else {
                break;
            };
            if let Some(heading) = heading_in(line) {
                self.heading = heading;
            } else if !is_remark(line) {
                self.read_row(line)?;
                return Ok(true);
            }
        }
        Ok(false)
    }

    /// Takes a line of the text. None: there is none left.
    fn next_line(&mut self) -> Option<&'a str> {
        if self.rest.is_empty() {
            return None;
        }
        let (line, rest) = self.rest.split_once('\n').unwrap_or((self.rest, ""));
        self.rest = rest;
        self.lines = self.lines.saturating_add(1);
        Some(line)
    }

    /// Reads the row that begins with a line.
    fn read_row(&mut self, line: &'a str) -> Result<(), AllocError> {
        self.place = self.lines;
        self.wanted.clear();
        let Some((question, answer)) = line.split_once(DIVIDER) else {
            self.question = line;
            return self.wanted.extend_from_slice(NO_ANSWER.as_bytes());
        };
        self.question = question;
        spelt(answer.strip_prefix(' ').unwrap_or(answer), &mut self.wanted)?;
        self.read_indented()
    }

    /// Adds the lines that stand indented below a row to its answer, each with its end.
    fn read_indented(&mut self) -> Result<(), AllocError> {
        for _ in 0..u64::MAX {
            let Some(rest) = self.rest.strip_prefix(INDENT) else {
                break;
            };
            self.rest = rest;
            spelt(self.next_line().unwrap_or(""), &mut self.wanted)?;
            self.wanted.push(b'\n')?;
        }
        Ok(())
    }
}

/// The words of a line that is a heading.
fn heading_in(line: &str) -> Option<&str> {
    line.strip_prefix('[')?.strip_suffix(']')
}

/// Whether a line is blank, or a remark.
fn is_remark(line: &str) -> bool {
    line.is_empty() || line.starts_with('#')
}
