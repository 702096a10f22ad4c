//! Lines of a text of statements, as a reader gives them.

use anyhow::Result;
use merge_statements::{ReadFault, RowReader};
use row_tables::{text_of, written_out};
use std::alloc::Global;
use std::io::{self, ErrorKind, Read};

/// Gives one byte at a time, and refuses once, before the byte with so many bytes left.
#[derive(Drop)]
struct Drip<'a> {
    left: &'a [u8],
    refuses: Option<usize>,
    kind: ErrorKind,
}

impl<'a> Read for Drip<'a> {
    fn read(&mut self, buf: &mut [u8]) -> io::Result<usize> {
        if self.refuses == Some(self.left.len()) {
            self.refuses = None;
            return Err(io::Error::from(self.kind));
        }
        if self.left.is_empty() || buf.is_empty() {
            return Ok(0);
        }
        buf[0] = self.left[0];
        self.left = &self.left[1..];
        Ok(1)
    }
}

/// What a reader of a text answers, so often as the heading says. Behind the times it may say before how many last
/// bytes the reader refuses once, and that it is interrupted there.
pub fn lines(alloc: Global, of: &str, question: &str) -> Result<String> {
    let text = written_out(alloc, question)?;
    let (times, refusal) = of.split_once(' ').unwrap_or((of, ""));
    let (bytes, interrupted) = refusal.split_once(' ').unwrap_or((refusal, ""));
    let drip = Drip {
        left: text.as_slice(),
        refuses: bytes.parse().ok(),
        kind: if interrupted.is_empty() {
            ErrorKind::ConnectionReset
        } else {
            ErrorKind::Interrupted
        },
    };
    told_lines(alloc, &mut RowReader::new(alloc, drip)?, times.parse()?)
}

fn told_lines<R: Read>(alloc: Global, reader: &mut RowReader<R>, times: u8) -> Result<String> {
    let mut all = String::new(alloc);
    for _ in 0..times {
        all.push_str(told_next(alloc, reader)?.as_str())?;
    }
    Ok(all)
}

/// The next line, the end or the fault.
fn told_next<R: Read>(alloc: Global, reader: &mut RowReader<R>) -> Result<String> {
    Ok(match reader.next() {
        Ok(true) => format!(in alloc; "[{}]", text_of(reader.line()))?,
        Ok(false) => String::from_str(alloc, "end")?,
        Err(ReadFault::Refused(error)) => format!(in alloc; "{:?}", error.kind())?,
        Err(ReadFault::Unended) => String::from_str(alloc, "unended")?,
        Err(ReadFault::TooLong) => String::from_str(alloc, "too long")?,
    })
}

/// How long the lines are of a text, as three calls of its reader tell them.
pub fn sizes(alloc: Global, question: &str) -> Result<String> {
    let text = written_out(alloc, question)?;
    let mut reader = RowReader::new(alloc, text.as_slice())?;
    told_sizes(alloc, &mut reader)
}

fn told_sizes<R: Read>(alloc: Global, reader: &mut RowReader<R>) -> Result<String> {
    let mut all = String::new(alloc);
    for _ in 0..3u8 {
        all.push_str(told_size(alloc, reader)?.as_str())?;
    }
    Ok(all)
}

/// How long the line is that a reader goes on to, or the fault.
fn told_size<R: Read>(alloc: Global, reader: &mut RowReader<R>) -> Result<String> {
    Ok(match reader.next() {
        Ok(true) => format!(in alloc; "{} ", reader.line().len())?,
        Ok(false) => String::from_str(alloc, "end ")?,
        Err(fault) => format!(in alloc; "{fault} ")?,
    })
}
