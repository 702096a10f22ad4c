//! Texts of sums, and files that are summed on the way.

use crate::asked::{Asked, add_in_brackets, named_and_numbered};
use csv_table::FileFault;
use file_sums::{
    SealFault, SealText, SummedFile, Summing, Unknown, add_comment, add_sum, fits_in_comment,
    fits_in_line, read_seal,
};
use row_tables::text_of;
use std::alloc::{AllocError, Global};
use std::io::{self, BufWriter, Read, Write};

pub fn add_answer(alloc: Global, asked: &Asked<'_>, answer: &mut String) -> io::Result<()> {
    match asked.ask {
        "path" => write!(answer, "{}", fits_in_line(asked.text()))?,
        "text" => write!(answer, "{}", fits_in_comment(asked.text()))?,
        "comment" => add_comment_line(alloc, asked.text(), answer)?,
        "read" => add_read(alloc, asked.question, answer)?,
        "fault" => add_fault(asked.text(), answer)?,
        "sum" => return add_sum_line(alloc, asked.text(), answer),
        "written" => return add_written(alloc, asked.text(), answer),
        "flushed" => return add_flushed(alloc, asked.question, answer),
        _ => asked.add_unknown(answer)?,
    }
    Ok(())
}

/// Adds the line of a comment, where it fits.
fn add_comment_line(alloc: Global, comment: &str, answer: &mut String) -> Result<(), AllocError> {
    let mut text = Vec::new(alloc);
    if fits_in_comment(comment) {
        add_comment(&mut text, comment)?;
    }
    answer.push_str(text_of(text.as_slice()))
}

/// Adds the line of a path and, behind a stroke, of what its file has, which is read in pieces of three bytes.
fn add_sum_line(alloc: Global, question: &str, answer: &mut String) -> io::Result<()> {
    let (path, content) = question.split_once('|').unwrap_or((question, ""));
    let mut file = Summing::<&[u8], Unknown>::new(content.as_bytes());
    let mut piece = [0u8; 3];
    for _ in 0..u64::MAX {
        if file.read(&mut piece)? == 0 {
            break;
        }
    }
    let mut text = Vec::new(alloc);
    if fits_in_line(path) {
        add_sum(&mut text, &file.into_digest(), path)?;
    }
    answer.push_str(text_of(text.as_slice()))?;
    Ok(())
}

/// Adds the comments of a text, and its sums, or why it is refused.
fn add_read(alloc: Global, text: &[u8], answer: &mut String) -> Result<(), AllocError> {
    match read_seal(alloc, text) {
        Ok(seal) => add_seal(alloc, &seal, answer),
        Err(fault) => write!(answer, "{fault:?}"),
    }
}

/// Adds how many lines there are, the comments and the sums.
fn add_seal(alloc: Global, seal: &SealText, answer: &mut String) -> Result<(), AllocError> {
    write!(answer, "{} lines", seal.lines())?;
    for comment in &seal.comments {
        answer.push_str(" ")?;
        add_in_brackets(comment.as_slice(), answer)?;
    }
    for sum in &seal.sums {
        let digits = hex::encode(alloc, sum.digest)?;
        write!(answer, " {digits} ")?;
        add_in_brackets(sum.path.as_slice(), answer)?;
    }
    Ok(())
}

/// Adds what a fault says, its number and its line.
fn add_fault(text: &str, answer: &mut String) -> Result<(), AllocError> {
    let (name, line) = named_and_numbered(text);
    let fault = match name {
        "Line" => SealFault::Line(line),
        _ => SealFault::Memory,
    };
    write!(answer, "{fault}; {} {:?}", fault.number(), fault.place())
}

/// Adds what comes of a text that is written, in two pieces that a stroke divides, where five bytes find room: whether
/// each was, how many bytes of room are left, and the sum.
fn add_written(alloc: Global, question: &str, answer: &mut String) -> io::Result<()> {
    let (first, second) = question.split_once('|').unwrap_or((question, ""));
    let mut room = [0u8; 5];
    let mut file = SummedFile::<&mut [u8], Unknown>::new(room.as_mut_slice());
    let is_first = file.write_all(first.as_bytes()).is_ok();
    let is_second = file.write_all(second.as_bytes()).is_ok();
    file.flush()?;
    let (left, digest) = file.into_parts();
    let digits = hex::encode(alloc, digest)?;
    write!(answer, "{is_first} {is_second} {} {digits}", left.len())?;
    Ok(())
}

/// Adds what is below a buffer that a text is written to, before the file that is summed is flushed, and behind that.
fn add_flushed(alloc: Global, text: &[u8], answer: &mut String) -> io::Result<()> {
    for is_flushed in [false, true] {
        let buffer = BufWriter::new(alloc, Vec::new(alloc))?;
        let mut file = SummedFile::<BufWriter<Vec<u8>>, Unknown>::new(buffer);
        file.write_all(text)?;
        if is_flushed {
            file.flush()?;
        }
        let (buffer, _) = file.into_parts();
        add_in_brackets(buffer.get_ref().as_slice(), answer)?;
    }
    Ok(())
}
