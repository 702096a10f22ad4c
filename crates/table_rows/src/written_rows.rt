//! Rows that are written, and passed on by the page.

use crate::asked::Asked;
use csv_table::RowWriter;
use row_tables::text_of;
use std::alloc::Global;
use std::io;

pub fn add_answer(alloc: Global, asked: &Asked<'_>, answer: &mut String) -> io::Result<()> {
    match asked.ask {
        "written" => add_written(alloc, asked.text(), answer),
        "passed" => add_passed(alloc, asked.question, answer),
        "pages" => add_pages(alloc, asked.text(), answer),
        "refused" => add_refused(alloc, asked.question, answer),
        _ => Ok(asked.add_unknown(answer)?),
    }
}

/// Adds a row, whose fields strokes divide.
fn add_row(alloc: Global, row: &str, out: &mut RowWriter) -> io::Result<()> {
    let mut fields = Vec::new(alloc);
    for field in row.split('|') {
        fields.push(field.as_bytes())?;
    }
    out.row(fields.as_slice())?;
    Ok(())
}

/// Adds the text of rows, which slashes divide, and strokes their fields.
fn add_written(alloc: Global, rows: &str, answer: &mut String) -> io::Result<()> {
    let mut out = RowWriter::new(alloc);
    for row in rows.split('/') {
        add_row(alloc, row, &mut out)?;
    }
    answer.push_str(text_of(out.into_text()?.as_slice()))?;
    Ok(())
}

/// Adds how many bytes are passed on of a row of one field.
fn add_passed(alloc: Global, field: &[u8], answer: &mut String) -> io::Result<()> {
    let mut rows = RowWriter::new(alloc);
    let mut out = Vec::new(alloc);
    rows.row(&[field])?;
    rows.write_full_page_to(&mut out)?;
    write!(answer, "{}", out.len())?;
    Ok(())
}

/// Adds what comes of a row and of many rows of 101 bytes that are passed on behind another text.
fn add_pages(alloc: Global, count: &str, answer: &mut String) -> io::Result<()> {
    let mut out = Vec::from_slice(alloc, b"before\n")?;
    let mut rows = RowWriter::with_room(alloc, 2)?;
    pass_a_row(alloc, &mut rows, &mut out, answer)?;
    pass_pages(count.parse().unwrap_or(0), &mut rows, &mut out, answer)
}

/// Adds what an output has after a row whose page is not full, and after that is passed on.
fn pass_a_row(
    alloc: Global,
    rows: &mut RowWriter,
    out: &mut Vec<u8>,
    answer: &mut String,
) -> io::Result<()> {
    add_row(alloc, "a|b", rows)?;
    rows.write_full_page_to(out)?;
    write!(answer, "{}/", text_of(out.as_slice()))?;
    rows.write_to(out)?;
    answer.push_str(text_of(out.as_slice()))?;
    Ok(())
}

/// Adds how many pages an output gets of rows of 101 bytes, whether they are as long as pages are, and its length at
/// last. The buffer of the crate `csv` holds back 8192 bytes at most.
fn pass_pages(
    count: u32,
    rows: &mut RowWriter,
    out: &mut Vec<u8>,
    answer: &mut String,
) -> io::Result<()> {
    let (mut pages, mut are_whole) = (0u32, true);
    for _ in 0..count {
        let had = out.len();
        rows.row(&[&[b'x'; 100]])?;
        rows.write_full_page_to(out)?;
        let passed = out.len().abs_diff(had);
        if passed > 0 {
            pages = pages.saturating_add(1);
            are_whole = are_whole && (131_072..=139_365).contains(&passed);
        }
    }
    rows.write_to(out)?;
    write!(answer, "{pages} {are_whole} {}", out.len())?;
    Ok(())
}

/// Adds whether each of these is refused once a page finds no room: the page, a row, the rest and the text. Before the
/// last stands whether nothing went out.
fn add_refused(alloc: Global, field: &[u8], answer: &mut String) -> io::Result<()> {
    let mut rows = RowWriter::new(alloc);
    let mut out = Vec::new(alloc);
    rows.row(&[field])?;
    let page = rows.write_full_page_to(&mut [0; 1].as_mut_slice()).is_err();
    let row = rows.row(&[b"a"]).is_err();
    let rest = rows.write_to(&mut out).is_err();
    let text = rows.into_text().is_err();
    write!(answer, "{page} {row} {rest} {} {text}", out.is_empty())?;
    Ok(())
}
