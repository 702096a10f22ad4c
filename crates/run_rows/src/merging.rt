//! Rows, numbers and texts of statements.

use adjust_statements::{AdjustRefusal, adjust};
use anyhow::{Result, bail};
use merge_statements::amount::{amount_of, count_of};
use merge_statements::{Refusal, Row, RowRoom, TextRefusal, check, merge};
use row_tables::{text_of, written_out};
use std::alloc::Global;

/// The fields of the row that a line is, each in brackets.
pub fn fields(alloc: Global, question: &str) -> Result<String> {
    let line = written_out(alloc, question)?;
    if line.len() > 100 {
        return Ok(String::from_str(alloc, "too long")?);
    }
    let mut room = RowRoom::new(alloc)?;
    let Some(row) = Row::of(line.as_slice(), &mut room) else {
        return Ok(String::from_str(alloc, "none")?);
    };
    let (kind, second) = (text_of(row.kind), text_of(row.payee_or_reason));
    let (third, fourth) = (text_of(row.usage_or_count), text_of(row.amount_or_total));
    Ok(format!(in alloc; "[{kind}][{second}][{third}][{fourth}]")?)
}

/// The amount that a field is.
pub fn amount(alloc: Global, field: &str) -> Result<String> {
    Ok(format!(in alloc; "{:?}", amount_of(field.as_bytes()))?)
}

/// The count that a field is.
pub fn count(alloc: Global, field: &str) -> Result<String> {
    Ok(format!(in alloc; "{:?}", count_of(field.as_bytes()))?)
}

/// What texts merge to, which strokes divide; or which is refused, and why.
pub fn merged(alloc: Global, question: &str) -> Result<String> {
    let bytes = written_out(alloc, question)?;
    let mut texts = Vec::new(alloc);
    if !bytes.is_empty() {
        for text in text_of(bytes.as_slice()).split('|') {
            texts.push(text.as_bytes())?;
        }
    }
    let mut out = Vec::new(alloc);
    Ok(match merge(alloc, texts, &mut out) {
        Ok(()) => String::from_str(alloc, text_of(out.as_slice()))?,
        Err(TextRefusal { place, refusal }) => format!(in alloc; "text {place}: {refusal}")?,
    })
}

/// The differences between what was paid and what is right, which a stroke divides; or which of the two texts is refused,
/// and why.
pub fn adjusted(alloc: Global, question: &str) -> Result<String> {
    let bytes = written_out(alloc, question)?;
    let (paid, right) = match text_of(bytes.as_slice()).split_once('|') {
        Some(texts) => texts,
        None => bail!("two texts are asked for"),
    };
    let mut out = Vec::new(alloc);
    Ok(
        match adjust(alloc, paid.as_bytes(), right.as_bytes(), &mut out) {
            Ok(()) => String::from_str(alloc, text_of(out.as_slice()))?,
            Err(AdjustRefusal::Text(TextRefusal { place, refusal })) => {
                format!(in alloc; "text {place}: {refusal}")?
            }
            Err(AdjustRefusal::Lines(row)) => format!(in alloc; "row {row} has other lines")?,
        },
    )
}

/// How many rows texts merge to, and the last of them.
pub fn merged_rows(alloc: Global, question: &str) -> Result<String> {
    let text = merged(alloc, question)?;
    let rows = text.trim_end_matches('\n');
    let last = match rows.rsplit_once('\n') {
        Some((_, last)) => last,
        None => rows,
    };
    Ok(format!(in alloc; "{} rows, the last {last}", text.lines().count())?)
}

/// How many usage lines a text is of and how many rows it has, or what it is refused for.
pub fn checked(alloc: Global, question: &str) -> Result<String> {
    let text = written_out(alloc, question)?;
    Ok(match check(alloc, text.as_slice()) {
        Ok(counts) => format!(in alloc; "{} lines in {} rows", counts.lines, counts.rows)?,
        Err(Refusal::Fault(fault)) => {
            format!(in alloc; "fault {} at row {}: {fault}", fault.number(), fault.row())?
        }
        Err(refusal) => format!(in alloc; "{refusal}")?,
    })
}

/// How many of the texts that end before the last byte of a text are refused, and how many it has.
pub fn cut_off(alloc: Global, question: &str) -> Result<String> {
    let text = written_out(alloc, question)?;
    let mut refused = 0u64;
    for size in 0..text.len() {
        if check(alloc, &text.as_slice()[..size]).is_err() {
            refused = refused.saturating_add(1);
        }
    }
    Ok(format!(in alloc; "{refused} of {}", text.len())?)
}
