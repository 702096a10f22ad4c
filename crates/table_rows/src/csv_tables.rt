//! The rows of a text, a text that is cut in two, and the forms of fields.

use crate::asked::{Asked, add_in_brackets};
use csv_table::forms::{code, is_printable, number_up_to};
use csv_table::{Rows, cut_in_two};
use std::alloc::{AllocError, Global};

pub fn add_answer(alloc: Global, asked: &Asked<'_>, answer: &mut String) -> Result<(), AllocError> {
    match asked.ask {
        "rows" => add_rows(&mut Rows::of(alloc, asked.question), answer),
        "cut" => add_parts(alloc, asked.question, answer),
        "is" => add_whether_is(alloc, asked.text(), answer),
        "walk" => walk_past_the_end(&mut Rows::of(alloc, asked.question), answer),
        "unprintable" => add_places(asked.question, answer),
        _ => add_form(asked, answer),
    }
}

/// Adds the fields of the row at hand, in brackets, and a stroke after them.
fn add_fields(rows: &Rows<'_>, answer: &mut String) -> Result<(), AllocError> {
    for place in 0..rows.len() {
        add_in_brackets(rows.field(place), answer)?;
    }
    answer.push('/')
}

/// Adds the fields of each row that is left.
fn add_rows(rows: &mut Rows<'_>, answer: &mut String) -> Result<(), AllocError> {
    for _ in 0..u64::MAX {
        if !rows.next()? {
            break;
        }
        add_fields(rows, answer)?;
    }
    Ok(())
}

/// Adds the rows of the two parts of a text that is cut in two, and a caret between them.
fn add_parts(alloc: Global, text: &[u8], answer: &mut String) -> Result<(), AllocError> {
    let Some((first, second)) = cut_in_two(text) else {
        return answer.push_str("not cut");
    };
    add_rows(&mut Rows::of(alloc, first), answer)?;
    answer.push('^')?;
    add_rows(&mut Rows::of(alloc, second), answer)
}

/// Adds whether the row before ` = ` has the fields behind it, which strokes divide.
fn add_whether_is(alloc: Global, text: &str, answer: &mut String) -> Result<(), AllocError> {
    let (row, fields) = text.split_once(" = ").unwrap_or((text, ""));
    let mut rows = Rows::of(alloc, row.as_bytes());
    let is_row = rows.next()?;
    let fields: Vec<&str> = fields.split('|').collect(alloc)?;
    write!(answer, "{}", is_row && rows.is(fields.as_slice()))
}

/// Adds how many fields there are before the first row, whether there is a row, how long the field after its first is,
/// and whether there are more rows, which is asked twice.
fn walk_past_the_end(rows: &mut Rows<'_>, answer: &mut String) -> Result<(), AllocError> {
    let before = rows.len();
    let is_first = rows.next()?;
    let past = rows.field(1).len();
    let is_second = rows.next()?;
    let is_third = rows.next()?;
    write!(answer, "{before} {is_first} {past} {is_second} {is_third}")
}

/// Adds whether a field is printable, or the number or the code that it writes. The most that it may have or be follows
/// it after a comma.
fn add_form(asked: &Asked<'_>, answer: &mut String) -> Result<(), AllocError> {
    let (field, most) = asked.text().split_once(',').unwrap_or((asked.text(), ""));
    let (field, most) = (field.as_bytes(), most.parse::<usize>().unwrap_or(0));
    match asked.ask {
        "printable" => write!(answer, "{}", is_printable(field, most)),
        "number" => write!(answer, "{:?}", number_up_to(field, most as u64)),
        "code" => write!(answer, "{:?}", code(field)),
        _ => asked.add_unknown(answer),
    }
}

/// Adds a line each for a field of 17 bytes, its first 8, and those from the eleventh on: for each place of a byte in
/// the field a plus sign, where that part is printable, or a dot.
fn add_places(byte: &[u8], answer: &mut String) -> Result<(), AllocError> {
    for (first, end, most) in [(0, 17, 17), (0, 8, 8), (10, 17, 8)] {
        for place in 0..17 {
            let mut field = *b"sixteen and one: ";
            field[place] = byte.first().copied().unwrap_or(b'-');
            let part = field.get(first..end).unwrap_or(&[]);
            answer.push(if is_printable(part, most) { '+' } else { '.' })?;
        }
        answer.push('\n')?;
    }
    Ok(())
}
