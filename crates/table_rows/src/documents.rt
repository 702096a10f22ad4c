//! Texts and figures, as documents have them.

use crate::asked::Asked;
use page_text::{
    MOST_DECIMALS, add_amount, add_count, add_escaped, add_file_name, add_guarded, add_shown,
    add_styled,
};
use row_tables::text_of;
use std::alloc::{AllocError, Global};

pub fn add_answer(alloc: Global, asked: &Asked<'_>, answer: &mut String) -> Result<(), AllocError> {
    let mut text = Vec::new(alloc);
    match asked.ask {
        "escaped" => add_escaped(&mut text, asked.question)?,
        "styled" => add_styled(&mut text, asked.question)?,
        "shown" => add_shown(&mut text, asked.question)?,
        "guarded" => add_guarded(&mut text, asked.question)?,
        "amount" => add_amount_of(&mut text, asked.text())?,
        "count" => add_count(&mut text, asked.text().parse().unwrap_or(0))?,
        "file_name" => add_name_of(alloc, &mut text, asked.text())?,
        _ => return asked.add_unknown(answer),
    }
    answer.push_str(text_of(text.as_slice()))
}

/// Adds an amount; how many decimal places it has stands in front, with a comma.
fn add_amount_of(text: &mut Vec<u8>, question: &str) -> Result<(), AllocError> {
    let (decimals, amount) = question.split_once(',').unwrap_or(("0", question));
    let decimals = decimals.parse::<u32>().unwrap_or(0).min(MOST_DECIMALS);
    add_amount(text, decimals, amount.parse().unwrap_or(0))
}

/// Adds the name of the file of an account with a number of up to four digits, which stands in front of its name.
fn add_name_of(alloc: Global, text: &mut Vec<u8>, question: &str) -> Result<(), AllocError> {
    let (number, name) = question.split_once(',').unwrap_or(("0", question));
    let number = u64::from(number.parse::<u16>().unwrap_or(0) % 10_000);
    add_file_name(alloc, text, 4, number, name.as_bytes())
}
