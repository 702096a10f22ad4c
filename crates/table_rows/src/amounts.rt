//! Amounts as decimal numbers, each with the places that its units have before it.

use crate::asked::Asked;
use decimal_amounts::{MOST_PLACES, Mark, units_of};
use std::alloc::AllocError;

pub fn add_answer(asked: &Asked<'_>, answer: &mut String) -> Result<(), AllocError> {
    match asked.ask {
        "point" => add_units(Mark::Point, asked.text(), answer),
        "comma" => add_units(Mark::Comma, asked.text(), answer),
        _ => asked.add_unknown(answer),
    }
}

/// Adds the units that a text writes, or why there are none.
fn add_units(mark: Mark, question: &str, answer: &mut String) -> Result<(), AllocError> {
    let (places, text) = question.split_once(' ').unwrap_or((question, ""));
    let places = places.parse().unwrap_or(0).min(MOST_PLACES);
    match units_of(text.as_bytes(), mark, places) {
        Ok(units) => write!(answer, "{units}"),
        Err(fault) => write!(answer, "{fault:?}"),
    }
}
