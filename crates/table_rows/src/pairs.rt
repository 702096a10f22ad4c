//! An amount of 5 divided by words.

use crate::asked::{Asked, named_and_numbered};
use pair_split::{PairFault, split_words};
use row_tables::text_of;
use std::alloc::{AllocError, Global};

pub fn add_answer(alloc: Global, asked: &Asked<'_>, answer: &mut String) -> Result<(), AllocError> {
    match asked.ask {
        "split" | "refusal" => {
            let words = words_in(alloc, asked.text())?;
            add_split(alloc, asked.ask, words.as_slice(), answer)
        }
        "fault" => write!(answer, "{}", fault_in(asked.text())),
        _ => asked.add_unknown(answer),
    }
}

/// The words of a text.
fn words_in(alloc: Global, text: &str) -> Result<Vec<String>, AllocError> {
    let mut words = Vec::new(alloc);
    for word in text.split_whitespace() {
        words.push(String::from_str(alloc, word)?)?;
    }
    Ok(words)
}

/// Adds what words divide, where that is asked, or what they are refused for, where they are refused.
fn add_split(
    alloc: Global,
    ask: &str,
    words: &[String],
    answer: &mut String,
) -> Result<(), AllocError> {
    match split_words(alloc, 5, words) {
        Ok(text) if ask == "split" => answer.push_str(text_of(text.as_slice())),
        Ok(_) => answer.push_str("taken"),
        Err(fault) => write!(answer, "{fault:?}"),
    }
}

/// The fault of a name and a place.
fn fault_in(text: &str) -> PairFault {
    let (name, place) = named_and_numbered(text);
    match name {
        "Pair" => PairFault::Pair(place),
        "Name" => PairFault::Name(place),
        "Share" => PairFault::Share(place),
        "Many" => PairFault::Many,
        _ => PairFault::Memory,
    }
}
