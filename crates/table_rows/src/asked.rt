//! What a row asks, and of what.

use row_tables::text_of;
use std::alloc::{AllocError, Global};

/// A question, and what it is asked of.
#[derive(Clone, Copy)]
pub struct Asked<'a> {
    /// The first word of the heading: what is asked.
    pub ask: &'a str,
    /// The files that the heading names.
    pub files: &'a [Vec<u8>],
    /// The question, written out.
    pub question: &'a [u8],
}

impl Asked<'_> {
    /// The bytes of the file at a place in the heading, from 0; none where it names fewer.
    pub fn file(&self, place: usize) -> &[u8] {
        match self.files.get(place) {
            Some(file) => file.as_slice(),
            None => b"",
        }
    }

    /// The text of the question.
    pub fn text(&self) -> &str {
        text_of(self.question)
    }

    /// The last file of the heading, and the question below it.
    pub fn below(&self, alloc: Global) -> Result<Vec<u8>, AllocError> {
        let last = self.file(self.files.len().saturating_sub(1));
        let mut bytes = Vec::from_slice(alloc, last)?;
        bytes.extend_from_slice(self.question)?;
        Ok(bytes)
    }

    /// Adds that nothing answers this.
    pub fn add_unknown(&self, answer: &mut String) -> Result<(), AllocError> {
        answer.push_str("no answer: nothing is asked by this word")
    }
}

/// A name and a number, divided by a space.
pub fn named_and_numbered(text: &str) -> (&str, u64) {
    let (name, number) = text.split_once(' ').unwrap_or((text, ""));
    (name, number.parse().unwrap_or(0))
}

/// Adds the text that bytes are, in brackets.
pub fn add_in_brackets(bytes: &[u8], answer: &mut String) -> Result<(), AllocError> {
    write!(answer, "[{}]", text_of(bytes))
}
