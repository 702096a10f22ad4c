//! The lines of a life: each has questions and, behind a colon, what is answered to them.

/// The questions of a line.
pub fn questions_in(line: &str) -> &str {
    line.split_once(':')
        .map_or(line, |(questions, _)| questions)
}

/// Whose item is held, and the questions that are asked meanwhile, in a line like
/// `1 holds; 0 is; gives back`.
pub fn while_held(questions: &str) -> Option<(&str, &str)> {
    let (holds, rest) = questions.split_once("; ")?;
    Some((
        holds.strip_suffix("holds")?,
        rest.strip_suffix("; gives back")?,
    ))
}

/// The word at a place of a text, an empty one where there is none.
pub fn word_at(text: &str, place: usize) -> &str {
    text.split(' ').nth(place).unwrap_or("")
}

/// The number at a place of a text, the greatest where there is none.
pub fn number_at(text: &str, place: usize) -> u64 {
    word_at(text, place).parse().unwrap_or(u64::MAX)
}

/// The amount at a place of a text, 0 where there is none.
pub fn amount_at(text: &str, place: usize) -> i64 {
    word_at(text, place).parse().unwrap_or(0)
}
