//! How a table spells bytes that are not printed, and texts that repeat themselves.
//!
//! `\n`, `\r` and `\t` are a line feed, a carriage return and a tab, and `\xNN` is a byte by two hexadecimal digits.
//! `{FIRST-LAST:TEXT}` is TEXT for each number from FIRST to LAST, in which `#` is the number, `%` the number in nine
//! digits, and `&` the number after it.

use std::alloc::{AllocError, Global};

/// The bytes that a text spells, with its repetitions written out.
pub fn written_out(alloc: Global, text: &str) -> Result<Vec<u8>, AllocError> {
    let mut bytes = Vec::new(alloc);
    let mut pieces = text.split('{');
    spelt(pieces.next().unwrap_or(""), &mut bytes)?;
    for piece in pieces {
        let (repeated, rest) = piece.split_once('}').unwrap_or((piece, ""));
        add_repeated(alloc, repeated, &mut bytes)?;
        spelt(rest, &mut bytes)?;
    }
    Ok(bytes)
}

/// Adds the bytes that a text spells.
pub fn spelt(text: &str, bytes: &mut Vec<u8>) -> Result<(), AllocError> {
    let mut pieces = text.split('\\');
    bytes.extend_from_slice(pieces.next().unwrap_or("").as_bytes())?;
    for piece in pieces {
        let (byte, length) = escaped(piece.as_bytes());
        bytes.push(byte)?;
        bytes.extend_from_slice(piece.as_bytes().get(length..).unwrap_or(&[]))?;
    }
    Ok(())
}

/// The byte that is spelt where a piece behind a backslash begins, and how many bytes spell it. A backslash before
/// anything else stands for itself.
fn escaped(piece: &[u8]) -> (u8, usize) {
    match piece.first() {
        Some(b'n') => (b'\n', 1),
        Some(b'r') => (b'\r', 1),
        Some(b't') => (b'\t', 1),
        Some(b'x') => (digit_at(piece, 1) << 4 | digit_at(piece, 2), 3),
        _ => (b'\\', 0),
    }
}

/// The value of the hexadecimal digit at a place; 0 where there is none.
fn digit_at(piece: &[u8], place: usize) -> u8 {
    match piece.get(place) {
        Some(byte) if byte.is_ascii_digit() => byte - b'0',
        Some(byte) if (b'a'..=b'f').contains(byte) => byte - b'a' + 10,
        _ => 0,
    }
}

/// Adds a text for each number from the first to the last of `FIRST-LAST:TEXT`.
fn add_repeated(alloc: Global, repeated: &str, bytes: &mut Vec<u8>) -> Result<(), AllocError> {
    let (numbers, text) = repeated.split_once(':').unwrap_or((repeated, ""));
    let (first, last) = numbers.split_once('-').unwrap_or((numbers, ""));
    let mut once = Vec::new(alloc);
    spelt(text, &mut once)?;
    for number in first.parse::<u32>().unwrap_or(1)..=last.parse::<u32>().unwrap_or(0) {
        add_numbered(alloc, once.as_slice(), number, bytes)?;
    }
    Ok(())
}

/// Adds a text in which signs stand for a number.
fn add_numbered(
    alloc: Global,
    text: &[u8],
    number: u32,
    bytes: &mut Vec<u8>,
) -> Result<(), AllocError> {
    for byte in text {
        match byte {
            b'#' => bytes.extend_from_slice(format!(in alloc; "{number}")?.as_bytes())?,
            b'%' => bytes.extend_from_slice(format!(in alloc; "{number:09}")?.as_bytes())?,
            b'&' => {
                let next = number.saturating_add(1);
                bytes.extend_from_slice(format!(in alloc; "{next}")?.as_bytes())?;
            }
            _ => bytes.push(*byte)?,
        }
    }
    Ok(())
}
