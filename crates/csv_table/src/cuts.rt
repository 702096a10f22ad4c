//! Where a text is cut.

ghost use Rattle.std.specs.Prelude.{◌≡◌, ◌<◌, ◌++◌, ◌∷◌, IfSome, false, length};
ghost use Rattle.csv.specs.Reading.{strip_bom};
ghost use Rattle.csv_table.specs.Pieces.{pieces_at};
ghost use Rattle.csv_table.specs.Table.{HaveNoLineFeed, rows_of};

use memchr::memchr;

/// The two parts of a text that is cut behind the first line feed of its second half. Its rows are those of the first part and
/// then those of the second, if no field in the rows of the first part has a line feed. Where the cut falls within quotes one of
/// them has: the first part then ends in a field that is still open, and this field ends with the line feed at the cut. None:
/// there is no such line feed, or behind it stands a byte with which a byte order mark begins.
pub fn cut_in_two(text: &[u8]) -> Option<(&[u8], &[u8])>
    ensures { IfSome result (λ parts. HaveNoLineFeed (rows_of parts.0.now) → rows_of text.now ≡ rows_of parts.0.now ++ rows_of parts.1.now) }
{
    let middle = text.len() / 2;
    let feed = memchr(b'\n', &text[middle..])?;
    let at = middle + feed + 1;
    if begins_as_a_mark(&text[at..]) {
        return None;
    }
    Some((&text[..at], &text[at..]))
}

/// What stands before the first byte of this value, and what stands after it. Where there is none, that is the text and nothing.
#[inline]
pub fn first_piece(text: &[u8], cut: u8) -> (&[u8], &[u8])
    ensures pieces { (0 < length text.now) → pieces_at cut text.now ≡ result.0.now ∷ pieces_at cut result.1.now }
    ensures shorter { (0 < length text.now) → length result.1.now < length text.now }
{
    match memchr(cut, text) {
        Some(place) => (&text[..place], &text[place + 1..]),
        None => (text, b""),
    }
}

/// Whether a text begins as a byte order mark does.
fn begins_as_a_mark(text: &[u8]) -> bool
    ensures { result ≡ false → strip_bom text.now ≡ text.now }
{
    text.len() > 0 && text[0] == 0xEF
}
