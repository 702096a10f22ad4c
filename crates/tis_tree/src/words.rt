//! The words of a text, with spaces between them.

ghost use Rattle.std.specs.Prelude.{◌≡◌, ◌<◌, ◌∷◌, [], length};
ghost use Rattle.tis_tree.specs.TisRows.{words_of};

use csv_table::first_piece;

/// The first word of a text, and what stands after it. Both are empty where there is none.
pub(crate) fn first_word(text: &[u8]) -> (&[u8], &[u8])
    ensures some { (0 < length result.0.now) → words_of text.now ≡ result.0.now ∷ words_of result.1.now }
    ensures none { (result.0.now ≡ []) → words_of text.now ≡ [] }
    ensures shorter { (0 < length result.0.now) → length result.1.now < length text.now }
{
    let mut rest = text;
    while !rest.is_empty() {
        let (piece, after) = first_piece(rest, b' ');
        if !piece.is_empty() {
            return (piece, after);
        }
        rest = after;
    }
    (b"", b"")
}
