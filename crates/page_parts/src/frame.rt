//! The frame of a page: what stands before its contents, and behind them.

ghost use Rattle.std.specs.Prelude.{◌≡◌, ◌++◌, OnOk};
ghost use Rattle.page_parts.specs.Frame.{head_text, tail_text};

use crate::piece::{Piece, add};
use crate::style::add_style;
use std::alloc::{AllocError, Global};

/// What stands before the title of a page: it takes nothing from elsewhere, and runs no script.
const BEFORE_TITLE: &str = "\
    <!DOCTYPE html>\n<html lang=\"en\">\n<head>\n<meta charset=\"utf-8\"/>\n\
    <meta http-equiv=\"Content-Security-Policy\" content=\"default-src 'none'; style-src 'unsafe-inline'\"/>\n\
    <meta name=\"viewport\" content=\"width=device-width, initial-scale=1\"/>\n\
    <meta name=\"robots\" content=\"noindex\"/>\n<title>";

/// What stands before the words at the foot of each printed page.
const PRINTED_FOOT: &str = "@page{@bottom-left{font:7.5pt sans-serif;color:#56616c;content:\"";

/// Begins a page: its head, with a title and the style sheet, and the beginning of its body. The title is `name`, a
/// colon, and `distribution`; the words before the name are the page's own. Each printed page has them at its foot.
pub fn begin_page<'a>(
    alloc: Global,
    page: &mut Vec<u8>,
    words: &'static str,
    name: &'a [u8],
    distribution: &'a [u8],
) -> Result<(), AllocError>
    ensures { OnOk result (page.new.items ≡ page.old.items ++ head_text words.entry.now name.now distribution.now) }
{
    add(
        alloc,
        page,
        0,
        &[
            Piece::Tag(BEFORE_TITLE),
            Piece::Tag(words),
            Piece::Text(name),
            Piece::Tag(": "),
            Piece::Text(distribution),
            Piece::Tag("</title>\n<style>"),
        ],
    )?;
    add_style(page)?;
    add(
        alloc,
        page,
        0,
        &[
            Piece::Tag(PRINTED_FOOT),
            Piece::Styled(distribution),
            Piece::Tag(". "),
            Piece::Tag(words),
            Piece::Styled(name),
            Piece::Tag("\"}}</style>\n</head>\n<body>\n"),
        ],
    )
}

/// Ends a page: what it is stands at its foot, on screens alone.
pub fn end_page<'a>(
    alloc: Global,
    page: &mut Vec<u8>,
    words: &'static str,
    name: &'a [u8],
    distribution: &'a [u8],
) -> Result<(), AllocError>
    ensures { OnOk result (page.new.items ≡ page.old.items ++ tail_text words.entry.now name.now distribution.now) }
{
    add(
        alloc,
        page,
        0,
        &[
            Piece::Tag("</main>\n<footer>"),
            Piece::Text(distribution),
            Piece::Tag(". "),
            Piece::Tag(words),
            Piece::Text(name),
            Piece::Tag(".</footer>\n</body>\n</html>\n"),
        ],
    )
}
