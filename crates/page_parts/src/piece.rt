//! What a page is put together of: tags of its own, and texts and figures of a run.

ghost use Rattle.std.specs.Prelude.{◌≡◌, ◌≤◌, ◌++◌, OnOk, decimal};
ghost use Rattle.page_parts.specs.Pieces.{in_page, in_style, piece_text, pieces_text};
ghost use Rattle.page_text.specs.Figures.{size_text};
ghost use Rattle.page_text.specs.declared.figures.TheConstants.{MOST_DECIMALS};

use itoa::Buffer;
use page_text::{add_amount, add_count, add_escaped, add_last_digits, add_shown, add_styled};
use std::alloc::{AllocError, Global};

/// A piece of a page. Only what the page itself says is a tag, so no text of an input can be one.
#[derive(Clone, Copy, Debug)]
pub enum Piece<'a> {
    /// Tags and words of the page itself, as they stand.
    Tag(&'static str),
    /// A text of whatever bytes: those that cannot be seen stand by their digits, and none opens a tag, an attribute
    /// or a character reference.
    Text(&'a [u8]),
    /// A text of whatever bytes within the quotes of the page's style sheet, which it doesn't end.
    Styled(&'a [u8]),
    /// A number without groups of digits: a row, or a code.
    Number(u64),
    /// A count, with groups of three digits.
    Count(u64),
    /// An amount in minor units, with the decimal places of the page.
    Amount(i128),
    /// Hundredths of a per cent, as per cent with two decimal places.
    Share(u32),
}

/// Adds pieces to a page, one behind the other. Amounts have as many decimal places as `decimals` says.
pub fn add(
    alloc: Global,
    page: &mut Vec<u8>,
    decimals: u32,
    pieces: &[Piece<'_>],
) -> Result<(), AllocError>
    requires { decimals ≤ MOST_DECIMALS }
    ensures { OnOk result (page.new.items ≡ page.old.items ++ pieces_text decimals pieces.now) }
{
    for place in 0..pieces.len() {
        add_piece(alloc, page, decimals, pieces[place])?;
    }
    Ok(())
}

/// Adds a piece.
fn add_piece(
    alloc: Global,
    page: &mut Vec<u8>,
    decimals: u32,
    piece: Piece<'_>,
) -> Result<(), AllocError>
    requires { decimals ≤ MOST_DECIMALS }
    ensures { OnOk result (page.new.items ≡ page.old.items ++ piece_text decimals piece.entry) }
{
    match piece {
        Piece::Tag(text) => page.extend_from_slice(text.as_bytes()),
        Piece::Text(text) => add_text(alloc, page, text),
        Piece::Styled(text) => add_style_text(alloc, page, text),
        Piece::Number(number) => add_number(page, number),
        Piece::Count(count) => add_count(page, u128::from(count)),
        Piece::Amount(amount) => add_amount(page, decimals, amount),
        Piece::Share(share) => add_share(page, share),
    }
}

/// Adds a text as it is shown, between tags.
fn add_text(alloc: Global, page: &mut Vec<u8>, text: &[u8]) -> Result<(), AllocError>
    ensures { OnOk result (page.new.items ≡ page.old.items ++ in_page text.now) }
{
    let mut shown = Vec::new(alloc);
    add_shown(&mut shown, text)?;
    add_escaped(page, shown.as_slice())
}

/// Adds a text as it is shown, within quotes of a style sheet.
fn add_style_text(alloc: Global, page: &mut Vec<u8>, text: &[u8]) -> Result<(), AllocError>
    ensures { OnOk result (page.new.items ≡ page.old.items ++ in_style text.now) }
{
    let mut shown = Vec::new(alloc);
    add_shown(&mut shown, text)?;
    add_styled(page, shown.as_slice())
}

/// Adds a number without groups of digits.
fn add_number(page: &mut Vec<u8>, number: u64) -> Result<(), AllocError>
    ensures { OnOk result (page.new.items ≡ page.old.items ++ decimal number) }
{
    let mut digits = Buffer::new();
    page.extend_from_slice(digits.format(number).as_bytes())
}

/// Adds hundredths of a per cent as per cent.
fn add_share(page: &mut Vec<u8>, hundredths: u32) -> Result<(), AllocError>
    ensures { OnOk result (page.new.items ≡ page.old.items ++ size_text 2 hundredths) }
{
    add_count(page, u128::from(hundredths / 100))?;
    page.push(b'.')?;
    add_last_digits(page, 2, u128::from(hundredths))
}
