//! What stands at the head of a page: facts beside its title, and large figures.

ghost use Rattle.std.specs.Prelude.{◌≡◌, ◌≤◌, ◌++◌, OnOk, codes};
ghost use Rattle.page_parts.specs.Facts.{currency_text, fact_text, figure_class_text, figure_text};
ghost use Rattle.page_text.specs.declared.figures.TheConstants.{MOST_DECIMALS};

use crate::piece::{Piece, add};
use std::alloc::{AllocError, Global};

/// A distribution, as its documents name it.
#[derive(Clone, Copy, Debug)]
pub struct Distribution<'a> {
    /// What it is called.
    pub title: &'a [u8],
    /// The currency of all amounts; none where it is empty.
    pub currency: &'a [u8],
    /// Who sent the registrations, and when; nothing where it is empty.
    pub sources: &'a [u8],
    /// How many decimal places amounts have.
    pub decimals: u32,
}

/// Adds a fact: what it is, and a text. Nothing where the text is empty.
pub fn add_fact(
    alloc: Global,
    page: &mut Vec<u8>,
    label: &'static str,
    text: &[u8],
) -> Result<(), AllocError>
    ensures { OnOk result (page.new.items ≡ page.old.items ++ fact_text label.entry.now text.now) }
{
    if text.is_empty() {
        return Ok(());
    }
    add(
        alloc,
        page,
        0,
        &[
            Piece::Tag("<div><dt>"),
            Piece::Tag(label),
            Piece::Tag("</dt><dd>"),
            Piece::Text(text),
            Piece::Tag("</dd></div>"),
        ],
    )
}

/// Begins a large figure: what it is, the amount, and its currency. A note follows, in small print.
pub fn begin_figure(
    alloc: Global,
    page: &mut Vec<u8>,
    decimals: u32,
    label: &'static str,
    amount: i128,
    currency: &[u8],
) -> Result<(), AllocError>
    requires { decimals ≤ MOST_DECIMALS }
    ensures { OnOk result (page.new.items ≡ page.old.items
        ++ figure_text decimals label.entry.now amount currency.now) }
{
    add(
        alloc,
        page,
        decimals,
        &[
            Piece::Tag(figure_tag(amount < 0)),
            Piece::Tag("<span>"),
            Piece::Tag(label),
            Piece::Tag("</span><b>"),
            Piece::Amount(amount),
        ],
    )?;
    add_currency(alloc, page, currency)?;
    page.extend_from_slice(b"</b> <i>")
}

/// The tag that begins a large figure.
fn figure_tag(is_negative: bool) -> &'static str
    ensures { result.now ≡ figure_class_text is_negative }
{
    if is_negative {
        "<p class=\"fig neg\">"
    } else {
        "<p class=\"fig\">"
    }
}

/// Adds a currency behind an amount; nothing where it is empty.
fn add_currency(alloc: Global, page: &mut Vec<u8>, currency: &[u8]) -> Result<(), AllocError>
    ensures { OnOk result (page.new.items ≡ page.old.items ++ currency_text currency.now) }
{
    if currency.is_empty() {
        return Ok(());
    }
    add(
        alloc,
        page,
        0,
        &[Piece::Tag("<i>"), Piece::Text(currency), Piece::Tag("</i>")],
    )
}

/// Ends a large figure.
pub fn end_figure(page: &mut Vec<u8>) -> Result<(), AllocError>
    ensures { OnOk result (page.new.items ≡ page.old.items ++ codes "</i></p>") }
{
    page.extend_from_slice(b"</i></p>")
}
