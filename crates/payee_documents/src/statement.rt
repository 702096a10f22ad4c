//! The statement of a payee: a page of HTML that stands alone, on a screen and on paper.

ghost use Rattle.std.specs.Prelude.{◌≡◌, ◌≤◌, ◌++◌, All, IfOk, OnOk, length, unsigned_abs};
ghost use Rattle.line_split.specs.declared.TheConstants.{MOST_AMOUNT, MOST_LINES};
ghost use Rattle.page_parts.specs.Facts.{distribution_shown};
ghost use Rattle.page_text.specs.declared.figures.TheConstants.{MOST_DECIMALS};
ghost use Rattle.payee_documents.specs.Payees.{payee_shown};
ghost use Rattle.payee_documents.specs.Statement.{IsStatement, uses_section_text};

use crate::breakdowns::add_breakdowns;
use crate::heads::{add_heads, name_of};
use crate::notes::add_notes;
use crate::uses::add_uses;
use document_names::TerritoryNames;
use page_parts::{Distribution, Piece, add, begin_page, end_page};
use payee_portions::Portion;
use std::alloc::{AllocError, Global};

/// A payee, and what it has.
#[derive(Clone, Copy, Debug)]
pub struct Payee<'a> {
    /// The account.
    pub account: &'a [u8],
    /// The name; none where it is empty.
    pub name: &'a [u8],
    /// The name of its files, without their endings.
    pub file: &'a [u8],
    /// Its portions, as `list_of` of `payee_portions` lists them.
    pub portions: &'a [Portion<'a>],
}

/// The statement of a payee: who it is, what is due, what that is made of by right and by territory, each work with its
/// uses, and notes.
pub fn page_of(
    alloc: Global,
    distribution: &Distribution<'_>,
    names: &TerritoryNames,
    payee: &Payee<'_>,
) -> Result<Vec<u8>, AllocError>
    requires decimals { distribution.now.decimals ≤ MOST_DECIMALS }
    requires few { length payee.now.portions.now ≤ MOST_LINES }
    requires small { All (λ portion. unsigned_abs portion.amount ≤ MOST_AMOUNT) payee.now.portions.now }
    ensures { IfOk result (λ text. IsStatement (distribution_shown distribution.now) names.now
        (payee_shown payee.now) text.items) }
{
    let mut page = Vec::new(alloc);
    let name = name_of(payee);
    begin_page(
        alloc,
        &mut page,
        "Royalty statement of ",
        name,
        distribution.title,
    )?;
    add_heads(alloc, &mut page, distribution, payee)?;
    add_breakdowns(
        alloc,
        &mut page,
        names,
        distribution.decimals,
        payee.portions,
    )?;
    add_uses_section(alloc, &mut page, distribution, names, payee)?;
    add_notes(alloc, &mut page, distribution.decimals, payee.portions)?;
    end_page(
        alloc,
        &mut page,
        "Royalty statement of ",
        payee.account,
        distribution.title,
    )?;
    Ok(page)
}

/// Adds the works and their uses.
fn add_uses_section(
    alloc: Global,
    page: &mut Vec<u8>,
    distribution: &Distribution<'_>,
    names: &TerritoryNames,
    payee: &Payee<'_>,
) -> Result<(), AllocError>
    requires decimals { distribution.now.decimals ≤ MOST_DECIMALS }
    requires few { length payee.now.portions.now ≤ MOST_LINES }
    requires small { All (λ portion. unsigned_abs portion.amount ≤ MOST_AMOUNT) payee.now.portions.now }
    ensures { OnOk result (page.new.items ≡ page.old.items
        ++ uses_section_text names.now distribution.now.decimals (payee_shown payee.now)) }
{
    add(
        alloc,
        page,
        0,
        &[
            Piece::Tag(
                "<section><h2>Works and uses</h2><p>Your portion is the amount of the use times ",
            ),
            Piece::Tag("your share, rounded as the notes say. Row is "),
            Piece::Tag(
                "the row of the usage list. <span class=\"screen\">The same rows are in <a href=\"",
            ),
            Piece::Text(payee.file),
            Piece::Tag(".csv\">"),
            Piece::Text(payee.file),
            Piece::Tag(".csv</a>.</span></p>\n"),
        ],
    )?;
    add_uses(alloc, page, names, distribution.decimals, payee.portions)?;
    page.extend_from_slice(b"</section>\n")
}
