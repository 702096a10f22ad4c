//! The sections of the page of the residue: one for each reason that lines have.

ghost use Rattle.std.specs.Prelude.{◌≡◌, ◌≤◌, ◌++◌, All, OnOk, length, unsigned_abs};
ghost use Rattle.line_split.specs.declared.TheConstants.{MOST_AMOUNT, MOST_LINES};
ghost use Rattle.page_text.specs.declared.figures.TheConstants.{MOST_DECIMALS};
ghost use Rattle.payee_portions.specs.Shown.{portions_shown};
ghost use Rattle.residue_documents.specs.Page.{HasPart, part_head_text};

use crate::reasons::{meaning_of, name_of, todo_of};
use crate::tables::add_table;
use document_names::TerritoryNames;
use line_split::Reason;
use page_parts::{Piece, add};
use payee_portions::Portion;
use std::alloc::{AllocError, Global};

/// Adds the section of a reason, where lines have it: what it means, what to do, and the lines.
pub(crate) fn add_part(
    alloc: Global,
    page: &mut Vec<u8>,
    names: &TerritoryNames,
    decimals: u32,
    reason: Reason,
    list: &[Portion<'_>],
) -> Result<(), AllocError>
    requires decimals { decimals ≤ MOST_DECIMALS }
    requires few { length list.now ≤ MOST_LINES }
    requires small { All (λ portion. unsigned_abs portion.amount ≤ MOST_AMOUNT) list.now }
    ensures { OnOk result (HasPart names.now decimals reason (portions_shown list.now) page.old.items page.new.items) }
{
    if list.is_empty() {
        return Ok(());
    }
    add_part_head(alloc, page, reason)?;
    add_table(alloc, page, names, decimals, reason, list)?;
    page.extend_from_slice(b"</section>\n")
}

/// Adds what a reason means, and what to do about it.
fn add_part_head(alloc: Global, page: &mut Vec<u8>, reason: Reason) -> Result<(), AllocError>
    ensures { OnOk result (page.new.items ≡ page.old.items ++ part_head_text reason) }
{
    let word = reason.word();
    add(
        alloc,
        page,
        0,
        &[
            Piece::Tag("<section id=\""),
            Piece::Tag(word),
            Piece::Tag("\"><h2><svg class=\"key "),
            Piece::Tag(word),
            Piece::Tag(
                "\" viewBox=\"0 0 1 1\" aria-hidden=\"true\"><rect width=\"1\" height=\"1\"/></svg>",
            ),
            Piece::Tag(name_of(reason)),
            Piece::Tag(" <span class=\"code\">"),
            Piece::Tag(word),
            Piece::Tag("</span></h2><p>"),
            Piece::Tag(meaning_of(reason)),
            Piece::Tag("</p><div class=\"todo\"><p><b>What to do.</b> "),
            Piece::Tag(todo_of(reason)),
            Piece::Tag("</p></div>\n"),
        ],
    )
}
