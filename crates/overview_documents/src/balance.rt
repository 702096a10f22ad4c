//! The balance: what came in, and what became of it.

ghost use Rattle.std.specs.Prelude.{◌≡◌, ◌≤◌, ◌++◌, OnOk};
ghost use Rattle.overview_documents.specs.Balance.{balance_text, in_row_text, in_text, out_row_text, out_text};
ghost use Rattle.overview_documents.specs.Balance.{residue_row_text, total_row_text};
ghost use Rattle.overview_documents.specs.Lines.{sum_shown};
ghost use Rattle.overview_documents.specs.Overviews.{CanBeShown, overview_shown};
ghost use Rattle.overview_documents.specs.Payees.{group_shown};
ghost use Rattle.page_text.specs.declared.figures.TheConstants.{MOST_DECIMALS};

use crate::lines::LineSum;
use crate::page::Overview;
use crate::payees::{Group, group_of};
use page_parts::{Piece, add, row_tag};
use residue_documents::{amount_of, lines_of};
use std::alloc::{AllocError, Global};

/// Adds the two tables, which come to the same where usage money is what payees and residue come to.
pub(crate) fn add_balance(
    alloc: Global,
    page: &mut Vec<u8>,
    decimals: u32,
    overview: &Overview<'_>,
) -> Result<(), AllocError>
    requires decimals { decimals ≤ MOST_DECIMALS }
    requires few { CanBeShown overview.now }
    ensures { OnOk result (page.new.items ≡ page.old.items ++ balance_text decimals (overview_shown overview.now)) }
{
    page.extend_from_slice(b"<section class=\"keep\"><h2>The balance</h2><div class=\"stack\">")?;
    add_in(alloc, page, decimals, overview)?;
    add_out(alloc, page, decimals, overview)?;
    page.extend_from_slice(b"</div></section>\n")
}

/// Adds what came in, by right.
fn add_in(
    alloc: Global,
    page: &mut Vec<u8>,
    decimals: u32,
    overview: &Overview<'_>,
) -> Result<(), AllocError>
    requires { decimals ≤ MOST_DECIMALS }
    ensures { OnOk result (page.new.items ≡ page.old.items ++ in_text decimals (overview_shown overview.now)) }
{
    page.extend_from_slice(IN_HEAD.as_bytes())?;
    add_in_row(alloc, page, decimals, "Performing", overview.performing)?;
    add_in_row(alloc, page, decimals, "Mechanical", overview.mechanical)?;
    add_in_row(
        alloc,
        page,
        decimals,
        "Synchronisation",
        overview.synchronisation,
    )?;
    let lines = overview.lines;
    add_total_row(
        alloc,
        page,
        decimals,
        "Usage money",
        lines.lines,
        i128::from(lines.amount),
    )
}

const IN_HEAD: &str = "\
    <table><caption>What came in</caption><thead><tr><th scope=\"col\">Right</th><th scope=\"col\" class=\"n\">Lines\
    </th><th scope=\"col\" class=\"n\">Amount</th></tr></thead><tbody>\n";

/// Adds the row of a right.
fn add_in_row(
    alloc: Global,
    page: &mut Vec<u8>,
    decimals: u32,
    right: &'static str,
    sum: LineSum,
) -> Result<(), AllocError>
    requires { decimals ≤ MOST_DECIMALS }
    ensures { OnOk result (page.new.items ≡ page.old.items ++ in_row_text decimals right.entry.now (sum_shown sum)) }
{
    add(
        alloc,
        page,
        decimals,
        &[
            Piece::Tag(row_tag(sum.amount < 0)),
            Piece::Tag("<th scope=\"row\">"),
            Piece::Tag(right),
            Piece::Tag("</th><td class=\"n\">"),
            Piece::Count(sum.lines),
            Piece::Tag("</td><td class=\"n\">"),
            Piece::Amount(i128::from(sum.amount)),
            Piece::Tag("</td></tr>\n"),
        ],
    )
}

/// Adds what became of it: what is payable, what is owed, and what is held back.
fn add_out(
    alloc: Global,
    page: &mut Vec<u8>,
    decimals: u32,
    overview: &Overview<'_>,
) -> Result<(), AllocError>
    requires decimals { decimals ≤ MOST_DECIMALS }
    requires few { CanBeShown overview.now }
    ensures { OnOk result (page.new.items ≡ page.old.items ++ out_text decimals (overview_shown overview.now)) }
{
    let owed = group_of(overview.payees, true);
    let paid = group_of(overview.payees, false);
    let held = Group {
        payees: 0,
        portions: lines_of(&overview.residue),
        amount: amount_of(&overview.residue),
    };
    page.extend_from_slice(OUT_HEAD.as_bytes())?;
    add_out_row(alloc, page, decimals, "Payable to payees: ", paid)?;
    add_out_row(alloc, page, decimals, "Owed by payees: ", owed)?;
    add_residue_row(alloc, page, decimals, held)?;
    let portions = paid.portions + owed.portions + held.portions;
    let amount = paid.amount + owed.amount + held.amount;
    add_total_row(
        alloc,
        page,
        decimals,
        "Payees and residue",
        portions,
        amount,
    )
}

const OUT_HEAD: &str = "\
    <table><caption>What became of it</caption><thead><tr><th scope=\"col\">To</th><th scope=\"col\" class=\"n\">\
    Portions</th><th scope=\"col\" class=\"n\">Amount</th></tr></thead><tbody>\n";

/// Adds the row of a group of payees.
fn add_out_row(
    alloc: Global,
    page: &mut Vec<u8>,
    decimals: u32,
    words: &'static str,
    group: Group,
) -> Result<(), AllocError>
    requires { decimals ≤ MOST_DECIMALS }
    ensures { OnOk result (page.new.items ≡ page.old.items ++ out_row_text decimals words.entry.now
        (group_shown group)) }
{
    add(
        alloc,
        page,
        decimals,
        &[
            Piece::Tag(row_tag(group.amount < 0)),
            Piece::Tag("<th scope=\"row\">"),
            Piece::Tag(words),
            Piece::Count(group.payees),
            Piece::Tag("</th><td class=\"n\">"),
            Piece::Count(group.portions),
            Piece::Tag("</td><td class=\"n\">"),
            Piece::Amount(group.amount),
            Piece::Tag("</td></tr>\n"),
        ],
    )
}

/// Adds the row of the residue.
fn add_residue_row(
    alloc: Global,
    page: &mut Vec<u8>,
    decimals: u32,
    held: Group,
) -> Result<(), AllocError>
    requires { decimals ≤ MOST_DECIMALS }
    ensures { OnOk result (page.new.items ≡ page.old.items ++ residue_row_text decimals (group_shown held)) }
{
    add(
        alloc,
        page,
        decimals,
        &[
            Piece::Tag(row_tag(held.amount < 0)),
            Piece::Tag("<th scope=\"row\">Residue</th><td class=\"n\">"),
            Piece::Count(held.portions),
            Piece::Tag("</td><td class=\"n\">"),
            Piece::Amount(held.amount),
            Piece::Tag("</td></tr>\n"),
        ],
    )
}

/// Adds the row of a total, and ends the table.
fn add_total_row(
    alloc: Global,
    page: &mut Vec<u8>,
    decimals: u32,
    words: &'static str,
    count: u64,
    amount: i128,
) -> Result<(), AllocError>
    requires { decimals ≤ MOST_DECIMALS }
    ensures { OnOk result (page.new.items ≡ page.old.items ++ total_row_text decimals words.entry.now count amount) }
{
    add(
        alloc,
        page,
        decimals,
        &[
            Piece::Tag("</tbody><tfoot>"),
            Piece::Tag(row_tag(amount < 0)),
            Piece::Tag("<th scope=\"row\">"),
            Piece::Tag(words),
            Piece::Tag("</th><td class=\"n\">"),
            Piece::Count(count),
            Piece::Tag("</td><td class=\"n\">"),
            Piece::Amount(amount),
            Piece::Tag("</td></tr></tfoot></table>\n"),
        ],
    )
}
