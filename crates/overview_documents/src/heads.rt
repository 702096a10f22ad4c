//! The head of the overview: what came in is what payees have and what is held back.

ghost use Rattle.std.specs.Prelude.{◌≡◌, ◌≤◌, ◌++◌, IfOk, OnOk};
ghost use Rattle.overview_documents.specs.Heads.{all_payees, facts_text, head_text, note_text, reversals_text};
ghost use Rattle.overview_documents.specs.Heads.{sum_text};
ghost use Rattle.overview_documents.specs.Overviews.{CanBeShown, overview_shown};
ghost use Rattle.overview_documents.specs.Payees.{group_shown};
ghost use Rattle.page_parts.specs.Facts.{distribution_shown};
ghost use Rattle.page_text.specs.declared.figures.TheConstants.{MOST_DECIMALS};

use crate::page::Overview;
use crate::payees::{Group, group_of};
use page_parts::{Distribution, Piece, add, add_fact, begin_figure, end_figure};
use residue_documents::{amount_of, lines_of};
use std::alloc::{AllocError, Global};

/// What stands at the head of the page.
const PAGE_HEAD: &str = "\
    <nav aria-label=\"Pages\"><b aria-current=\"page\">Overview</b><a href=\"residue.html\">Residue</a></nav>\n\
    <main>\n<header><p class=\"kind\">Overview of a distribution</p><h1>";

/// Adds the head of the overview, and answers what all payees have.
pub(crate) fn add_heads(
    alloc: Global,
    page: &mut Vec<u8>,
    distribution: &Distribution<'_>,
    overview: &Overview<'_>,
) -> Result<Group, AllocError>
    requires decimals { distribution.now.decimals ≤ MOST_DECIMALS }
    requires few { CanBeShown overview.now }
    ensures text { OnOk result (page.new.items
        ≡ page.old.items ++ head_text (distribution_shown distribution.now) (overview_shown overview.now)) }
    ensures all { IfOk result (λ all. group_shown all ≡ all_payees (overview_shown overview.now)) }
{
    page.extend_from_slice(PAGE_HEAD.as_bytes())?;
    add(
        alloc,
        page,
        0,
        &[Piece::Text(distribution.title), Piece::Tag("</h1>\n")],
    )?;
    add_facts(alloc, page, distribution, overview)?;
    let all = all_of_payees(overview);
    add_sum(alloc, page, distribution, overview, all)?;
    page.extend_from_slice(b"</header>\n")?;
    Ok(all)
}

/// What all payees have.
fn all_of_payees(overview: &Overview<'_>) -> Group
    requires { CanBeShown overview.now }
    ensures { group_shown result ≡ all_payees (overview_shown overview.now) }
{
    let owed = group_of(overview.payees, true);
    let paid = group_of(overview.payees, false);
    Group {
        payees: paid.payees + owed.payees,
        portions: paid.portions + owed.portions,
        amount: paid.amount + owed.amount,
    }
}

/// Adds the facts of a distribution.
fn add_facts(
    alloc: Global,
    page: &mut Vec<u8>,
    distribution: &Distribution<'_>,
    overview: &Overview<'_>,
) -> Result<(), AllocError>
    requires { distribution.now.decimals ≤ MOST_DECIMALS }
    ensures { OnOk result (page.new.items
        ≡ page.old.items ++ facts_text (distribution_shown distribution.now) (overview_shown overview.now)) }
{
    page.extend_from_slice(b"<dl class=\"facts\">")?;
    add_fact(alloc, page, "Amounts in", distribution.currency)?;
    add_fact(alloc, page, "Registrations", distribution.sources)?;
    add_reversals(alloc, page, distribution.decimals, overview)?;
    page.extend_from_slice(b"</dl>\n")
}

/// Adds how many lines are reversals, and what they come to, where there are some.
fn add_reversals(
    alloc: Global,
    page: &mut Vec<u8>,
    decimals: u32,
    overview: &Overview<'_>,
) -> Result<(), AllocError>
    requires { decimals ≤ MOST_DECIMALS }
    ensures { OnOk result (page.new.items ≡ page.old.items ++ reversals_text decimals (overview_shown overview.now)) }
{
    if overview.reversals.lines == 0 {
        return Ok(());
    }
    add(
        alloc,
        page,
        decimals,
        &[
            Piece::Tag("<div><dt>Reversals among the lines</dt><dd>"),
            Piece::Count(overview.reversals.lines),
            Piece::Tag(", <span class=\"neg\">"),
            Piece::Amount(i128::from(overview.reversals.amount)),
            Piece::Tag("</span></dd></div>"),
        ],
    )
}

/// Adds the sum: what came in, what payees have, and what is held back.
fn add_sum(
    alloc: Global,
    page: &mut Vec<u8>,
    distribution: &Distribution<'_>,
    overview: &Overview<'_>,
    all: Group,
) -> Result<(), AllocError>
    requires decimals { distribution.now.decimals ≤ MOST_DECIMALS }
    requires few { CanBeShown overview.now }
    ensures { OnOk result (page.new.items ≡ page.old.items
        ++ sum_text (distribution_shown distribution.now) (overview_shown overview.now) (group_shown all)) }
{
    let decimals = distribution.decimals;
    page.extend_from_slice(b"<div class=\"sum\">")?;
    let lines = overview.lines;
    begin_figure(
        alloc,
        page,
        decimals,
        "Usage money",
        i128::from(lines.amount),
        b"",
    )?;
    add_note(alloc, page, "lines: ", lines.lines)?;
    page.extend_from_slice(b"<span class=\"op\">=</span>")?;
    begin_figure(alloc, page, decimals, "To payees", all.amount, b"")?;
    add_note(alloc, page, "payees: ", all.payees)?;
    page.extend_from_slice(b"<span class=\"op\">+</span>")?;
    begin_figure(
        alloc,
        page,
        decimals,
        "Residue",
        amount_of(&overview.residue),
        b"",
    )?;
    add_note(alloc, page, "lines: ", lines_of(&overview.residue))?;
    page.extend_from_slice(b"</div>\n")
}

/// Adds a note to a figure, and ends it.
fn add_note(
    alloc: Global,
    page: &mut Vec<u8>,
    words: &'static str,
    count: u64,
) -> Result<(), AllocError>
    ensures { OnOk result (page.new.items ≡ page.old.items ++ note_text words.entry.now count) }
{
    add(alloc, page, 0, &[Piece::Tag(words), Piece::Count(count)])?;
    end_figure(page)
}
