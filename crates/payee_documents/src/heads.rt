//! The head of a statement: whose it is, and what is due.

ghost use Rattle.std.specs.Prelude.{◌≡◌, ◌≤◌, ◌++◌, OnOk, All, length, unsigned_abs};
ghost use Rattle.line_split.specs.declared.TheConstants.{MOST_AMOUNT, MOST_LINES};
ghost use Rattle.page_text.specs.declared.figures.TheConstants.{MOST_DECIMALS};
ghost use Rattle.payee_documents.specs.Heads.{debt_text, due_label_text, due_text, facts_text, head_text};
ghost use Rattle.payee_documents.specs.Heads.{lead_text, title_text};
ghost use Rattle.page_parts.specs.Facts.{distribution_shown};
ghost use Rattle.payee_documents.specs.Payees.{name_shown, payee_shown};
ghost use Rattle.payee_portions.specs.Shown.{portions_shown};

use crate::statement::Payee;
use page_parts::{Distribution, Piece, add, add_fact, begin_figure, end_figure};
use payee_portions::{Portion, count_of_reversals, count_of_sections, sum_of, sum_of_reversals};
use std::alloc::{AllocError, Global};

/// Adds the head of a payee's statement.
pub(crate) fn add_heads(
    alloc: Global,
    page: &mut Vec<u8>,
    distribution: &Distribution<'_>,
    payee: &Payee<'_>,
) -> Result<(), AllocError>
    requires decimals { distribution.now.decimals ≤ MOST_DECIMALS }
    requires few { length payee.now.portions.now ≤ MOST_LINES }
    requires small { All (λ portion. unsigned_abs portion.amount ≤ MOST_AMOUNT) payee.now.portions.now }
    ensures { OnOk result (page.new.items
        ≡ page.old.items ++ head_text (distribution_shown distribution.now) (payee_shown payee.now)) }
{
    add_title(alloc, page, payee)?;
    add_facts(alloc, page, distribution, payee)?;
    add_due(alloc, page, distribution, payee.portions)?;
    add_lead(alloc, page, distribution.decimals, payee.portions)?;
    page.extend_from_slice(b"</header>\n")
}

/// The name of a payee, or else its account.
pub(crate) fn name_of<'a>(payee: &Payee<'a>) -> &'a [u8]
    ensures { result.now ≡ name_shown (payee_shown payee.now) }
{
    if payee.name.is_empty() {
        payee.account
    } else {
        payee.name
    }
}

/// Adds what the page is, and whose.
fn add_title(alloc: Global, page: &mut Vec<u8>, payee: &Payee<'_>) -> Result<(), AllocError>
    ensures { OnOk result (page.new.items ≡ page.old.items ++ title_text (payee_shown payee.now)) }
{
    add(
        alloc,
        page,
        0,
        &[
            Piece::Tag("<main>\n<header><p class=\"kind\">Royalty statement</p><h1>"),
            Piece::Text(name_of(payee)),
            Piece::Tag("</h1>\n"),
        ],
    )
}

/// Adds the account, the distribution, and who sent the registrations.
fn add_facts(
    alloc: Global,
    page: &mut Vec<u8>,
    distribution: &Distribution<'_>,
    payee: &Payee<'_>,
) -> Result<(), AllocError>
    ensures { OnOk result (page.new.items
        ≡ page.old.items ++ facts_text (distribution_shown distribution.now) (payee_shown payee.now)) }
{
    page.extend_from_slice(b"<dl class=\"facts\">")?;
    add_fact(alloc, page, "Account", payee.account)?;
    add_fact(alloc, page, "Distribution", distribution.title)?;
    add_fact(alloc, page, "Registrations", distribution.sources)?;
    page.extend_from_slice(b"</dl>\n")
}

/// Adds what is payable, or owed.
fn add_due(
    alloc: Global,
    page: &mut Vec<u8>,
    distribution: &Distribution<'_>,
    portions: &[Portion<'_>],
) -> Result<(), AllocError>
    requires decimals { distribution.now.decimals ≤ MOST_DECIMALS }
    requires few { length portions.now ≤ MOST_LINES }
    requires small { All (λ portion. unsigned_abs portion.amount ≤ MOST_AMOUNT) portions.now }
    ensures { OnOk result (page.new.items
        ≡ page.old.items ++ due_text (distribution_shown distribution.now) (portions_shown portions.now)) }
{
    let total = i128::from(sum_of(portions));
    page.extend_from_slice(b"<div class=\"due\">")?;
    let decimals = distribution.decimals;
    begin_figure(
        alloc,
        page,
        decimals,
        due_label(total < 0),
        total,
        distribution.currency,
    )?;
    add(
        alloc,
        page,
        0,
        &[
            Piece::Tag("portions: "),
            Piece::Count(portions.len() as u64),
            Piece::Tag(", works: "),
            Piece::Count(count_of_sections(portions)),
        ],
    )?;
    end_figure(page)?;
    page.extend_from_slice(debt_note(total < 0).as_bytes())
}

/// What stands behind the total: a debt is explained.
fn debt_note(is_negative: bool) -> &'static str
    ensures { result.now ≡ debt_text is_negative }
{
    if is_negative { DEBT } else { "</div>\n" }
}

/// What a total below 0 means.
const DEBT: &str = "\
    </div>\n<p class=\"lead\">Reversals come to more than the other uses, so nothing is payable: you owe this amount.\
    </p>\n";

/// What the total is called.
pub(crate) fn due_label(is_negative: bool) -> &'static str
    ensures { result.now ≡ due_label_text is_negative }
{
    if is_negative {
        "Balance owed by you"
    } else {
        "Total payable"
    }
}

/// Adds what reversals come to, where there are some.
fn add_lead(
    alloc: Global,
    page: &mut Vec<u8>,
    decimals: u32,
    portions: &[Portion<'_>],
) -> Result<(), AllocError>
    requires decimals { decimals ≤ MOST_DECIMALS }
    requires few { length portions.now ≤ MOST_LINES }
    requires small { All (λ portion. unsigned_abs portion.amount ≤ MOST_AMOUNT) portions.now }
    ensures { OnOk result (page.new.items ≡ page.old.items ++ lead_text decimals (portions_shown portions.now)) }
{
    let count = count_of_reversals(portions);
    if count == 0 {
        return Ok(());
    }
    add(
        alloc,
        page,
        decimals,
        &[
            Piece::Tag("<p class=\"lead\">This includes <b class=\"neg\">"),
            Piece::Amount(i128::from(sum_of_reversals(portions))),
            Piece::Tag("</b> for reversals ("),
            Piece::Count(count),
            Piece::Tag("), marked <span class=\"back neg\">Reversal</span> below.</p>\n"),
        ],
    )
}
