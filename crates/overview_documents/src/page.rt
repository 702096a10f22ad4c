//! The page of the overview.

ghost use Rattle.std.specs.Prelude.{◌≡◌, ◌≤◌, IfOk};
ghost use Rattle.overview_documents.specs.Overviews.{CanBeShown, overview_shown};
ghost use Rattle.overview_documents.specs.Page.{IsOverviewPage};
ghost use Rattle.page_parts.specs.Facts.{distribution_shown};
ghost use Rattle.page_text.specs.declared.figures.TheConstants.{MOST_DECIMALS};

use crate::balance::add_balance;
use crate::heads::add_heads;
use crate::lines::LineSum;
use crate::payees::{PayeeLine, add_largest, add_payees};
use page_parts::{Distribution, begin_page, end_page};
use residue_documents::{ReasonSums, add_reasons};
use std::alloc::{AllocError, Global};

/// What an overview is made of.
#[derive(Clone, Copy, Debug)]
pub struct Overview<'a> {
    /// All usage lines.
    pub lines: LineSum,
    /// Those that are reversals.
    pub reversals: LineSum,
    /// Those for performing rights.
    pub performing: LineSum,
    /// Those for mechanical rights.
    pub mechanical: LineSum,
    /// Those for synchronisation.
    pub synchronisation: LineSum,
    /// The payees that have portions, in the order of their accounts.
    pub payees: &'a [PayeeLine<'a>],
    /// What is held back, by reason.
    pub residue: ReasonSums,
}

/// The overview of a distribution.
pub fn page_of(
    alloc: Global,
    distribution: &Distribution<'_>,
    overview: &Overview<'_>,
) -> Result<Vec<u8>, AllocError>
    requires decimals { distribution.now.decimals ≤ MOST_DECIMALS }
    requires few { CanBeShown overview.now }
    ensures { IfOk result (λ text. IsOverviewPage (distribution_shown distribution.now)
        (overview_shown overview.now) text.items) }
{
    let mut page = Vec::new(alloc);
    let decimals = distribution.decimals;
    begin_page(alloc, &mut page, "Overview", b"", distribution.title)?;
    let all = add_heads(alloc, &mut page, distribution, overview)?;
    add_balance(alloc, &mut page, decimals, overview)?;
    page.extend_from_slice(RESIDUE_HEAD.as_bytes())?;
    add_reasons(
        alloc,
        &mut page,
        decimals,
        "residue.html",
        &overview.residue,
    )?;
    page.extend_from_slice(b"</section>\n<section class=\"keep\"><h2>The largest payees</h2>")?;
    add_largest(alloc, &mut page, decimals, overview.payees, all)?;
    page.extend_from_slice(b"</section>\n<section><h2>All payees</h2>")?;
    add_payees(alloc, &mut page, decimals, overview.payees, all)?;
    page.extend_from_slice(b"</section>\n")?;
    end_page(alloc, &mut page, "Overview", b"", distribution.title)?;
    Ok(page)
}

/// What stands above the residue.
const RESIDUE_HEAD: &str = "\
    <section class=\"keep\"><h2>Unallocated</h2><p>Money that is held back until the cause is put right. <a \
    href=\"residue.html\">The residue page</a> names the works, and says what to do.</p>\n";
