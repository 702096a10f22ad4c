//! The page of the residue.

ghost use Rattle.std.specs.Prelude.{◌≡◌, ◌≤◌, ◌++◌, IfOk, OnOk};
ghost use Rattle.page_parts.specs.Facts.{distribution_shown};
ghost use Rattle.page_text.specs.declared.figures.TheConstants.{MOST_DECIMALS};
ghost use Rattle.residue_documents.specs.Page.{AreFew, HasParts, IsResiduePage, later_text, page_head_text};
ghost use Rattle.residue_documents.specs.Page.{residue_shown, residue_sums};
ghost use Rattle.residue_documents.specs.Reasons.{CanBeAdded, sums_shown};

use crate::parts::add_part;
use crate::reasons::{ReasonSums, add_reasons, amount_of, lines_of};
use crate::sums::sum_of_reason;
use document_names::TerritoryNames;
use line_split::Reason;
use page_parts::{
    Distribution, Piece, add, add_fact, begin_figure, begin_page, end_figure, end_page,
};
use payee_portions::Portion;
use std::alloc::{AllocError, Global};

/// The portions of the residue, by reason, as `held_list` of `payee_portions` lists them.
#[derive(Clone, Copy, Debug)]
pub struct Residue<'a> {
    pub work: &'a [Portion<'a>],
    pub land: &'a [Portion<'a>],
    pub over: &'a [Portion<'a>],
    pub open: &'a [Portion<'a>],
}

/// What to do once the reason is corrected.
const LATER: &str = "\
    <section class=\"keep\"><h2>Paying it later</h2><div class=\"notes\">\n\
    <div><h3>Nothing is paid yet</h3><p>Correct the files, and run the whole list again.</p></div>\n\
    <div><h3>Payees have been paid</h3><p>A second run of the whole list would pay twice. Make a list of the lines \
    under WORK, LAND and OVER alone, whose whole amounts were held back, and run it over the corrected files. A line \
    under OPEN may have been paid in part: reverse it first, by a line with the opposite amount over the old files; \
    then run it over the new ones.</p></div>\n\
    <div><h3>Why is this line here?</h3><p><code>royalty_run explain</code> with the files of the run and <code>--row \
    N</code> shows the registration, each share line, and which of them decides. N is the number under Row.</p></div>\n\
    </div></section>\n";

/// The page of the residue: what is held back for each reason, and the lines, work by work, those with most money
/// first.
pub fn page_of(
    alloc: Global,
    distribution: &Distribution<'_>,
    names: &TerritoryNames,
    residue: &Residue<'_>,
) -> Result<Vec<u8>, AllocError>
    requires decimals { distribution.now.decimals ≤ MOST_DECIMALS }
    requires few { AreFew residue.now }
    ensures { IfOk result (λ text. IsResiduePage (distribution_shown distribution.now) names.now
        (residue_shown residue.now) text.items) }
{
    let mut page = Vec::new(alloc);
    begin_page(alloc, &mut page, "Residue", b"", distribution.title)?;
    add_page_head(alloc, &mut page, distribution, residue)?;
    add_parts(alloc, &mut page, names, distribution.decimals, residue)?;
    page.extend_from_slice(later(lines_of(&sums_of(residue))).as_bytes())?;
    end_page(alloc, &mut page, "Residue", b"", distribution.title)?;
    Ok(page)
}

/// What to do once the reason is corrected, where something is held back.
fn later(lines: u64) -> &'static str
    ensures { result.now ≡ later_text lines }
{
    if lines == 0 { "" } else { LATER }
}

/// Adds the head of the page, and what is held back for each reason.
fn add_page_head(
    alloc: Global,
    page: &mut Vec<u8>,
    distribution: &Distribution<'_>,
    residue: &Residue<'_>,
) -> Result<(), AllocError>
    requires decimals { distribution.now.decimals ≤ MOST_DECIMALS }
    requires few { AreFew residue.now }
    ensures { OnOk result (page.new.items
        ≡ page.old.items ++ page_head_text (distribution_shown distribution.now) (residue_shown residue.now)) }
{
    page.extend_from_slice(PAGE_HEAD.as_bytes())?;
    add_fact(alloc, page, "Distribution", distribution.title)?;
    add_fact(alloc, page, "Registrations", distribution.sources)?;
    page.extend_from_slice(b"</dl>\n<div class=\"due\">")?;
    let sums = sums_of(residue);
    let decimals = distribution.decimals;
    begin_figure(
        alloc,
        page,
        decimals,
        "Held back",
        amount_of(&sums),
        distribution.currency,
    )?;
    add(
        alloc,
        page,
        0,
        &[Piece::Tag("lines: "), Piece::Count(lines_of(&sums))],
    )?;
    end_figure(page)?;
    page.extend_from_slice(b"</div></header>\n<section class=\"keep\"><h2>By reason</h2>\n")?;
    add_reasons(alloc, page, decimals, "", &sums)?;
    page.extend_from_slice(b"</section>\n")
}

/// What stands at the head of the page.
const PAGE_HEAD: &str = "\
    <nav aria-label=\"Pages\"><a href=\"index.html\">Overview</a><b aria-current=\"page\">Residue</b></nav>\n\
    <main>\n<header><p class=\"kind\">Residue</p><h1>Unallocated money</h1>\n<p class=\"lead\">It is held back, each \
    line with a reason, until the cause is put right.</p>\n<dl class=\"facts\">";

/// Adds the sections of the reasons that lines have.
fn add_parts(
    alloc: Global,
    page: &mut Vec<u8>,
    names: &TerritoryNames,
    decimals: u32,
    residue: &Residue<'_>,
) -> Result<(), AllocError>
    requires decimals { decimals ≤ MOST_DECIMALS }
    requires few { AreFew residue.now }
    ensures { OnOk result (HasParts names.now decimals (residue_shown residue.now) page.old.items page.new.items) }
{
    add_part(alloc, page, names, decimals, Reason::Work, residue.work)?;
    add_part(alloc, page, names, decimals, Reason::Land, residue.land)?;
    add_part(alloc, page, names, decimals, Reason::Over, residue.over)?;
    add_part(alloc, page, names, decimals, Reason::Open, residue.open)
}

/// What is held back for each reason.
pub fn sums_of(residue: &Residue<'_>) -> ReasonSums
    requires { AreFew residue.now }
    ensures sums { sums_shown result ≡ residue_sums (residue_shown residue.now) }
    ensures few { CanBeAdded result }
{
    ReasonSums {
        work: sum_of_reason(residue.work),
        land: sum_of_reason(residue.land),
        over: sum_of_reason(residue.over),
        open: sum_of_reason(residue.open),
    }
}
