//! The table of a payee's portions in its page: work by work, and the uses of each.

ghost use Rattle.std.specs.Prelude.{◌≡◌, ◌≤◌, ◌++◌, All, OnOk, length, unsigned_abs};
ghost use Rattle.line_split.specs.declared.TheConstants.{MOST_AMOUNT, MOST_LINES};
ghost use Rattle.page_text.specs.declared.figures.TheConstants.{MOST_DECIMALS};
ghost use Rattle.payee_documents.specs.Uses.{figures_text, section_text, share_text, total_text, use_text};
ghost use Rattle.payee_documents.specs.Uses.{uses_head, uses_text, work_text};
ghost use Rattle.payee_portions.specs.Shown.{portion_shown, portions_shown};

use document_names::TerritoryNames;
use line_split::FULL_SHARE;
use page_parts::{Piece, WorkRow, add, add_line_cells, add_work_row, work_tag};
use payee_portions::{Portion, count_of_sections, end_of_section, sum_of};
use std::alloc::{AllocError, Global};

/// How many columns stand before that of the portion.
const COLUMNS: u64 = 6;

/// Adds the table of portions: for each work its title and what they come to, and then a row for each portion; at its
/// end what all come to.
pub fn add_uses(
    alloc: Global,
    page: &mut Vec<u8>,
    names: &TerritoryNames,
    decimals: u32,
    portions: &[Portion<'_>],
) -> Result<(), AllocError>
    requires decimals { decimals ≤ MOST_DECIMALS }
    requires few { length portions.now ≤ MOST_LINES }
    requires small { All (λ portion. unsigned_abs portion.amount ≤ MOST_AMOUNT) portions.now }
    ensures { OnOk result (page.new.items
        ≡ page.old.items ++ uses_text names.now decimals (portions_shown portions.now)) }
{
    add_head(alloc, page, portions)?;
    let mut from = 0;
    while from < portions.len() {
        let end = end_of_section(portions, from);
        add_section(alloc, page, names, decimals, &portions[from..end])?;
        from = end;
    }
    add_total(alloc, page, decimals, portions)
}

/// Adds the head of the table.
fn add_head(alloc: Global, page: &mut Vec<u8>, portions: &[Portion<'_>]) -> Result<(), AllocError>
    ensures { OnOk result (page.new.items ≡ page.old.items ++ uses_head (portions_shown portions.now)) }
{
    add(
        alloc,
        page,
        0,
        &[
            Piece::Tag("<table class=\"uses\" translate=\"no\"><caption>Works by title: "),
            Piece::Count(count_of_sections(portions)),
            Piece::Tag(
                "</caption>\n<thead><tr><th scope=\"col\">Row</th><th scope=\"col\">Use</th>",
            ),
            Piece::Tag("<th scope=\"col\">Territory</th><th scope=\"col\">Right</th>"),
            Piece::Tag(
                "<th scope=\"col\">Amount of the use</th><th scope=\"col\">Your share,&#160;%</th>",
            ),
            Piece::Tag("<th scope=\"col\">Your portion</th></tr></thead>\n"),
        ],
    )
}

/// Adds the portions of a work.
fn add_section(
    alloc: Global,
    page: &mut Vec<u8>,
    names: &TerritoryNames,
    decimals: u32,
    section: &[Portion<'_>],
) -> Result<(), AllocError>
    requires decimals { decimals ≤ MOST_DECIMALS }
    requires few { length section.now ≤ MOST_LINES }
    requires small { All (λ portion. unsigned_abs portion.amount ≤ MOST_AMOUNT) section.now }
    ensures { OnOk result (page.new.items
        ≡ page.old.items ++ section_text names.now decimals (portions_shown section.now)) }
{
    add_work(alloc, page, decimals, section)?;
    for place in 0..section.len() {
        add_use(alloc, page, names, decimals, &section[place])?;
    }
    page.extend_from_slice(b"</tbody>\n")
}

/// Adds the row of a work: its title, and what its portions come to.
fn add_work(
    alloc: Global,
    page: &mut Vec<u8>,
    decimals: u32,
    section: &[Portion<'_>],
) -> Result<(), AllocError>
    requires decimals { decimals ≤ MOST_DECIMALS }
    requires few { length section.now ≤ MOST_LINES }
    requires small { All (λ portion. unsigned_abs portion.amount ≤ MOST_AMOUNT) section.now }
    ensures { OnOk result (page.new.items
        ≡ page.old.items ++ work_text decimals (portions_shown section.now)) }
{
    let Some((first, _)) = section.split_first() else {
        return Ok(());
    };
    let row = WorkRow {
        title: first.title,
        work: first.line.work,
        uses: section.len(),
        amount: i128::from(sum_of(section)),
    };
    add_work_row(alloc, page, decimals, COLUMNS, &row)
}

/// Adds the row of a portion.
fn add_use(
    alloc: Global,
    page: &mut Vec<u8>,
    names: &TerritoryNames,
    decimals: u32,
    portion: &Portion<'_>,
) -> Result<(), AllocError>
    requires { decimals ≤ MOST_DECIMALS }
    ensures { OnOk result (page.new.items
        ≡ page.old.items ++ use_text names.now decimals (portion_shown portion.now)) }
{
    let land = names.name_of(portion.line.territory);
    add_line_cells(alloc, page, land, portion.row, &portion.line)?;
    add_figures(alloc, page, decimals, portion)
}

/// Adds the amount of the use, what the payee claims of it, and the portion, and ends their row.
fn add_figures(
    alloc: Global,
    page: &mut Vec<u8>,
    decimals: u32,
    portion: &Portion<'_>,
) -> Result<(), AllocError>
    requires { decimals ≤ MOST_DECIMALS }
    ensures { OnOk result (page.new.items
        ≡ page.old.items ++ figures_text decimals (portion_shown portion.now)) }
{
    add(
        alloc,
        page,
        decimals,
        &[
            Piece::Tag("<td>"),
            Piece::Amount(i128::from(portion.line.amount)),
            Piece::Tag("</td><td>"),
        ],
    )?;
    add_share(alloc, page, portion.share, portion.base)?;
    add(
        alloc,
        page,
        decimals,
        &[
            Piece::Tag("</td><td>"),
            Piece::Amount(i128::from(portion.amount)),
            Piece::Tag("</td></tr>\n"),
        ],
    )
}

/// Adds a share in per cent, and what it is a share of, where that is not 100 per cent.
fn add_share(alloc: Global, page: &mut Vec<u8>, share: u32, base: u32) -> Result<(), AllocError>
    ensures { OnOk result (page.new.items ≡ page.old.items ++ share_text share base) }
{
    add(alloc, page, 0, &[Piece::Share(share)])?;
    if base == FULL_SHARE {
        return Ok(());
    }
    add(alloc, page, 0, &[Piece::Tag(" / "), Piece::Share(base)])
}

/// Adds the row of the total, and ends the table.
fn add_total(
    alloc: Global,
    page: &mut Vec<u8>,
    decimals: u32,
    portions: &[Portion<'_>],
) -> Result<(), AllocError>
    requires decimals { decimals ≤ MOST_DECIMALS }
    requires few { length portions.now ≤ MOST_LINES }
    requires small { All (λ portion. unsigned_abs portion.amount ≤ MOST_AMOUNT) portions.now }
    ensures { OnOk result (page.new.items
        ≡ page.old.items ++ total_text decimals (portions_shown portions.now)) }
{
    let total = sum_of(portions);
    add(
        alloc,
        page,
        decimals,
        &[
            Piece::Tag("<tfoot>"),
            Piece::Tag(work_tag(total < 0)),
            Piece::Tag("<th scope=\"row\" colspan=\"6\">Total</th><td>"),
            Piece::Amount(i128::from(total)),
            Piece::Tag("</td></tr></tfoot>\n</table>\n"),
        ],
    )
}
