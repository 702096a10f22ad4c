//! The table of the lines that are held back for a reason: work by work, those with most money first.

ghost use Rattle.std.specs.Prelude.{◌≡◌, ◌≤◌, ◌++◌, All, OnOk, length, unsigned_abs};
ghost use Rattle.line_split.specs.declared.TheConstants.{MOST_AMOUNT, MOST_LINES};
ghost use Rattle.page_text.specs.declared.figures.TheConstants.{MOST_DECIMALS};
ghost use Rattle.payee_portions.specs.Money.{IsSection, section_shown};
ghost use Rattle.payee_portions.specs.Shown.{portion_shown, portions_shown};
ghost use Rattle.residue_documents.specs.Tables.{HasTable, columns_of, figures_text, head_text, line_text};
ghost use Rattle.residue_documents.specs.Tables.{open_heads_text};
ghost use Rattle.residue_documents.specs.Tables.{section_text, table_tag_text, total_text, work_text};

use document_names::TerritoryNames;
use line_split::Reason;
use page_parts::{Piece, WorkRow, add, add_line_cells, add_work_row, work_tag};
use payee_portions::{Portion, Section, count_of_sections, sections_by_money, sum_of};
use std::alloc::{AllocError, Global};

/// Adds the table of the lines that are held back for a reason.
pub(crate) fn add_table(
    alloc: Global,
    page: &mut Vec<u8>,
    names: &TerritoryNames,
    decimals: u32,
    reason: Reason,
    list: &[Portion<'_>],
) -> Result<(), AllocError>
    requires decimals { decimals ≤ MOST_DECIMALS }
    requires few { length list.now ≤ MOST_LINES }
    requires small { All (λ portion. unsigned_abs portion.amount ≤ MOST_AMOUNT) list.now }
    ensures { OnOk result (HasTable names.now decimals reason (portions_shown list.now) page.old.items page.new.items) }
{
    add_head(alloc, page, reason, list)?;
    let sections = sections_by_money(alloc, list)?;
    for place in 0..sections.len() {
        add_section(alloc, page, names, decimals, reason, &sections[place])?;
    }
    add_total(alloc, page, decimals, reason, list)
}

/// Adds the head of the table.
fn add_head(
    alloc: Global,
    page: &mut Vec<u8>,
    reason: Reason,
    list: &[Portion<'_>],
) -> Result<(), AllocError>
    ensures { OnOk result (page.new.items ≡ page.old.items ++ head_text reason (portions_shown list.now)) }
{
    add(
        alloc,
        page,
        0,
        &[
            Piece::Tag(table_tag(reason)),
            Piece::Tag("<caption>Works with most money first: "),
            Piece::Count(count_of_sections(list)),
            Piece::Tag(
                "</caption>\n<thead><tr><th scope=\"col\">Row</th><th scope=\"col\">Use</th>",
            ),
            Piece::Tag("<th scope=\"col\">Territory</th><th scope=\"col\">Right</th>"),
        ],
    )?;
    page.extend_from_slice(open_heads(reason).as_bytes())?;
    page.extend_from_slice(b"<th scope=\"col\">Held back</th></tr></thead>\n")
}

/// The tag that begins the table. Territories that are unknown have no names.
fn table_tag(reason: Reason) -> &'static str
    ensures { result.now ≡ table_tag_text reason }
{
    match reason {
        Reason::Land => "<table class=\"uses codes\" translate=\"no\">",
        _ => "<table class=\"uses\" translate=\"no\">",
    }
}

/// The heads of the columns that only lines with an unclaimed share have.
fn open_heads(reason: Reason) -> &'static str
    ensures { result.now ≡ open_heads_text reason }
{
    match reason {
        Reason::Open => {
            "<th scope=\"col\">Amount of the use</th><th scope=\"col\">Unclaimed,&#160;%</th>"
        }
        _ => "",
    }
}

/// How many columns stand before that of what is held back.
fn columns(reason: Reason) -> u64
    ensures { result ≡ columns_of reason }
{
    match reason {
        Reason::Open => 6,
        _ => 4,
    }
}

/// Adds the lines of a work.
fn add_section(
    alloc: Global,
    page: &mut Vec<u8>,
    names: &TerritoryNames,
    decimals: u32,
    reason: Reason,
    section: &Section<'_>,
) -> Result<(), AllocError>
    requires decimals { decimals ≤ MOST_DECIMALS }
    requires sound { IsSection section.now }
    ensures { OnOk result (page.new.items
        ≡ page.old.items ++ section_text names.now decimals reason (section_shown section.now)) }
{
    add_work(alloc, page, decimals, reason, section)?;
    for place in 0..section.portions.len() {
        add_line(
            alloc,
            page,
            names,
            decimals,
            reason,
            &section.portions[place],
        )?;
    }
    page.extend_from_slice(b"</tbody>\n")
}

/// Adds the row of a work: its title, and what is held back of it.
fn add_work(
    alloc: Global,
    page: &mut Vec<u8>,
    decimals: u32,
    reason: Reason,
    section: &Section<'_>,
) -> Result<(), AllocError>
    requires decimals { decimals ≤ MOST_DECIMALS }
    requires sound { IsSection section.now }
    ensures { OnOk result (page.new.items ≡ page.old.items ++ work_text decimals reason (section_shown section.now)) }
{
    let Some((first, _)) = section.portions.split_first() else {
        return Ok(());
    };
    let row = WorkRow {
        title: first.title,
        work: first.line.work,
        uses: section.portions.len(),
        amount: i128::from(section.sum),
    };
    add_work_row(alloc, page, decimals, columns(reason), &row)
}

/// Adds the row of a line.
fn add_line(
    alloc: Global,
    page: &mut Vec<u8>,
    names: &TerritoryNames,
    decimals: u32,
    reason: Reason,
    portion: &Portion<'_>,
) -> Result<(), AllocError>
    requires { decimals ≤ MOST_DECIMALS }
    ensures { OnOk result (page.new.items
        ≡ page.old.items ++ line_text names.now decimals reason (portion_shown portion.now)) }
{
    let land = names.name_of(portion.line.territory);
    add_line_cells(alloc, page, land, portion.row, &portion.line)?;
    add_figures(alloc, page, decimals, reason, portion)
}

/// Adds what is held back of a line, and before it, where nobody claims a share, the amount of the use and that share.
fn add_figures(
    alloc: Global,
    page: &mut Vec<u8>,
    decimals: u32,
    reason: Reason,
    portion: &Portion<'_>,
) -> Result<(), AllocError>
    requires { decimals ≤ MOST_DECIMALS }
    ensures { OnOk result (page.new.items
        ≡ page.old.items ++ figures_text decimals reason (portion_shown portion.now)) }
{
    if let Reason::Open = reason {
        add(
            alloc,
            page,
            decimals,
            &[
                Piece::Tag("<td>"),
                Piece::Amount(i128::from(portion.line.amount)),
                Piece::Tag("</td><td>"),
                Piece::Share(portion.share),
                Piece::Tag("</td>"),
            ],
        )?;
    }
    add(
        alloc,
        page,
        decimals,
        &[
            Piece::Tag("<td>"),
            Piece::Amount(i128::from(portion.amount)),
            Piece::Tag("</td></tr>\n"),
        ],
    )
}

/// Adds the row of the total, and ends the table.
fn add_total(
    alloc: Global,
    page: &mut Vec<u8>,
    decimals: u32,
    reason: Reason,
    list: &[Portion<'_>],
) -> Result<(), AllocError>
    requires decimals { decimals ≤ MOST_DECIMALS }
    requires few { length list.now ≤ MOST_LINES }
    requires small { All (λ portion. unsigned_abs portion.amount ≤ MOST_AMOUNT) list.now }
    ensures { OnOk result (page.new.items
        ≡ page.old.items ++ total_text decimals reason (portions_shown list.now)) }
{
    let sum = sum_of(list);
    add(
        alloc,
        page,
        decimals,
        &[
            Piece::Tag("<tfoot>"),
            Piece::Tag(work_tag(sum < 0)),
            Piece::Tag("<th scope=\"row\" colspan=\""),
            Piece::Number(columns(reason)),
            Piece::Tag("\">Held back</th><td>"),
            Piece::Amount(i128::from(sum)),
            Piece::Tag("</td></tr></tfoot>\n</table>\n"),
        ],
    )
}
