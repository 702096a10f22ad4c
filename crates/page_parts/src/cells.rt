//! The cells that a usage line has in tables of uses, and the row of a work above its uses.

ghost use Rattle.std.specs.Prelude.{◌≡◌, ◌≤◌, ◌++◌, OnOk};
ghost use Rattle.line_split.specs.UsageLine.{usage_line_of};
ghost use Rattle.page_parts.specs.Cells.{body_tag_text, land_text, line_cells_text, reversal_mark_text};
ghost use Rattle.page_parts.specs.Cells.{right_name as name_of_right, work_row_text, work_text};
ghost use Rattle.page_text.specs.declared.figures.TheConstants.{MOST_DECIMALS};

use crate::piece::{Piece, add};
use crate::tags::{row_tag, work_tag};
use line_split::{Line, Right};
use std::alloc::{AllocError, Global};

/// The most uses of a work that a printed page keeps together.
const MOST_KEPT_TOGETHER: usize = 6;

/// A work in a table of uses: its title, what usage lines call it, how many uses follow, and what they come to.
#[derive(Clone, Copy, Debug)]
pub struct WorkRow<'a> {
    /// The title; none where it is empty.
    pub title: &'a [u8],
    /// What usage lines call the work.
    pub work: &'a [u8],
    /// How many uses follow.
    pub uses: usize,
    /// What they come to, in minor units.
    pub amount: i128,
}

/// Begins the uses of a work, with its row. It is as wide as the columns before the last, of which there are `columns`.
pub fn add_work_row(
    alloc: Global,
    page: &mut Vec<u8>,
    decimals: u32,
    columns: u64,
    row: &WorkRow<'_>,
) -> Result<(), AllocError>
    requires { decimals ≤ MOST_DECIMALS }
    ensures { OnOk result (page.new.items ≡ page.old.items
        ++ work_row_text decimals columns row.now.title.now row.now.work.now row.now.uses row.now.amount) }
{
    add(
        alloc,
        page,
        0,
        &[
            Piece::Tag(body_tag(row.uses)),
            Piece::Tag(work_tag(row.amount < 0)),
            Piece::Tag("<th scope=\"rowgroup\" colspan=\""),
            Piece::Number(columns),
            Piece::Tag("\">"),
        ],
    )?;
    add_work(alloc, page, row.title, row.work)?;
    add(
        alloc,
        page,
        decimals,
        &[
            Piece::Tag("</th><td>"),
            Piece::Amount(row.amount),
            Piece::Tag("</td></tr>\n"),
        ],
    )
}

/// The tag that begins the uses of a work: a few of them stay on one printed page.
fn body_tag(uses: usize) -> &'static str
    ensures { result.now ≡ body_tag_text uses }
{
    if uses <= MOST_KEPT_TOGETHER {
        "<tbody class=\"short\">"
    } else {
        "<tbody>"
    }
}

/// Adds a work by its title and what usage lines call it, or by that alone.
fn add_work<'a>(
    alloc: Global,
    page: &mut Vec<u8>,
    title: &'a [u8],
    work: &'a [u8],
) -> Result<(), AllocError>
    ensures { OnOk result (page.new.items ≡ page.old.items ++ work_text title.entry.now work.entry.now) }
{
    if title.is_empty() {
        return add(
            alloc,
            page,
            0,
            &[Piece::Tag("<b>"), Piece::Text(work), Piece::Tag("</b>")],
        );
    }
    add(
        alloc,
        page,
        0,
        &[
            Piece::Tag("<b>"),
            Piece::Text(title),
            Piece::Tag("</b> <span class=\"code\">"),
            Piece::Text(work),
            Piece::Tag("</span>"),
        ],
    )
}

/// Begins the row of a usage line, with the cells that each table of uses has: its row of the usage list, the use, the
/// territory, by its name and its code, and the right. A territory may have no name, and is then empty.
pub fn add_line_cells(
    alloc: Global,
    page: &mut Vec<u8>,
    land: &[u8],
    row: u64,
    line: &Line<'_>,
) -> Result<(), AllocError>
    ensures { OnOk result (page.new.items
        ≡ page.old.items ++ line_cells_text land.now row (usage_line_of line.now)) }
{
    let is_reversal = line.amount < 0;
    add(
        alloc,
        page,
        0,
        &[
            Piece::Tag(row_tag(is_reversal)),
            Piece::Tag("<td>"),
            Piece::Number(row),
            Piece::Tag("</td><th scope=\"row\">"),
            Piece::Text(line.usage),
            Piece::Tag(reversal_mark(is_reversal)),
            Piece::Tag("</th><td>"),
        ],
    )?;
    add_land(alloc, page, land, line.territory)?;
    page.extend_from_slice(b"</td><td>")?;
    page.extend_from_slice(right_name(line.right).as_bytes())?;
    page.extend_from_slice(b"</td>")
}

/// The word behind a use that is a reversal.
fn reversal_mark(is_reversal: bool) -> &'static str
    ensures { result.now ≡ reversal_mark_text is_reversal }
{
    if is_reversal {
        "<span class=\"back\">Reversal</span>"
    } else {
        ""
    }
}

/// Adds a territory by its name and its code, or by its code alone.
fn add_land(alloc: Global, page: &mut Vec<u8>, name: &[u8], code: u16) -> Result<(), AllocError>
    ensures { OnOk result (page.new.items ≡ page.old.items ++ land_text name.now code) }
{
    if name.is_empty() {
        return add(alloc, page, 0, &[Piece::Number(u64::from(code))]);
    }
    add(
        alloc,
        page,
        0,
        &[
            Piece::Text(name),
            Piece::Tag(" <span class=\"code\">"),
            Piece::Number(u64::from(code)),
            Piece::Tag("</span>"),
        ],
    )
}

/// The name of a right.
pub fn right_name(right: Right) -> &'static str
    ensures { result.now ≡ name_of_right right }
{
    match right {
        Right::P => "Performing",
        Right::M => "Mechanical",
        Right::S => "Synchronisation",
    }
}
