//! A table with a bar in each row: what something is made of.

ghost use Rattle.std.specs.Prelude.{◌≡◌, ◌≤◌, ◌++◌, ◌^◌, ◌⊎◌, false, true, OnOk, unsigned_abs};
ghost use Rattle.page_parts.specs.Bars.{AreSmall, axis_text, bar_class_text, bar_text, bars_head, bars_text, figures_text};
ghost use Rattle.page_parts.specs.Bars.{label_text, others_shown, others_text, row_shown, row_text};
ghost use Rattle.page_parts.specs.Bars.{scale_for, start_at, sums_text, table_shown, widened as widened_by, width_in, zero_of};
ghost use Rattle.page_text.specs.declared.figures.TheConstants.{MOST_DECIMALS};

use crate::parts::part_of;
use crate::piece::{Piece, add};
use crate::tags::row_tag;
use std::alloc::{AllocError, Global};

/// A row of such a table.
#[derive(Clone, Copy, Debug)]
pub struct BarRow<'a> {
    /// What it is of.
    pub name: &'a [u8],
    /// A code that stands behind the name; none where it is empty.
    pub code: &'a [u8],
    /// The page that the name leads to, without its ending; none where it is empty.
    pub page: &'a [u8],
    /// How many portions there are.
    pub count: u64,
    /// What they come to, in minor units.
    pub amount: i128,
}

/// The rows that a table leaves out.
#[derive(Clone, Copy, Debug, PartialEq, Eq)]
pub struct Others {
    /// How many there are.
    pub rows: u64,
    /// How many portions they have.
    pub count: u64,
    /// What these come to, in minor units.
    pub amount: i128,
}

/// A table with bars.
#[derive(Clone, Copy, Debug)]
pub struct BarTable<'a> {
    /// What the table is of.
    pub caption: &'static str,
    /// What a row is of.
    pub head: &'static str,
    /// The rows that are shown.
    pub rows: &'a [BarRow<'a>],
    /// What the rows that are left out are called, behind their number.
    pub rest: &'static str,
    /// Those rows.
    pub others: Others,
    /// What the sum is called.
    pub total: &'static str,
    /// How many portions there are in all.
    pub count: u64,
    /// What all come to, in minor units.
    pub amount: i128,
}

/// How far bars reach below 0, and above it.
#[derive(Clone, Copy, Debug, PartialEq, Eq)]
struct Scale {
    below: u128,
    above: u128,
}

/// Adds a table with bars: a row for each that is shown, one for those that are left out, where there are some, and
/// the sum. A bar shows how large an amount is beside the others; one below 0 goes to the left.
pub fn add_bars(
    alloc: Global,
    page: &mut Vec<u8>,
    decimals: u32,
    table: &BarTable<'_>,
) -> Result<(), AllocError>
    requires decimals { decimals ≤ MOST_DECIMALS }
    requires small { AreSmall (table_shown table.now) }
    ensures { OnOk result (page.new.items ≡ page.old.items ++ bars_text decimals (table_shown table.now)) }
{
    add_head(alloc, page, table)?;
    let scale = scale_of(table);
    for place in 0..table.rows.len() {
        add_row(alloc, page, decimals, scale, &table.rows[place])?;
    }
    if table.others.rows > 0 {
        add_others(alloc, page, decimals, scale, table.rest, table.others)?;
    }
    add_sums(alloc, page, decimals, table)
}

/// Adds the head of a table.
fn add_head(alloc: Global, page: &mut Vec<u8>, table: &BarTable<'_>) -> Result<(), AllocError>
    ensures { OnOk result (page.new.items ≡ page.old.items ++ bars_head (table_shown table.now)) }
{
    add(
        alloc,
        page,
        0,
        &[
            Piece::Tag("<table class=\"bars\"><caption>"),
            Piece::Tag(table.caption),
            Piece::Tag("</caption><thead><tr><th scope=\"col\">"),
            Piece::Tag(table.head),
            Piece::Tag("</th><td></td><th scope=\"col\" class=\"n opt\">Portions</th>"),
            Piece::Tag("<th scope=\"col\" class=\"n\">Amount</th></tr></thead><tbody>\n"),
        ],
    )
}

/// The scale of a table's bars.
fn scale_of(table: &BarTable<'_>) -> Scale
    requires { AreSmall (table_shown table.now) }
    ensures is { result ≡ scale_for (table_shown table.now) }
    ensures below { result.below ≤ 2 ^ 100 }
    ensures above { result.above ≤ 2 ^ 100 }
{
    let none = Scale { below: 0, above: 0 };
    let mut scale = widened(none, table.others.amount);
    for place in 0..table.rows.len() {
        scale = widened(scale, table.rows[place].amount);
    }
    scale
}

/// A scale that has room for one more amount.
fn widened(scale: Scale, amount: i128) -> Scale
    ensures { result ≡ widened_by scale amount }
{
    if amount < 0 {
        Scale {
            below: scale.below.max(amount.unsigned_abs()),
            above: scale.above,
        }
    } else {
        Scale {
            below: scale.below,
            above: scale.above.max(amount.unsigned_abs()),
        }
    }
}

/// Adds a row.
fn add_row(
    alloc: Global,
    page: &mut Vec<u8>,
    decimals: u32,
    scale: Scale,
    row: &BarRow<'_>,
) -> Result<(), AllocError>
    requires decimals { decimals ≤ MOST_DECIMALS }
    requires below { scale.below ≤ 2 ^ 100 }
    requires above { scale.above ≤ 2 ^ 100 }
    requires within { (unsigned_abs row.now.amount ≤ scale.below) ⊎ (unsigned_abs row.now.amount ≤ scale.above) }
    ensures { OnOk result (page.new.items ≡ page.old.items ++ row_text decimals scale (row_shown row.now)) }
{
    add(
        alloc,
        page,
        decimals,
        &[
            Piece::Tag(row_tag(row.amount < 0)),
            Piece::Tag("<th scope=\"row\">"),
        ],
    )?;
    add_label(alloc, page, row)?;
    page.extend_from_slice(b"</th><td>")?;
    add_bar(alloc, page, scale, row.amount, false)?;
    add_figures(alloc, page, decimals, row.count, row.amount)
}

/// Adds what a row is of: its name, which leads to a page where it has one, and its code.
fn add_label(alloc: Global, page: &mut Vec<u8>, row: &BarRow<'_>) -> Result<(), AllocError>
    ensures { OnOk result (page.new.items ≡ page.old.items ++ label_text (row_shown row.now)) }
{
    if row.page.is_empty() {
        add(alloc, page, 0, &[Piece::Text(row.name)])?;
    } else {
        add(
            alloc,
            page,
            0,
            &[
                Piece::Tag("<a href=\"payees/"),
                Piece::Text(row.page),
                Piece::Tag(".html\">"),
                Piece::Text(row.name),
                Piece::Tag("</a>"),
            ],
        )?;
    }
    if row.code.is_empty() {
        return Ok(());
    }
    add(
        alloc,
        page,
        0,
        &[
            Piece::Tag(" <span class=\"code\">"),
            Piece::Text(row.code),
            Piece::Tag("</span>"),
        ],
    )
}

/// Adds the row of those that are left out.
fn add_others(
    alloc: Global,
    page: &mut Vec<u8>,
    decimals: u32,
    scale: Scale,
    rest: &'static str,
    others: Others,
) -> Result<(), AllocError>
    requires decimals { decimals ≤ MOST_DECIMALS }
    requires below { scale.below ≤ 2 ^ 100 }
    requires above { scale.above ≤ 2 ^ 100 }
    requires within { (unsigned_abs others.amount ≤ scale.below) ⊎ (unsigned_abs others.amount ≤ scale.above) }
    ensures { OnOk result (page.new.items ≡ page.old.items ++ others_text decimals scale rest.entry.now
        (others_shown others)) }
{
    add(
        alloc,
        page,
        decimals,
        &[
            Piece::Tag(row_tag(others.amount < 0)),
            Piece::Tag("<th scope=\"row\"><small>"),
            Piece::Count(others.rows),
            Piece::Tag(" "),
            Piece::Tag(rest),
            Piece::Tag("</small></th><td>"),
        ],
    )?;
    add_bar(alloc, page, scale, others.amount, true)?;
    add_figures(alloc, page, decimals, others.count, others.amount)
}

/// Adds a count and an amount, and ends their row.
fn add_figures(
    alloc: Global,
    page: &mut Vec<u8>,
    decimals: u32,
    count: u64,
    amount: i128,
) -> Result<(), AllocError>
    requires { decimals ≤ MOST_DECIMALS }
    ensures { OnOk result (page.new.items ≡ page.old.items ++ figures_text decimals count amount) }
{
    add(
        alloc,
        page,
        decimals,
        &[
            Piece::Tag("</td><td class=\"n opt\">"),
            Piece::Count(count),
            Piece::Tag("</td><td class=\"n\">"),
            Piece::Amount(amount),
            Piece::Tag("</td></tr>\n"),
        ],
    )
}

/// Adds a bar. It stands beside its amount, so that nobody has to read it.
fn add_bar(
    alloc: Global,
    page: &mut Vec<u8>,
    scale: Scale,
    amount: i128,
    is_rest: bool,
) -> Result<(), AllocError>
    requires below { scale.below ≤ 2 ^ 100 }
    requires above { scale.above ≤ 2 ^ 100 }
    requires within { (unsigned_abs amount ≤ scale.below) ⊎ (unsigned_abs amount ≤ scale.above) }
    ensures { OnOk result (page.new.items ≡ page.old.items ++ bar_text scale is_rest amount) }
{
    let zero = zero_at(scale);
    let width = width_of(scale, amount.unsigned_abs());
    let start = start_of(zero, width, amount < 0);
    add(
        alloc,
        page,
        0,
        &[
            Piece::Tag(
                "<svg class=\"bar\" viewBox=\"0 0 1000 1\" preserveAspectRatio=\"none\" aria-hidden=\"true\"><rect",
            ),
            Piece::Tag(bar_class(is_rest, amount < 0)),
            Piece::Tag(" x=\""),
            Piece::Number(start),
            Piece::Tag("\" width=\""),
            Piece::Number(width),
            Piece::Tag("\" height=\"1\"/>"),
        ],
    )?;
    add_axis(alloc, page, scale, zero)?;
    page.extend_from_slice(b"</svg>")
}

/// Where a bar begins: one below 0 goes to the left, and none leaves the picture.
fn start_of(zero: u64, width: u64, is_negative: bool) -> u64
    ensures { result ≡ start_at zero width is_negative }
{
    if is_negative {
        zero.saturating_sub(width)
    } else {
        zero.min(1000_u64.saturating_sub(width))
    }
}

/// What a bar looks like.
fn bar_class(is_rest: bool, is_negative: bool) -> &'static str
    ensures { result.now ≡ bar_class_text is_rest is_negative }
{
    if is_rest {
        " class=\"rest\""
    } else if is_negative {
        " class=\"minus\""
    } else {
        ""
    }
}

/// Adds the line at 0, where a bar goes to the left of it. The line is 3 wide, and does not leave the picture.
fn add_axis(alloc: Global, page: &mut Vec<u8>, scale: Scale, zero: u64) -> Result<(), AllocError>
    ensures { OnOk result (page.new.items ≡ page.old.items ++ axis_text scale.below zero) }
{
    if scale.below == 0 {
        return Ok(());
    }
    add(
        alloc,
        page,
        0,
        &[
            Piece::Tag("<rect class=\"axis\" x=\""),
            Piece::Number(zero.min(997)),
            Piece::Tag("\" width=\"3\" height=\"1\"/>"),
        ],
    )
}

/// Where 0 is, in thousandths of the scale.
fn zero_at(scale: Scale) -> u64
    requires below { scale.below ≤ 2 ^ 100 }
    requires above { scale.above ≤ 2 ^ 100 }
    ensures { result ≡ zero_of scale }
{
    let span = scale.below + scale.above;
    if span == 0 {
        return 0;
    }
    part_of(scale.below, span)
}

/// How wide a bar is, in thousandths of the scale: one that is not 0 can be seen.
fn width_of(scale: Scale, size: u128) -> u64
    requires below { scale.below ≤ 2 ^ 100 }
    requires above { scale.above ≤ 2 ^ 100 }
    requires within { (size ≤ scale.below) ⊎ (size ≤ scale.above) }
    ensures { result ≡ width_in scale size }
{
    if size == 0 {
        return 0;
    }
    part_of(size, scale.below + scale.above).max(3)
}

/// Adds what all rows come to, and ends the table.
fn add_sums(
    alloc: Global,
    page: &mut Vec<u8>,
    decimals: u32,
    table: &BarTable<'_>,
) -> Result<(), AllocError>
    requires { decimals ≤ MOST_DECIMALS }
    ensures { OnOk result (page.new.items ≡ page.old.items ++ sums_text decimals (table_shown table.now)) }
{
    add(
        alloc,
        page,
        decimals,
        &[
            Piece::Tag("</tbody><tfoot>"),
            Piece::Tag(row_tag(table.amount < 0)),
            Piece::Tag("<th scope=\"row\" colspan=\"2\">"),
            Piece::Tag(table.total),
            Piece::Tag("</th><td class=\"n opt\">"),
            Piece::Count(table.count),
            Piece::Tag("</td><td class=\"n\">"),
            Piece::Amount(table.amount),
            Piece::Tag("</td></tr></tfoot></table>\n"),
        ],
    )
}
