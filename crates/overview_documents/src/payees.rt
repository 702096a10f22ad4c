//! The payees of a distribution, and the groups of those that are paid and those that owe.

ghost use Rattle.std.specs.Prelude.{◌≡◌, ◌≤◌, ◌++◌, ◌^◌, All, IfOk, OnOk, length, map, unsigned_abs};
ghost use Rattle.overview_documents.specs.Payees.{AreFew, HasLargest, IsCountable, bar_row, code_in};
ghost use Rattle.overview_documents.specs.Payees.{group_of as group_in, group_shown, line_shown, lines_shown, name_in};
ghost use Rattle.overview_documents.specs.Payees.{payee_row_text, payees_head, payees_text, payees_total_text};
ghost use Rattle.page_parts.specs.Bars.{row_shown};
ghost use Rattle.page_text.specs.declared.figures.TheConstants.{MOST_DECIMALS};

use page_parts::{BarRow, BarTable, Piece, add, add_bars, row_tag, shorten};
use std::alloc::{AllocError, Global};

/// How many payees the table of the largest has.
const MOST_LARGEST: usize = 10;

/// A payee in the overview.
#[derive(Clone, Copy, Debug)]
pub struct PayeeLine<'a> {
    /// The number of the account.
    pub number: u64,
    /// The account.
    pub account: &'a [u8],
    /// The name; none where it is empty.
    pub name: &'a [u8],
    /// The name of its files, without their endings.
    pub file: &'a [u8],
    /// How many portions it has.
    pub count: u64,
    /// What they come to, in minor units.
    pub total: i64,
}

/// A group of payees: how many, how many portions they have, and what these come to, in minor units.
#[derive(Clone, Copy, Debug, PartialEq, Eq)]
pub(crate) struct Group {
    pub payees: u64,
    pub portions: u64,
    pub amount: i128,
}

/// Those of payees who owe, or those who do not.
pub(crate) fn group_of(payees: &[PayeeLine<'_>], is_owed: bool) -> Group
    requires { AreFew payees.now }
    ensures group { group_shown result ≡ group_in is_owed (lines_shown payees.now) }
    ensures small { IsCountable result }
{
    let mut group = Group {
        payees: 0,
        portions: 0,
        amount: 0,
    };
    for place in 0..payees.len() {
        if (payees[place].total < 0) == is_owed {
            group.payees += 1;
            group.portions += payees[place].count;
            group.amount += i128::from(payees[place].total);
        }
    }
    group
}

/// The name of a payee, or else its account.
fn name_of<'a>(payee: &PayeeLine<'a>) -> &'a [u8]
    ensures { result.now ≡ name_in (line_shown payee.now) }
{
    if payee.name.is_empty() {
        payee.account
    } else {
        payee.name
    }
}

/// The account of a payee that has a name.
fn code_of<'a>(payee: &PayeeLine<'a>) -> &'a [u8]
    ensures { result.now ≡ code_in (line_shown payee.now) }
{
    if payee.name.is_empty() {
        b""
    } else {
        payee.account
    }
}

/// Adds the table of the payees with the highest totals.
pub(crate) fn add_largest(
    alloc: Global,
    page: &mut Vec<u8>,
    decimals: u32,
    payees: &[PayeeLine<'_>],
    all: Group,
) -> Result<(), AllocError>
    requires decimals { decimals ≤ MOST_DECIMALS }
    requires few { AreFew payees.now }
    ensures { OnOk result (HasLargest decimals (lines_shown payees.now)
        (group_shown all) page.old.items page.new.items) }
{
    let mut rows = bar_rows(alloc, payees)?;
    let others = shorten(&mut rows, MOST_LARGEST);
    let table = BarTable {
        caption: "Payees with the highest totals",
        head: "Payee",
        rows: rows.as_slice(),
        rest: "other payees",
        others,
        total: "All payees",
        count: all.portions,
        amount: all.amount,
    };
    add_bars(alloc, page, decimals, &table)
}

/// Payees as rows of that table.
fn bar_rows<'a>(alloc: Global, payees: &[PayeeLine<'a>]) -> Result<Vec<BarRow<'a>>, AllocError>
    requires { AreFew payees.now }
    ensures rows { IfOk result (λ rows. map row_shown rows.items ≡ map bar_row (lines_shown payees.now)) }
    ensures counts { IfOk result (λ rows. All (λ row. row.count ≤ 2 ^ 32) rows.items) }
    ensures small { IfOk result (λ rows. All (λ row. unsigned_abs row.amount ≤ 2 ^ 64) rows.items) }
{
    let mut rows = Vec::new(alloc);
    for place in 0..payees.len() {
        rows.push(bar_row_of(&payees[place]))?;
    }
    Ok(rows)
}

/// A payee as a row of that table.
fn bar_row_of<'a>(payee: &PayeeLine<'a>) -> BarRow<'a>
    ensures row { row_shown result ≡ bar_row (line_shown payee.now) }
    ensures count { result.count ≡ payee.now.count }
    ensures small { unsigned_abs result.amount ≤ 2 ^ 64 }
{
    BarRow {
        name: name_of(payee),
        code: code_of(payee),
        page: payee.file,
        count: payee.count,
        amount: i128::from(payee.total),
    }
}

/// Adds the table of all payees, in the order of their accounts.
pub(crate) fn add_payees(
    alloc: Global,
    page: &mut Vec<u8>,
    decimals: u32,
    payees: &[PayeeLine<'_>],
    all: Group,
) -> Result<(), AllocError>
    requires decimals { decimals ≤ MOST_DECIMALS }
    ensures { OnOk result (page.new.items
        ≡ page.old.items ++ payees_text decimals (lines_shown payees.now) (group_shown all)) }
{
    add_head(alloc, page)?;
    for place in 0..payees.len() {
        add_payee(alloc, page, decimals, &payees[place])?;
    }
    add_total(alloc, page, decimals, all)
}

/// Adds the head of the table.
fn add_head(alloc: Global, page: &mut Vec<u8>) -> Result<(), AllocError>
    ensures { OnOk result (page.new.items ≡ page.old.items ++ payees_head) }
{
    add(
        alloc,
        page,
        0,
        &[
            Piece::Tag(
                "<table class=\"payees\"><caption>In the order of their accounts, as in the statements</caption>",
            ),
            Piece::Tag(
                "<thead><tr><th scope=\"col\" class=\"n opt\">No.</th><th scope=\"col\">Account</th>",
            ),
            Piece::Tag("<th scope=\"col\">Name</th><th scope=\"col\" class=\"n\">Portions</th>"),
            Piece::Tag(
                "<th scope=\"col\" class=\"n\">Total</th><th scope=\"col\" class=\"opt screen\">Rows</th>",
            ),
            Piece::Tag("</tr></thead><tbody>\n"),
        ],
    )
}

/// Adds the row of a payee.
fn add_payee(
    alloc: Global,
    page: &mut Vec<u8>,
    decimals: u32,
    payee: &PayeeLine<'_>,
) -> Result<(), AllocError>
    requires { decimals ≤ MOST_DECIMALS }
    ensures { OnOk result (page.new.items ≡ page.old.items ++ payee_row_text decimals (line_shown payee.now)) }
{
    let payee = *payee;
    add(
        alloc,
        page,
        decimals,
        &[
            Piece::Tag(row_tag(payee.total < 0)),
            Piece::Tag("<td class=\"n opt\">"),
            Piece::Number(payee.number),
            Piece::Tag("</td><th scope=\"row\"><a href=\"payees/"),
            Piece::Text(payee.file),
            Piece::Tag(".html\">"),
            Piece::Text(payee.account),
            Piece::Tag("</a></th><td>"),
            Piece::Text(payee.name),
            Piece::Tag("</td><td class=\"n\">"),
            Piece::Count(payee.count),
            Piece::Tag("</td><td class=\"n\">"),
            Piece::Amount(i128::from(payee.total)),
            Piece::Tag("</td><td class=\"opt screen\"><a href=\"payees/"),
            Piece::Text(payee.file),
            Piece::Tag(".csv\" aria-label=\"Rows of "),
            Piece::Text(payee.account),
            Piece::Tag(" as CSV\">CSV</a></td></tr>\n"),
        ],
    )
}

/// Adds what all payees have, and ends the table.
fn add_total(alloc: Global, page: &mut Vec<u8>, decimals: u32, all: Group) -> Result<(), AllocError>
    requires { decimals ≤ MOST_DECIMALS }
    ensures { OnOk result (page.new.items ≡ page.old.items ++ payees_total_text decimals (group_shown all)) }
{
    add(
        alloc,
        page,
        decimals,
        &[
            Piece::Tag("</tbody><tfoot>"),
            Piece::Tag(row_tag(all.amount < 0)),
            Piece::Tag("<td class=\"opt\"></td><th scope=\"row\">Payees: "),
            Piece::Count(all.payees),
            Piece::Tag("</th><td></td><td class=\"n\">"),
            Piece::Count(all.portions),
            Piece::Tag("</td><td class=\"n\">"),
            Piece::Amount(all.amount),
            Piece::Tag("</td><td class=\"opt screen\"></td></tr></tfoot></table>\n"),
        ],
    )
}
