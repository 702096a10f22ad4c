//! Long tables, of which the highest amounts are shown.

ghost use Rattle.std.specs.Prelude.{◌≡◌, ◌≤◌, drop, length, map};
ghost use Rattle.page_parts.specs.Bars.{others_shown, row_shown};
ghost use Rattle.page_parts.specs.Shortened.{AreCountable, AreOrdered, IsShortened, by_amount as in_order_of_amount};
ghost use Rattle.page_parts.specs.Shortened.{kept, others_of};

use crate::{BarRow, Others};
use std::cmp::Ordering;

/// Puts rows in order of their amounts, the highest first, and keeps the first `most` of them. The answer is what the
/// others come to. One row alone is not left out.
pub fn shorten(rows: &mut Vec<BarRow<'_>>, most: usize) -> Others
    requires { AreCountable (map row_shown rows.old.items) }
    ensures { IsShortened most (map row_shown rows.old.items) (map row_shown rows.new.items) (others_shown result) }
{
    sort(rows);
    let end = kept_of(rows.len(), most);
    let others = sum_from(rows.as_slice(), end);
    rows.truncate(end);
    others
}

/// Puts rows in order.
fn sort(rows: &mut Vec<BarRow<'_>>)
    ensures { AreOrdered (map row_shown rows.old.items) (map row_shown rows.new.items) }
{
    rows.sort_unstable_by(
        |row, other| -> Ordering
            ensures { result ≡ in_order_of_amount (row_shown row.now) (row_shown other.now) }
        { by_amount(row, other) },
    );
}

/// Which of two rows comes first: that with the higher amount; of equal ones that with the lesser name, or the lesser
/// code.
fn by_amount(row: &BarRow<'_>, other: &BarRow<'_>) -> Ordering
    ensures { result ≡ in_order_of_amount (row_shown row.now) (row_shown other.now) }
{
    match other.amount.cmp(&row.amount) {
        Ordering::Equal => match row.name.cmp(other.name) {
            Ordering::Equal => row.code.cmp(other.code),
            unequal => unequal,
        },
        unequal => unequal,
    }
}

/// How many of so many rows are kept.
fn kept_of(rows: usize, most: usize) -> usize
    ensures is { result ≡ kept most rows }
    ensures within { result ≤ rows }
{
    if rows <= most || rows - most == 1 {
        rows
    } else {
        most
    }
}

/// What rows come to, from a place on.
fn sum_from(rows: &[BarRow<'_>], from: usize) -> Others
    requires within { from ≤ length rows.now }
    requires small { AreCountable (map row_shown rows.now) }
    ensures { others_shown result ≡ others_of (drop from (map row_shown rows.now)) }
{
    let mut others = Others {
        rows: (rows.len() - from) as u64,
        count: 0,
        amount: 0,
    };
    for place in from..rows.len() {
        others.count += rows[place].count;
        others.amount += rows[place].amount;
    }
    others
}
