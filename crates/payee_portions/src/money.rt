//! The sections of a list, those with most money first.

ghost use Rattle.std.specs.Prelude.{◌≡◌, ◌≤◌, ◌<◌, All, IfOk, length, map, unsigned_abs};
ghost use Rattle.line_split.specs.declared.TheConstants.{MOST_AMOUNT, MOST_LINES};
ghost use Rattle.payee_portions.specs.Held.{AreByMoney, work_of as work_of_section};
ghost use Rattle.payee_portions.specs.Money.{IsSection, kept_by_money as in_order_of_money, section_shown};
ghost use Rattle.payee_portions.specs.Sections.{sections_of};
ghost use Rattle.payee_portions.specs.Shown.{portions_shown};

use crate::{Portion, end_of_section, sum_of};
use std::alloc::{AllocError, Global};
use std::cmp::Ordering;

/// The portions of a work, which stand together in a list, and what they come to.
#[derive(Clone, Copy, Debug)]
pub struct Section<'a> {
    /// The portions, of which there is one at least.
    pub portions: &'a [Portion<'a>],
    /// What they come to, in minor units.
    pub sum: i64,
}

/// The sections of a list: that with the largest sum comes first, whatever its sign; of equal ones that whose work has the
/// lesser name.
pub fn sections_by_money<'a>(
    alloc: Global,
    list: &'a [Portion<'a>],
) -> Result<Vec<Section<'a>>, AllocError>
    requires few { length list.now ≤ MOST_LINES }
    requires small { All (λ portion. unsigned_abs portion.amount ≤ MOST_AMOUNT) list.now }
    ensures ordered { IfOk result (λ found. AreByMoney (sections_of (portions_shown list.entry.now))
        (map section_shown found.items)) }
    ensures sound { IfOk result (λ found. All IsSection found.items) }
{
    let mut found = sections_in_turn(alloc, list)?;
    sort(&mut found);
    Ok(found)
}

/// The sections of a list, in its order.
fn sections_in_turn<'a>(
    alloc: Global,
    list: &'a [Portion<'a>],
) -> Result<Vec<Section<'a>>, AllocError>
    requires few { length list.now ≤ MOST_LINES }
    requires small { All (λ portion. unsigned_abs portion.amount ≤ MOST_AMOUNT) list.now }
    ensures sections { IfOk result (λ found. map section_shown found.items ≡ sections_of (portions_shown list.entry.now)) }
    ensures sound { IfOk result (λ found. All IsSection found.items) }
{
    let mut found = Vec::new(alloc);
    let mut from = 0;
    while from < list.len() {
        let end = end_of_section(list, from);
        found.push(section_of(&list[from..end]))?;
        from = end;
    }
    Ok(found)
}

/// Portions as a section.
fn section_of<'a>(portions: &'a [Portion<'a>]) -> Section<'a>
    requires some { 0 < length portions.now }
    requires few { length portions.now ≤ MOST_LINES }
    requires small { All (λ portion. unsigned_abs portion.amount ≤ MOST_AMOUNT) portions.now }
    ensures portions { result.portions.now ≡ portions.entry.now }
    ensures sound { IsSection result }
{
    Section {
        portions,
        sum: sum_of(portions),
    }
}

/// Puts sections in order.
fn sort(sections: &mut Vec<Section<'_>>)
    requires { All IsSection sections.old.items }
    ensures ordered { AreByMoney (map section_shown sections.old.items) (map section_shown sections.new.items) }
    ensures sound { All IsSection sections.new.items }
{
    sections.sort_unstable_by(
        |section, other| -> Ordering
            ensures { result ≡ in_order_of_money section.now other.now }
        { by_money(section, other) },
    );
}

/// Which of two sections comes first.
fn by_money(section: &Section<'_>, other: &Section<'_>) -> Ordering
    ensures { result ≡ in_order_of_money section.now other.now }
{
    match other.sum.unsigned_abs().cmp(&section.sum.unsigned_abs()) {
        Ordering::Equal => work_of(section).cmp(work_of(other)),
        unequal => unequal,
    }
}

/// What usage lines call the work of a section.
fn work_of<'a>(section: &Section<'a>) -> &'a [u8]
    ensures { result.now ≡ work_of_section (section_shown section.now) }
{
    match section.portions.first() {
        Some(first) => first.line.work,
        None => b"",
    }
}
