//! The lines that leave something to the residue, by reason.

ghost use Rattle.std.specs.Prelude.{◌≡◌, ◌≤◌, ◌<◌, ◌^◌, Some, All, IfOk, length, slice_get, unsigned_abs};
ghost use Rattle.document_names.specs.FirstTexts.{text_in};
ghost use Rattle.line_split.specs.Claims.{total_of as sum_of_claims};
ghost use Rattle.line_split.specs.UsageLine.{UsageLine};
ghost use Rattle.line_split.specs.declared.TheConstants.{MOST_AMOUNT, MOST_CLAIMS};
ghost use Rattle.payee_portions.specs.Held.{held_by, held_of, is_reason};
ghost use Rattle.payee_portions.specs.Portions.{AreListed};
ghost use Rattle.payee_portions.specs.Shown.{portion_shown, portions_shown};

use crate::Portion;
use crate::listing::sort;
use cwr_share::Registry;
use document_names::FirstTexts;
use line_split::{Claims, Reason, Usage, base_for};
use payee_book::Posting;
use std::alloc::{AllocError, Global};
use tis_tree::TisTable;

/// The lines of a run, and what they are divided by.
#[derive(Clone, Copy)]
pub struct RunLines<'a> {
    /// The territories.
    pub territories: &'a TisTable,
    /// The registrations.
    pub registry: &'a Registry,
    /// The usage lines.
    pub usage: &'a Usage,
    /// The titles of works.
    pub titles: &'a FirstTexts,
}

/// The portions of the residue that have a reason, in the order of `list_of`. Each has as its share what nobody claims.
/// `reasons` has the reason of each line.
pub fn held_list<'a>(
    alloc: Global,
    lines: RunLines<'a>,
    reasons: &[Reason],
    reason: Reason,
    residue: &[Posting],
) -> Result<Vec<Portion<'a>>, AllocError>
    requires lines { All (λ posting. posting.0 < length lines.usage.now) residue.now }
    requires reasons { length reasons.now ≡ length lines.usage.now }
    requires small { All (λ posting. unsigned_abs posting.1 ≤ MOST_AMOUNT) residue.now }
    ensures listed { IfOk result (λ list. AreListed
        (held_of lines.entry.territories.now lines.entry.registry.now lines.entry.usage.now
        (text_in lines.entry.titles.now) reasons.now reason residue.now)
        (portions_shown list.items)) }
    ensures few { IfOk result (λ list. length list.items ≤ length residue.now) }
    ensures small { IfOk result (λ list. All (λ portion. unsigned_abs portion.amount ≤ MOST_AMOUNT) list.items) }
{
    let mut list = held_in_turn(alloc, lines, reasons, reason, residue)?;
    sort(&mut list);
    Ok(list)
}

/// Those portions, in the order of their postings.
fn held_in_turn<'a>(
    alloc: Global,
    lines: RunLines<'a>,
    reasons: &[Reason],
    reason: Reason,
    residue: &[Posting],
) -> Result<Vec<Portion<'a>>, AllocError>
    requires lines { All (λ posting. posting.0 < length lines.usage.now) residue.now }
    requires reasons { length reasons.now ≡ length lines.usage.now }
    requires small { All (λ posting. unsigned_abs posting.1 ≤ MOST_AMOUNT) residue.now }
    ensures portions { IfOk result (λ list. portions_shown list.items
        ≡ held_of lines.entry.territories.now lines.entry.registry.now lines.entry.usage.now
        (text_in lines.entry.titles.now) reasons.now reason residue.now) }
    ensures few { IfOk result (λ list. length list.items ≤ length residue.now) }
    ensures small { IfOk result (λ list. All (λ portion. unsigned_abs portion.amount ≤ MOST_AMOUNT) list.items) }
{
    let mut claims = lines.registry.scratch(alloc)?;
    let mut list = Vec::new(alloc);
    for place in 0..residue.len() {
        let posting = residue[place];
        if is_for(reasons[posting.0 as usize], reason) {
            list.push(held(lines, posting, &mut claims))?;
        }
    }
    Ok(list)
}

/// Whether two reasons are one.
fn is_for(reason: Reason, other: Reason) -> bool
    ensures { result ≡ is_reason reason other }
{
    reason == other
}

/// The portion of the residue that a posting is.
fn held<'a>(lines: RunLines<'a>, posting: Posting, claims: &mut Claims) -> Portion<'a>
    requires line { posting.0 < length lines.usage.now }
    requires few { length lines.usage.now < 2 ^ 64 }
    requires room { MOST_CLAIMS ≤ claims.old.room }
    ensures portion { (line : UsageLine) → slice_get lines.entry.usage.now posting.0 ≡ Some line
        → portion_shown result
        ≡ held_by lines.entry.territories.now lines.entry.registry.now (text_in lines.entry.titles.now) posting line }
    ensures amount { result.amount ≡ posting.1 }
    ensures room { claims.new.room ≡ claims.old.room }
{
    let line = lines.usage.line(posting.0 as usize);
    lines.registry.claims(lines.territories, &line, claims);
    let base = base_for(claims);
    Portion {
        title: lines.titles.text_of(line.work),
        line,
        row: posting.0 + 1,
        share: base.saturating_sub(total_of(claims)),
        base,
        amount: posting.1,
    }
}

/// What claims come to.
fn total_of(claims: &Claims) -> u32
    ensures { result ≡ sum_of_claims claims.now.list }
{
    let list = claims.list();
    let mut total = 0;
    for place in 0..list.len() {
        total += list[place].1;
    }
    total
}
