//! The reason of each usage line, and the lines of one reason.

ghost use Rattle.std.specs.Prelude.{◌≡◌, ◌+◌, ◌≤◌, ◌<◌, IfOk, None, Some, filter, if◌then◌else◌, length, map, nat_lt};
ghost use Rattle.std.specs.Prelude.{pos, unsigned_abs};
ghost use Rattle.std.specs.List.{list_any};
ghost use Rattle.cwr_share.specs.ClaimsOn.{is_known};
ghost use Rattle.csv_table.specs.declared.forms.TheConstants.{MOST_CODE};
ghost use Rattle.line_split.specs.Signs.{int_sum_by, signed_portions_of};
ghost use Rattle.line_split.specs.UsageLine.{UsageLine};
ghost use Rattle.line_split.specs.declared.TheConstants.{MOST_AMOUNT, MOST_CLAIMS, RESIDUE};
ghost use Rattle.line_split.specs.declared.reason.Reason.{Reason};
ghost use Rattle.line_split.specs.declared.reason.Reason.TheVariants.{Open};
ghost use Rattle.payee_book.specs.Run.{portion_for};
ghost use Rattle.usage_totals.specs.SoFar.{AreSmall, picked};
ghost use Rattle.usage_totals.specs.Totals.{is_same as are_same, lines_for, reason_of, residue_of, stays_open};
ghost use Rattle.usage_totals.specs.Totals.{total_of_lines};

use crate::total::Total;
use cwr_share::Registry;
use line_split::{Claims, MOST_CLAIMS, Portions, Reason, Usage, split};
use std::alloc::{AllocError, Global};
use tis_tree::{Code, TisTable};

/// What is found of the lines of a usage list.
#[derive(Drop)]
pub(crate) struct Reasons {
    /// The reason of each line.
    pub(crate) reasons: Vec<Reason>,
    /// What stays open of each line that is divided, where it is not 0.
    pub(crate) left_open: Vec<Option<i64>>,
    /// What is the residue's of those that are divided.
    pub(crate) residue: i64,
}

/// The reason of each line, and what is the residue's of those that are divided.
pub(crate) fn reasons_of(
    alloc: Global,
    tis: &TisTable,
    registry: &Registry,
    usage: &Usage,
) -> Result<Reasons, AllocError>
    ensures reasons { IfOk result (λ found. found.reasons.items ≡ map (reason_of tis.now registry.now) usage.now) }
    ensures left_open { IfOk result (λ found. found.left_open.items
        ≡ map (picked (stays_open tis.now registry.now) (residue_of tis.now registry.now)) usage.now) }
    ensures small { IfOk result (λ found. AreSmall found.left_open.items) }
    ensures residue { IfOk result (λ found. found.residue
        ≡ int_sum_by (residue_of tis.now registry.now) (lines_for tis.now registry.now Open usage.now)) }
{
    let mut claims = registry.scratch(alloc)?;
    let mut portions = Portions::room(alloc, MOST_CLAIMS + 1)?;
    let mut reasons = Vec::with_capacity(alloc, usage.len())?;
    let mut left_open = Vec::with_capacity(alloc, usage.len())?;
    let mut residue = 0;
    for place in 0..usage.len() {
        let line = usage.line(place);
        let reason = registry
            .claims(tis, &line, &mut claims)
            .unwrap_or(Reason::Open);
        let left = left_of(line.amount, reason, &claims, &mut portions);
        residue += left;
        reasons.push(reason)?;
        left_open.push(unless_none(left))?;
    }
    Ok(Reasons {
        reasons,
        left_open,
        residue,
    })
}

/// What stays open of an amount: the residue's portion where the line is divided.
fn left_of(amount: i64, reason: Reason, claims: &Claims, portions: &mut Portions) -> i64
    requires in_range { unsigned_abs amount ≤ MOST_AMOUNT }
    requires room { MOST_CLAIMS + 1 ≤ portions.old.room }
    ensures portion { result ≡ (if are_same Open reason
        then portion_for RESIDUE (signed_portions_of amount claims.now.list) else pos 0) }
    ensures small { unsigned_abs result ≤ MOST_AMOUNT }
    ensures room { portions.new.room ≡ portions.old.room }
{
    if reason == Reason::Open {
        residue_portion(amount, claims, portions)
    } else {
        0
    }
}

/// An amount, where it is not 0.
fn unless_none(amount: i64) -> Option<i64>
    ensures { result ≡ (if nat_lt 0 (unsigned_abs amount) then Some amount else None) }
{
    (amount != 0).then_some(amount)
}

/// The residue's portion of an amount.
fn residue_portion(amount: i64, claims: &Claims, portions: &mut Portions) -> i64
    requires in_range { unsigned_abs amount ≤ MOST_AMOUNT }
    requires room { MOST_CLAIMS + 1 ≤ portions.old.room }
    ensures portion { result ≡ portion_for RESIDUE (signed_portions_of amount claims.now.list) }
    ensures small { unsigned_abs result ≤ MOST_AMOUNT }
    ensures room { portions.new.room ≡ portions.old.room }
{
    let place = claims.list().len();
    split(amount, claims, portions);
    portions.list()[place].1
}

/// The amounts of the lines that have a reason, at their places.
pub(crate) fn amounts_for(
    alloc: Global,
    usage: &Usage,
    reasons: &[Reason],
    reason: Reason,
) -> Result<Vec<Option<i64>>, AllocError>
    requires { length reasons.now ≡ length usage.now }
    ensures amounts { IfOk result (λ amounts. (given : UsageLine → Reason) → reasons.now ≡ map given usage.now
        → amounts.items ≡ map (picked (λ line. are_same reason (given line)) (λ line. line.amount)) usage.now) }
    ensures length { IfOk result (λ amounts. length amounts.items ≡ length usage.now) }
    ensures small { IfOk result (λ amounts. AreSmall amounts.items) }
{
    let mut amounts = Vec::with_capacity(alloc, usage.len())?;
    for place in 0..usage.len() {
        let amount = usage.line(place).amount;
        amounts.push((reasons[place] == reason).then_some(amount))?;
    }
    Ok(amounts)
}

/// What the lines of a reason come to.
pub(crate) fn total_for(usage: &Usage, reasons: &[Reason], reason: Reason) -> Total
    requires { length reasons.now ≡ length usage.now }
    ensures { (given : UsageLine → Reason) → reasons.now ≡ map given usage.now
        → result ≡ total_of_lines (filter (λ line. are_same reason (given line)) usage.now) }
{
    let mut total = Total::none();
    for place in 0..usage.len() {
        if reasons[place] == reason {
            total = total.with(usage.line(place).amount);
        }
    }
    total
}

/// Whether the table has the territory of some line.
pub(crate) fn knows_a_territory(tis: &TisTable, usage: &Usage) -> bool
    ensures { result ≡ list_any (λ line. is_known tis.now line.territory) usage.now }
{
    for place in 0..usage.len() {
        if knows(tis, usage.line(place).territory) {
            return true;
        }
    }
    false
}

/// Whether the table has a territory.
fn knows(tis: &TisTable, territory: u16) -> bool
    requires { (0 < territory) × (territory ≤ MOST_CODE) }
    ensures { result ≡ is_known tis.now territory }
{
    let Some(code) = Code::of(territory) else {
        unreachable!()
    };
    tis.known(code)
}
