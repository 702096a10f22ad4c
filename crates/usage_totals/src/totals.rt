//! What a run makes of usage lines.

ghost use Rattle.std.specs.Prelude.{◌≡◌, IfOk, filter, length, map};
ghost use Rattle.line_split.specs.UsageLine.{UsageLine};
ghost use Rattle.line_split.specs.declared.reason.Reason.{Reason};
ghost use Rattle.usage_totals.specs.Greatest.{AreGreatest};
ghost use Rattle.usage_totals.specs.Totals.{AreTotalsOf, is_same as are_same};
ghost use Rattle.usage_totals.specs.declared.totals.TheConstants.{MOST_KEYS};

use crate::by_key::{Key, Ranked, greatest};
use crate::name::Name;
use crate::reasons::{amounts_for, knows_a_territory, reasons_of, total_for};
use crate::total::Total;
use cwr_share::Registry;
use line_split::{Reason, Usage};
use std::alloc::{AllocError, Global};
use tis_tree::TisTable;

/// The most works that are named, and the most territories.
pub const MOST_KEYS: usize = 10;

/// What a run makes of the lines of a usage list.
#[derive(Debug, Drop)]
pub struct Totals<'a> {
    /// The lines that are divided by the claims on them.
    pub divided: Total,
    /// What of the amounts of these divided lines is the residue's, in minor units.
    pub residue: i64,
    /// The lines whose work nobody has registered.
    pub unregistered: Total,
    /// The lines whose work is registered, and whose territory is not in the table.
    pub unknown: Total,
    /// The lines whose work is registered and whose territory is in the table, but on which the claims come to more
    /// than 100.06 per cent.
    pub claimed_over: Total,
    /// The unregistered works with most money.
    pub works: Ranked<Name<'a>>,
    /// The unknown territories with most money.
    pub territories: Ranked<u16>,
    /// The works with most money of the lines that are claimed over.
    pub over: Ranked<Name<'a>>,
    /// The works of which most stays open, of the lines that are divided and that leave the residue something.
    pub left_open: Ranked<Name<'a>>,
    /// The table has the territory of some line.
    pub knows_a_territory: bool,
}

/// What a run makes of usage lines, by a table of territories and registrations.
pub fn totals_of<'a>(
    alloc: Global,
    tis: &TisTable,
    registry: &Registry,
    usage: &'a Usage,
) -> Result<Totals<'a>, AllocError>
    ensures { IfOk result (λ totals. AreTotalsOf tis.now registry.now usage.now totals) }
{
    let found = reasons_of(alloc, tis, registry, usage)?;
    let reasons = found.reasons.as_slice();
    Ok(Totals {
        divided: total_for(usage, reasons, Reason::Open),
        residue: found.residue,
        unregistered: total_for(usage, reasons, Reason::Work),
        unknown: total_for(usage, reasons, Reason::Land),
        claimed_over: total_for(usage, reasons, Reason::Over),
        works: greatest_for(alloc, usage, reasons, Reason::Work)?,
        territories: greatest_for(alloc, usage, reasons, Reason::Land)?,
        over: greatest_for(alloc, usage, reasons, Reason::Over)?,
        left_open: greatest(alloc, usage, found.left_open.as_slice(), MOST_KEYS)?,
        knows_a_territory: knows_a_territory(tis, usage),
    })
}

/// The keys with most money of the lines that have a reason.
fn greatest_for<'a, K: Key<'a>>(
    alloc: Global,
    usage: &'a Usage,
    reasons: &[Reason],
    reason: Reason,
) -> Result<Ranked<K>, AllocError>
    requires { length reasons.now ≡ length usage.now }
    ensures { IfOk result (λ ranked. (given : UsageLine → Reason) → reasons.now ≡ map given usage.now
        → AreGreatest K.eq K.cmp MOST_KEYS
        (map (λ line. (K.key line, line.amount)) (filter (λ line. are_same reason (given line)) usage.now)) ranked) }
{
    let amounts = amounts_for(alloc, usage, reasons, reason)?;
    greatest(alloc, usage, amounts.as_slice(), MOST_KEYS)
}
