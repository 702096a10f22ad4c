//! Share lines in the form that claims are worked out from, and the claims that they give.
//!
//! The lines of a registration stand together, by account, and those of an account from the last one of
//! the file back. So its claims are worked out in one pass over neighbouring memory.

ghost use Rattle.std.specs.Prelude.{◌≡◌, ◌≤◌, ◌<◌, ◌++◌, ◌==◌, ℕ, List, All, [], filter, if◌then◌else◌, length, not, nat_le, sum_by, ◌*◌};
ghost use Rattle.line_split.specs.Claims.{total_of};
ghost use Rattle.line_split.specs.declared.TheConstants.{MOST_CLAIMED, MOST_CLAIMS};
ghost use Rattle.cwr_share.specs.ClaimsOn.{deciding, share_for};
ghost use Rattle.cwr_share.specs.Compiled.{AreClaimLines, AreInRuns, claim_line, claim_lines, claims_of_claimants, line_by, share_under};
ghost use Rattle.cwr_share.specs.Registrations.{ShareLine};
ghost use Rattle.cwr_share.specs.declared.TheConstants.{MOST_SHARE_LINES};

use crate::share_line::{CollectionShares, RegisteredShare};
use line_split::{Account, Claims, MOST_CLAIMED, Right};
use tis_tree::{Code, TisTable};

/// A share line of a registration.
#[derive(Clone, Copy)]
pub(crate) struct ClaimLine {
    pub(crate) account: Account,
    /// What the account gets under each right, nothing where the territory is excluded.
    pub(crate) shares: CollectionShares,
    pub(crate) territory: Code,
    /// Whether the line before it is of another interest, or of another party.
    pub(crate) begins: bool,
}

/// No share under any right.
const NO_SHARES: CollectionShares = CollectionShares {
    performing: 0,
    mechanical: 0,
    synchronisation: 0,
};

impl ClaimLine {
    /// A share line whose party has this account.
    pub(crate) fn of(share: &RegisteredShare, account: Account, begins: bool) -> ClaimLine
        ensures { result ≡ claim_line account begins (line_by [] share.now) }
    {
        ClaimLine {
            account,
            shares: if share.includes {
                share.shares
            } else {
                NO_SHARES
            },
            territory: share.territory,
            begins,
        }
    }

    /// The share for a right.
    fn share_for(&self, right: Right) -> u16
        ensures { result ≡ share_under right self.now }
    {
        match right {
            Right::P => self.shares.performing,
            Right::M => self.shares.mechanical,
            Right::S => self.shares.synchronisation,
        }
    }
}

/// Puts the claims in a land under a right into `out`, those that are not 0, in order of account, where
/// these are the lines of the work. Answers whether they come to no more than 100.06 per cent; if not,
/// `out` is empty.
pub(crate) fn claims(
    lines: &[ClaimLine],
    tis: &TisTable,
    land: Code,
    right: Right,
    out: &mut Claims,
) -> bool
    requires lines { (named : List ShareLine) × (claimants : List (ℕ × List ℕ)) × AreClaimLines named claimants lines.now }
    requires few { length lines.now ≤ MOST_SHARE_LINES }
    requires room { MOST_CLAIMS ≤ out.old.room }
    ensures within { (named : List ShareLine) (claimants : List (ℕ × List ℕ)) → AreClaimLines named claimants lines.now
        → result ≡ nat_le (total_of (claims_of_claimants tis.now land right named claimants)) MOST_CLAIMED }
    ensures claims { (named : List ShareLine) (claimants : List (ℕ × List ℕ)) → AreClaimLines named claimants lines.now
        → out.new.list ≡ (if result then filter (λ claim. not (claim.1 == 0)) (claims_of_claimants tis.now land right named claimants) else []) }
    ensures room { out.new.room ≡ out.old.room }
{
    out.clear();
    let mut total = 0;
    let mut at = 0;
    while at < lines.len() {
        let (claim, count) = first_claim(&lines[at..], tis, land, right);
        total += claim;
        if total > u64::from(MOST_CLAIMED) {
            out.clear();
            return false;
        }
        if claim > 0 {
            out.push(lines[at].account, claim as u32);
        }
        at += count;
    }
    true
}

/// The claim of the account whose lines come first, and how many these are. In each interest the first
/// line whose territory contains the land decides.
fn first_claim(lines: &[ClaimLine], tis: &TisTable, land: Code, right: Right) -> (u64, usize)
    requires some { 0 < length lines.now }
    requires few { length lines.now ≤ MOST_SHARE_LINES }
    ensures small { result.0 ≤ MOST_SHARE_LINES * u16.MAX }
    ensures some { 0 < result.1 }
    ensures within { result.1 ≤ length lines.now }
    ensures claim { (account : ℕ) (first : List ShareLine) (others : List ClaimLine) → lines.now ≡ claim_lines account first ++ others → 0 < length first
        → AreInRuns first → All (λ other. ¬ (other.account ≡ account)) others
        → (result.0 ≡ sum_by (share_for right) (deciding tis.now land first)) × (result.1 ≡ length first) }
{
    let mut claim = 0;
    let mut decided = false;
    for count in 0..lines.len() {
        let line = &lines[count];
        if line.account != lines[0].account {
            return (claim, count);
        }
        decided = !line.begins && decided;
        if !decided && tis.contains(line.territory, land) {
            decided = true;
            claim += u64::from(line.share_for(right));
        }
    }
    (claim, lines.len())
}
