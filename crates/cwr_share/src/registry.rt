//! The registrations in force, and the claims that they give on a usage line.

ghost use Rattle.std.specs.Prelude.{◌≡◌, ◌≤◌, ◌<◌, ◌⊎◌, [], Contains, IfOk, IfSome, IfNone, true, false, length, map, slice_index_or};
ghost use Rattle.line_split.specs.declared.TheConstants.{MOST_CLAIMS};
ghost use Rattle.line_split.specs.UsageLine.{usage_line_of};
ghost use Rattle.cwr_share.specs.ClaimsOn.{claims_on, is_known, reason_against};
ghost use Rattle.cwr_share.specs.Compiled.{AreKept, registered_as};
ghost use Rattle.cwr_share.specs.Found.{IsLookUp};
ghost use Rattle.cwr_share.specs.Payees.{HasRow, payee_of};
ghost use Rattle.cwr_share.specs.Registered.{IsRegistered};

use crate::claim_line::{ClaimLine, claims};
use crate::numbers::{PartyName, WorkName, in_place_if_short};
use crate::parties::{Parties, account_of};
use crate::registrations::Registrations;
use indexmap::IndexSet;
use line_split::{Account, Claims, Line, MOST_CLAIMS, Reason};
use std::alloc::{AllocError, Global};
use std::marker::Model;
use tis_tree::{Code, MOST_ROWS, TisTable};

/// The registrations in force of a file, and the accounts of their parties' payees.
#[derive(Drop)]
pub struct Registry {
    works: IndexSet<WorkName>,
    /// The registration of each work.
    registrations: Registrations,
    parties: Parties,
}

impl Model for Registry {
    ghost use Rattle.std.specs.Prelude.{◌≡◌, length, map};
    ghost use Rattle.cwr_share.specs.Compiled.{AreKept, registered_as};
    ghost use Rattle.cwr_share.specs.Registered.{IsRegistered, Registered};

    ghost Value = { Registered };

    ghost view = { λ r. registered_as r.works.keys r.registrations r.parties.accounts.entries r.parties.payees.items };

    ghost invariant = { λ r. IsRegistered (registered_as r.works.keys r.registrations r.parties.accounts.entries r.parties.payees.items)
        × AreKept r.works.keys r.registrations r.parties.accounts.entries r.parties.payees.items };
}

impl Registry {
    /// The registry of these parts.
    pub(crate) fn of(
        works: IndexSet<WorkName>,
        registrations: Registrations,
        parties: Parties,
    ) -> Registry
        requires sound { IsRegistered (registered_as works.keys registrations parties.accounts.entries parties.payees.items) }
        requires kept { AreKept works.keys registrations parties.accounts.entries parties.payees.items }
        ensures { result ≡ registered_as works.keys registrations parties.accounts.entries parties.payees.items }
    {
        Registry {
            works,
            registrations,
            parties,
        }
    }

    /// How many accounts there are: one for each payee, and the residue's.
    pub fn accounts(&self) -> u16
        ensures accounts { result ≡ length self.now.accounts }
        ensures sound { IsRegistered self.now }
    {
        self.parties.payees.len() as u16
    }

    /// The payee of each account: a name of the table of payees, or the interested party number of a
    /// party that has no row there. The residue's account has none.
    pub fn parties(&self) -> &[Vec<u8>]
        ensures { map (λ party. party.items) result.now ≡ self.now.accounts }
    {
        self.parties.payees.as_slice()
    }

    /// The payee of an account.
    pub fn party(&self, account: Account) -> &[u8]
        requires { account < length self.now.accounts }
        ensures { result.now ≡ slice_index_or self.now.accounts account [] }
    {
        self.parties.payees[account as usize].as_slice()
    }

    /// The account of a payee. No account has an empty text.
    pub fn account_of(&self, payee: &[u8]) -> Option<Account>
        ensures some { IfSome result (λ account. (0 < account) × (account < length self.now.accounts)
            × (slice_index_or self.now.accounts account [] ≡ payee.now)) }
        ensures none { IfNone result ((payee.now ≡ []) ⊎ ¬ Contains self.now.accounts payee.now) }
    {
        if payee.is_empty() {
            return None;
        }
        account_of(self.parties.payees.as_slice(), payee)
    }

    /// The payee of a party, where the registrations in force have the party.
    pub fn payee_of(&self, party: &[u8]) -> Option<&[u8]>
        ensures some { IfSome result (λ payee. HasRow self.now.payees party.now × (payee.now ≡ payee_of self.now.payees party.now)) }
        ensures none { IfNone result (¬ HasRow self.now.payees party.now) }
    {
        let accounts = &self.parties.accounts;
        let number: PartyName = in_place_if_short(party)?;
        let account = accounts.get(&number)?;
        Some(self.parties.payees[*account as usize].as_slice())
    }

    /// How many parties the registrations in force have.
    pub fn claimants(&self) -> usize
        ensures { result ≡ length self.now.payees }
    {
        self.parties.accounts.len()
    }

    /// How many works have a registration in force.
    pub fn works(&self) -> usize
        ensures works { result ≡ length self.now.works }
        ensures sound { IsRegistered self.now }
    {
        self.registrations.len()
    }

    /// No claims, with room for those of any line.
    pub fn scratch(&self, alloc: Global) -> Result<Claims, AllocError>
        ensures { IfOk result (λ claims. claims ≡ record { list = []; room = MOST_CLAIMS }) }
    {
        Claims::room(alloc, MOST_CLAIMS)
    }

    /// Puts the claims on a usage line into `out`, in hundredths of a per cent; an account that claims
    /// nothing is left out. Where something stands against all claims, this is the answer, and `out` is
    /// empty.
    pub fn claims(&self, tis: &TisTable, line: &Line<'_>, out: &mut Claims) -> Option<Reason>
        requires { MOST_CLAIMS ≤ out.old.room }
        ensures reason { result ≡ reason_against tis.now self.now (usage_line_of line.now) }
        ensures claims { out.new.list ≡ claims_on tis.now self.now (usage_line_of line.now) }
        ensures room { out.new.room ≡ out.old.room }
    {
        self.claims_to(self.find(line.work), tis, line, out)
    }

    /// The work with a number, where it has a registration in force. Works that are looked up ahead, many
    /// at a time, do not wait for each other.
    pub fn find(&self, number: &[u8]) -> Option<Work<'_>>
        ensures { IsLookUp self.now number.now result }
    {
        let works = &self.works;
        let number: WorkName = in_place_if_short(number)?;
        let place = works.get_index_of(&number)?;
        Some(Work {
            lines: self.registrations.lines_of(place),
        })
    }

    /// The same as `claims`, of a line whose work has been looked up.
    pub fn claims_to(
        &self,
        work: Option<Work<'_>>,
        tis: &TisTable,
        line: &Line<'_>,
        out: &mut Claims,
    ) -> Option<Reason>
        requires work { IsLookUp self.now line.now.work.now work }
        requires room { MOST_CLAIMS ≤ out.old.room }
        ensures reason { result ≡ reason_against tis.now self.now (usage_line_of line.now) }
        ensures claims { out.new.list ≡ claims_on tis.now self.now (usage_line_of line.now) }
        ensures room { out.new.room ≡ out.old.room }
    {
        out.clear();
        let Some(work) = work else {
            return Some(Reason::Work);
        };
        let Some(land) = land_of(tis, line.territory) else {
            return Some(Reason::Land);
        };
        if claims(work.lines, tis, land, line.right, out) {
            None
        } else {
            Some(Reason::Over)
        }
    }
}

/// A work of a registry, as it was found.
#[derive(Clone, Copy)]
pub struct Work<'a> {
    pub(crate) lines: &'a [ClaimLine],
}

/// The territory with this code, where the table has it.
fn land_of(tis: &TisTable, code: u16) -> Option<Code>
    ensures some { IfSome result (λ land. (land ≡ code) × (is_known tis.now code ≡ true)) }
    ensures none { IfNone result (is_known tis.now code ≡ false) }
{
    let Some(land) = Code::of(code) else {
        prove!(tis.len() <= MOST_ROWS, "no table has a code out of range");
        return None;
    };
    if tis.known(land) { Some(land) } else { None }
}
