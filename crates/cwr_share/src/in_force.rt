//! Works with the share lines that are in force, before their parties have accounts.

ghost use Rattle.std.specs.Prelude.{◌≡◌, ◌≤◌, ◌<◌, ◌⊎◌, ◌∷◌, ◌++◌, [], ℕ, List, All, AllPairs, IfErr, IfNone, IfOk, IfSome, None, OnOk, Some, false, if◌then◌else◌, length, nat_eq, slice_index_or, unwrap_or};
ghost use Rattle.std.specs.Cmp.Lexicographic.{pointwise};
ghost use Rattle.cwr_share.specs.InForce.{AreShareLines};
ghost use Rattle.cwr_share.specs.Joined.{followed_by, interests_in as interests};
ghost use Rattle.cwr_share.specs.Registered.{HasFewPayees, IsRegistered};
ghost use Rattle.cwr_share.specs.RegistryOf.{HasTooManyPayees, IsRegistryOf};
ghost use Rattle.cwr_share.specs.Registrations.{ShareLine, find_work};
ghost use Rattle.cwr_share.specs.Payees.{payee_of};
ghost use Rattle.cwr_share.specs.declared.TheConstants.{MOST_SHARE_LINES};
ghost use Rattle.cwr_share.specs.declared.cwr_fault.CwrFault.TheVariants.{Accounts, Memory};
ghost use Rattle.cwr_share.specs.declared.numbers.TheConstants.{MOST_PARTY_BYTES, MOST_SUBMITTER_BYTES, MOST_WORK_NAME_BYTES};

use crate::numbers::{WorkName, in_place, in_place_if_short};
use crate::parties::parties_of;
use crate::registration::CompiledRegistration;
use crate::registrations::Registrations;
use crate::share_line::ShareRecord;
use crate::{CwrFault, Payees, Registry};
use indexmap::IndexSet;
use std::alloc::{AllocError, Global};
use std::marker::Model;
use std::mem;

/// Works, each with the share lines of its registrations in force.
///
/// They are those of one file, where a work is known by its submitter work number; or of several, where a work may have
/// more than one registration, and is known by a name of its own.
#[derive(Drop)]
pub struct InForce {
    works: IndexSet<WorkName>,
    /// The share lines of each work.
    lists: Vec<Vec<ShareRecord>>,
}

impl Model for InForce {
    ghost use Rattle.std.specs.Prelude.{ℕ, List};
    ghost use Rattle.cwr_share.specs.InForce.{IsTable, works_of};
    ghost use Rattle.cwr_share.specs.Registrations.{ShareLine};

    ghost Value = { List (List ℕ × List ShareLine) };

    ghost view = { λ f. works_of f.works.keys f.lists.items };

    ghost invariant = { λ f. IsTable f.works.keys f.lists.items };
}

impl InForce {
    /// No works.
    pub fn none(alloc: Global) -> InForce
        ensures { result ≡ [] }
    {
        InForce {
            works: IndexSet::new(alloc),
            lists: Vec::new(alloc),
        }
    }

    /// How many works there are, each once.
    pub fn len(&self) -> usize
        ensures len { result ≡ length self.now }
        ensures once { AllPairs (λ entry later. ¬ (entry.0 ≡ later.0)) self.now }
    {
        self.works.len()
    }

    /// The share lines of the work at a place.
    pub fn at(&self, place: usize) -> &[ShareRecord]
        requires { place < length self.now }
        ensures shares { (d : List ℕ × List ShareLine) → result.now ≡ (slice_index_or self.now place d).1 }
    {
        self.lists[place].as_slice()
    }

    /// The share lines of a work, where it has a registration in force.
    pub fn find(&self, work: &[u8]) -> Option<&[ShareRecord]>
        ensures some { IfSome result (λ shares. find_work work.now self.now ≡ Some shares.now) }
        ensures none { IfNone result (find_work work.now self.now ≡ None) }
        ensures sound { IfSome result (λ shares. AreShareLines shares.now) }
    {
        let works = &self.works;
        let name: WorkName = in_place_if_short(work)?;
        let place = works.get_index_of(&name)?;
        Some(self.lists[place].as_slice())
    }

    /// Adds one more registration to those of a work, of a submitter: its interests are others than theirs, and its parties
    /// go by the submitter's name, a colon and their number. Where memory is refused, the work may have lost what it had.
    pub fn append(
        &mut self,
        alloc: Global,
        work: &[u8],
        submitter: &[u8],
        shares: &[ShareRecord],
    ) -> Result<(), AllocError>
        requires work { length work.now ≤ MOST_WORK_NAME_BYTES }
        requires submitter { length submitter.now ≤ MOST_SUBMITTER_BYTES }
        requires parties { All (λ line. length line.party ≤ MOST_PARTY_BYTES) shares.now }
        requires sound { AreShareLines shares.now }
        ensures { OnOk result ((name : List ℕ) → find_work name self.new
            ≡ (if pointwise nat_eq work.now name
            then Some (followed_by (unwrap_or (find_work name self.old) []) (submitter.now, shares.now))
            else find_work name self.old)) }
    {
        let name: WorkName = in_place(work);
        let mut lines = self.take(alloc, &name);
        add_behind(&mut lines, submitter, shares)?;
        self.put(name, lines)
    }

    /// Takes the share lines of a work, which has none from then on.
    fn take(&mut self, alloc: Global, work: &WorkName) -> Vec<ShareRecord>
        ensures taken { result.items ≡ unwrap_or (find_work work.now.items self.old) [] }
        ensures sound { AreShareLines result.items }
        ensures others { (name : List ℕ) → pointwise nat_eq work.now.items name ≡ false
            → find_work name self.new ≡ find_work name self.old }
    {
        match self.works.get_index_of(work) {
            Some(place) => mem::replace(&mut self.lists[place], Vec::new(alloc)),
            None => Vec::new(alloc),
        }
    }

    /// Puts a registration in force, in place of what its work had before.
    pub(crate) fn put(&mut self, work: WorkName, shares: Vec<ShareRecord>) -> Result<(), AllocError>
        requires short { length work.items ≤ MOST_WORK_NAME_BYTES }
        requires sound { AreShareLines shares.items }
        ensures { OnOk result ((name : List ℕ) → find_work name self.new
            ≡ (if pointwise nat_eq work.items name then Some shares.items else find_work name self.old)) }
    {
        match self.works.get_index_of(&work) {
            Some(place) => {
                self.lists[place] = shares;
                Ok(())
            }
            None => self.add(work, shares),
        }
    }

    /// Adds a work that is not among these.
    fn add(&mut self, work: WorkName, shares: Vec<ShareRecord>) -> Result<(), AllocError>
        requires short { length work.items ≤ MOST_WORK_NAME_BYTES }
        requires sound { AreShareLines shares.items }
        requires new { find_work work.items self.old ≡ None }
        ensures { OnOk result (self.new ≡ self.old ++ (work.items, shares.items) ∷ []) }
    {
        self.lists.push(shares)?;
        match self.works.insert(work) {
            Ok(_) => Ok(()),
            Err(_) => {
                let _ = self.lists.pop();
                Err(AllocError)
            }
        }
    }

    /// The registry of these works, where what a party claims is paid to its payee.
    pub fn registry(self, alloc: Global, payees: &Payees) -> Result<Registry, CwrFault>
        requires lines { (work : List ℕ) (shares : List ShareLine) → find_work work self ≡ Some shares
            → length shares ≤ MOST_SHARE_LINES }
        requires payees { (work : List ℕ) (shares : List ShareLine) → find_work work self ≡ Some shares
            → HasFewPayees (payee_of payees.now) shares }
        ensures registry { IfOk result (IsRegistryOf payees.now (λ work. find_work work self)) }
        ensures sound { IfOk result IsRegistered }
        ensures fault { IfErr result (λ fault. (fault ≡ Memory)
            ⊎ ((fault ≡ Accounts) × HasTooManyPayees payees.now (λ work. find_work work self))) }
    {
        let InForce { works, lists } = self;
        let mut registrations = Registrations::room(alloc, works.len())?;
        let parties = parties_of(alloc, payees, lists.as_slice())?;
        let mut registration = CompiledRegistration::new(alloc);
        for shares in &lists {
            registration.compile(shares.as_slice(), &parties.accounts)?;
            registrations = registrations.followed_by(&registration)?;
        }
        Ok(Registry::of(works, registrations, parties))
    }
}

/// Adds share lines of a submitter's registration behind others.
fn add_behind(
    lines: &mut Vec<ShareRecord>,
    submitter: &[u8],
    shares: &[ShareRecord],
) -> Result<(), AllocError>
    requires submitter { length submitter.now ≤ MOST_SUBMITTER_BYTES }
    requires parties { All (λ line. length line.party ≤ MOST_PARTY_BYTES) shares.now }
    requires sound { AreShareLines lines.old.items × AreShareLines shares.now }
    ensures lines { OnOk result (lines.new.items ≡ followed_by lines.old.items (submitter.now, shares.now)) }
    ensures sound { OnOk result (AreShareLines lines.new.items) }
{
    let Some(first) = interests_in(lines.as_slice()) else {
        return Err(AllocError);
    };
    for share in shares {
        let Some(share) = share.behind(submitter, first) else {
            return Err(AllocError);
        };
        lines.push(share)?;
    }
    Ok(())
}

/// One more than the greatest interest, which the last share line has. None: it has no number.
fn interests_in(lines: &[ShareRecord]) -> Option<usize>
    requires { AreShareLines lines.now }
    ensures { IfSome result (λ first. first ≡ interests lines.now) }
{
    if lines.is_empty() {
        return Some(0);
    }
    lines[lines.len() - 1].interest().checked_add(1)
}
