//! How a registration in force is compiled, so that its claims take one look at each of its share lines.

ghost use Rattle.std.specs.Prelude.{ℕ, ◌≡◌, ◌≤◌, ◌<◌, ◌++◌, List, All, AllPairs, Contains, [], OnOk, length, map};
ghost use Rattle.std.specs.List.{HoldsAt};
ghost use Rattle.cwr_share.specs.Compiled.{AreInOrder, IsInOrder, IsKept, accounts_of, in_order, kept_lines, line_by, lines_of_parties, names_of, rank_of, whole};
ghost use Rattle.std.specs.List.Sorted.{IsPermutation};
ghost use Rattle.cwr_share.specs.declared.TheConstants.{MOST_SHARE_LINES};

use crate::claim_line::ClaimLine;
use crate::numbers::PartyName;
use crate::share_line::{RegisteredShare, ShareRecord};
use indexmap::IndexMap;
use line_split::Account;
use std::alloc::{AllocError, Global};

/// A registration in force, compiled. Its lists serve one registration after another.
#[derive(Drop)]
pub(crate) struct CompiledRegistration {
    /// Its share lines, in the order of the file.
    pub(crate) shares: Vec<RegisteredShare>,
    /// The same lines, in order of account, each party's from the last one back.
    pub(crate) lines: Vec<ClaimLine>,
    /// The party and the place of each of these.
    order: Vec<Placed>,
}

/// A share line by the number of its party, and by its place in the order of the file.
#[derive(Clone, Copy)]
pub(crate) struct Placed {
    pub(crate) party: usize,
    pub(crate) place: u32,
}

impl CompiledRegistration {
    /// A registration with no share lines.
    pub(crate) fn new(alloc: Global) -> CompiledRegistration
        ensures { whole result ≡ record { shares = []; lines = [] } }
    {
        CompiledRegistration {
            shares: Vec::new(alloc),
            lines: Vec::new(alloc),
            order: Vec::new(alloc),
        }
    }

    /// Compiles the registration with these share lines, whose parties have these accounts, in the
    /// place of what it was. A party's number is its place among them.
    pub(crate) fn compile(
        &mut self,
        shares: &[ShareRecord],
        accounts: &IndexMap<PartyName, Account>,
    ) -> Result<(), AllocError>
        requires few { length shares.now ≤ MOST_SHARE_LINES }
        requires once { AllPairs (λ name later. ¬ (name ≡ later)) (names_of accounts.now.entries) }
        requires known { All (λ share. Contains (names_of accounts.now.entries) share.party) shares.now }
        ensures shares { OnOk result (kept_lines (names_of accounts.now.entries) (whole self.new) ≡ shares.now) }
        ensures paired { OnOk result (length self.new.lines.items ≡ length self.new.shares.items) }
        ensures kept { OnOk result (IsKept (names_of accounts.now.entries) (accounts_of accounts.now.entries) (whole self.new)) }
    {
        self.shares.clear();
        self.lines.clear();
        self.order.clear();
        for place in 0..shares.len() {
            let share = &shares[place];
            if let Some(party) = accounts.get_index_of(&share.party) {
                self.shares.push(share.kept(party))?;
                self.order.push(Placed {
                    party,
                    place: place as u32,
                })?;
            }
        }
        put_in_order(&mut self.order);
        add_lines(
            accounts,
            self.shares.as_slice(),
            self.order.as_slice(),
            &mut self.lines,
        )?;
        Ok(())
    }
}

impl Placed {
    /// A number by which share lines are in order: those of a party stand together, the last one first.
    fn rank(&self) -> u128
        ensures { result ≡ rank_of self.now }
    {
        self.party as u128 * 4_294_967_296 + (4_294_967_295 - self.place as u128)
    }
}

/// Puts share lines in order of party, and those of a party from the last one back.
fn put_in_order(order: &mut Vec<Placed>)
    ensures { (claimants : List (ℕ × List ℕ)) → AreInOrder claimants → IsPermutation order.old.items (in_order claimants)
        → order.new.items ≡ in_order claimants }
{
    order.sort_unstable_by_key(|entry| entry.rank());
}

/// Adds the share lines in this order, each under the account of its party.
fn add_lines(
    accounts: &IndexMap<PartyName, Account>,
    shares: &[RegisteredShare],
    order: &[Placed],
    lines: &mut Vec<ClaimLine>,
) -> Result<(), AllocError>
    requires known { All (λ share. share.party < length accounts.now.entries) shares.now }
    requires within { All (λ entry. entry.place < length shares.now) order.now }
    requires own { All (λ entry. HoldsAt (λ share. share.party ≡ entry.party) shares.now entry.place) order.now }
    ensures { OnOk result ((claimants : List (ℕ × List ℕ)) → IsInOrder claimants order.now
        → lines.new.items ≡ lines.old.items ++ lines_of_parties (accounts_of accounts.now.entries) (map (line_by []) shares.now) claimants) }
{
    let mut later = None;
    for entry in order {
        let share = shares[entry.place as usize];
        let interest = Some((share.party, share.interest));
        lines.push(ClaimLine::of(&share, accounts[share.party], later != interest))?;
        later = interest;
    }
    Ok(())
}
