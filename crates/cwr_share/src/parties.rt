//! The parties of the registrations in force, their payees, and the accounts of these.

ghost use Rattle.std.specs.Prelude.{◌≡◌, ◌≤◌, ◌<◌, ◌+◌, ◌∷◌, ◌⊎◌, ◌↔◌, [], ℕ, List, All, AllPairs, Contains, IfOk, IfErr, IfSome, IfNone, OnOk, length, map, slice_index_or};
ghost use Rattle.std.specs.List.Sorted.{IsNonDecreasingBy, IsStrictlySortedBy};
ghost use Rattle.std.specs.Cmp.Lexicographic.{slice_cmp};
ghost use Rattle.std.specs.Ordering.{nat_cmp};
ghost use Rattle.std.specs.BTreeSet.{btree_set_len};
ghost use Rattle.cwr_share.specs.Compiled.{AreShort, names_of};
ghost use Rattle.cwr_share.specs.Parties.{AreAccountsOf, AreFilled, AreFound, HasAdded, HasMany, IsAccountOf, party_of, payee_by, texts_in, texts_of};
ghost use Rattle.cwr_share.specs.Payees.{payee_of};
ghost use Rattle.cwr_share.specs.Registered.{IsShareLine};
ghost use Rattle.cwr_share.specs.declared.TheConstants.{MOST_ACCOUNTS};
ghost use Rattle.cwr_share.specs.declared.cwr_fault.CwrFault.TheVariants.{Accounts, Memory};

use crate::numbers::{PartyName, in_place};
use crate::share_line::ShareRecord;
use crate::{CwrFault, MOST_ACCOUNTS, Payees};
use indexmap::{IndexMap, IndexSet};
use line_split::Account;
use std::alloc::{AllocError, Global};
use std::collections::BTreeSet;

/// The parties of share lines and who is paid what they claim.
#[derive(Drop)]
pub(crate) struct Parties {
    /// The payee of each account, in byte order; the residue's has none.
    pub(crate) payees: Vec<Vec<u8>>,
    /// The account of each party. Those of one account stand side by side, in order of account.
    pub(crate) accounts: IndexMap<PartyName, Account>,
}

/// The parties of these share lines.
pub(crate) fn parties_of(
    alloc: Global,
    payees: &Payees,
    registrations: &[Vec<ShareRecord>],
) -> Result<Parties, CwrFault>
    requires filled { All (λ lines. All IsShareLine lines.items) registrations.now }
    ensures parties { IfOk result (λ parties. AreAccountsOf payees.now (map (λ lines. lines.items) registrations.now)
        (map (λ party. (party.0.items, party.1)) parties.accounts.entries) (map (λ payee. payee.items) parties.payees.items)) }
    ensures short { IfOk result (λ parties. AreShort (names_of parties.accounts.entries)) }
    ensures fault { IfErr result (λ fault. (fault ≡ Memory) ⊎ ((fault ≡ Accounts) × HasMany payees.now (map (λ lines. lines.items) registrations.now))) }
{
    let mut seen = IndexSet::new(alloc);
    let mut found = BTreeSet::new(alloc);
    for shares in registrations {
        add_parties(alloc, payees, shares.as_slice(), &mut seen, &mut found)?;
    }
    let by_account = by_account(alloc, found)?;
    let accounts = in_order_of_account(alloc, payees, seen.as_slice(), by_account.as_slice())?;
    Ok(Parties {
        payees: by_account,
        accounts,
    })
}

/// Adds the parties of a registration and their payees. Of those that were seen before the payees are
/// found already.
fn add_parties(
    alloc: Global,
    payees: &Payees,
    shares: &[ShareRecord],
    seen: &mut IndexSet<PartyName>,
    found: &mut BTreeSet<Vec<u8>>,
) -> Result<(), CwrFault>
    requires seen { AreFound payees.now (texts_of found.old) seen.old.keys }
    requires few { btree_set_len found.old ≤ MOST_ACCOUNTS }
    requires filled { AreFilled (texts_of found.old) }
    requires sound { All IsShareLine shares.now }
    ensures payees { OnOk result (HasAdded (texts_of found.old) (map (payee_by payees.now) shares.now) (texts_of found.new)) }
    ensures parties { OnOk result (HasAdded (texts_in seen.old.keys) (map party_of shares.now) (texts_in seen.new.keys)) }
    ensures few { OnOk result (btree_set_len found.new ≤ MOST_ACCOUNTS) }
    ensures seen { OnOk result (AreFound payees.now (texts_of found.new) seen.new.keys) }
    ensures filled { OnOk result (AreFilled (texts_of found.new)) }
    ensures fault { IfErr result (λ fault. (fault ≡ Memory) ⊎ ((fault ≡ Accounts) × (MOST_ACCOUNTS < length (texts_of found.new))
        × IsStrictlySortedBy (slice_cmp nat_cmp) (texts_of found.new)
        × All (λ text. Contains (texts_of found.old) text ⊎ Contains (map (payee_by payees.now) shares.now) text) (texts_of found.new))) }
{
    for share in shares {
        if !seen.contains(&share.party) {
            let party = share.party.as_slice();
            seen.insert(in_place(party))?;
            found.insert(Vec::from_slice(alloc, payees.payee_of(party))?)?;
            if found.len() > MOST_ACCOUNTS {
                return Err(CwrFault::Accounts);
            }
        }
    }
    Ok(())
}

/// The residue's account, and the payees' after it.
fn by_account(alloc: Global, found: BTreeSet<Vec<u8>>) -> Result<Vec<Vec<u8>>, AllocError>
    requires { AreFilled (texts_of found) }
    ensures payees { IfOk result (λ payees. map (λ payee. payee.items) payees.items ≡ [] ∷ texts_of found) }
    ensures rising { IfOk result (λ payees. IsStrictlySortedBy (slice_cmp nat_cmp) (map (λ payee. payee.items) payees.items)) }
{
    let mut payees = Vec::new(alloc);
    payees.push(Vec::new(alloc))?;
    payees.extend(found)?;
    Ok(payees)
}

/// The account of each party, which is that of its payee, in order of account.
fn in_order_of_account(
    alloc: Global,
    payees: &Payees,
    seen: &[PartyName],
    by_account: &[Vec<u8>],
) -> Result<IndexMap<PartyName, Account>, AllocError>
    requires rising { IsStrictlySortedBy (slice_cmp nat_cmp) (map (λ payee. payee.items) by_account.now) }
    requires few { length by_account.now ≤ MOST_ACCOUNTS + 1 }
    requires residue { slice_index_or (map (λ payee. payee.items) by_account.now) 0 [] ≡ [] }
    requires known { AreFound payees.now (map (λ payee. payee.items) by_account.now) seen.now }
    requires filled { AreFilled (texts_in seen.now) }
    ensures same { IfOk result (λ parties. (text : List ℕ) → Contains (names_of parties.entries) text ↔ Contains (texts_in seen.now) text) }
    ensures once { IfOk result (λ parties. AllPairs (λ name later. ¬ (name ≡ later)) (names_of parties.entries)) }
    ensures paid { IfOk result (λ parties. All (λ party. IsAccountOf (map (λ payee. payee.items) by_account.now) (payee_of payees.now party.0.items) party.1) parties.entries) }
    ensures ordered { IfOk result (λ parties. IsNonDecreasingBy (λ party. party.1) parties.entries) }
    ensures short { IfOk result (λ parties. AreShort (names_of parties.entries)) }
{
    let mut accounts = IndexMap::new(alloc);
    for party in seen {
        let number = party.as_slice();
        if let Some(account) = account_of(by_account, payees.payee_of(number)) {
            accounts.insert(in_place(number), account)?;
        }
    }
    accounts.sort_unstable_by_key(|_, account| *account)?;
    Ok(accounts)
}

/// The account of a payee: its place among the payees, where it has one.
pub(crate) fn account_of(payees: &[Vec<u8>], payee: &[u8]) -> Option<Account>
    requires rising { IsStrictlySortedBy (slice_cmp nat_cmp) (map (λ other. other.items) payees.now) }
    requires few { length payees.now ≤ MOST_ACCOUNTS + 1 }
    ensures some { IfSome result (λ account. (account < length payees.now) × (slice_index_or (map (λ other. other.items) payees.now) account [] ≡ payee.now)) }
    ensures none { IfNone result (¬ Contains (map (λ other. other.items) payees.now) payee.now) }
{
    match payees.binary_search_by(|other| other.as_slice().cmp(payee)) {
        Ok(place) => Some(place as Account),
        Err(_) => None,
    }
}
