//! The claims on one usage line.

ghost use Rattle.std.specs.Prelude.{◌≡◌, ◌<◌, ◌≤◌, ◌++◌, ◌∷◌, [], All, IfOk, IfErr, length, map};
ghost use Rattle.std.specs.List.Sorted.{IsPermutation, IsStrictlyIncreasing};
ghost use Rattle.line_split.specs.declared.TheConstants.{FULL_SHARE, MOST_CLAIMED, MOST_CLAIMS, RESIDUE};
ghost use Rattle.line_split.specs.Claims.{AreClaims};

use crate::pairs::{by_account, first_over, first_twice};
use crate::{Account, MOST_CLAIMS};
use std::alloc::{AllocError, Global};
use std::marker::Model;
use thiserror::Error;

/// Why a list is no list of claims. Places count from 1.
#[derive(Clone, Copy, Debug, PartialEq, Eq, Error)]
pub enum ClaimFault {
    /// The claim at this place is over 100.00 per cent.
    #[error("claim {0} is over 100.00 per cent")]
    Share(u64),
    /// The account of the claim at this place has a claim before it.
    #[error("the account of claim {0} has a claim already")]
    Twice(u64),
    /// There are more than 256 claims.
    #[error("there are more than 256 claims")]
    Many,
    /// A growth of memory was refused.
    #[error("memory ran out")]
    Memory,
}

impl ClaimFault {
    ghost use Rattle.line_split.specs.ClaimFault.{number_of_fault, place_of_fault};

    /// The fault's number: 1 to 4, in the order above.
    pub fn number(&self) -> u8
        ensures { result ≡ number_of_fault self.now }
    {
        match self {
            ClaimFault::Share(_) => 1,
            ClaimFault::Twice(_) => 2,
            ClaimFault::Many => 3,
            ClaimFault::Memory => 4,
        }
    }

    /// The place of the claim at fault, from 1, where it is one claim's.
    pub fn place(&self) -> Option<u64>
        ensures { result ≡ place_of_fault self.now }
    {
        match *self {
            ClaimFault::Share(place) | ClaimFault::Twice(place) => Some(place),
            ClaimFault::Many | ClaimFault::Memory => None,
        }
    }
}

/// The claims on one line, in hundredths of a per cent: at most 256 pairs of an account and its
/// claim, in order of account, none of them the residue account's and none over 100.06 per cent. Their
/// room is taken once and used for many lines.
#[derive(Debug, Drop)]
pub struct Claims {
    pairs: Vec<(Account, u32)>,
    room: usize,
}

impl Model for Claims {
    ghost use Rattle.std.specs.Prelude.{◌≤◌, ℕ, length, vec_capacity};
    ghost use Rattle.line_split.specs.declared.TheConstants.{MOST_CLAIMS};
    ghost use Rattle.line_split.specs.Claims.{AreClaims};
    ghost use Rattle.line_split.specs.WithRoom.{WithRoom};

    ghost Value = { WithRoom ℕ };

    ghost view = { λ c. record { list = c.pairs.items; room = c.room } };

    ghost invariant = { λ c. AreClaims c.pairs.items × (length c.pairs.items ≤ c.room) × (c.room ≤ MOST_CLAIMS) × (c.room ≤ vec_capacity c.pairs) };
}

impl Claims {
    ghost use Rattle.line_split.specs.ClaimFault.{IsFaultOf};

    /// The claims of a list in any order, none of them over 100.00 per cent. Too many pairs are
    /// found first, then the first claim that is too large, then the first account that came before.
    pub fn of(alloc: Global, list: &[(Account, u32)]) -> Result<Claims, ClaimFault>
        requires { All (λ claim. RESIDUE < claim.0) list.now }
        ensures same { IfOk result (λ claims. IsPermutation list.now claims.list) }
        ensures sound { IfOk result (λ claims. AreClaims claims.list) }
        ensures shares { IfOk result (λ claims. All (λ claim. claim.1 ≤ FULL_SHARE) claims.list) }
        ensures in_order { IfOk result (λ claims. IsStrictlyIncreasing (map (λ claim. claim.0) list.now) → claims.list ≡ list.now) }
        ensures room { IfOk result (λ claims. claims.room ≡ length claims.list) }
        ensures fault { IfErr result (IsFaultOf list.now) }
    {
        if list.len() > MOST_CLAIMS {
            return Err(ClaimFault::Many);
        }
        if let Some(place) = first_over(list) {
            return Err(ClaimFault::Share(place as u64 + 1));
        }
        if let Some(place) = first_twice(list) {
            return Err(ClaimFault::Twice(place as u64 + 1));
        }
        match list.to_vec(alloc) {
            Ok(pairs) => Ok(Claims {
                pairs: by_account(pairs),
                room: list.len(),
            }),
            Err(_) => Err(ClaimFault::Memory),
        }
    }

    /// No claims, with room for `n` of them.
    pub fn room(alloc: Global, n: usize) -> Result<Claims, AllocError>
        requires { n ≤ MOST_CLAIMS }
        ensures { IfOk result (λ claims. claims ≡ record { list = []; room = n }) }
    {
        Ok(Claims {
            pairs: Vec::with_capacity(alloc, n)?,
            room: n,
        })
    }

    /// How many claims there is room for, whatever is in it.
    pub fn spare(&self) -> usize
        ensures room { result ≡ self.now.room }
        ensures few { result ≤ MOST_CLAIMS }
    {
        self.room
    }

    /// The pairs of an account and its claim, in order of account.
    pub fn list(&self) -> &[(Account, u32)]
        ensures value { result.now ≡ self.now.list }
        ensures sound { AreClaims self.now.list }
    {
        self.pairs.as_slice()
    }

    /// Takes all claims out. The room stays.
    pub fn clear(&mut self)
        ensures { self.new ≡ record { list = []; room = self.old.room } }
    {
        self.pairs.clear();
    }

    /// Adds a claim last, in hundredths of a per cent: that of an account above all others in the
    /// list, at most 100.06 per cent.
    pub fn push(&mut self, account: Account, claim: u32)
        requires account { RESIDUE < account }
        requires rising { All (λ other. other.0 < account) self.old.list }
        requires claim { claim ≤ MOST_CLAIMED }
        requires room { length self.old.list < self.old.room }
        ensures { self.new ≡ record { list = self.old.list ++ (account, claim) ∷ []; room = self.old.room } }
    {
        self.pairs.push_reserved((account, claim));
    }
}
