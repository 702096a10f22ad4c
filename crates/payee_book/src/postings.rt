//! A posting, and lists of postings for accounts.

ghost use Rattle.std.specs.Prelude.{◌≡◌, [], IfOk, map, replicate};

use std::alloc::{AllocError, Global};

/// What a usage line gives an account: the line's number, from 0, and an amount in minor units, which
/// is below 0 where money is taken back.
pub type Posting = (u64, i64);

/// For each of so many accounts a list with no postings.
pub(crate) fn no_postings(alloc: Global, accounts: u16) -> Result<Vec<Vec<Posting>>, AllocError>
    ensures { IfOk result (λ lists. map (λ list. list.items) lists.items ≡ replicate accounts []) }
{
    let mut lists = Vec::new(alloc);
    for _ in 0..accounts {
        lists.push(Vec::new(alloc))?;
    }
    Ok(lists)
}
