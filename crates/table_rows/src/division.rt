//! Claims, and the division against its definition, computed slowly.

ghost use Rattle.std.specs.Prelude.{◌<◌, ◌≤◌, ◌↔◌, All, IsTrue, unsigned_abs};

use crate::asked::{Asked, named_and_numbered};
use anyhow::{Result, ensure};
use line_split::{
    Account, ClaimFault, Claims, MOST_AMOUNT, MOST_CLAIMED, MOST_CLAIMS, Portions, portion_by_rank,
    split,
};
use std::alloc::{AllocError, Global};

pub fn add_answer(alloc: Global, asked: &Asked<'_>, answer: &mut String) -> Result<()> {
    match asked.ask {
        "portions" => add_portions(alloc, asked.text(), answer),
        "divided" => add_divided(alloc, asked.text(), answer),
        "claims" => add_claims(alloc, asked.text(), answer),
        "room" => add_room(alloc, asked.text(), answer),
        "fault" => add_fault(fault_in(asked.text()), answer),
        _ => Ok(asked.add_unknown(answer)?),
    }
}

/// The claims in a text, each an account and its share, `ACCOUNT=SHARE`.
fn claims_in(alloc: Global, text: &str) -> Result<Vec<(Account, u32)>, AllocError> {
    let mut list = Vec::new(alloc);
    for word in text.split_whitespace() {
        let (account, share) = word.split_once('=').unwrap_or((word, ""));
        list.push((account.parse().unwrap_or(0), share.parse().unwrap_or(0)))?;
    }
    Ok(list)
}

/// Whether all accounts in a list are parties'.
fn are_parties(list: &[(Account, u32)]) -> bool
    ensures { IsTrue result ↔ All (λ claim. 0 < claim.0) list.now }
{
    list.iter().all(|claim| claim.0 > 0)
}

/// The claims of a good list.
fn claims_of(alloc: Global, list: &[(Account, u32)]) -> Result<Claims> {
    ensure!(are_parties(list), "a claim of the residue's account");
    let claims = Claims::of(alloc, list)?;
    ensure!(
        claims.list().len() == list.len(),
        "more or fewer claims than in the list"
    );
    Ok(claims)
}

/// Adds the claims of a list in order and how many find room where they stand, or the list's fault.
fn add_claims(alloc: Global, question: &str, answer: &mut String) -> Result<()> {
    let list = claims_in(alloc, question)?;
    ensure!(
        are_parties(list.as_slice()),
        "a claim of the residue's account"
    );
    match Claims::of(alloc, list.as_slice()) {
        Ok(claims) => write!(answer, "{:?} in {}", claims.list(), claims.spare())?,
        Err(fault) => write!(answer, "{fault:?}")?,
    }
    Ok(())
}

/// Whether a portion has this size and, where it is not 0, the amount's sign.
fn is_signed(portion: i64, size: u64, amount: i64) -> bool {
    portion.unsigned_abs() == size && (portion == 0 || (portion < 0) == (amount < 0))
}

/// Whether each portion of an amount is the slow program's, with the amount's sign.
fn are_by_rank(amount: i64, claims: &Claims, portions: &Portions) -> bool
    requires { unsigned_abs amount ≤ MOST_AMOUNT }
{
    for place in 0..claims.list().len() + 1 {
        let size = portion_by_rank(amount.unsigned_abs(), claims, place);
        match portions.list().get(place) {
            Some(portion) if is_signed(portion.1, size, amount) => {}
            _ => return false,
        }
    }
    true
}

/// The portions of an amount, each of which has to be the slow program's.
fn divided(alloc: Global, amount: i64, claims: &Claims) -> Result<Portions> {
    ensure!(amount.unsigned_abs() <= MOST_AMOUNT, "too large an amount");
    let room = claims.list().len() + 1;
    let mut portions = Portions::room(alloc, room)?;
    split(amount, claims, &mut portions);
    ensure!(portions.spare() == room, "more or less room than before");
    ensure!(
        are_by_rank(amount, claims, &portions),
        "not as by rank: {amount}"
    );
    Ok(portions)
}

/// Adds the portions of an amount by the claims that follow it.
fn add_portions(alloc: Global, question: &str, answer: &mut String) -> Result<()> {
    let (amount, claims) = question.split_once(' ').unwrap_or((question, ""));
    let claims = claims_of(alloc, claims_in(alloc, claims)?.as_slice())?;
    let portions = divided(alloc, amount.parse()?, &claims)?;
    write!(answer, "{:?}", portions.list())?;
    Ok(())
}

/// Divides amounts by the beginnings, of every length from 1 on, of the claims that follow them after a slash. Adds how
/// many of those beginnings are claims in the order in which they stand.
fn add_divided(alloc: Global, question: &str, answer: &mut String) -> Result<()> {
    let (amounts, claims) = question.split_once('/').unwrap_or((question, ""));
    let list = claims_in(alloc, claims)?;
    let mut kept = 0u32;
    for end in 1..=list.len() {
        let is_kept = divide_each(alloc, amounts, &list.as_slice()[..end])?;
        kept = kept.saturating_add(u32::from(is_kept));
    }
    write!(answer, "as by rank, {kept} kept")?;
    Ok(())
}

/// Divides each amount by the claims in a list. The answer is whether the claims are the list.
fn divide_each(alloc: Global, amounts: &str, list: &[(Account, u32)]) -> Result<bool> {
    let claims = claims_of(alloc, list)?;
    for amount in amounts.split_whitespace() {
        let _ = divided(alloc, amount.parse()?, &claims)?;
    }
    Ok(claims.list() == list)
}

/// Makes room for as many claims as the question says, and takes those that follow into it.
fn add_room(alloc: Global, question: &str, answer: &mut String) -> Result<()> {
    let (room, claims) = question.split_once(' ').unwrap_or((question, ""));
    let list = claims_in(alloc, claims)?;
    let mut claims = Claims::room(alloc, room.parse::<usize>()?.min(MOST_CLAIMS))?;
    fill_and_clear(&mut claims, list.as_slice(), answer)
}

/// Adds how much room there is and how many claims, before those of a list are taken in, then, and when all are taken
/// out.
fn fill_and_clear(claims: &mut Claims, list: &[(Account, u32)], answer: &mut String) -> Result<()> {
    write!(answer, "{} {}, ", claims.spare(), claims.list().len())?;
    for (account, claim) in list {
        push(claims, *account, *claim)?;
    }
    ensure!(claims.list() == list, "other claims than were taken in");
    write!(answer, "{} {}, ", claims.spare(), claims.list().len())?;
    claims.clear();
    write!(answer, "{} {}", claims.spare(), claims.list().len())?;
    Ok(())
}

/// Adds a claim last, where that is allowed.
fn push(claims: &mut Claims, account: Account, claim: u32) -> Result<()> {
    ensure!(
        account > 0 && claim <= MOST_CLAIMED && claims.list().len() < claims.spare(),
        "a claim that may not be added"
    );
    ensure!(
        claims.list().iter().all(|other| other.0 < account),
        "a claim whose account is not the last"
    );
    claims.push(account, claim);
    Ok(())
}

/// Adds a fault's number, its place and its text.
fn add_fault(fault: ClaimFault, answer: &mut String) -> Result<()> {
    write!(answer, "{} {:?} {fault}", fault.number(), fault.place())?;
    Ok(())
}

/// The fault of a name and a place.
fn fault_in(text: &str) -> ClaimFault {
    let (name, place) = named_and_numbered(text);
    match name {
        "Share" => ClaimFault::Share(place),
        "Twice" => ClaimFault::Twice(place),
        "Many" => ClaimFault::Many,
        _ => ClaimFault::Memory,
    }
}
