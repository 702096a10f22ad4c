//! The division that the words of a command line ask for.

ghost use Rattle.std.specs.Prelude.{◌≡◌, ◌≤◌, ◌<◌, ◌+◌, ℕ, length, map, All, IfOk, IfErr, IfSome, IfNone, IsTrue, ◌↔◌, ◌++◌, OnOk, string_bytes};
ghost use Rattle.line_split.specs.declared.TheConstants.{MOST_AMOUNT};
ghost use Rattle.line_split.specs.FairSplit.{sizes_of};
ghost use Rattle.line_split.specs.FirstPlace.{IsFirstPlace};
ghost use Rattle.pair_split.specs.Pair.{IsPair, claims_of as claims_made};
ghost use Rattle.pair_split.specs.PairFault.{AreSound, IsFaultOf, IsMalformed, IsNamedBefore};
ghost use Rattle.pair_split.specs.Rows.{labels_of, row_of, split_text, text_of};

use crate::pair::{is_pair, party_of, share_of, word};
use crate::pair_fault::PairFault;
use csv_table::RowWriter;
use itoa::Buffer;
use line_split::{Account, ClaimFault, Claims, MOST_CLAIMS, Portions, split};
use std::alloc::{AllocError, Global};

/// Divides `amount`, in minor units, by words PARTY=SHARE, and answers the portions as CSV: a row
/// `P,party,portion` for each word in order, then `M,,portion` for the residue. The k-th word has
/// account k.
pub fn split_words(alloc: Global, amount: u64, words: &[String]) -> Result<Vec<u8>, PairFault>
    requires { amount ≤ MOST_AMOUNT }
    ensures rows { IfOk result (λ text. text.items ≡ split_text amount (map string_bytes words.now)) }
    ensures sound { IfOk result (λ _. AreSound (map string_bytes words.now)) }
    ensures fault { IfErr result (IsFaultOf (map string_bytes words.now)) }
{
    if words.len() > MOST_CLAIMS {
        return Err(PairFault::Many);
    }
    if let Some(place) = first_malformed(words) {
        return Err(PairFault::Pair(place as u64 + 1));
    }
    if let Some(place) = first_named_before(words) {
        return Err(PairFault::Name(place as u64 + 1));
    }
    let claims = claims_of(alloc, words)?;
    let Ok(mut portions) = Portions::room(alloc, words.len() + 1) else {
        return Err(PairFault::Memory);
    };
    split(amount as i64, &claims, &mut portions);
    rows(alloc, words, portions.list())
}

/// The first word that is not PARTY=SHARE.
fn first_malformed(words: &[String]) -> Option<usize>
    ensures found { IfSome result (λ place. (place < length words.now) × IsFirstPlace (IsMalformed (map string_bytes words.now)) (place + 1)) }
    ensures none { IfNone result (All IsPair (map string_bytes words.now)) }
{
    for place in 0..words.len() {
        if !is_pair(word(words, place)) {
            return Some(place);
        }
    }
    None
}

/// The first word whose party stands in an earlier one.
fn first_named_before(words: &[String]) -> Option<usize>
    requires { All IsPair (map string_bytes words.now) }
    ensures found { IfSome result (λ place. (place < length words.now) × IsFirstPlace (IsNamedBefore (map string_bytes words.now)) (place + 1)) }
    ensures none { IfNone result ((i : ℕ) → ¬ IsNamedBefore (map string_bytes words.now) i) }
{
    for place in 0..words.len() {
        if is_named_before(words, place) {
            return Some(place);
        }
    }
    None
}

/// Whether the party of the word at a place stands in an earlier word too.
fn is_named_before(words: &[String], place: usize) -> bool
    requires pairs { All IsPair (map string_bytes words.now) }
    requires place { place < length words.now }
    ensures { IsTrue result ↔ IsNamedBefore (map string_bytes words.now) place }
{
    for earlier in 0..place {
        if party_of(word(words, earlier)) == party_of(word(words, place)) {
            return true;
        }
    }
    false
}

/// The claims that the words make: the k-th word's has account k.
fn claims_of(alloc: Global, words: &[String]) -> Result<Claims, PairFault>
    requires few { length words.now ≤ MOST_CLAIMS }
    requires pairs { All IsPair (map string_bytes words.now) }
    requires named_once { (i : ℕ) → ¬ IsNamedBefore (map string_bytes words.now) i }
    ensures claims { IfOk result (λ claims. claims.list ≡ claims_made (map string_bytes words.now)) }
    ensures sound { IfOk result (λ _. AreSound (map string_bytes words.now)) }
    ensures fault { IfErr result (IsFaultOf (map string_bytes words.now)) }
{
    let Ok(list) = list_claims(alloc, words) else {
        return Err(PairFault::Memory);
    };
    match Claims::of(alloc, list.as_slice()) {
        Ok(claims) => Ok(claims),
        Err(ClaimFault::Share(place)) => Err(PairFault::Share(place)),
        Err(_) => Err(PairFault::Memory),
    }
}

/// The words' shares, by accounts from 1 on.
fn list_claims(alloc: Global, words: &[String]) -> Result<Vec<(Account, u32)>, AllocError>
    requires few { length words.now ≤ MOST_CLAIMS }
    requires pairs { All IsPair (map string_bytes words.now) }
    ensures { IfOk result (λ list. list.items ≡ claims_made (map string_bytes words.now)) }
{
    let mut list = Vec::new(alloc);
    for place in 0..words.len() {
        let account = place as Account + 1;
        list.push((account, share_of(word(words, place))))?;
    }
    Ok(list)
}

/// The rows of the portions, the last of them the residue's. None is negative, so its size is what is written.
fn rows(alloc: Global, words: &[String], portions: &[(Account, i64)]) -> Result<Vec<u8>, PairFault>
    requires pairs { All IsPair (map string_bytes words.now) }
    requires each { length portions.now ≡ length words.now + 1 }
    ensures text { IfOk result (λ text. text.items ≡ text_of (labels_of (map string_bytes words.now)) (sizes_of portions.now)) }
    ensures memory { IfErr result (λ fault. fault ≡ PairFault.Memory) }
{
    let mut out = RowWriter::new(alloc);
    for place in 0..words.len() {
        let party = party_of(word(words, place));
        write_row(&mut out, "P", party, portions[place].1.unsigned_abs())?;
    }
    write_row(&mut out, "M", "", portions[words.len()].1.unsigned_abs())?;
    match out.into_text() {
        Ok(text) => Ok(text),
        Err(_) => Err(PairFault::Memory),
    }
}

/// Writes the row of one portion.
fn write_row(out: &mut RowWriter, kind: &str, party: &str, portion: u64) -> Result<(), PairFault>
    ensures row { OnOk result (out.new.text ≡ out.old.text ++ row_of kind.now party.now portion) }
    ensures memory { IfErr result (λ fault. fault ≡ PairFault.Memory) }
{
    let mut digits = Buffer::new();
    let portion = digits.format(portion);
    match out.row(&[kind.as_bytes(), party.as_bytes(), portion.as_bytes()]) {
        Ok(()) => Ok(()),
        Err(_) => Err(PairFault::Memory),
    }
}
