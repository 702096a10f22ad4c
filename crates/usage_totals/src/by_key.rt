//! What usage lines come to by what they are of, such as a work, and where most of the money is.

ghost use Rattle.std.specs.Prelude.{ℕ, ℤ, ◌≡◌, ◌⊎◌, ◌+◌, ◌<◌, ◌≤◌, ◌++◌, ◌∷◌, [], All, List, IfOk, OnOk, IsPermutation};
ghost use Rattle.std.specs.Prelude.{Bool, filter, length, map, option_map, slice_get, true, unsigned_abs};
ghost use Rattle.line_split.specs.UsageLine.{UsageLine, usage_line_of};
ghost use Rattle.line_split.specs.declared.TheConstants.{MOST_AMOUNT, MOST_LINES};
ghost use Rattle.usage_totals.specs.Greatest.{AreFirst, AreGreatest, amounts_at, by_money as in_order_of_money};
ghost use Rattle.usage_totals.specs.SoFar.{AreCounted, AreHashed, AreSmall, HasRoom, IsWithin, StandTogether};
ghost use Rattle.usage_totals.specs.SoFar.{amount_at, counted_at, hash_by, in_order_of_hash, picked, with_amount};

use crate::name::Name;
use crate::total::Total;
use line_split::{Line, Usage};
use std::alloc::{AllocError, Global};
use std::cmp::Ordering;
use std::hash::{FoldHasher, Hash, Hasher};
use std::mem;

/// Keys in order of money: the first of them, and how many there are.
#[derive(Debug, Drop)]
pub struct Ranked<K: Drop> {
    /// The keys with most money, the most first, and what the lines of each come to.
    pub first: Vec<(K, Total)>,
    /// How many keys there are, those that are left out too.
    pub count: u64,
}

/// What a usage line may be counted by.
pub(crate) trait Key<'a>: Hash + Ord + Drop {
    ghost key: { UsageLine → Self };

    /// The key of a line.
    fn of_line(line: &Line<'a>) -> Self
        ensures { result ≡ key (usage_line_of line.now) };
}

/// The work.
impl<'a> Key<'a> for Name<'a> {
    ghost key = { λ line. line.work };

    fn of_line(line: &Line<'a>) -> Name<'a> {
        Name::of(line.work)
    }
}

/// The territory.
impl<'a> Key<'a> for u16 {
    ghost key = { λ line. line.territory };

    fn of_line(line: &Line<'a>) -> u16 {
        line.territory
    }
}

/// The place of a line that counts, a hash of its key, and its amount.
#[derive(Clone, Copy, Debug)]
struct Hashed {
    hash: u32,
    place: u32,
    amount: i64,
}

/// The keys with most money of the lines that have an amount, so many at most, what the amounts of each come to, and
/// how many keys there are. The lines are sorted, so that no more is kept of a key than its lines' places.
pub(crate) fn greatest<'a, K: Key<'a>>(
    alloc: Global,
    usage: &'a Usage,
    amounts: &[Option<i64>],
    most: usize,
) -> Result<Ranked<K>, AllocError>
    requires length { length amounts.now ≡ length usage.now }
    requires small { AreSmall amounts.now }
    ensures { IfOk result (λ ranked. (counts : UsageLine → Bool) (amount : UsageLine → ℤ)
        → amounts.now ≡ map (picked counts amount) usage.now
        → AreGreatest K.eq K.cmp most (map (λ line. (K.key line, amount line)) (filter counts usage.now)) ranked) }
{
    let mut places = places_of::<K>(alloc, usage, amounts)?;
    bring_together::<K>(usage, &mut places);
    greatest_of(alloc, usage, places.as_slice(), most)
}

/// The places of the lines that have an amount.
fn places_of<'a, K: Key<'a>>(
    alloc: Global,
    usage: &'a Usage,
    amounts: &[Option<i64>],
) -> Result<Vec<Hashed>, AllocError>
    requires length { length amounts.now ≡ length usage.now }
    requires small { AreSmall amounts.now }
    ensures hashed { IfOk result (λ places. AreHashed K.eq K.key usage.now places.items) }
    ensures few { IfOk result (λ places. length places.items ≤ MOST_LINES) }
    ensures lines { IfOk result (λ places. (counts : UsageLine → Bool) (amount : UsageLine → ℤ)
        → amounts.now ≡ map (picked counts amount) usage.now
        → map (counted_at usage.now) places.items ≡ map (with_amount amount) (filter counts usage.now)) }
{
    let mut places = Vec::with_capacity(alloc, usage.len())?;
    for place in 0..usage.len() {
        if let Some(amount) = amounts[place] {
            let key = K::of_line(&usage.line(place));
            places.push(Hashed {
                hash: hash_of(&key),
                place: place as u32,
                amount,
            })?;
        }
    }
    Ok(places)
}

/// A hash of a key. Whoever writes a list can give many keys one hash: these take longer to sort.
fn hash_of<K: Hash>(key: &K) -> u32
    ensures { result ≡ hash_by (K.hash_input key.now) }
{
    let mut state = FoldHasher::default();
    key.hash(&mut state);
    (state.finish() >> 32) as u32
}

/// Sorts lines, so that those of one key stand together.
fn bring_together<'a, K: Key<'a>>(usage: &'a Usage, places: &mut Vec<Hashed>)
    requires { AreHashed K.eq K.key usage.now places.old.items }
    ensures same { IsPermutation places.old.items places.new.items }
    ensures len { length places.new.items ≡ length places.old.items }
    ensures within { All (λ hashed. hashed.place < length usage.now) places.new.items }
    ensures small { All (λ hashed. unsigned_abs hashed.amount ≤ MOST_AMOUNT) places.new.items }
    ensures together { StandTogether K.eq (map (amount_at K.key usage.now) places.new.items) }
{
    places.sort_unstable_by(
        |hashed, other| -> Ordering
            ensures { result ≡ in_order_of_hash K.cmp K.key usage.entry.now hashed.now other.now }
        { by_hash::<K>(usage, hashed, other) },
    );
}

/// By the hash, which stands at hand, and where that is the same by the key.
fn by_hash<'a, K: Key<'a>>(usage: &'a Usage, hashed: &Hashed, other: &Hashed) -> Ordering
    ensures { result ≡ in_order_of_hash K.cmp K.key usage.now hashed.now other.now }
{
    match hashed.hash.cmp(&other.hash) {
        Ordering::Equal => {
            key_at::<K>(usage, hashed.place).cmp(&key_at::<K>(usage, other.place))
        }
        unequal => unequal,
    }
}

/// The key of the line at a place.
fn key_at<'a, K: Key<'a>>(usage: &'a Usage, place: u32) -> Option<K>
    ensures { result ≡ option_map K.key (slice_get usage.now place) }
{
    let place = place as usize;
    if place < usage.len() {
        Some(K::of_line(&usage.line(place)))
    } else {
        None
    }
}

/// The keys with most money, so many at most, and what the amounts of each come to, which stand together.
fn greatest_of<'a, K: Key<'a>>(
    alloc: Global,
    usage: &'a Usage,
    places: &[Hashed],
    most: usize,
) -> Result<Ranked<K>, AllocError>
    requires within { All (λ hashed. hashed.place < length usage.now) places.now }
    requires small { All (λ hashed. unsigned_abs hashed.amount ≤ MOST_AMOUNT) places.now }
    requires few { length places.now ≤ MOST_LINES }
    requires together { StandTogether K.eq (map (amount_at K.key usage.now) places.now) }
    ensures { IfOk result (AreGreatest K.eq K.cmp most (map (amount_at K.key usage.now) places.now)) }
{
    let mut ranked = Ranked {
        first: Vec::new(alloc),
        count: 0,
    };
    if places.is_empty() {
        return Ok(ranked);
    }
    let (key, amount) = amount_of::<K>(usage, &places[0]);
    let mut at_hand = (key, Total::none().with(amount));
    for next in 1..places.len() {
        let amount = amount_of(usage, &places[next]);
        count(&mut ranked, &mut at_hand, amount, most)?;
    }
    put(&mut ranked, at_hand, most)?;
    Ok(ranked)
}

/// The key of a line that counts, and its amount.
fn amount_of<'a, K: Key<'a>>(usage: &'a Usage, hashed: &Hashed) -> (K, i64)
    requires { hashed.now.place < length usage.now }
    ensures { result ≡ amount_at K.key usage.now hashed.now }
{
    let line = usage.line(hashed.place as usize);
    (K::of_line(&line), hashed.amount)
}

/// Counts one amount more. Amounts stand together by key, so one of another key ends those at hand.
fn count<K: Ord + Drop>(
    ranked: &mut Ranked<K>,
    at_hand: &mut (K, Total),
    amount: (K, i64),
    most: usize,
) -> Result<(), AllocError>
    requires room { HasRoom at_hand.old.1 }
    requires small { unsigned_abs amount.1 ≤ MOST_AMOUNT }
    requires few { ranked.old.count < MOST_LINES }
    ensures counted { OnOk result ((amounts : List (K × ℤ))
        → AreCounted K.eq K.cmp most amounts at_hand.old ranked.old
        → (K.eq amount.0 at_hand.old.0 ≡ true) ⊎ (amounts_at K.eq amount.0 amounts ≡ [])
        → AreCounted K.eq K.cmp most (amounts ++ amount ∷ []) at_hand.new ranked.new) }
    ensures key { OnOk result (K.eq amount.0 at_hand.new.0 ≡ true) }
    ensures within { OnOk result ((lines : ℕ) → IsWithin lines at_hand.old.1 → IsWithin (lines + 1) at_hand.new.1) }
    ensures few { OnOk result (ranked.new.count ≤ ranked.old.count + 1) }
{
    if amount.0 == at_hand.0 {
        at_hand.1 = at_hand.1.with(amount.1);
        return Ok(());
    }
    let next = (amount.0, Total::none().with(amount.1));
    let before = mem::replace(at_hand, next);
    put(ranked, before, most)
}

/// Puts one key more and its total at their place among the first in order of money, of which so many are kept at most.
fn put<K: Ord + Drop>(
    ranked: &mut Ranked<K>,
    entry: (K, Total),
    most: usize,
) -> Result<(), AllocError>
    requires { ranked.old.count < MOST_LINES }
    ensures first { OnOk result ((all : List (K × Total))
        → AreFirst (in_order_of_money K.cmp) most all ranked.old.first.items
        → AreFirst (in_order_of_money K.cmp) most (entry ∷ all) ranked.new.first.items) }
    ensures count { ranked.new.count ≡ ranked.old.count + 1 }
{
    ranked.count += 1;
    let first = &mut ranked.first;
    let place = first.partition_point(|other| by_money(other, &entry).is_lt());
    if place < most {
        first.truncate(most - 1);
        first.insert(place, entry)?;
    }
    Ok(())
}

/// More money comes first, and among as much the lesser key.
fn by_money<K: Ord>(total: &(K, Total), other: &(K, Total)) -> Ordering
    ensures { result ≡ in_order_of_money K.cmp total.now other.now }
{
    let order = other
        .1
        .amount
        .unsigned_abs()
        .cmp(&total.1.amount.unsigned_abs());
    match order {
        Ordering::Equal => total.0.cmp(&other.0),
        unequal => unequal,
    }
}
