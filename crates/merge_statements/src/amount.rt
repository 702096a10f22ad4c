//! The numbers of a row, read just as a run writes them: no plus, no needless zero, no `-0`.

ghost use Rattle.std.specs.Fmt.{signed_decimal};
ghost use Rattle.std.specs.Prelude.{◌≡◌, ◌≤◌, ◌<◌, ◌^◌, ◌∷◌, ◌↔◌, List, ℕ, ℤ, IfNone, IfSome, IsTrue, decimal, length};
ghost use Rattle.std.specs.Prelude.{slice_index};
ghost use Rattle.merge_statements.specs.Statements.{IsAmount};

use csv_table::forms::number_up_to;

/// The most that an amount comes to, either way: a million millions of minor units.
pub const MOST_AMOUNT: u64 = 1_000_000_000_000;

/// The most that rows or usage lines are counted to.
pub const MOST_COUNT: u64 = 1_000_000_000_000_000_000;

/// The amount that a field writes, in minor units. It is not 0, and no larger than the most.
pub fn amount_of(field: &[u8]) -> Option<i64>
    ensures amount { IfSome result (λ amount. IsAmount amount × (field.now ≡ signed_decimal amount)) }
    ensures none { IfNone result ((amount : ℤ) → IsAmount amount → ¬ (field.now ≡ signed_decimal amount)) }
{
    match strip_minus(field) {
        Some(digits) => Some(-(size_of(digits)? as i64)),
        None => Some(size_of(field)? as i64),
    }
}

/// The count that a field writes.
pub fn count_of(field: &[u8]) -> Option<u64>
    ensures count { IfSome result (λ count. (count ≤ 10 ^ 18) × (field.now ≡ decimal count)) }
    ensures none { IfNone result ((count : ℕ) → count ≤ 10 ^ 18 → ¬ (field.now ≡ decimal count)) }
{
    number_of(field, MOST_COUNT)
}

/// What stands behind the minus of a field that begins with one.
fn strip_minus(field: &[u8]) -> Option<&[u8]>
    ensures digits { IfSome result (λ digits. field.now ≡ 45 ∷ digits.now) }
    ensures none { IfNone result ((digits : List ℕ) → ¬ (field.now ≡ 45 ∷ digits)) }
{
    match field {
        [b'-', digits @ ..] => Some(digits),
        _ => None,
    }
}

/// The size of an amount, which stands without its sign.
fn size_of(digits: &[u8]) -> Option<u64>
    ensures size { IfSome result (λ size. (0 < size) × (size ≤ 1000000000000) × (digits.now ≡ decimal size)) }
    ensures none { IfNone result ((size : ℕ) → 0 < size → size ≤ 1000000000000 → ¬ (digits.now ≡ decimal size)) }
{
    match number_of(digits, MOST_AMOUNT) {
        Some(size) if size > 0 => Some(size),
        _ => None,
    }
}

/// The number that a field writes in decimal digits, where it is at most `most`.
fn number_of(field: &[u8], most: u64) -> Option<u64>
    ensures number { IfSome result (λ number. (number ≤ most) × (field.now ≡ decimal number)) }
    ensures none { IfNone result ((number : ℕ) → number ≤ most → ¬ (field.now ≡ decimal number)) }
{
    if has_needless_zero(field) {
        return None;
    }
    number_up_to(field, most)
}

/// Whether a zero comes first, and more behind it.
fn has_needless_zero(field: &[u8]) -> bool
    ensures { IsTrue result ↔ ((1 < length field.now) × (slice_index field.now 0 ≡ 48)) }
{
    field.len() > 1 && field[0] == b'0'
}
