//! A row of a statement text: four fields, read from a line just as a run writes them.
//!
//! Texts have hundreds of millions of rows. So where no quote stands in a line, its fields are lent
//! out of it, and each byte is looked at twice. Where one does, they are copied, without their
//! quotes, into memory that the caller keeps.

ghost use Rattle.std.specs.Prelude.{◌≡◌, ◌≤◌, ◌<◌, ◌++◌, ◌∷◌, [], List, ℕ, ◌↔◌, IsTrue, IfNone, IfSome, drop, false};
ghost use Rattle.std.specs.Prelude.{length, take, vec_len};
ghost use Rattle.std.specs.List.{list_any};
ghost use Rattle.csv.specs.Writing.{default_writer, escaped, needs_quotes};
ghost use Rattle.csv_table.specs.Written.{text_of_row};
ghost use Rattle.merge_statements.specs.Fields.{IsBehindField, IsBehindQuote, IsFieldAt, fields_of, is_comma, is_mark};

use crate::buffer::BUFFER_BYTES;
use memchr::{memchr, memchr3};
use std::alloc::{AllocError, Global};

/// The four fields of a row.
#[derive(Clone, Copy)]
pub struct Row<'a> {
    /// What the row is: `L`, `S`, `M`, `T` or `R`.
    pub kind: &'a [u8],
    /// The payee, or why nobody gets it; empty in a row `T` or `R`.
    pub payee_or_reason: &'a [u8],
    /// The use, or how many portions or usage lines there are.
    pub usage_or_count: &'a [u8],
    /// The amount, or what the amounts come to.
    pub amount_or_total: &'a [u8],
}

/// A field, what stands behind it, and the memory that is left.
#[derive(Drop)]
struct Field<'a> {
    bytes: &'a [u8],
    rest: &'a [u8],
    room: &'a mut [u8],
}

/// Memory for fields that are copied, with room for the longest line.
#[derive(Drop)]
pub struct RowRoom {
    bytes: Vec<u8>,
    ghost size: { vec_len bytes ≡ 32768 },
}

impl RowRoom {
    /// Room for one row at a time.
    pub fn new(alloc: Global) -> Result<RowRoom, AllocError> {
        let bytes = vec![in alloc; 0u8; BUFFER_BYTES]?;
        Ok(RowRoom { bytes })
    }
}

impl<'a> Row<'a> {
    /// The row that a line of at most 32,768 bytes holds, given without its line feed. Only where
    /// a quote stands in the line is the room used.
    pub fn of(line: &'a [u8], room: &'a mut RowRoom) -> Option<Row<'a>>
        requires { length line.now ≤ 32768 }
        ensures row { IfSome result (λ row. text_of_row (fields_of row) ≡ line.now ++ 10 ∷ []) }
        ensures none { IfNone result ((fields : List (List ℕ)) → length fields ≡ 4
            → ¬ (text_of_row fields ≡ line.now ++ 10 ∷ [])) }
    {
        if has_mark(line) {
            quoted_row(line, room.bytes.as_mut_slice())
        } else {
            plain_row(line)
        }
    }
}

/// Whether a quote, a carriage return or a line feed stands in a text.
fn has_mark(text: &[u8]) -> bool
    ensures { result ≡ list_any is_mark text.now }
{
    memchr3(b'"', b'\r', b'\n', text).is_some()
}

/// The row that a line holds in which no byte but a comma has a meaning.
fn plain_row(line: &[u8]) -> Option<Row<'_>>
    requires { list_any is_mark line.now ≡ false }
    ensures row { IfSome result (λ row. text_of_row (fields_of row) ≡ line.now ++ 10 ∷ []) }
    ensures none { IfNone result ((fields : List (List ℕ)) → length fields ≡ 4
        → ¬ (text_of_row fields ≡ line.now ++ 10 ∷ [])) }
{
    let (kind, rest) = cut(line)?;
    let (payee_or_reason, rest) = cut(rest)?;
    let (usage_or_count, amount_or_total) = cut(rest)?;
    if let Some(_) = cut(amount_or_total) {
        return None;
    }
    Some(Row {
        kind,
        payee_or_reason,
        usage_or_count,
        amount_or_total,
    })
}

/// What stands before the first comma of a text, and what stands behind it.
fn cut(text: &[u8]) -> Option<(&[u8], &[u8])>
    ensures parts { IfSome result (λ parts. (text.now ≡ parts.0.now ++ 44 ∷ parts.1.now)
        × (list_any is_comma parts.0.now ≡ false)) }
    ensures none { IfNone result (list_any is_comma text.now ≡ false) }
{
    let comma = memchr(b',', text)?;
    Some((&text[..comma], &text[comma + 1..]))
}

/// The row that a line holds, with fields that may be copied.
fn quoted_row<'a>(line: &'a [u8], room: &'a mut [u8]) -> Option<Row<'a>>
    requires { length line.now ≤ length room.old }
    ensures row { IfSome result (λ row. text_of_row (fields_of row) ≡ line.now ++ 10 ∷ []) }
    ensures none { IfNone result ((fields : List (List ℕ)) → length fields ≡ 4
        → ¬ (text_of_row fields ≡ line.now ++ 10 ∷ [])) }
{
    let kind = field_of(line, room)?;
    let payee_or_reason = field_of(strip_comma(kind.rest)?, kind.room)?;
    let usage_or_count = field_of(strip_comma(payee_or_reason.rest)?, payee_or_reason.room)?;
    let amount_or_total = field_of(strip_comma(usage_or_count.rest)?, usage_or_count.room)?;
    if !amount_or_total.rest.is_empty() {
        return None;
    }
    Some(Row {
        kind: kind.bytes,
        payee_or_reason: payee_or_reason.bytes,
        usage_or_count: usage_or_count.bytes,
        amount_or_total: amount_or_total.bytes,
    })
}

/// What stands behind the comma of a text that begins with one.
fn strip_comma(text: &[u8]) -> Option<&[u8]>
    ensures rest { IfSome result (λ rest. text.now ≡ 44 ∷ rest.now) }
    ensures none { IfNone result ((rest : List ℕ) → ¬ (text.now ≡ 44 ∷ rest)) }
{
    match text {
        [b',', rest @ ..] => Some(rest),
        _ => None,
    }
}

/// The field at the beginning of a text, up to a comma or the end.
fn field_of<'a>(text: &'a [u8], room: &'a mut [u8]) -> Option<Field<'a>>
    requires { length text.now ≤ length room.old }
    ensures field { IfSome result (λ field. IsFieldAt text.now field.bytes.now field.rest.now) }
    ensures room { IfSome result (λ field. length field.rest.now ≤ length field.room.now) }
    ensures none { IfNone result ((field rest : List ℕ) → ¬ IsFieldAt text.now field rest) }
{
    if !text.is_empty() && text[0] == b'"' {
        quoted_field(&text[1..], room)
    } else {
        plain_field(text, room)
    }
}

/// The field at the beginning of a text that does not begin with a quote.
fn plain_field<'a>(text: &'a [u8], room: &'a mut [u8]) -> Option<Field<'a>>
    requires room { length text.now ≤ length room.old }
    requires plain { IsBehindQuote text.now }
    ensures field { IfSome result (λ field. IsFieldAt text.now field.bytes.now field.rest.now) }
    ensures room { IfSome result (λ field. length field.rest.now ≤ length field.room.now) }
    ensures none { IfNone result ((field rest : List ℕ) → ¬ IsFieldAt text.now field rest) }
{
    let (bytes, rest) = up_to_comma(text);
    if has_mark(bytes) {
        return None;
    }
    Some(Field { bytes, rest, room })
}

/// A text up to its first comma, or all of it where there is none, and the rest.
fn up_to_comma(text: &[u8]) -> (&[u8], &[u8])
    ensures parts { text.now ≡ result.0.now ++ result.1.now }
    ensures none { list_any is_comma result.0.now ≡ false }
    ensures ends { IsBehindField result.1.now }
{
    match memchr(b',', text) {
        Some(comma) => text.split_at(comma),
        None => (text, &[]),
    }
}

/// The field whose first quote stands just before a text.
fn quoted_field<'a>(text: &'a [u8], room: &'a mut [u8]) -> Option<Field<'a>>
    requires { length text.now ≤ length room.old }
    ensures field { IfSome result (λ field. IsFieldAt (34 ∷ text.now) field.bytes.now field.rest.now) }
    ensures room { IfSome result (λ field. length field.rest.now ≤ length field.room.now) }
    ensures none { IfNone result ((field rest : List ℕ) → ¬ IsFieldAt (34 ∷ text.now) field rest) }
{
    let (size, end) = unquote(text, room)?;
    let (bytes, room) = room.split_at_mut(size);
    let rest = &text[end..];
    if !needs_quotes(bytes) || !is_behind_field(rest) {
        return None;
    }
    Some(Field { bytes, rest, room })
}

/// Whether a field cannot be written without quotes.
fn needs_quotes(field: &[u8]) -> bool
    ensures { result ≡ needs_quotes default_writer field.now }
{
    field
        .iter()
        .any(|byte| matches!(*byte, b',' | b'"' | b'\r' | b'\n'))
}

/// Whether a text is empty or begins with a comma.
fn is_behind_field(text: &[u8]) -> bool
    ensures { IsTrue result ↔ IsBehindField text.now }
{
    text.is_empty() || text[0] == b','
}

/// Copies a field from behind its first quote, and answers how many bytes it has, and how many
/// were read with its last quote.
#[tactic(auto, using(crate::proofs::FieldLemmas::read_none))]
fn unquote(text: &[u8], room: &mut [u8]) -> Option<(usize, usize)>
    requires { length text.now ≤ length room.old }
    ensures within { IfSome result (λ ends. (ends.0 < ends.1) × (ends.1 ≤ length text.now)) }
    ensures some { IfSome result (λ ends. (text.now ≡ escaped default_writer (take ends.0 room.new)
        ++ 34 ∷ drop ends.1 text.now) × IsBehindQuote (drop ends.1 text.now)) }
    ensures none { IfNone result ((field rest : List ℕ) → IsBehindQuote rest
        → ¬ (text.now ≡ escaped default_writer field ++ 34 ∷ rest)) }
{
    let mut at = 0;
    let mut size = 0;
    while at < text.len() {
        if text[at] == b'"' {
            at += 1;
            if at == text.len() || text[at] != b'"' {
                return Some((size, at));
            }
        }
        room[size] = text[at];
        size += 1;
        at += 1;
    }
    None
}
