//! Texts of statements merged into one.

ghost use Rattle.std.specs.Prelude.{◌≡◌, ◌<◌, ◌≤◌, ◌+◌, ◌^◌, ◌+ℤ◌, ◌∷◌, [], ℕ, All, List, None, Option, codes, IfErr};
ghost use Rattle.std.specs.Prelude.{IfOk, OnOk, Some, false, map, true, unsigned_abs};
ghost use Rattle.std.specs.Io.KnownBytes.{Appends};
ghost use Rattle.csv_table.specs.Written.{text_of_row};
ghost use Rattle.merge_statements.specs.SoFar.{AreOpen, CanEnd, EndsEach, HasLeast, HasNext, MergesOpen, MergesPayees};
ghost use Rattle.merge_statements.specs.SoFar.{RefusesOne, RefusesOpen, RefusesRest};
ghost use Rattle.merge_statements.specs.SoFar.{Unread, WritesAll, WritesEnding, WritesOne, output};
ghost use Rattle.merge_statements.specs.Refused.{IsOfSystem, IsRefusalOf};
ghost use Rattle.merge_statements.specs.declared.refusal.Refusal.TheVariants as Refusal;
ghost use Rattle.merge_statements.specs.Merged.{WritesMerge};
ghost use Rattle.merge_statements.specs.Statements.{IsCount, total_row};

use crate::amount::MOST_COUNT;
use crate::page::Page;
use crate::part::Part;
use crate::refusal::Refusal;
use crate::walk::{is_before, plus, replace};
use std::alloc::{AllocError, Global};
use std::io::{Read, Write};

/// Which text is refused, counted from 0, and why. Too many portions or usage lines are those of all texts.
#[derive(Debug, Drop)]
pub struct TextRefusal {
    pub place: u64,
    pub refusal: Refusal,
}

/// Merges texts of statements, in this order, and adds the merged text to an output. Each text is read once, through a
/// small buffer. A text is refused for its first fault, so none that `check` accepts; or all are, where they have more
/// portions, or are of more usage lines, than are counted. Then the output may have a beginning already.
pub fn merge<R: Read + Drop, W: Write>(
    alloc: Global,
    from: Vec<R>,
    out: &mut W,
) -> Result<(), TextRefusal>
    ensures merged { OnOk result (WritesMerge (map R.remaining from.items) (W.contents out.old) (W.contents out.new)) }
    ensures refused { IfErr result (λ refused. IsRefusalOf (map R.remaining from.items) refused.place refused.refusal) }
{
    let mut parts = open_all(alloc, from)?;
    let mut page = Page::new(alloc);
    merge_parts(alloc, parts.as_mut_slice(), &mut page, out)?;
    match page.pass_on(out) {
        Ok(()) => Ok(()),
        Err(refusal) => Err(refused(0, refusal)),
    }
}

/// The same of texts that stand before their first rows.
fn merge_parts<R: Read + Drop, W: Write>(
    alloc: Global,
    parts: &mut [Part<R>],
    page: &mut Page,
    out: &mut W,
) -> Result<(), TextRefusal>
    requires { (starts : List (Option (List ℕ))) × AreOpen starts parts.old }
    ensures merged { OnOk result (MergesOpen parts.old (output W.contents out.old page.old)
        (output W.contents out.new page.new)) }
    ensures refused { IfErr result (λ refused. RefusesOpen parts.old refused.place refused.refusal) }
{
    let paid = merge_payees(alloc, parts, page, out)?;
    let (left, lines) = end_all(parts, page, out)?;
    push_total(page, out, "T", b"", left)?;
    let all = both(paid, left, 0)?;
    push_run(page, out, lines, all)?;
    Ok(())
}

/// The texts, before their first rows.
fn open_all<R: Read + Drop>(alloc: Global, from: Vec<R>) -> Result<Vec<Part<R>>, TextRefusal>
    ensures opened { IfOk result (λ parts. AreOpen (map R.remaining from.items) parts.items) }
    ensures refused { IfErr result (λ refused. IsRefusalOf (map R.remaining from.items) refused.place refused.refusal) }
{
    let mut parts = Vec::new(alloc);
    for reader in from {
        let place = parts.len();
        let part = match Part::open(alloc, reader) {
            Ok(part) => part,
            Err(refusal) => return Err(refused(place, refusal)),
        };
        match parts.push(part) {
            Ok(()) => {}
            Err(_) => return Err(refused(place, Refusal::Memory)),
        }
    }
    Ok(parts)
}

/// The least of the payees that come next in the texts, in byte order, and whether one does in any.
fn least_payee<R: Read + Drop>(parts: &[Part<R>], least: &mut Vec<u8>) -> Result<bool, AllocError>
    ensures { IfOk result (HasLeast parts.now least.new.items) }
{
    let [first, others @ ..] = parts else {
        return Ok(false);
    };
    let found = least_payee(others, least)?;
    lesser_payee(first, least, found)
}

/// The lesser of a payee that was found and the one that comes next in one text more, and whether there is one.
pub fn lesser_payee<R: Read + Drop>(
    part: &Part<R>,
    least: &mut Vec<u8>,
    found: bool,
) -> Result<bool, AllocError>
    ensures { IfOk result (λ now. (others : List Unread) → HasLeast others least.old.items found
        → HasLeast (part.now ∷ others) least.new.items now) }
{
    match part.payee() {
        None => Ok(found),
        Some(payee) => {
            if !found || is_before(payee, least.as_slice()) {
                replace(least, payee)?;
            }
            Ok(true)
        }
    }
}

/// Passes over the statement of a payee in a text, if it comes next there.
pub fn pass_if_next<R: Read + Drop, W: Write>(
    part: &mut Part<R>,
    payee: &[u8],
    page: &mut Page,
    out: &mut W,
) -> Result<(u64, i128), Refusal>
    ensures written { IfOk result (λ sum. WritesOne payee.now part.old part.new (output W.contents out.old page.old)
        (output W.contents out.new page.new) sum.0 sum.1) }
    ensures refused { IfErr result (RefusesRest part.old) }
{
    if !is_next(part, payee) {
        return Ok((0, 0));
    }
    let sum = part.pass_statement(page, out)?;
    Ok(sum)
}

/// Whether a payee comes next in a text.
fn is_next<R: Read + Drop>(part: &Part<R>, payee: &[u8]) -> bool
    ensures is { result ≡ true → part.now.payee ≡ Some payee.now }
    ensures next { result ≡ true → HasNext part.now }
    ensures is_not { result ≡ false → ¬ (part.now.payee ≡ Some payee.now) }
{
    match part.payee() {
        Some(next) => next == payee,
        None => false,
    }
}

/// Passes over the statements of a payee in all texts where it comes next.
fn pass_payee<R: Read + Drop, W: Write>(
    parts: &mut [Part<R>],
    payee: &[u8],
    page: &mut Page,
    out: &mut W,
) -> Result<(u64, i128), TextRefusal>
    ensures written { IfOk result (λ sum. WritesAll payee.now parts.old parts.new
        (output W.contents out.old page.old) (output W.contents out.new page.new) sum.0 sum.1) }
    ensures refused { IfErr result (λ refused. RefusesOne parts.old refused.place refused.refusal) }
{
    let mut all = (0, 0);
    for place in 0..parts.len() {
        let own = match pass_if_next(&mut parts[place], payee, page, out) {
            Ok(own) => own,
            Err(refusal) => return Err(refused(place, refusal)),
        };
        all = both(all, own, place)?;
    }
    Ok(all)
}

/// Merges the statements of all payees, in byte order, and adds them to the output. Answers how many portions there are
/// and what they come to.
fn merge_payees<R: Read + Drop, W: Write>(
    alloc: Global,
    parts: &mut [Part<R>],
    page: &mut Page,
    out: &mut W,
) -> Result<(u64, i128), TextRefusal>
    requires { (starts : List (Option (List ℕ))) × AreOpen starts parts.old }
    ensures merged { IfOk result (λ sum. MergesPayees parts.old parts.new (output W.contents out.old page.old)
        (output W.contents out.new page.new) sum.0 sum.1) }
    ensures none { IfOk result (λ _. All (λ part. part.payee ≡ None) parts.new) }
    ensures refused { IfErr result (λ refused. RefusesOpen parts.old refused.place refused.refusal) }
{
    let mut payee = Vec::new(alloc);
    let mut all = (0, 0);
    for _done in 0..u64::MAX {
        let found = has_payee(parts, &mut payee)?;
        if !found {
            return Ok(all);
        }
        let own = pass_payee(parts, payee.as_slice(), page, out)?;
        push_total(page, out, "S", payee.as_slice(), own)?;
        all = both(all, own, 0)?;
    }
    unreachable!()
}

/// The least of the payees that come next, as above.
fn has_payee<R: Read + Drop>(parts: &[Part<R>], least: &mut Vec<u8>) -> Result<bool, TextRefusal>
    ensures least { IfOk result (HasLeast parts.now least.new.items) }
    ensures refused { IfErr result (λ refused. IsOfSystem refused.refusal) }
{
    match least_payee(parts, least) {
        Ok(found) => Ok(found),
        Err(_) => Err(refused(0, Refusal::Memory)),
    }
}

/// Adds a row of so many portions or usage lines, and what they come to.
fn push_total<W: Write>(
    page: &mut Page,
    out: &mut W,
    kind: &str,
    payee: &[u8],
    sum: (u64, i128),
) -> Result<(), TextRefusal>
    ensures pushed { OnOk result (Appends (output W.contents out.old page.old) (output W.contents out.new page.new)
        (text_of_row (total_row kind.now payee.now sum.0 sum.1))) }
    ensures refused { IfErr result (λ refused. IsOfSystem refused.refusal) }
{
    match page.push_total(out, kind, payee, sum.0, sum.1) {
        Ok(()) => Ok(()),
        Err(refusal) => Err(refused(0, refusal)),
    }
}

/// Adds the row of so many usage lines, and what the portions of them come to.
fn push_run<W: Write>(
    page: &mut Page,
    out: &mut W,
    lines: u64,
    portions: (u64, i128),
) -> Result<(), TextRefusal>
    ensures pushed { OnOk result (Appends (output W.contents out.old page.old) (output W.contents out.new page.new)
        (text_of_row (total_row (codes "R") [] lines portions.1))) }
    ensures refused { IfErr result (λ refused. IsOfSystem refused.refusal) }
{
    push_total(page, out, "R", b"", (lines, portions.1))
}

/// Passes over a text from behind its last payee to its end, and adds what nobody gets to the output without its sum.
/// Answers how many portions that is, what they come to, and how many usage lines there were.
pub fn end_text<R: Read + Drop, W: Write>(
    part: &mut Part<R>,
    page: &mut Page,
    out: &mut W,
) -> Result<((u64, i128), u64), Refusal>
    requires { CanEnd part.old }
    ensures written { IfOk result (λ end. WritesEnding part.old part.new (output W.contents out.old page.old)
        (output W.contents out.new page.new) end.0.0 end.0.1 end.1) }
    ensures refused { IfErr result (RefusesRest part.old) }
{
    let sum = part.pass_rests(page, out)?;
    let lines = part.finish()?;
    Ok((sum, lines))
}

/// The same of all texts.
fn end_all<R: Read + Drop, W: Write>(
    parts: &mut [Part<R>],
    page: &mut Page,
    out: &mut W,
) -> Result<((u64, i128), u64), TextRefusal>
    requires { All CanEnd parts.old }
    ensures written { IfOk result (λ end. EndsEach parts.old parts.new (output W.contents out.old page.old)
        (output W.contents out.new page.new) end.0.0 end.0.1 end.1) }
    ensures refused { IfErr result (λ refused. RefusesOne parts.old refused.place refused.refusal) }
{
    let mut all = ((0, 0), 0);
    for place in 0..parts.len() {
        let own = match end_text(&mut parts[place], page, out) {
            Ok(own) => own,
            Err(refusal) => return Err(refused(place, refusal)),
        };
        all = (both(all.0, own.0, place)?, more_lines(all.1, own.1, place)?);
    }
    Ok(all)
}

/// So many usage lines and more, as long as they can be counted.
fn more_lines(lines: u64, more: u64, place: usize) -> Result<u64, TextRefusal>
    ensures sum { IfOk result (λ all. all ≡ lines + more) }
    ensures few { IfOk result IsCount }
    ensures refused { IfErr result (λ refused. (refused.refusal ≡ Refusal.Many) × (10 ^ 18 < lines + more)) }
{
    match lines.checked_add(more) {
        Some(all) if all <= MOST_COUNT => Ok(all),
        _ => Err(refused(place, Refusal::Many)),
    }
}

/// The refusal of the text with a number.
fn refused(place: usize, refusal: Refusal) -> TextRefusal
    ensures place { result.place ≡ place }
    ensures refusal { result.refusal ≡ refusal }
{
    TextRefusal {
        place: place as u64,
        refusal,
    }
}

/// The number and the sum of portions of two kinds, as long as they can be counted.
fn both(own: (u64, i128), more: (u64, i128), place: usize) -> Result<(u64, i128), TextRefusal>
    requires own { unsigned_abs own.1 ≤ 10 ^ 30 }
    requires more { unsigned_abs more.1 ≤ 10 ^ 30 }
    ensures count { IfOk result (λ sum. sum.0 ≡ own.0 + more.0) }
    ensures sum { IfOk result (λ sum. sum.1 ≡ own.1 +ℤ more.1) }
    ensures few { IfOk result (λ sum. IsCount sum.0) }
    ensures refused { IfErr result (λ refused. (refused.refusal ≡ Refusal.Many) × (10 ^ 18 < own.0 + more.0)) }
{
    match own.0.checked_add(more.0) {
        Some(count) if count <= MOST_COUNT => Ok((count, plus(own.1, more.1))),
        _ => Err(refused(place, Refusal::Many)),
    }
}
