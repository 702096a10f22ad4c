//! What was paid beside what is right: their differences as a text of statements.

ghost use Rattle.std.specs.Prelude.{◌≡◌, ◌≤◌, ◌^◌, [], ℕ, IfErr, IfOk, List, None, OnOk, Option, unsigned_abs};
ghost use Rattle.std.specs.Io.KnownBytes.{Appends};
ghost use Rattle.csv_table.specs.Written.{text_of_row};
ghost use Rattle.merge_statements.specs.SoFar.{CanEnd, output};
ghost use Rattle.merge_statements.specs.Statements.{total_row};
ghost use Rattle.adjust_statements.specs.Adjusted.{WritesAdjustment};
ghost use Rattle.adjust_statements.specs.Refused.{IsRefusalFor};
ghost use Rattle.adjust_statements.specs.SoFar.{AdjustsOpen, AdjustsPayees, EndBoth, IsOpen, IsSystemRefusal};
ghost use Rattle.adjust_statements.specs.SoFar.{RefusesOpen, RefusesRead};

use crate::counting::both;
use crate::payee::{adjust_payee, has_too_many, next_payee};
use crate::refusal::{AdjustRefusal, refused};
use crate::rests::adjust_rests;
use crate::taking::{Rows, Texts, take_rests};
use merge_statements::{Page, Part, Refusal};
use std::alloc::Global;
use std::io::{Read, Write};

/// Compares two texts of statements of the same usage lines, of what was paid and of what is right, and adds their
/// differences to an output, as a text of statements that can be merged with others. Both are read side by side, once
/// and through small buffers; in memory are the rows of one payee, or of what nobody gets. A text that `merge` refuses
/// is refused, for the same fault, and so are texts of other numbers of usage lines. Then the output may have a
/// beginning already.
pub fn adjust<R: Read + Drop, W: Write>(
    alloc: Global,
    paid: R,
    right: R,
    out: &mut W,
) -> Result<(), AdjustRefusal>
    ensures adjusted { OnOk result (WritesAdjustment (R.remaining paid) (R.remaining right) (W.contents out.old)
        (W.contents out.new)) }
    ensures refused { IfErr result (IsRefusalFor (R.remaining paid) (R.remaining right)) }
{
    let paid = match Part::open(alloc, paid) {
        Ok(part) => part,
        Err(refusal) => return Err(refused(0, refusal)),
    };
    let right = match Part::open(alloc, right) {
        Ok(part) => part,
        Err(refusal) => return Err(refused(1, refusal)),
    };
    let mut texts = Texts { paid, right };
    let mut page = Page::new(alloc);
    adjust_texts(alloc, &mut texts, &mut page, out)?;
    match page.pass_on(out) {
        Ok(()) => Ok(()),
        Err(refusal) => Err(refused(0, refusal)),
    }
}

/// The same of texts that stand before their first rows.
fn adjust_texts<R: Read + Drop, W: Write>(
    alloc: Global,
    texts: &mut Texts<R>,
    page: &mut Page,
    out: &mut W,
) -> Result<(), AdjustRefusal>
    requires { (paid_start : Option (List ℕ)) × (right_start : Option (List ℕ)) × IsOpen paid_start texts.old.paid
        × IsOpen right_start texts.old.right }
    ensures adjusted { OnOk result (AdjustsOpen texts.old.paid texts.old.right (output W.contents out.old page.old)
        (output W.contents out.new page.new)) }
    ensures refused { IfErr result (RefusesOpen texts.old.paid texts.old.right) }
{
    let mut rows = Rows {
        paid: Vec::new(alloc),
        right: Vec::new(alloc),
    };
    let paid = adjust_payees(alloc, texts, &mut rows, page, out)?;
    end_texts(alloc, texts, &mut rows)?;
    let left = match adjust_rests(alloc, &rows, page, out) {
        Ok(left) => left,
        Err(refusal) => return Err(refused(0, refusal)),
    };
    push_total(page, out, "T", left)?;
    push_total(page, out, "R", (0, both(paid, left).1))
}

/// Compares the statements of all payees, in byte order, and adds their differences. Answers how many rows these have
/// and what they come to.
fn adjust_payees<R: Read + Drop, W: Write>(
    alloc: Global,
    texts: &mut Texts<R>,
    rows: &mut Rows,
    page: &mut Page,
    out: &mut W,
) -> Result<(u64, i128), AdjustRefusal>
    requires { (paid_start : Option (List ℕ)) × (right_start : Option (List ℕ)) × IsOpen paid_start texts.old.paid
        × IsOpen right_start texts.old.right }
    ensures adjusted { IfOk result (λ sum. AdjustsPayees texts.old.paid texts.old.right texts.new.paid texts.new.right
        (output W.contents out.old page.old) (output W.contents out.new page.new) sum.0 sum.1) }
    ensures few { IfOk result (λ sum. sum.0 ≤ 10 ^ 18) }
    ensures small { IfOk result (λ sum. unsigned_abs sum.1 ≤ 10 ^ 30) }
    ensures none { IfOk result (λ _. (texts.new.paid.payee ≡ None) × (texts.new.right.payee ≡ None)) }
    ensures refused { IfErr result (RefusesOpen texts.old.paid texts.old.right) }
{
    let mut payee = Vec::new(alloc);
    let mut all = (0, 0);
    for _done in 0..u64::MAX {
        let found = match next_payee(texts, &mut payee) {
            Ok(found) => found,
            Err(_) => return Err(refused(0, Refusal::Memory)),
        };
        if !found {
            return Ok(all);
        }
        let own = adjust_payee(alloc, texts, payee.as_slice(), rows, page, out)?;
        all = both(all, own);
    }
    unreachable!()
}

/// Passes over both texts from behind their last payees to their ends, and puts the rows of what nobody gets into
/// memory. Both have to be of as many usage lines.
fn end_texts<R: Read + Drop>(
    alloc: Global,
    texts: &mut Texts<R>,
    rows: &mut Rows,
) -> Result<(), AdjustRefusal>
    requires paid { CanEnd texts.old.paid }
    requires right { CanEnd texts.old.right }
    ensures ended { OnOk result (EndBoth texts.old.paid texts.old.right texts.new.paid texts.new.right
        rows.new.paid.items rows.new.right.items) }
    ensures refused { IfErr result (RefusesRead texts.old.paid texts.old.right) }
{
    let before = match take_rests(alloc, &mut texts.paid, &mut rows.paid) {
        Ok(lines) => lines,
        Err(refusal) => return Err(refused(0, refusal)),
    };
    let after = match take_rests(alloc, &mut texts.right, &mut rows.right) {
        Ok(lines) => lines,
        Err(refusal) => return Err(refused(1, refusal)),
    };
    if has_too_many(texts) {
        return Err(refused(0, Refusal::Many));
    }
    if before != after {
        return Err(AdjustRefusal::Lines(texts.right.rows_read()));
    }
    Ok(())
}

/// Adds a row of so many portions or usage lines, and what they come to.
fn push_total<W: Write>(
    page: &mut Page,
    out: &mut W,
    kind: &str,
    sum: (u64, i128),
) -> Result<(), AdjustRefusal>
    ensures pushed { OnOk result (Appends (output W.contents out.old page.old) (output W.contents out.new page.new)
        (text_of_row (total_row kind.now [] sum.0 sum.1))) }
    ensures refused { IfErr result IsSystemRefusal }
{
    match page.push_total(out, kind, b"", sum.0, sum.1) {
        Ok(()) => Ok(()),
        Err(refusal) => Err(refused(0, refusal)),
    }
}
