//! The differences of one payee.

ghost use Rattle.std.specs.Prelude.{◌≡◌, ◌≤◌, ◌<◌, ◌+◌, ◌^◌, ◌∷◌, [], IfErr, IfOk, List, false, true, unsigned_abs};
ghost use Rattle.merge_statements.specs.Refused.{IsOfSystem};
ghost use Rattle.merge_statements.specs.SoFar.{HasLeast, output};
ghost use Rattle.merge_statements.specs.Statements.{IsCount, IsName, Portion};
ghost use Rattle.adjust_statements.specs.SoFar.{AdjustsPayee, ArePayeesRows, RefusesRead, WritesDifferences};

use crate::refusal::{AdjustRefusal, refused};
use crate::sums::sums_of;
use crate::taking::{Rows, Texts, take_portions};
use crate::writing::write_sums;
use merge_statements::amount::MOST_COUNT;
use merge_statements::{Page, Refusal, lesser_payee};
use std::alloc::{AllocError, Global};
use std::io::{Read, Write};

/// The lesser of the payees that come next in the texts, in byte order, and whether one does in any.
pub(crate) fn next_payee<R: Read + Drop>(
    texts: &Texts<R>,
    least: &mut Vec<u8>,
) -> Result<bool, AllocError>
    ensures { IfOk result (HasLeast (texts.now.paid ∷ texts.now.right ∷ []) least.new.items) }
{
    let found = lesser_payee(&texts.right, least, false)?;
    lesser_payee(&texts.paid, least, found)
}

/// Passes over the statements of a payee in both texts, and adds its differences as a statement, if there are any.
/// Answers how many rows they have and what they come to.
pub(crate) fn adjust_payee<R: Read + Drop, W: Write>(
    alloc: Global,
    texts: &mut Texts<R>,
    payee: &[u8],
    rows: &mut Rows,
    page: &mut Page,
    out: &mut W,
) -> Result<(u64, i128), AdjustRefusal>
    requires { IsName payee.now }
    ensures adjusted { IfOk result (λ sum. AdjustsPayee payee.now texts.old.paid texts.old.right
        texts.new.paid texts.new.right (output W.contents out.old page.old) (output W.contents out.new page.new) sum.0 sum.1) }
    ensures few { IfOk result (λ sum. sum.0 ≤ 10 ^ 18) }
    ensures small { IfOk result (λ sum. unsigned_abs sum.1 ≤ 10 ^ 30) }
    ensures refused { IfErr result (RefusesRead texts.old.paid texts.old.right) }
{
    match take_portions(alloc, &mut texts.paid, payee, &mut rows.paid) {
        Ok(()) => {}
        Err(refusal) => return Err(refused(0, refusal)),
    }
    match take_portions(alloc, &mut texts.right, payee, &mut rows.right) {
        Ok(()) => {}
        Err(refusal) => return Err(refused(1, refusal)),
    }
    if has_too_many(texts) {
        return Err(refused(0, Refusal::Many));
    }
    if rows.paid.as_slice() == rows.right.as_slice() {
        return Ok((0, 0));
    }
    match write_payee(alloc, payee, rows, page, out) {
        Ok(sum) => Ok(sum),
        Err(refusal) => Err(refused(0, refusal)),
    }
}

/// Whether more portions were read than are counted.
pub(crate) fn has_too_many<R: Read + Drop>(texts: &Texts<R>) -> bool
    ensures many { result ≡ true → 10 ^ 18 < texts.now.paid.at.portions + texts.now.right.at.portions }
    ensures few { result ≡ false → IsCount (texts.now.paid.at.portions + texts.now.right.at.portions) }
{
    texts.paid.portions() + texts.right.portions() > MOST_COUNT
}

/// Adds the differences of a payee as its statement, if there are any.
fn write_payee<W: Write>(
    alloc: Global,
    payee: &[u8],
    rows: &Rows,
    page: &mut Page,
    out: &mut W,
) -> Result<(u64, i128), Refusal>
    requires { (paid : List Portion) × (right : List Portion)
        × ArePayeesRows payee.now paid right rows.now.paid.items rows.now.right.items }
    ensures written { IfOk result (λ sum. (paid right : List Portion)
        → ArePayeesRows payee.now paid right rows.now.paid.items rows.now.right.items
        → WritesDifferences payee.now paid right (output W.contents out.old page.old)
        (output W.contents out.new page.new) sum.0 sum.1) }
    ensures few { IfOk result (λ sum. sum.0 ≤ 10 ^ 18) }
    ensures small { IfOk result (λ sum. unsigned_abs sum.1 ≤ 10 ^ 30) }
    ensures refused { IfErr result IsOfSystem }
{
    let sums = sums_of(alloc, rows.paid.as_slice(), rows.right.as_slice(), payee)?;
    let sum = write_sums(alloc, sums, "L", payee, page, out)?;
    if sum.0 > 0 {
        page.push_total(out, "S", payee, sum.0, sum.1)?;
    }
    Ok(sum)
}
