//! The differences between what nobody gets.

ghost use Rattle.std.specs.Prelude.{◌≤◌, ◌^◌, IfErr, IfOk, List, unsigned_abs};
ghost use Rattle.line_split.specs.ReasonTexts.{reason_text};
ghost use Rattle.merge_statements.specs.Refused.{IsOfSystem};
ghost use Rattle.merge_statements.specs.SoFar.{output};
ghost use Rattle.merge_statements.specs.Statements.{Rest};
ghost use Rattle.adjust_statements.specs.SoFar.{AdjustsReason, AdjustsRests, AreRestsRows};

use crate::counting::both;
use crate::sums::sums_of;
use crate::taking::Rows;
use crate::writing::write_sums;
use line_split::Reason;
use merge_statements::{Page, Refusal};
use std::alloc::Global;
use std::io::Write;

/// Adds the differences between what nobody gets, reason by reason, without their sum. Answers how many rows there are
/// and what they come to.
pub(crate) fn adjust_rests<W: Write>(
    alloc: Global,
    rows: &Rows,
    page: &mut Page,
    out: &mut W,
) -> Result<(u64, i128), Refusal>
    requires { (paid : List Rest) × (right : List Rest)
        × AreRestsRows paid right rows.now.paid.items rows.now.right.items }
    ensures adjusted { IfOk result (λ sum. (paid right : List Rest)
        → AreRestsRows paid right rows.now.paid.items rows.now.right.items
        → AdjustsRests paid right (output W.contents out.old page.old)
        (output W.contents out.new page.new) sum.0 sum.1) }
    ensures few { IfOk result (λ sum. sum.0 ≤ 10 ^ 18) }
    ensures small { IfOk result (λ sum. unsigned_abs sum.1 ≤ 10 ^ 30) }
    ensures refused { IfErr result IsOfSystem }
{
    let work = adjust_reason(alloc, rows, Reason::Work, page, out)?;
    let land = adjust_reason(alloc, rows, Reason::Land, page, out)?;
    let over = adjust_reason(alloc, rows, Reason::Over, page, out)?;
    let open = adjust_reason(alloc, rows, Reason::Open, page, out)?;
    Ok(both(both(both(work, land), over), open))
}

/// The same of one reason.
fn adjust_reason<W: Write>(
    alloc: Global,
    rows: &Rows,
    reason: Reason,
    page: &mut Page,
    out: &mut W,
) -> Result<(u64, i128), Refusal>
    requires { (paid : List Rest) × (right : List Rest)
        × AreRestsRows paid right rows.now.paid.items rows.now.right.items }
    ensures adjusted { IfOk result (λ sum. (paid right : List Rest)
        → AreRestsRows paid right rows.now.paid.items rows.now.right.items
        → AdjustsReason (reason_text reason) paid right (output W.contents out.old page.old)
        (output W.contents out.new page.new) sum.0 sum.1) }
    ensures few { IfOk result (λ sum. sum.0 ≤ 10 ^ 18) }
    ensures small { IfOk result (λ sum. unsigned_abs sum.1 ≤ 10 ^ 30) }
    ensures refused { IfErr result IsOfSystem }
{
    let name = reason.word().as_bytes();
    let sums = sums_of(alloc, rows.paid.as_slice(), rows.right.as_slice(), name)?;
    write_sums(alloc, sums, "M", name, page, out)
}
