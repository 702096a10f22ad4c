//! What stands at the foot of a statement: how a portion is worked out, and how to ask why.

ghost use Rattle.std.specs.Prelude.{◌≡◌, ◌≤◌, ◌++◌, OnOk};
ghost use Rattle.payee_documents.specs.Notes.{is_over as any_is_over, notes_text, over_text, reversal_text};
ghost use Rattle.payee_documents.specs.Notes.{worked_out_text};
ghost use Rattle.page_text.specs.declared.figures.TheConstants.{MOST_DECIMALS};
ghost use Rattle.payee_portions.specs.Shown.{portions_shown};

use line_split::FULL_SHARE;
use page_parts::{Piece, add};
use payee_portions::{Portion, count_of_reversals};
use std::alloc::{AllocError, Global};

/// What shares of more than 100 per cent come to.
const OVER: &str = "\
    <div><h3>Shares of more than 100 %</h3><p>Where the shares of a use come to 100.01 to 100.06 %, each is taken of \
    their sum, which stands behind the slash. More is not divided at all.</p></div>\n";

/// What a reversal is.
const REVERSALS: &str = "\
    <div><h3>Reversals</h3><p>A reversal is a use with an amount below 0: it corrects an earlier one. Its size is \
    divided by the same rule, so where the work, the territory, the right and the shares are those of the earlier \
    use, and the amount is its opposite, just what was paid for it is deducted.</p></div>\n";

/// How to ask why.
const TO_ASK: &str = "\
    <div><h3>To ask why</h3><p>Name the row. Whoever runs the distribution can show how it was divided, with \
    <code>royalty_run explain</code>, the files of the run and <code>--row N</code>: the registration, each claim, and \
    the rounding.</p></div>\n</div></section>\n";

/// Adds the notes that serve a payee's portions.
pub(crate) fn add_notes(
    alloc: Global,
    page: &mut Vec<u8>,
    decimals: u32,
    portions: &[Portion<'_>],
) -> Result<(), AllocError>
    requires { decimals ≤ MOST_DECIMALS }
    ensures { OnOk result (page.new.items ≡ page.old.items ++ notes_text decimals (portions_shown portions.now)) }
{
    add_worked_out(alloc, page, decimals)?;
    page.extend_from_slice(over_note(is_any_over(portions)).as_bytes())?;
    page.extend_from_slice(reversal_note(count_of_reversals(portions)).as_bytes())?;
    page.extend_from_slice(TO_ASK.as_bytes())
}

/// Adds how a portion is worked out.
fn add_worked_out(alloc: Global, page: &mut Vec<u8>, decimals: u32) -> Result<(), AllocError>
    requires { decimals ≤ MOST_DECIMALS }
    ensures { OnOk result (page.new.items ≡ page.old.items ++ worked_out_text decimals) }
{
    add(
        alloc,
        page,
        decimals,
        &[
            Piece::Tag(EACH_USE),
            Piece::Amount(1),
            Piece::Tag(WHAT_IS_LEFT),
            Piece::Amount(1),
            Piece::Tag(LARGEST_FIRST),
            Piece::Amount(1),
            Piece::Tag(ALL_ADD_UP),
        ],
    )
}

const EACH_USE: &str = "\
    <section class=\"keep\"><h2>Notes</h2><div class=\"notes\">\n<div><h3>How a portion is worked out</h3><p>Each use \
    is divided on its own, by the shares registered for that work, territory and right. Everyone who shares in it gets \
    their exact portion rounded down to ";

const WHAT_IS_LEFT: &str =
    ", and so does the part that nobody claims. What rounding leaves is handed out in steps of ";

const LARGEST_FIRST: &str = "\
    , to the largest remainders first; of equal ones the account whose name comes first goes first, and the unclaimed \
    part last. So your portion is less than ";

const ALL_ADD_UP: &str =
    " away from the exact one, and all portions of a use, with the unclaimed part, add up to its amount.</p></div>\n";

/// Whether a portion is of a use with shares of more than 100 per cent.
fn is_any_over(portions: &[Portion<'_>]) -> bool
    ensures { result ≡ any_is_over (portions_shown portions.now) }
{
    portions.iter().any(|portion| portion.base != FULL_SHARE)
}

/// The note on such shares, where there are some.
fn over_note(is_over: bool) -> &'static str
    ensures { result.now ≡ over_text is_over }
{
    if is_over { OVER } else { "" }
}

/// The note on reversals, where there are some.
fn reversal_note(count: u64) -> &'static str
    ensures { result.now ≡ reversal_text count }
{
    if count > 0 { REVERSALS } else { "" }
}
