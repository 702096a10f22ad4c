//! The portions of a payee, in the order in which documents list them.

ghost use Rattle.std.specs.Prelude.{◌≡◌, ◌<◌, ◌≤◌, All, IfOk, length, unsigned_abs};
ghost use Rattle.std.specs.Cmp.Lexicographic.{slice_cmp};
ghost use Rattle.std.specs.Ordering.{nat_cmp, ordering_then};
ghost use Rattle.document_names.specs.FirstTexts.{text_in};
ghost use Rattle.line_split.specs.declared.TheConstants.{MOST_AMOUNT};
ghost use Rattle.payee_portions.specs.Portions.{AreListed, by_title as in_order_of_title, portions_of};
ghost use Rattle.payee_portions.specs.Shown.{portion_shown, portions_shown};

use crate::Portion;
use crate::portion::portion_of;
use cwr_share::Registry;
use document_names::FirstTexts;
use line_split::{Account, Usage};
use payee_book::Posting;
use std::alloc::{AllocError, Global};
use std::cmp::Ordering;
use tis_tree::TisTable;

/// The portions that the statement of an account is, by the titles of their works, in byte order; works of one title by
/// what usage lines call them; and those of a work in the order of the usage list.
pub fn list_of<'a>(
    alloc: Global,
    tis: &TisTable,
    registry: &Registry,
    usage: &'a Usage,
    titles: &'a FirstTexts,
    account: Account,
    statement: &[Posting],
) -> Result<Vec<Portion<'a>>, AllocError>
    requires lines { All (λ posting. posting.0 < length usage.now) statement.now }
    requires small { All (λ posting. unsigned_abs posting.1 ≤ MOST_AMOUNT) statement.now }
    ensures listed { IfOk result (λ list. AreListed
        (portions_of tis.now registry.now usage.entry.now (text_in titles.entry.now) account statement.now)
        (portions_shown list.items)) }
    ensures count { IfOk result (λ list. length list.items ≡ length statement.now) }
    ensures small { IfOk result (λ list. All (λ portion. unsigned_abs portion.amount ≤ MOST_AMOUNT) list.items) }
{
    let mut list = portions_in_turn(alloc, tis, registry, usage, titles, account, statement)?;
    sort(&mut list);
    Ok(list)
}

/// The portions that postings of an account are, in the order of these.
fn portions_in_turn<'a>(
    alloc: Global,
    tis: &TisTable,
    registry: &Registry,
    usage: &'a Usage,
    titles: &'a FirstTexts,
    account: Account,
    statement: &[Posting],
) -> Result<Vec<Portion<'a>>, AllocError>
    requires lines { All (λ posting. posting.0 < length usage.now) statement.now }
    requires small { All (λ posting. unsigned_abs posting.1 ≤ MOST_AMOUNT) statement.now }
    ensures portions { IfOk result (λ list. portions_shown list.items
        ≡ portions_of tis.now registry.now usage.entry.now (text_in titles.entry.now) account statement.now) }
    ensures count { IfOk result (λ list. length list.items ≡ length statement.now) }
    ensures small { IfOk result (λ list. All (λ portion. unsigned_abs portion.amount ≤ MOST_AMOUNT) list.items) }
{
    let mut claims = registry.scratch(alloc)?;
    let mut list = Vec::with_capacity(alloc, statement.len().min(usage.len()))?;
    for place in 0..statement.len() {
        let posting = statement[place];
        list.push(portion_of(tis, registry, usage, titles, account, posting, &mut claims))?;
    }
    Ok(list)
}

/// Puts portions in order.
pub(crate) fn sort(list: &mut Vec<Portion<'_>>)
    ensures listed { AreListed (portions_shown list.old.items) (portions_shown list.new.items) }
    ensures count { length list.new.items ≡ length list.old.items }
    ensures small { All (λ portion. unsigned_abs portion.amount ≤ MOST_AMOUNT) list.old.items
        → All (λ portion. unsigned_abs portion.amount ≤ MOST_AMOUNT) list.new.items }
{
    list.sort_unstable_by(
        |portion, other| -> Ordering
            ensures { result ≡ in_order_of_title (portion_shown portion.now) (portion_shown other.now) }
        { by_title(portion, other) },
    );
}

/// Which of two portions comes first.
fn by_title(portion: &Portion<'_>, other: &Portion<'_>) -> Ordering
    ensures { result ≡ in_order_of_title (portion_shown portion.now) (portion_shown other.now) }
{
    match portion.title.cmp(other.title) {
        Ordering::Equal => by_work(portion, other),
        unequal => unequal,
    }
}

/// Which of two portions of works of one title comes first.
fn by_work(portion: &Portion<'_>, other: &Portion<'_>) -> Ordering
    ensures { result ≡ ordering_then (slice_cmp nat_cmp portion.now.line.work.now other.now.line.work.now)
        (nat_cmp portion.now.row other.now.row) }
{
    match portion.line.work.cmp(other.line.work) {
        Ordering::Equal => portion.row.cmp(&other.row),
        unequal => unequal,
    }
}
