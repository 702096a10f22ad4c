//! Lists with commas, and remarks that name the first of some items.

ghost use Rattle.std.specs.Prelude.{◌≡◌, ◌++◌, ℕ, List, OnOk, codes, length, take};
ghost use Rattle.std.specs.List.{join_by};
ghost use Rattle.check_inputs.specs.Items.{further_line, items_line, others_text};

use crate::words::{add, add_fact, add_number, add_path};
use cwr_share::MOST_NAMED;
use std::alloc::AllocError;

/// What stands in a list.
pub(crate) trait Listed {
    // how it stands there
    ghost words: { Self → List ℕ };

    /// Adds it to a text.
    fn add_to(&self, text: &mut Vec<u8>) -> Result<(), AllocError>
        ensures { OnOk result (text.new.items ≡ text.old.items ++ words self.now) };
}

impl Listed for u64 {
    ghost use Rattle.std.specs.Prelude.{decimal};

    ghost words = { decimal };

    fn add_to(&self, text: &mut Vec<u8>) -> Result<(), AllocError> {
        add_number(text, *self)
    }
}

/// Adds a list, with commas between its items.
pub(crate) fn add_list<T: Listed>(text: &mut Vec<u8>, items: &[T]) -> Result<(), AllocError>
    ensures { OnOk result (text.new.items ≡ text.old.items ++ join_by T.words (codes ", ") items.now) }
{
    let Some((first, later)) = items.split_first() else {
        return Ok(());
    };
    first.add_to(text)?;
    for place in 0..later.len() {
        add(text, ", ")?;
        later[place].add_to(text)?;
    }
    Ok(())
}

/// Remarks on items of some kind: how many there are, and the first of them.
pub(crate) fn add_items<T: Listed>(
    text: &mut Vec<u8>,
    path: &str,
    what: &str,
    kind: &str,
    count: u64,
    first: &[T],
) -> Result<(), AllocError>
    ensures { OnOk result ((items : List T) → count ≡ length items → first.now ≡ take 10 items
        → text.new.items ≡ text.old.items ++ items_line T.words path.now what.now kind.now items) }
{
    if count == 0 {
        return Ok(());
    }
    add_path(text, path)?;
    add(text, "remark: ")?;
    add(text, what)?;
    add(text, ": ")?;
    add_number(text, count)?;
    add(text, ", ")?;
    add(text, kind)?;
    add_list(text, first)?;
    add_others(text, count)?;
    add(text, "\n")?;
    Ok(())
}

/// Says how many there are behind those that are named.
fn add_others(text: &mut Vec<u8>, count: u64) -> Result<(), AllocError>
    ensures { OnOk result (text.new.items ≡ text.old.items ++ others_text count) }
{
    if count > MOST_NAMED as u64 {
        add(text, " and ")?;
        add_number(text, count - MOST_NAMED as u64)?;
        add(text, " more")?;
    }
    Ok(())
}

/// Says how many more there are of something than the first ten, which have a line each.
pub(crate) fn add_further(
    text: &mut Vec<u8>,
    path: &str,
    what: &str,
    count: u64,
) -> Result<(), AllocError>
    ensures { OnOk result (text.new.items ≡ text.old.items ++ further_line path.now what.now count) }
{
    if count > MOST_NAMED as u64 {
        add_fact(text, path, what, count - MOST_NAMED as u64)?;
    }
    Ok(())
}
