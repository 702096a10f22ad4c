//! What a run passes over in files that have no fault, in words.

ghost use Rattle.std.specs.Prelude.{◌≡◌, ◌++◌, ℕ, List, OnOk};
ghost use Rattle.cwr_share.specs.CwrFile.{AreSound};
ghost use Rattle.cwr_share.specs.Lines.{lines_of};
ghost use Rattle.cwr_share.specs.PassedOver.{IsTallyOf};
ghost use Rattle.check_inputs.specs.Items.{tally_line};
ghost use Rattle.check_inputs.specs.Report.{payees_remark, territories_remark};

use crate::lists::add_items;
use cwr_share::{Payees, Registry, Tally, unknown_territories, unused_payees};
use std::alloc::AllocError;
use tis_tree::TisTable;

/// Remarks on share lines whose territory the table does not have, where these two files have so many faults.
pub(crate) fn add_territories_remark(
    text: &mut Vec<u8>,
    path: &str,
    bytes: &[u8],
    faults: u64,
    tis_faults: u64,
    table: &TisTable,
) -> Result<(), AllocError>
    requires { faults ≡ 0 → AreSound (lines_of bytes.now) }
    ensures { OnOk result (text.new.items ≡ text.old.items
        ++ territories_remark path.now bytes.now faults tis_faults table.now) }
{
    if faults > 0 || tis_faults > 0 {
        return Ok(());
    }
    let tally = unknown_territories(bytes, table);
    add_tally(
        text,
        path,
        "share lines whose territory is not in the table",
        "in line ",
        &tally,
    )?;
    Ok(())
}

/// Remarks on rows of payees whose party no registration in force has, where these two files have so many faults.
pub(crate) fn add_payees_remark(
    text: &mut Vec<u8>,
    path: &str,
    faults: u64,
    cwr_faults: u64,
    rows: &Payees,
    registry: &Option<Registry>,
) -> Result<(), AllocError>
    ensures { OnOk result (text.new.items ≡ text.old.items
        ++ payees_remark path.now faults cwr_faults rows.now registry.now) }
{
    if faults > 0 || cwr_faults > 0 {
        return Ok(());
    }
    let Some(registry) = registry else {
        return Ok(());
    };
    let tally = unused_payees(rows, registry);
    add_tally(
        text,
        path,
        "rows whose party no registration in force has",
        "in row ",
        &tally,
    )?;
    Ok(())
}

/// Remarks on lines or rows of some kind: how many there are, and the numbers of the first.
pub(crate) fn add_tally(
    text: &mut Vec<u8>,
    path: &str,
    what: &str,
    kind: &str,
    tally: &Tally,
) -> Result<(), AllocError>
    ensures { OnOk result ((numbers : List ℕ) → IsTallyOf numbers tally.now
        → text.new.items ≡ text.old.items ++ tally_line path.now what.now kind.now numbers) }
{
    add_items(text, path, what, kind, tally.count, tally.first.as_slice())?;
    Ok(())
}
