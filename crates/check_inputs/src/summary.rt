//! What a run makes of usage lines, in words.

ghost use Rattle.std.specs.Prelude.{◌≡◌, ◌++◌, ◌&&◌, [], OnOk, codes, flat_map, if◌then◌else◌, nat_lt};
ghost use Rattle.std.specs.Fmt.{signed_decimal};
ghost use Rattle.check_inputs.specs.Items.{ranked_text};
ghost use Rattle.check_inputs.specs.Messages.{around, remark_line, total_line, total_text};
ghost use Rattle.check_inputs.specs.Report.{claimed_over_line, divided_line, further_over, open_line, reasons_text};
ghost use Rattle.check_inputs.specs.Report.{territory_line, totals_text, work_line};

use crate::lists::add_further;
use crate::words::{add, add_amount, add_around, add_number, add_path, add_remark};
use std::alloc::AllocError;
use usage_totals::{Name, Ranked, Total, Totals};

/// Adds what a run makes of so many lines, where the usage list, what has the registrations and the table of
/// territories have these paths.
pub(crate) fn add_totals(
    text: &mut Vec<u8>,
    usage: &str,
    registrations: &str,
    territories: &str,
    lines: u64,
    totals: &Totals<'_>,
) -> Result<(), AllocError>
    ensures { OnOk result (text.new.items
        ≡ text.old.items ++ totals_text usage.now registrations.now territories.now lines totals.now) }
{
    add_reasons(text, usage, totals)?;
    add_works(text, usage, &totals.works)?;
    add_territories(text, usage, &totals.territories)?;
    add_open_works(text, usage, &totals.left_open)?;
    add_remark_if_any(
        text,
        lines,
        totals.unregistered.lines == lines,
        registrations,
        "it has the work of no usage line",
    )?;
    add_remark_if_any(
        text,
        lines,
        !totals.knows_a_territory,
        territories,
        "it has the territory of no usage line",
    )?;
    Ok(())
}

/// Remarks something of the file of a path, where it is so and there are usage lines.
fn add_remark_if_any(
    text: &mut Vec<u8>,
    lines: u64,
    is_so: bool,
    path: &str,
    remark: &str,
) -> Result<(), AllocError>
    ensures { OnOk result (text.new.items ≡ text.old.items
        ++ (if nat_lt 0 lines && is_so then remark_line path.now remark.now else [])) }
{
    if lines > 0 && is_so {
        add_remark(text, path, remark)?;
    }
    Ok(())
}

/// The lines of each reason.
fn add_reasons(text: &mut Vec<u8>, path: &str, totals: &Totals<'_>) -> Result<(), AllocError>
    ensures { OnOk result (text.new.items ≡ text.old.items ++ reasons_text path.now totals.now) }
{
    add_divided(text, path, totals)?;
    add_total(text, path, "WORK, not registered", totals.unregistered)?;
    add_total(
        text,
        path,
        "LAND, territory not in the table",
        totals.unknown,
    )?;
    add_total(
        text,
        path,
        "OVER, claims over 100.06 per cent",
        totals.claimed_over,
    )?;
    Ok(())
}

/// Adds the lines that are divided, and what of them is the residue's.
fn add_divided(text: &mut Vec<u8>, path: &str, totals: &Totals<'_>) -> Result<(), AllocError>
    ensures { OnOk result (text.new.items ≡ text.old.items ++ divided_line path.now totals.now) }
{
    add_path(text, path)?;
    add(text, "divided")?;
    add_lines(text, totals.divided)?;
    add(text, ", to the residue ")?;
    add_residue(text, totals)?;
    add(text, "\n")?;
    Ok(())
}

/// Adds what of the lines that are divided is the residue's.
fn add_residue(text: &mut Vec<u8>, totals: &Totals<'_>) -> Result<(), AllocError>
    ensures { OnOk result (text.new.items ≡ text.old.items ++ signed_decimal totals.now.residue) }
{
    add_amount(text, totals.residue)
}

/// Adds a line about the usage lines of a reason.
fn add_total(text: &mut Vec<u8>, path: &str, whose: &str, total: Total) -> Result<(), AllocError>
    ensures { OnOk result (text.new.items ≡ text.old.items ++ total_line path.now whose.now total []) }
{
    add_path(text, path)?;
    add(text, whose)?;
    add_lines(text, total)?;
    add(text, "\n")?;
    Ok(())
}

/// Adds a line about each of the first works that nobody has registered, and how many more there are.
fn add_works(text: &mut Vec<u8>, path: &str, works: &Ranked<Name<'_>>) -> Result<(), AllocError>
    ensures { OnOk result (text.new.items ≡ text.old.items
        ++ ranked_text (work_line path.now) path.now (codes "further works that are not registered") works.now) }
{
    let first = works.first.as_slice();
    for place in 0..first.len() {
        add_work(text, path, first[place].0.as_slice(), first[place].1)?;
    }
    add_further(
        text,
        path,
        "further works that are not registered",
        works.count,
    )?;
    Ok(())
}

/// Adds a line about a work that nobody has registered.
fn add_work(text: &mut Vec<u8>, path: &str, work: &[u8], total: Total) -> Result<(), AllocError>
    ensures { OnOk result (text.new.items ≡ text.old.items ++ work_line path.now (work.now, total)) }
{
    add_path(text, path)?;
    add_around(text, "work '", work, "' is not registered")?;
    add_lines(text, total)?;
    add(text, "\n")?;
    Ok(())
}

/// Adds a line about each of the first territories that the table has not, and how many more there are.
fn add_territories(
    text: &mut Vec<u8>,
    path: &str,
    territories: &Ranked<u16>,
) -> Result<(), AllocError>
    ensures { OnOk result (text.new.items ≡ text.old.items
        ++ ranked_text (territory_line path.now) path.now (codes "further territories that are not in the table")
        territories.now) }
{
    let first = territories.first.as_slice();
    for place in 0..first.len() {
        add_territory(text, path, first[place].0, first[place].1)?;
    }
    add_further(
        text,
        path,
        "further territories that are not in the table",
        territories.count,
    )?;
    Ok(())
}

/// Adds a line about a territory that the table has not.
fn add_territory(
    text: &mut Vec<u8>,
    path: &str,
    territory: u16,
    total: Total,
) -> Result<(), AllocError>
    ensures { OnOk result (text.new.items ≡ text.old.items ++ territory_line path.now (territory, total)) }
{
    add_path(text, path)?;
    add(text, "territory ")?;
    add_number(text, u64::from(territory))?;
    add(text, " is not in the table")?;
    add_lines(text, total)?;
    add(text, "\n")?;
    Ok(())
}

/// Adds a line about each of the first works of which something stays open, and how many more there are.
fn add_open_works(
    text: &mut Vec<u8>,
    path: &str,
    works: &Ranked<Name<'_>>,
) -> Result<(), AllocError>
    ensures { OnOk result (text.new.items ≡ text.old.items
        ++ ranked_text (open_line path.now) path.now (codes "further works that are not claimed in full") works.now) }
{
    let first = works.first.as_slice();
    for place in 0..first.len() {
        add_open_work(text, path, first[place].0.as_slice(), first[place].1)?;
    }
    add_further(
        text,
        path,
        "further works that are not claimed in full",
        works.count,
    )?;
    Ok(())
}

/// Adds a line about a work of which something stays open.
fn add_open_work(
    text: &mut Vec<u8>,
    path: &str,
    work: &[u8],
    total: Total,
) -> Result<(), AllocError>
    ensures { OnOk result (text.new.items ≡ text.old.items ++ open_line path.now (work.now, total)) }
{
    add_path(text, path)?;
    add_around(text, "work '", work, "' is not claimed in full: lines ")?;
    add_number(text, total.lines)?;
    add(text, ", to the residue ")?;
    add_amount_of(text, total)?;
    add(text, "\n")?;
    Ok(())
}

/// Adds what lines come to.
fn add_amount_of(text: &mut Vec<u8>, total: Total) -> Result<(), AllocError>
    ensures { OnOk result (text.new.items ≡ text.old.items ++ signed_decimal total.amount) }
{
    add_amount(text, total.amount)
}

/// Adds a line about each of the first works whose lines are claimed over, in a run over one CWR file.
pub(crate) fn add_claimed_over(
    text: &mut Vec<u8>,
    path: &str,
    works: &[(Name<'_>, Total)],
) -> Result<(), AllocError>
    ensures { OnOk result (text.new.items ≡ text.old.items ++ flat_map (claimed_over_line path.now) works.now) }
{
    for place in 0..works.len() {
        add_claimed_over_work(text, path, works[place].0.as_slice(), works[place].1)?;
    }
    Ok(())
}

/// Adds a line about a work whose lines are claimed over.
fn add_claimed_over_work(
    text: &mut Vec<u8>,
    path: &str,
    work: &[u8],
    total: Total,
) -> Result<(), AllocError>
    ensures { OnOk result (text.new.items ≡ text.old.items ++ claimed_over_line path.now (work.now, total)) }
{
    begin_claimed_over(text, path, work, total)?;
    add(text, "\n")?;
    Ok(())
}

/// Begins a line about a work whose lines are claimed over.
pub(crate) fn begin_claimed_over(
    text: &mut Vec<u8>,
    path: &str,
    work: &[u8],
    total: Total,
) -> Result<(), AllocError>
    ensures { OnOk result (text.new.items ≡ text.old.items
        ++ (path.now ++ codes ": " ++ around (codes "work '") work.now (codes "' is claimed over 100.06 per cent")
        ++ total_text total)) }
{
    add_path(text, path)?;
    add_around(text, "work '", work, "' is claimed over 100.06 per cent")?;
    add_lines(text, total)?;
    Ok(())
}

/// Says how many more works are claimed over than are named.
pub(crate) fn add_further_over(
    text: &mut Vec<u8>,
    path: &str,
    totals: &Totals<'_>,
) -> Result<(), AllocError>
    ensures { OnOk result (text.new.items ≡ text.old.items ++ further_over path.now totals.now) }
{
    add_further(
        text,
        path,
        "further works that are claimed over 100.06 per cent",
        totals.over.count,
    )
}

/// Adds how many usage lines there are, and what they come to.
fn add_lines(text: &mut Vec<u8>, total: Total) -> Result<(), AllocError>
    ensures { OnOk result (text.new.items ≡ text.old.items ++ total_text total) }
{
    add(text, ": lines ")?;
    add_number(text, total.lines)?;
    add(text, ", amount ")?;
    add_amount(text, total.amount)
}
