//! What is unusual in the form of a file, in words.

ghost use Rattle.std.specs.Prelude.{◌≡◌, ◌++◌, List, OnOk, Option, length, take};
ghost use Rattle.std.specs.Option.{option_map};
ghost use Rattle.cwr_share.specs.Lines.{lines_of};
ghost use Rattle.file_form.specs.declared.controls.Difference.{Difference};
ghost use Rattle.check_inputs.specs.Checked.{bytes_of, path_if_given};
ghost use Rattle.check_inputs.specs.Form.{closing_remark, controls_remarks, counted_text, difference_text};
ghost use Rattle.check_inputs.specs.Form.{differences_remarks, form_text, part_text, quote_if_given, quote_remark};
ghost use Rattle.check_inputs.specs.Form.{quote_text, returns_remark, says_text, shifted_remark, trailer_text};
ghost use Rattle.check_inputs.specs.Form.{types_remark};
ghost use Rattle.check_inputs.specs.Messages.{remark_line};

use crate::File;
use crate::lists::{Listed, add_further, add_items};
use crate::remarks::add_tally;
use crate::words::{add, add_around, add_number, add_path, add_remark};
use file_form::{
    Counted, Difference, ForeignType, control_counts, foreign_types, has_returns_alone, open_quote,
    shifted_records,
};
use std::alloc::{AllocError, Global};

/// A type of records, and how many have it.
impl Listed for ForeignType {
    ghost use Rattle.check_inputs.specs.Form.{type_text};

    ghost words = { type_text };

    fn add_to(&self, text: &mut Vec<u8>) -> Result<(), AllocError> {
        add_around(text, "'", self.name.as_slice(), "' (")?;
        add_number(text, self.records)?;
        add(text, ")")
    }
}

/// Remarks on what is unusual in the form of a CWR file.
pub(crate) fn add_form(
    alloc: Global,
    text: &mut Vec<u8>,
    path: &str,
    bytes: &[u8],
) -> Result<(), AllocError>
    ensures { OnOk result (text.new.items ≡ text.old.items ++ form_text path.now bytes.now) }
{
    add_returns_remark(text, path, bytes)?;
    add_types_remark(alloc, text, path, bytes)?;
    add_shifted_remark(text, path, bytes)?;
    add_controls_remarks(alloc, text, path, bytes)?;
    Ok(())
}

/// Remarks that all of a file is one line, where that is so.
fn add_returns_remark(text: &mut Vec<u8>, path: &str, bytes: &[u8]) -> Result<(), AllocError>
    ensures { OnOk result (text.new.items ≡ text.old.items ++ returns_remark path.now bytes.now) }
{
    if has_returns_alone(bytes) {
        add_remark(
            text,
            path,
            "line ends are CR alone, so that all of it is one line",
        )?;
    }
    Ok(())
}

/// Remarks on record types that CWR 2.2 does not have.
fn add_types_remark(
    alloc: Global,
    text: &mut Vec<u8>,
    path: &str,
    bytes: &[u8],
) -> Result<(), AllocError>
    ensures { OnOk result (text.new.items ≡ text.old.items ++ types_remark path.now (lines_of bytes.now)) }
{
    let types = foreign_types(alloc, bytes)?;
    add_items(
        text,
        path,
        "record types that CWR 2.2 does not have",
        "",
        types.count,
        types.first.as_slice(),
    )?;
    Ok(())
}

/// Remarks on records whose columns may be shifted.
fn add_shifted_remark(text: &mut Vec<u8>, path: &str, bytes: &[u8]) -> Result<(), AllocError>
    ensures { OnOk result (text.new.items ≡ text.old.items ++ shifted_remark path.now (lines_of bytes.now)) }
{
    let tally = shifted_records(bytes);
    add_tally(
        text,
        path,
        "NWR, REV, SPT or SWT with a byte beyond ASCII before the last field that is read",
        "in line ",
        &tally,
    )?;
    Ok(())
}

/// Remarks on the control records of a CWR file.
fn add_controls_remarks(
    alloc: Global,
    text: &mut Vec<u8>,
    path: &str,
    bytes: &[u8],
) -> Result<(), AllocError>
    ensures { OnOk result (text.new.items ≡ text.old.items ++ controls_remarks path.now (lines_of bytes.now)) }
{
    let controls = control_counts(alloc, bytes)?;
    add_differences(text, path, controls.first.as_slice(), controls.count)?;
    add_closing_remark(text, path, controls.is_closed)?;
    Ok(())
}

/// Remarks on each of the first numbers of trailers that are not so, and says how many more there are.
fn add_differences(
    text: &mut Vec<u8>,
    path: &str,
    first: &[Difference],
    count: u64,
) -> Result<(), AllocError>
    ensures { OnOk result ((all : List Difference) → count ≡ length all → first.now ≡ take 10 all
        → text.new.items ≡ text.old.items ++ differences_remarks path.now all) }
{
    for place in 0..first.len() {
        add_difference(text, path, &first[place])?;
    }
    add_further(text, path, "further control counts that differ", count)?;
    Ok(())
}

/// Remarks that a number of a trailer is not so.
fn add_difference(text: &mut Vec<u8>, path: &str, it: &Difference) -> Result<(), AllocError>
    ensures { OnOk result (text.new.items ≡ text.old.items ++ remark_line path.now (difference_text it.now)) }
{
    add_path(text, path)?;
    add(text, "remark: line ")?;
    add_number(text, it.line)?;
    add(text, ": ")?;
    add(text, trailer_of(it.is_whole))?;
    add_says(text, it.says, it.counted)?;
    add(text, part_of(it.is_whole))?;
    add_number(text, it.found)?;
    add(text, "\n")?;
    Ok(())
}

/// Adds the number that a trailer says, if it says one, and of what.
fn add_says(text: &mut Vec<u8>, says: Option<u64>, counted: Counted) -> Result<(), AllocError>
    ensures { OnOk result (text.new.items ≡ text.old.items ++ says_text says counted) }
{
    match says {
        Some(number) => {
            add_number(text, number)?;
            add(text, " ")?;
        }
        None => add(text, "no number of ")?,
    }
    add(text, what_is_counted(counted))?;
    Ok(())
}

/// What a trailer counts.
fn what_is_counted(counted: Counted) -> &'static str
    ensures { result.now ≡ counted_text counted }
{
    match counted {
        Counted::Groups => "groups",
        Counted::Transactions => "transactions",
        Counted::Records => "records",
    }
}

/// That the trailer of a file, or of a group, says something.
fn trailer_of(is_whole: bool) -> &'static str
    ensures { result.now ≡ trailer_text is_whole }
{
    if is_whole { "TRL says " } else { "GRT says " }
}

/// That the part that a trailer is of has something else.
fn part_of(is_whole: bool) -> &'static str
    ensures { result.now ≡ part_text is_whole }
{
    if is_whole {
        ", and the file has "
    } else {
        ", and its group has "
    }
}

/// Remarks that a file does not end in its trailer, where that is so.
fn add_closing_remark(text: &mut Vec<u8>, path: &str, is_closed: bool) -> Result<(), AllocError>
    ensures { OnOk result (text.new.items ≡ text.old.items ++ closing_remark path.now is_closed) }
{
    if !is_closed {
        add_remark(
            text,
            path,
            "its last record is no TRL, so it may be cut off",
        )?;
    }
    Ok(())
}

/// Remarks on a quote in a table that opens and does not end.
pub(crate) fn add_quote_remark(
    alloc: Global,
    text: &mut Vec<u8>,
    path: &str,
    bytes: &[u8],
) -> Result<(), AllocError>
    ensures { OnOk result (text.new.items ≡ text.old.items ++ quote_remark path.now bytes.now) }
{
    let row = open_quote(alloc, bytes)?;
    add_quote(text, path, row)?;
    Ok(())
}

/// Remarks that a quote opens in this row that does not end, where there is one.
fn add_quote(text: &mut Vec<u8>, path: &str, row: Option<u64>) -> Result<(), AllocError>
    ensures { OnOk result (text.new.items ≡ text.old.items ++ quote_text path.now row) }
{
    let Some(row) = row else {
        return Ok(());
    };
    add_path(text, path)?;
    add(text, "remark: row ")?;
    add_number(text, row)?;
    add(text, ": a quote opens in it that does not end\n")?;
    Ok(())
}

/// The same of a table that need not be there.
pub(crate) fn add_quote_if_given(
    alloc: Global,
    text: &mut Vec<u8>,
    file: &Option<File>,
) -> Result<(), AllocError>
    ensures { OnOk result (text.new.items ≡ text.old.items
        ++ quote_if_given (path_if_given file.now) (option_map bytes_of file.now)) }
{
    let Some(file) = file else {
        return Ok(());
    };
    add_quote_remark(alloc, text, file.path.as_str(), file.bytes.as_slice())?;
    Ok(())
}
