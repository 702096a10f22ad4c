//! The tables of several submitters, in a report.

ghost use Rattle.std.specs.Option.{option_map};
ghost use Rattle.std.specs.Prelude.{◌≡◌, ◌++◌, ℕ, List, IfOk, Some, length, string_bytes};
ghost use Rattle.cwr_share.specs.declared.payee_fault.PayeeFault.{PayeeFault};
ghost use Rattle.linked_works.specs.declared.works_fault.WorksFault.{WorksFault};
ghost use Rattle.check_inputs.specs.Checked.{bytes_of, path_if_given, payee_facts};
ghost use Rattle.check_inputs.specs.Form.{quote_remark};
ghost use Rattle.check_inputs.specs.Report.{fault_lines};
ghost use Rattle.check_inputs.specs.SoFar.{GoesOn};
ghost use Rattle.check_inputs.specs.SubmittedFound.{AreLinksWithout, ArePayeesWithout};
ghost use Rattle.check_inputs.specs.SubmittedReport.{submitter_payee_line, works_facts, works_line};

use crate::File;
use crate::form::add_quote_remark;
use crate::reading::read_past_faults;
use crate::report::{Sheet, add_fact_if_sound, add_payee_facts};
use crate::told::Told;
use cwr_share::Payees;
use linked_works::{SubmitterPayees, Submitters, Works};
use std::alloc::{AllocError, Global};

impl Sheet {
    /// Adds a table of payees by submitter, where there is one, and answers how many faults it has.
    pub(crate) fn submitter_payees(
        &mut self,
        alloc: Global,
        submitters: &Submitters,
        file: &Option<File>,
    ) -> Result<(Payees, u64), AllocError>
        ensures { IfOk result (λ read. (out : List (List (List ℕ) × PayeeFault))
            × ArePayeesWithout submitters.now (option_map bytes_of file.now) out read.0 × (read.1 ≡ length out)
            × GoesOn self.old self.new (length out)
            (fault_lines (submitter_payee_line (path_if_given file.now)) (path_if_given file.now) out)
            (payee_facts file.now (length out) read.0)) }
    {
        let (told, rows) = read_payees(alloc, submitters, file)?;
        self.add_faults(&told)?;
        add_payee_facts(alloc, &mut self.facts, file, told.count, rows.len() as u64)?;
        Ok((rows, told.count))
    }

    /// Adds a table of works, and answers how many faults it has.
    pub(crate) fn works<'a>(
        &mut self,
        alloc: Global,
        submitters: &'a Submitters,
        file: &File,
    ) -> Result<(Works<'a>, u64), AllocError>
        ensures read { IfOk result (λ read. (out : List (List (List ℕ) × WorksFault))
            × AreLinksWithout submitters.entry.now file.now.bytes.items out read.0.links × (read.1 ≡ length out)
            × GoesOn self.old self.new (length out)
            (fault_lines (works_line (string_bytes file.now.path)) (string_bytes file.now.path) out)
            (works_facts (string_bytes file.now.path) (length out) read.0.links
            ++ quote_remark (string_bytes file.now.path) file.now.bytes.items)) }
        ensures names { IfOk result (λ read. read.0.names ≡ submitters.entry.now) }
    {
        let path = file.path.as_str();
        let bytes = file.bytes.as_slice();
        let (told, works) = read_past_faults(alloc, path, bytes, Works::none(alloc, submitters))?;
        self.add_faults(&told)?;
        add_fact_if_sound(
            &mut self.facts,
            told.count,
            path,
            "registrations linked",
            works.len() as u64,
        )?;
        add_quote_remark(alloc, &mut self.facts, path, bytes)?;
        Ok((works, told.count))
    }
}

/// Reads a table of payees by submitter, where there is one.
fn read_payees<'a>(
    alloc: Global,
    submitters: &Submitters,
    file: &'a Option<File>,
) -> Result<(Told<'a>, Payees), AllocError>
    ensures { IfOk result (λ read. (out : List (List (List ℕ) × PayeeFault))
        × ArePayeesWithout submitters.now (option_map bytes_of file.entry.now) out read.1
        × (read.0.text.items ≡ fault_lines (submitter_payee_line (path_if_given file.entry.now))
        (path_if_given file.entry.now) out)
        × (read.0.count ≡ length out)) }
{
    match file {
        Some(file) => read_payees_of(alloc, submitters, file),
        None => Ok((Told::none(alloc, ""), Payees::none(alloc))),
    }
}

/// Reads a table of payees by submitter.
fn read_payees_of<'a>(
    alloc: Global,
    submitters: &Submitters,
    file: &'a File,
) -> Result<(Told<'a>, Payees), AllocError>
    ensures { IfOk result (λ read. (out : List (List (List ℕ) × PayeeFault))
        × ArePayeesWithout submitters.now (Some file.entry.now.bytes.items) out read.1
        × (read.0.text.items ≡ fault_lines (submitter_payee_line (string_bytes file.entry.now.path))
        (string_bytes file.entry.now.path) out)
        × (read.0.count ≡ length out)) }
{
    let (told, rows) = read_past_faults(
        alloc,
        file.path.as_str(),
        file.bytes.as_slice(),
        SubmitterPayees::none(alloc, submitters),
    )?;
    Ok((told, rows.into_payees()))
}
