//! The report on the inputs of a run.

ghost use Rattle.std.specs.Option.{option_map, option_map_or};
ghost use Rattle.std.specs.Prelude.{◌≡◌, ◌++◌, [], ◌==◌, ◌&&◌, ℕ, List, IfOk, OnOk, Option, codes, length};
ghost use Rattle.std.specs.Prelude.{string_bytes, true};
ghost use Rattle.csv_table.specs.Table.{rows_of};
ghost use Rattle.cwr_share.specs.CwrFile.{AreSound};
ghost use Rattle.cwr_share.specs.Lines.{lines_of};
ghost use Rattle.cwr_share.specs.declared.cwr_fault.CwrFault.{CwrFault};
ghost use Rattle.cwr_share.specs.declared.payee_fault.PayeeFault.{PayeeFault};
ghost use Rattle.line_split.specs.UsageTable as usage;
ghost use Rattle.run_inputs.specs.Inputs.{map_inputs};
ghost use Rattle.line_split.specs.declared.line_fault.LineFault.{LineFault};
ghost use Rattle.tis_tree.specs.TisRows as tis;
ghost use Rattle.tis_tree.specs.declared.tis_fault.TisFault.{TisFault};
ghost use Rattle.usage_totals.specs.declared.totals.Totals.{Totals};
ghost use Rattle.check_inputs.specs.Checked.{IsReportOn, bytes_of, path_if_given, path_of, payee_facts};
ghost use Rattle.check_inputs.specs.Form.{form_text, quote_if_given, quote_remark};
ghost use Rattle.check_inputs.specs.Found.{ArePayeesWithout, AreRegistrationsWithout, AreTotalsIfSound};
ghost use Rattle.check_inputs.specs.Messages.{fact_line, remark_line};
ghost use Rattle.check_inputs.specs.SoFar.{Adds, GoesOn};
ghost use Rattle.check_inputs.specs.Report.{cwr_facts, cwr_line, cwr_numbers, fault_lines, if_none, payee_line};
ghost use Rattle.check_inputs.specs.Report.{payees_remark, territories_remark};
ghost use Rattle.check_inputs.specs.Report.{run_text, tis_facts, tis_line, usage_facts, usage_line};

use crate::form::{add_form, add_quote_if_given, add_quote_remark};
use crate::reading::{read_cwr, read_past_faults};
use crate::remarks::{add_payees_remark, add_tally, add_territories_remark};
use crate::summary::{add_claimed_over, add_further_over, add_totals};
use crate::told::Told;
use crate::words::{add_fact, add_remark};
use cwr_share::{Payees, Registry, count_registrations};
use line_split::Usage;
use run_inputs::{Input, Inputs};
use std::alloc::{AllocError, Global};
use tis_tree::TisTable;
use usage_totals::{repeated_rows, totals_of};

/// A report on inputs.
#[derive(Drop)]
pub struct Checked {
    /// The lines of the report.
    pub text: Vec<u8>,
    /// No file has a fault.
    pub is_sound: bool,
}

/// An input, with the path that it has in the report.
#[derive(Drop)]
pub struct File {
    /// The path of the file.
    pub path: String,
    /// What is in the file.
    pub bytes: Vec<u8>,
}

impl Input for File {
    ghost use Rattle.check_inputs.specs.Checked.{bytes_of};

    ghost bytes = { bytes_of };

    fn bytes(&self) -> &[u8] {
        self.bytes.as_slice()
    }
}

/// Reports on the inputs of a run: a table of territories, a table of payees where there is one, a CWR file and a usage
/// list. Each is read whatever stands in the others, past each row or line that is refused. The report has the first
/// hundred faults of each, what is in those that have none, what a run passes over in them, and, where none has a
/// fault, what a run makes of the usage lines.
pub fn check(alloc: Global, inputs: &Inputs<File>) -> Result<Checked, AllocError>
    ensures { IfOk result (λ checked.
        IsReportOn (map_inputs path_of inputs.now) (map_inputs bytes_of inputs.now)
        checked.text.items checked.is_sound) }
{
    let mut sheet = Sheet::none(alloc);
    let (territories, tis_faults) = sheet.tis(alloc, &inputs.territories)?;
    let (rows, payee_faults) = sheet.payees(alloc, &inputs.payees)?;
    let (registry, cwr_faults) = sheet.cwr(alloc, &inputs.registrations, &rows, payee_faults)?;
    let lines = sheet.usage(alloc, &inputs.usage)?;
    sheet.territories_remark(&inputs.registrations, cwr_faults, &territories, tis_faults)?;
    sheet.payees_remark(&inputs.payees, payee_faults, &rows, &registry, cwr_faults)?;
    sheet.totals(alloc, inputs, &territories, &registry, &lines)?;
    sheet.finish()
}

/// The report so far.
#[derive(Drop)]
pub(crate) struct Sheet {
    /// The lines of the faults.
    pub(crate) faults: Vec<u8>,
    /// What is in the files that have no fault, and what a run makes of them.
    pub(crate) facts: Vec<u8>,
    /// No file so far has a fault.
    pub(crate) is_sound: bool,
}

impl Sheet {
    /// A report on nothing.
    pub(crate) fn none(alloc: Global) -> Sheet
        ensures { (result.faults.items ≡ []) × (result.facts.items ≡ []) × (result.is_sound ≡ true) }
    {
        Sheet {
            faults: Vec::new(alloc),
            facts: Vec::new(alloc),
            is_sound: true,
        }
    }

    /// Adds a table of territories, and answers how many faults it has.
    pub(crate) fn tis(&mut self, alloc: Global, file: &File) -> Result<(TisTable, u64), AllocError>
        ensures { IfOk result (λ read. (out : List (List (List ℕ) × TisFault))
            × tis.IsReadWithout (rows_of file.now.bytes.items) out read.0 × (read.1 ≡ length out)
            × GoesOn self.old self.new (length out)
            (fault_lines (tis_line (string_bytes file.now.path)) (string_bytes file.now.path) out)
            (tis_facts (string_bytes file.now.path) (length out) read.0
            ++ quote_remark (string_bytes file.now.path) file.now.bytes.items)) }
    {
        let path = file.path.as_str();
        let (told, table) = read_past_faults(
            alloc,
            path,
            file.bytes.as_slice(),
            TisTable::new(alloc)?,
        )?;
        self.add_faults(&told)?;
        add_fact_if_sound(
            &mut self.facts,
            told.count,
            path,
            "territories",
            table.len() as u64,
        )?;
        add_quote_remark(alloc, &mut self.facts, path, file.bytes.as_slice())?;
        Ok((table, told.count))
    }

    /// Adds a table of payees, where there is one, and answers how many faults it has.
    fn payees(&mut self, alloc: Global, file: &Option<File>) -> Result<(Payees, u64), AllocError>
        ensures { IfOk result (λ read. (out : List (List (List ℕ) × PayeeFault))
            × ArePayeesWithout (option_map bytes_of file.now) out read.0 × (read.1 ≡ length out)
            × GoesOn self.old self.new (length out)
            (fault_lines (payee_line (path_if_given file.now)) (path_if_given file.now) out)
            (payee_facts file.now (length out) read.0)) }
    {
        let (told, rows) = read_payees_if_given(alloc, file)?;
        self.add_faults(&told)?;
        add_payee_facts(alloc, &mut self.facts, file, told.count, rows.len() as u64)?;
        Ok((rows, told.count))
    }

    /// Adds a CWR file, where the table of payees has so many faults, and answers how many it has.
    fn cwr(
        &mut self,
        alloc: Global,
        file: &File,
        payees: &Payees,
        payee_faults: u64,
    ) -> Result<(Option<Registry>, u64), AllocError>
        ensures { IfOk result (λ read. (out : List (List ℕ × CwrFault))
            × AreRegistrationsWithout payees.now (lines_of file.now.bytes.items) out read.0 × (read.1 ≡ length out)
            × GoesOn self.old self.new (length out)
            (fault_lines (cwr_line (string_bytes file.now.path)) (string_bytes file.now.path) out)
            (cwr_facts (string_bytes file.now.path) file.now.bytes.items (length out) payee_faults read.0
            ++ form_text (string_bytes file.now.path) file.now.bytes.items)) }
    {
        let (told, registry) = read_cwr(alloc, file.path.as_str(), file.bytes.as_slice(), payees)?;
        self.add_faults(&told)?;
        add_cwr_facts(&mut self.facts, file, told.count, payee_faults, &registry)?;
        add_form(
            alloc,
            &mut self.facts,
            file.path.as_str(),
            file.bytes.as_slice(),
        )?;
        Ok((registry, told.count))
    }

    /// Adds a usage list.
    pub(crate) fn usage(&mut self, alloc: Global, file: &File) -> Result<Usage, AllocError>
        ensures { IfOk result (λ lines. (out : List (List (List ℕ) × LineFault))
            × usage.IsReadWithout (rows_of file.now.bytes.items) out lines
            × GoesOn self.old self.new (length out)
            (fault_lines (usage_line (string_bytes file.now.path)) (string_bytes file.now.path) out)
            (usage_facts (string_bytes file.now.path) (length out) lines
            ++ quote_remark (string_bytes file.now.path) file.now.bytes.items)) }
    {
        let path = file.path.as_str();
        let bytes = file.bytes.as_slice();
        let (told, lines) = read_past_faults(
            alloc,
            path,
            bytes,
            Usage::with_room_for(alloc, bytes)?,
        )?;
        self.add_faults(&told)?;
        add_usage_facts(alloc, &mut self.facts, told.count, path, &lines)?;
        add_quote_remark(alloc, &mut self.facts, path, bytes)?;
        Ok(lines)
    }

    /// Remarks on share lines whose territory the table does not have, where the two files have so many faults.
    fn territories_remark(
        &mut self,
        file: &File,
        faults: u64,
        table: &TisTable,
        tis_faults: u64,
    ) -> Result<(), AllocError>
        requires { faults ≡ 0 → AreSound (lines_of file.now.bytes.items) }
        ensures { OnOk result (Adds self.old self.new
            (territories_remark (string_bytes file.now.path) file.now.bytes.items faults tis_faults table.now)) }
    {
        add_territories_remark(
            &mut self.facts,
            file.path.as_str(),
            file.bytes.as_slice(),
            faults,
            tis_faults,
            table,
        )?;
        Ok(())
    }

    /// Remarks on rows of payees whose party no registration in force has, where the two files have so many faults.
    fn payees_remark(
        &mut self,
        file: &Option<File>,
        faults: u64,
        rows: &Payees,
        registry: &Option<Registry>,
        cwr_faults: u64,
    ) -> Result<(), AllocError>
        ensures { OnOk result (Adds self.old self.new
            (payees_remark (path_if_given file.now) faults cwr_faults rows.now registry.now)) }
    {
        let path = path_or_none(file);
        add_payees_remark(&mut self.facts, path, faults, cwr_faults, rows, registry)?;
        Ok(())
    }

    /// Adds what a run makes of the lines, where no file has a fault.
    fn totals(
        &mut self,
        alloc: Global,
        inputs: &Inputs<File>,
        table: &TisTable,
        registry: &Option<Registry>,
        lines: &Usage,
    ) -> Result<(), AllocError>
        ensures { OnOk result ((totals : Option Totals)
            × AreTotalsIfSound self.old.is_sound table.now registry.now lines.now totals
            × Adds self.old self.new
            (option_map_or (run_text (map_inputs path_of inputs.now) (length lines.now)) totals [])) }
    {
        if !self.is_sound {
            return Ok(());
        }
        let Some(registry) = registry else {
            return Ok(());
        };
        let totals = totals_of(alloc, table, registry, lines)?;
        add_totals(
            &mut self.facts,
            inputs.usage.path.as_str(),
            inputs.registrations.path.as_str(),
            inputs.territories.path.as_str(),
            lines.len() as u64,
            &totals,
        )?;
        add_claimed_over(
            &mut self.facts,
            inputs.usage.path.as_str(),
            totals.over.first.as_slice(),
        )?;
        add_further_over(&mut self.facts, inputs.usage.path.as_str(), &totals)?;
        Ok(())
    }

    /// Adds the faults of a file.
    pub(crate) fn add_faults(&mut self, told: &Told<'_>) -> Result<(), AllocError>
        ensures told { OnOk result ((self.new.faults.items ≡ self.old.faults.items ++ told.now.text.items)
            × (self.new.is_sound ≡ (self.old.is_sound && (told.now.count == 0)))) }
        ensures facts { self.new.facts ≡ self.old.facts }
    {
        self.faults.extend_from_slice(told.text.as_slice())?;
        self.is_sound = self.is_sound && told.count == 0;
        Ok(())
    }

    /// Puts the report together.
    pub(crate) fn finish(self) -> Result<Checked, AllocError>
        ensures { IfOk result (λ checked. (checked.text.items ≡ self.faults.items ++ self.facts.items)
            × (checked.is_sound ≡ self.is_sound)) }
    {
        let mut text = self.faults;
        text.extend_from_slice(self.facts.as_slice())?;
        Ok(Checked {
            text,
            is_sound: self.is_sound,
        })
    }
}

/// Says how many there are of something in the file of a path, where it has no fault.
pub(crate) fn add_fact_if_sound(
    text: &mut Vec<u8>,
    faults: u64,
    path: &str,
    what: &str,
    number: u64,
) -> Result<(), AllocError>
    ensures { OnOk result (text.new.items ≡ text.old.items ++ if_none faults (fact_line path.now what.now number)) }
{
    if faults == 0 {
        add_fact(text, path, what, number)?;
    }
    Ok(())
}

/// Remarks that there is none of something in the file of a path, where that is so.
pub(crate) fn add_remark_if_none(
    text: &mut Vec<u8>,
    number: u64,
    path: &str,
    remark: &str,
) -> Result<(), AllocError>
    ensures { OnOk result (text.new.items ≡ text.old.items ++ if_none number (remark_line path.now remark.now)) }
{
    if number == 0 {
        add_remark(text, path, remark)?;
    }
    Ok(())
}

/// Reads a table of payees, where there is one.
fn read_payees_if_given<'a>(
    alloc: Global,
    file: &'a Option<File>,
) -> Result<(Told<'a>, Payees), AllocError>
    ensures { IfOk result (λ read. (out : List (List (List ℕ) × PayeeFault))
        × ArePayeesWithout (option_map bytes_of file.entry.now) out read.1
        × (read.0.text.items ≡ fault_lines (payee_line (path_if_given file.entry.now))
        (path_if_given file.entry.now) out) × (read.0.count ≡ length out)) }
{
    match file {
        Some(file) => read_past_faults(
            alloc,
            file.path.as_str(),
            file.bytes.as_slice(),
            Payees::none(alloc),
        ),
        None => Ok((Told::none(alloc, ""), Payees::none(alloc))),
    }
}

/// The path of a file that need not be there.
pub(crate) fn path_or_none(file: &Option<File>) -> &str
    ensures { result.now ≡ path_if_given file.now }
{
    match file {
        Some(file) => file.path.as_str(),
        None => "",
    }
}

/// Adds what is in a table of payees, where there is one that has no fault, and a remark on its quotes.
pub(crate) fn add_payee_facts(
    alloc: Global,
    text: &mut Vec<u8>,
    file: &Option<File>,
    faults: u64,
    rows: u64,
) -> Result<(), AllocError>
    ensures { OnOk result (text.new.items ≡ text.old.items
        ++ (option_map_or (λ path. if_none faults (fact_line path (codes "parties with a payee") rows))
        (option_map path_of file.now) []
        ++ quote_if_given (path_if_given file.now) (option_map bytes_of file.now))) }
{
    add_parties_fact(text, file, faults, rows)?;
    add_quote_if_given(alloc, text, file)?;
    Ok(())
}

/// Says how many parties have a payee, where there is a table of payees that has no fault.
fn add_parties_fact(
    text: &mut Vec<u8>,
    file: &Option<File>,
    faults: u64,
    rows: u64,
) -> Result<(), AllocError>
    ensures { OnOk result (text.new.items ≡ text.old.items
        ++ option_map_or (λ path. if_none faults (fact_line path (codes "parties with a payee") rows))
        (option_map path_of file.now) []) }
{
    let Some(file) = file else {
        return Ok(());
    };
    add_fact_if_sound(
        text,
        faults,
        file.path.as_str(),
        "parties with a payee",
        rows,
    )?;
    Ok(())
}

/// Adds what is in a CWR file, where it has no fault.
fn add_cwr_facts(
    text: &mut Vec<u8>,
    file: &File,
    faults: u64,
    payee_faults: u64,
    registry: &Option<Registry>,
) -> Result<(), AllocError>
    ensures { OnOk result (text.new.items ≡ text.old.items
        ++ cwr_facts (string_bytes file.now.path) file.now.bytes.items faults payee_faults registry.now) }
{
    if faults > 0 {
        return Ok(());
    }
    let Some(registry) = registry else {
        return Ok(());
    };
    add_cwr_numbers(
        text,
        file.path.as_str(),
        count_registrations(file.bytes.as_slice()),
        payee_faults,
        registry,
    )?;
    Ok(())
}

/// Adds what is in a CWR file that has so many registrations.
fn add_cwr_numbers(
    text: &mut Vec<u8>,
    path: &str,
    registrations: u64,
    payee_faults: u64,
    registry: &Registry,
) -> Result<(), AllocError>
    ensures { OnOk result (text.new.items ≡ text.old.items
        ++ cwr_numbers path.now registrations payee_faults registry.now) }
{
    let works = registry.works() as u64;
    add_fact(text, path, "works with a registration in force", works)?;
    add_fact(
        text,
        path,
        "registrations replaced by later ones",
        registrations.saturating_sub(works),
    )?;
    add_fact(text, path, "parties in force", registry.claimants() as u64)?;
    add_fact_if_sound(
        text,
        payee_faults,
        path,
        "accounts, the residue's included",
        u64::from(registry.accounts()),
    )?;
    add_remark_if_none(text, registrations, path, "no line is an NWR or REV")?;
    Ok(())
}

/// Adds what is in a usage list, where it has no fault.
fn add_usage_facts(
    alloc: Global,
    text: &mut Vec<u8>,
    faults: u64,
    path: &str,
    lines: &Usage,
) -> Result<(), AllocError>
    ensures { OnOk result (text.new.items ≡ text.old.items ++ usage_facts path.now faults lines.now) }
{
    if faults > 0 {
        return Ok(());
    }
    let count = lines.len() as u64;
    add_fact(text, path, "usage lines", count)?;
    add_remark_if_none(text, count, path, "there are no usage lines")?;
    let repeated = repeated_rows(alloc, lines)?;
    add_tally(
        text,
        path,
        "rows that are the same as an earlier one",
        "in row ",
        &repeated,
    )?;
    Ok(())
}
