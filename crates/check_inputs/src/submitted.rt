//! The report on the inputs of a run over the files of several submitters.

ghost use Rattle.std.specs.Prelude.{◌≡◌, ◌&&◌, ◌⊎◌, ◌++◌, [], List, All, IfErr, IfOk, OnOk, Option, Some, length, map};
ghost use Rattle.std.specs.Prelude.{string_bytes, true, ℕ};
ghost use Rattle.std.specs.Option.{option_map_or};
ghost use Rattle.submitted_inputs.specs.Submitted.{map_tables};
ghost use Rattle.submitted_inputs.specs.declared.fault.SubmittedFault.TheVariants.{Room};
ghost use Rattle.usage_totals.specs.declared.totals.Totals.{Totals};
ghost use Rattle.check_inputs.specs.Checked.{bytes_of, path_of};
ghost use Rattle.check_inputs.specs.Found.{AreTotalsIfSound};
ghost use Rattle.check_inputs.specs.LinksSoFar.{ArePaired};
ghost use Rattle.check_inputs.specs.SubmittedChecked.{IsFirstUnread, IsSubmittedReportOn};
ghost use Rattle.check_inputs.specs.SubmittedSoFar.{IsRunTold, sources_text};

use crate::links::add_links_if_sound;
use crate::over::add_over;
use crate::report::Sheet;
use crate::submitted_files::Pages;
use crate::submitted_sources::{Sources, read_sources};
use crate::summary::{add_further_over, add_totals};
use crate::{Checked, File};
use cwr_share::Registry;
use line_split::Usage;
use linked_works::Submitters;
use std::alloc::{AllocError, Global};
use submitted_inputs::{SubmittedFault, SubmittedTables, SubmitterFiles};
use usage_totals::totals_of;

/// Reports on the inputs of a run over the files of several submitters: the tables, which are read already, and the CWR
/// file of each submitter, whose path in the report is at its place in `paths`. The files are read one after another,
/// in the order of the names, and the text of each is let go before the next is read. Each input is read whatever
/// stands in the others, past each row or line that is refused. Where a file cannot be read, or memory runs out, there
/// is no report.
pub fn check_submitted<F: SubmitterFiles>(
    alloc: Global,
    submitters: &Submitters,
    tables: &SubmittedTables<File>,
    paths: &[String],
    files: &F,
) -> Result<Checked, SubmittedFault>
    requires { length paths.now ≡ length submitters.now }
    ensures report { IfOk result (λ checked. IsSubmittedReportOn submitters.now (map string_bytes paths.now)
        (F.holds files.now)
        (map_tables path_of tables.now) (map_tables bytes_of tables.now) checked.text.items checked.is_sound) }
    ensures fault { IfErr result (λ fault. (fault ≡ Room)
        ⊎ IsFirstUnread (F.holds files.now) (F.refuses files.now) (length submitters.now) fault) }
{
    let mut pages = Pages::none(alloc);
    let sources = read_sources(alloc, &mut pages, submitters, tables, paths, files)?;
    add_run(alloc, &mut pages, tables, &sources)?;
    Ok(pages.finish()?)
}

/// Adds what the links come to, and what is said of the usage list, and what a run makes of its lines.
fn add_run(
    alloc: Global,
    pages: &mut Pages,
    tables: &SubmittedTables<File>,
    sources: &Sources<'_>,
) -> Result<(), AllocError>
    requires { ArePaired sources.now }
    ensures { OnOk result (IsRunTold (map_tables path_of tables.now)
        (bytes_of tables.now.usage) sources.now pages.old pages.new) }
{
    let registry = add_links_if_sound(alloc, pages, tables, sources)?;
    let lines = pages.sheet.usage(alloc, &tables.usage)?;
    pages.totals(alloc, tables, sources, &registry, &lines)?;
    Ok(())
}

impl Pages {
    /// A report on nothing.
    fn none(alloc: Global) -> Pages
        ensures { (result.sheet.faults.items ≡ []) × (result.sheet.facts.items ≡ []) × (result.sheet.is_sound ≡ true)
            × (result.remarks.items ≡ []) }
    {
        Pages {
            sheet: Sheet::none(alloc),
            remarks: Vec::new(alloc),
        }
    }

    /// Adds what a run makes of the lines, where no input has a fault.
    fn totals(
        &mut self,
        alloc: Global,
        tables: &SubmittedTables<File>,
        sources: &Sources<'_>,
        registry: &Option<Registry>,
        lines: &Usage,
    ) -> Result<(), AllocError>
        requires { ArePaired sources.now }
        ensures { OnOk result ((totals : Option Totals)
            × AreTotalsIfSound self.old.sheet.is_sound sources.now.tables.territories registry.now lines.now totals
            × (self.new.sheet ≡ self.old.sheet)
            × (self.new.remarks.items ≡ self.old.remarks.items
            ++ option_map_or (λ registered.
            option_map_or (sources_text (map_tables path_of tables.now) sources.now lines.now registered) totals [])
            registry.now [])) }
    {
        if !self.sheet.is_sound {
            return Ok(());
        }
        let Some(registry) = registry else {
            return Ok(());
        };
        let path = tables.usage.path.as_str();
        let totals = totals_of(alloc, &sources.tables.territories, registry, lines)?;
        add_totals(
            &mut self.remarks,
            path,
            tables.works.path.as_str(),
            tables.territories.path.as_str(),
            lines.len() as u64,
            &totals,
        )?;
        add_over(
            alloc,
            &mut self.remarks,
            path,
            sources,
            registry,
            lines,
            totals.over.first.as_slice(),
        )?;
        add_further_over(&mut self.remarks, path, &totals)?;
        Ok(())
    }

    /// Puts the report together.
    fn finish(self) -> Result<Checked, AllocError>
        ensures { IfOk result (λ checked.
            (checked.text.items ≡ self.sheet.faults.items ++ self.sheet.facts.items ++ self.remarks.items)
            × (checked.is_sound ≡ self.sheet.is_sound)) }
    {
        let Pages { sheet, remarks } = self;
        let Checked { mut text, is_sound } = sheet.finish()?;
        text.extend_from_slice(remarks.as_slice())?;
        Ok(Checked { text, is_sound })
    }
}
