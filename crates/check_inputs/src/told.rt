//! The faults of one file, in words.

ghost use Rattle.std.specs.Prelude.{◌≡◌, ◌<◌, ◌+◌, ◌++◌, ◌∷◌, ◌^◌, [], ℕ, List, OnOk, Option, codes, decimal};
ghost use Rattle.cwr_share.specs.declared.cwr_fault.CwrFault.{CwrFault};
ghost use Rattle.check_inputs.specs.Messages.{place_text};
ghost use Rattle.check_inputs.specs.Report.{cwr_line, more_line, row_line};
ghost use Rattle.check_inputs.specs.SoFar.{IsTold};

use crate::messages::{Worded, add_cwr};
use crate::words::{MOST_FAULTS, add, add_fact, add_number, add_path, add_place};
use csv_table::{FileFault, Rows};
use cwr_share::CwrFault;
use std::alloc::{AllocError, Global};

/// The faults of a file so far: the first hundred as lines, and how many there are.
#[derive(Drop)]
pub(crate) struct Told<'a> {
    /// The path of the file.
    pub(crate) path: &'a str,
    /// The lines of the first hundred faults, and then of how many more there are.
    pub(crate) text: Vec<u8>,
    /// How many faults there are.
    pub(crate) count: u64,
}

impl<'a> Told<'a> {
    /// No faults yet.
    pub(crate) fn none(alloc: Global, path: &'a str) -> Told<'a>
        ensures none { (result.text.items ≡ []) × (result.count ≡ 0) }
        ensures path { result.path.now ≡ path.now }
    {
        Told {
            path,
            text: Vec::new(alloc),
            count: 0,
        }
    }

    /// Tells one more fault of a table.
    pub(crate) fn row<T: Worded>(
        &mut self,
        row: &Rows<'_>,
        fault: &T::Fault,
    ) -> Result<(), AllocError>
    where
        T::Fault: FileFault,
        requires { self.old.count + 1 < 2 ^ 64 }
        ensures told { OnOk result ((faults : List (List (List ℕ) × T.Fault))
            → IsTold (row_line T.message T.Fault.place_in T.Fault.number_in self.old.path.now)
            self.old.text.items self.old.count faults
            → IsTold (row_line T.message T.Fault.place_in T.Fault.number_in self.old.path.now)
            self.new.text.items self.new.count (faults ++ (row.now.row, fault.now) ∷ [])) }
        ensures path { self.new.path.now ≡ self.old.path.now }
    {
        if self.count >= MOST_FAULTS {
            self.count += 1;
            return Ok(());
        }
        self.begin("row ", fault.place())?;
        T::add_message(fault, &mut self.text, row)?;
        self.end(fault.number())?;
        Ok(())
    }

    /// Tells one more fault of a CWR file.
    pub(crate) fn cwr(&mut self, line: &[u8], fault: CwrFault) -> Result<(), AllocError>
        requires { self.old.count + 1 < 2 ^ 64 }
        ensures told { OnOk result ((faults : List (List ℕ × CwrFault))
            → IsTold (cwr_line self.old.path.now) self.old.text.items self.old.count faults
            → IsTold (cwr_line self.old.path.now) self.new.text.items self.new.count
            (faults ++ (line.now, fault) ∷ [])) }
        ensures path { self.new.path.now ≡ self.old.path.now }
    {
        if self.count >= MOST_FAULTS {
            self.count += 1;
            return Ok(());
        }
        self.begin("line ", fault.place())?;
        add_cwr(&mut self.text, line, fault)?;
        self.end(fault.number())?;
        Ok(())
    }

    /// Says how many more faults there are than were told.
    pub(crate) fn close(&mut self) -> Result<(), AllocError>
        ensures text { OnOk result (self.new.text.items ≡ self.old.text.items
            ++ more_line self.old.path.now self.old.count) }
        ensures count { self.new.count ≡ self.old.count }
    {
        if self.count > MOST_FAULTS {
            add_fact(
                &mut self.text,
                self.path,
                "further faults",
                self.count - MOST_FAULTS,
            )?;
        }
        Ok(())
    }

    /// Begins the line of a fault.
    fn begin(&mut self, kind: &str, place: Option<u64>) -> Result<(), AllocError>
        ensures text { OnOk result (self.new.text.items ≡ self.old.text.items
            ++ (self.old.path.now ++ codes ": " ++ place_text kind.now place)) }
        ensures same { (self.new.count ≡ self.old.count) × (self.new.path.now ≡ self.old.path.now) }
    {
        add_path(&mut self.text, self.path)?;
        add_place(&mut self.text, kind, place)
    }

    /// Ends the line of a fault, and counts the fault.
    fn end(&mut self, number: u8) -> Result<(), AllocError>
        requires { self.old.count + 1 < 2 ^ 64 }
        ensures text { OnOk result (self.new.text.items ≡ self.old.text.items
            ++ (codes " (fault " ++ decimal number ++ codes ")\n")) }
        ensures count { self.new.count ≡ self.old.count + 1 }
        ensures path { self.new.path.now ≡ self.old.path.now }
    {
        self.count += 1;
        add(&mut self.text, " (fault ")?;
        add_number(&mut self.text, u64::from(number))?;
        add(&mut self.text, ")\n")
    }
}
