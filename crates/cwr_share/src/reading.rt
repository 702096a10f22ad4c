//! A CWR file as it is read, line by line.

ghost use Rattle.std.specs.Prelude.{◌≡◌, ◌<◌, ◌+◌, ◌++◌, ◌∷◌, ◌⊎◌, [], ℕ, List, IfOk, IfErr, IfSome, None, OnOk, Some, length, ◌^◌, true};
ghost use Rattle.cwr_share.specs.CwrFile.{IsFaultOfLine, IsFaultOfOpening, place_of_fault};
ghost use Rattle.cwr_share.specs.InForce.{HasInForce};
ghost use Rattle.cwr_share.specs.Reading.{IsReadTo};
ghost use Rattle.cwr_share.specs.Records.{is_share_line, share_fields, type_of};
ghost use Rattle.cwr_share.specs.declared.cwr_fault.CwrFault.TheVariants.{Memory};
ghost use Rattle.cwr_share.specs.declared.record_type.RecordType.TheVariants as record_type;

use crate::fields::{SPT, SWT, ShareFields, WORK};
use crate::numbers::{WorkName, in_place};
use crate::record_type::record_type_of;
use crate::share_line::{ShareRecord, is_filled, trimmed};
use crate::{CwrFault, InForce, RecordType};
use std::alloc::{AllocError, Global};

/// What the lines so far came to: the registrations in force that have ended, and the open one.
#[derive(Drop)]
pub(crate) struct Reading {
    in_force: InForce,
    open: Option<Open>,
}

/// A registration that has not ended.
#[derive(Drop)]
struct Open {
    work: WorkName,
    shares: Vec<ShareRecord>,
    /// How many interests were opened in it.
    interest: usize,
}

impl Reading {
    /// Before the first line.
    pub(crate) fn new(alloc: Global) -> Reading
        ensures { IsReadTo [] result }
    {
        Reading {
            in_force: InForce::none(alloc),
            open: None,
        }
    }

    /// Goes on by the next line, which has this number.
    pub(crate) fn add(&mut self, alloc: Global, number: u64, line: &[u8]) -> Result<(), CwrFault>
        requires { (before : List (List ℕ)) × IsReadTo before self.old × (length before < number) }
        ensures read { OnOk result ((before : List (List ℕ)) → IsReadTo before self.old → IsReadTo (before ++ line.now ∷ []) self.new) }
        ensures fault { IfErr result (λ fault. (fault ≡ Memory) ⊎ ((before : List (List ℕ)) → IsReadTo before self.old → IsFaultOfLine before number line.now fault)) }
        ensures same { IfErr result (λ fault. (fault ≡ Memory) ⊎ ((self.new ≡ self.old) × (place_of_fault fault ≡ Some number))) }
    {
        match record_type_of(line) {
            RecordType::Registration => self.begin(alloc, number, line),
            RecordType::Interest => {
                self.begin_interest();
                Ok(())
            }
            RecordType::PublisherShare => self.add_share(alloc, number, line, &SPT),
            RecordType::WriterShare => self.add_share(alloc, number, line, &SWT),
            RecordType::Closing => Ok(self.end()?),
            RecordType::Other => Ok(()),
        }
    }

    /// Begins a registration.
    fn begin(&mut self, alloc: Global, number: u64, line: &[u8]) -> Result<(), CwrFault>
        requires opens { type_of line.now ≡ record_type.Registration }
        requires before { (before : List (List ℕ)) × IsReadTo before self.old }
        ensures read { OnOk result ((before : List (List ℕ)) → IsReadTo before self.old → IsReadTo (before ++ line.now ∷ []) self.new) }
        ensures fault { IfErr result (λ fault. (fault ≡ Memory) ⊎ IsFaultOfOpening line.now number fault) }
        ensures same { IfErr result (λ fault. (fault ≡ Memory) ⊎ ((self.new ≡ self.old) × (place_of_fault fault ≡ Some number))) }
    {
        if line.len() < WORK.first {
            return Err(CwrFault::Short(number));
        }
        let work = WORK.of(line);
        if !is_filled(work) {
            return Err(CwrFault::Work(number));
        }
        self.end()?;
        self.open = Some(Open {
            work: in_place(trimmed(work)),
            shares: Vec::new(alloc),
            interest: 0,
        });
        Ok(())
    }

    /// Begins an interest of the open registration.
    fn begin_interest(&mut self)
        requires { IfSome self.old.open (λ registration. registration.interest + 1 < 2 ^ 64) }
        ensures { (before : List (List ℕ)) (line : List ℕ) → type_of line ≡ record_type.Interest → IsReadTo before self.old → IsReadTo (before ++ line ∷ []) self.new }
    {
        if let Some(open) = &mut self.open {
            open.interest += 1;
        }
    }

    /// Adds a share line to the open registration.
    fn add_share(
        &mut self,
        alloc: Global,
        number: u64,
        line: &[u8],
        fields: &ShareFields,
    ) -> Result<(), CwrFault>
        requires { (is_share_line line.now ≡ true) × (fields.now ≡ share_fields line.now) }
        ensures read { OnOk result ((before : List (List ℕ)) → IsReadTo before self.old → IsReadTo (before ++ line.now ∷ []) self.new) }
        ensures fault { IfErr result (λ fault. (fault ≡ Memory) ⊎ ((before : List (List ℕ)) → IsReadTo before self.old → IsFaultOfLine before number line.now fault)) }
        ensures same { IfErr result (λ fault. (fault ≡ Memory) ⊎ ((self.new ≡ self.old) × (place_of_fault fault ≡ Some number))) }
    {
        let Some(open) = self.open.as_mut() else {
            return Ok(());
        };
        let share = ShareRecord::read(line, number, fields, open.interest, open.shares.len())?;
        open.shares.push(share)?;
        Ok(())
    }

    /// Ends the open registration. It is in force now, in place of an earlier one of its work.
    fn end(&mut self) -> Result<(), AllocError>
        requires { (before : List (List ℕ)) × IsReadTo before self.old }
        ensures { OnOk result ((self.new.open ≡ None)
            × ((before : List (List ℕ)) → IsReadTo before self.old → HasInForce before self.new.in_force)) }
    {
        match self.open.take() {
            Some(open) => self.in_force.put(open.work, open.shares),
            None => Ok(()),
        }
    }

    /// The registrations in force of the lines so far.
    pub(crate) fn finish(self) -> Result<InForce, AllocError>
        requires { (lines : List (List ℕ)) × IsReadTo lines self }
        ensures { IfOk result (λ in_force. (lines : List (List ℕ)) → IsReadTo lines self → HasInForce lines in_force) }
    {
        let mut reading = self;
        reading.end()?;
        Ok(reading.in_force)
    }
}
