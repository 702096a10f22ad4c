//! A CWR file as it is read, line by line.

ghost use Rattle.std.specs.Prelude.{◌≡◌, ◌⊎◌, ◌∷◌, [], ℕ, List, IfErr, IfNone, IfOk, IfSome, OnOk};
ghost use Rattle.cwr_share.specs.CwrFile.{AreSound, HasTooMany, IsFaultOf, IsFaultOfLine, IsFileOf};
ghost use Rattle.csv_table.specs.FirstFault.{IsFirstFault};
ghost use Rattle.cwr_share.specs.CwrReading.{HasReadOn, Stands};
ghost use Rattle.cwr_share.specs.InForce.{HasInForce};
ghost use Rattle.cwr_share.specs.Lines.{lines_of};
ghost use Rattle.cwr_share.specs.Reading.{IsReadTo};
ghost use Rattle.cwr_share.specs.Registered.{IsRegistered};
ghost use Rattle.cwr_share.specs.declared.cwr_fault.CwrFault.TheVariants.{Accounts, Memory};

use crate::lines::Lines;
use crate::reading::Reading;
use crate::{CwrFault, InForce, Payees, Registry};
use csv_table::FileFault;
use std::alloc::{AllocError, Global};

/// A CWR file that is read line by line. A line that is refused is left out, and reading can go on.
#[derive(Drop)]
pub struct CwrReader<'a> {
    lines: Lines<'a>,
    line: &'a [u8],
    /// The number of the next line.
    number: u64,
    reading: Reading,
}

impl<'a> CwrReader<'a> {
    /// A file before its first line.
    pub fn of(alloc: Global, bytes: &'a [u8]) -> CwrReader<'a>
        ensures begun { (result.number ≡ 1) × (result.lines ≡ lines_of bytes.now) }
        ensures none_read { IsReadTo [] result.reading }
        ensures stands { Stands result }
    {
        CwrReader {
            lines: Lines::of(bytes),
            line: b"",
            number: 1,
            reading: Reading::new(alloc),
        }
    }

    /// Reads on to the next line that is refused, and leaves it out. None: there is no such line, and all are read. Where
    /// memory is refused, the line that was being read may be lost, so the reader is to be given up.
    pub fn next_fault(&mut self, alloc: Global) -> Result<Option<CwrFault>, AllocError>
        requires { Stands self.old }
        ensures fault { IfOk result (λ found. IfSome found (λ fault. HasReadOn self.old ((self.new.line.now, fault) ∷ []) self.new)) }
        ensures none { IfOk result (λ found. IfNone found (HasReadOn self.old [] self.new × (self.new.lines ≡ []))) }
        ensures stands { IfOk result (λ _. Stands self.new) }
    {
        while let Some(line) = self.lines.next() {
            let number = self.number;
            self.line = line;
            self.number += 1;
            if let Err(fault) = self.reading.add(alloc, number, line) {
                if fault.place().is_none() {
                    return Err(AllocError);
                }
                return Ok(Some(fault));
            }
        }
        Ok(None)
    }

    /// The line that was read last: behind a fault, the one that is refused for it.
    pub fn line(&self) -> &'a [u8]
        ensures { result.now ≡ self.now.line.now }
    {
        self.line
    }

    /// The registrations in force of the lines that were read.
    pub fn in_force(self) -> Result<InForce, AllocError>
        requires { Stands self }
        ensures { IfOk result (λ in_force. (lines : List (List ℕ)) → IsReadTo lines self.entry.reading → HasInForce lines in_force) }
    {
        self.reading.finish()
    }

    /// The registry of the lines that were read, where what a party claims is paid to its payee.
    pub fn finish(self, alloc: Global, payees: &Payees) -> Result<Registry, CwrFault>
        requires { Stands self }
        ensures registrations { IfOk result (λ registry. (lines : List (List ℕ)) → IsReadTo lines self.entry.reading → IsFileOf payees.now lines registry) }
        ensures sound { IfOk result IsRegistered }
        ensures fault { IfErr result (λ fault. (fault ≡ Memory) ⊎ ((fault ≡ Accounts) × ((lines : List (List ℕ)) → IsReadTo lines self.entry.reading → HasTooMany payees.now lines))) }
    {
        self.in_force()?.registry(alloc, payees)
    }
}

impl InForce {
    /// Reads the registrations in force of a CWR 2.2 file with line ends of either kind, LF or CR LF: of several
    /// registrations (NWR, REV) of a work the last one.
    pub fn read(alloc: Global, bytes: &[u8]) -> Result<InForce, CwrFault>
        ensures sound { OnOk result (AreSound (lines_of bytes.now)) }
        ensures registrations { IfOk result (HasInForce (lines_of bytes.now)) }
        ensures fault { IfErr result (λ fault. (fault ≡ Memory)
            ⊎ IsFirstFault AreSound IsFaultOfLine (lines_of bytes.now) fault) }
    {
        let mut reader = CwrReader::of(alloc, bytes);
        match reader.next_fault(alloc)? {
            Some(fault) => Err(fault),
            None => Ok(reader.in_force()?),
        }
    }
}

impl Registry {
    /// Reads a CWR 2.2 file with line ends of either kind, LF or CR LF. Of several registrations (NWR,
    /// REV) of a work the last one is in force. Each party is paid itself.
    pub fn read(alloc: Global, bytes: &[u8]) -> Result<Registry, CwrFault>
        ensures registrations { IfOk result (IsFileOf [] (lines_of bytes.now)) }
        ensures sound { IfOk result IsRegistered }
        ensures fault { IfErr result (IsFaultOf [] (lines_of bytes.now)) }
    {
        Registry::paid(alloc, bytes, &Payees::none(alloc))
    }

    /// The same where what a party claims is paid to its payee. Several parties may be paid to one
    /// account: their claims are added before an amount is divided.
    pub fn paid(alloc: Global, bytes: &[u8], payees: &Payees) -> Result<Registry, CwrFault>
        ensures registrations { IfOk result (IsFileOf payees.now (lines_of bytes.now)) }
        ensures sound { IfOk result IsRegistered }
        ensures fault { IfErr result (IsFaultOf payees.now (lines_of bytes.now)) }
    {
        let mut reader = CwrReader::of(alloc, bytes);
        match reader.next_fault(alloc)? {
            Some(fault) => Err(fault),
            None => reader.finish(alloc, payees),
        }
    }
}
