//! The registrations in force of a file, as they stand in it.

ghost use Rattle.std.specs.Prelude.{◌≡◌, ◌≤◌, ◌++◌, ◌∷◌, [], IfOk, OnOk, if◌then◌else◌, length};
ghost use Rattle.cwr_share.specs.Lines.{lines_of};
ghost use Rattle.cwr_share.specs.declared.numbers.TheConstants.{MOST_WORK_BYTES};
ghost use Rattle.starting_tables.specs.InForce.{number_of, registrations_filed, registrations_in_force as in_force};
ghost use Rattle.starting_tables.specs.Works.{iswc_of, title_of};

use crate::fields::{ISWC, TITLE};
use cwr_share::fields::WORK;
use cwr_share::{Lines, Name, RecordType, record_type_of, trimmed};
use indexmap::IndexSet;
use std::alloc::{AllocError, Global};
use std::marker::Model;

/// A registration: its NWR or REV record, and the text after that line.
#[derive(Drop)]
pub struct FiledLines<'a> {
    pub(crate) opening: &'a [u8],
    pub(crate) after: &'a [u8],
}

impl<'a> Model for FiledLines<'a> {
    ghost use Rattle.cwr_share.specs.Filed.{body_of};
    ghost use Rattle.cwr_share.specs.Lines.{lines_of};
    ghost use Rattle.cwr_share.specs.declared.numbers.TheConstants.{MOST_WORK_BYTES};
    ghost use Rattle.starting_tables.specs.InForce.{Registration};

    ghost Value = { Registration };

    ghost view = { λ r. record { opening = r.opening.now; body = body_of (lines_of r.after.now) } };
}

impl<'a> FiledLines<'a> {
    /// Its submitter work number, without the spaces at its ends.
    pub fn number(&self) -> &'a [u8]
        ensures number { result.now ≡ number_of self.now }
        ensures short { length result.now ≤ MOST_WORK_BYTES }
    {
        trimmed(WORK.of(self.opening))
    }

    /// Its ISWC as it stands, without the spaces at its ends.
    pub(crate) fn iswc(&self) -> &'a [u8]
        ensures { result.now ≡ iswc_of self.now }
    {
        trimmed(ISWC.of(self.opening))
    }

    /// Its work title, without the spaces at its ends.
    pub fn title(&self) -> &'a [u8]
        ensures { result.now ≡ title_of self.now }
    {
        trimmed(TITLE.of(self.opening))
    }
}

/// The registrations in force of a file, in the order in which their NWR or REV records stand.
pub fn registrations_in_force(alloc: Global, file: &[u8]) -> Result<Vec<FiledLines<'_>>, AllocError>
    ensures { IfOk result (λ registrations. registrations.items ≡ in_force (lines_of file.now)) }
{
    let mut filed = all_registrations(alloc, file)?;
    let mut seen: IndexSet<Name> = IndexSet::new(alloc);
    let mut kept = Vec::new(alloc);
    while let Some(registration) = filed.pop() {
        let number = Name::of(alloc, registration.number())?;
        let is_last = seen.insert(number)?;
        add_if_last(&mut kept, registration, is_last)?;
    }
    kept.reverse();
    Ok(kept)
}

/// Adds a registration to others, where it is the last with its number.
fn add_if_last<'a>(
    kept: &mut Vec<FiledLines<'a>>,
    registration: FiledLines<'a>,
    is_last: bool,
) -> Result<(), AllocError>
    ensures { OnOk result (kept.new.items
        ≡ (if is_last then kept.old.items ++ registration.entry ∷ [] else kept.old.items)) }
{
    if is_last {
        kept.push(registration)?;
    }
    Ok(())
}

/// All registrations of a file, replaced ones too, in its order.
fn all_registrations(alloc: Global, file: &[u8]) -> Result<Vec<FiledLines<'_>>, AllocError>
    ensures { IfOk result (λ filed. filed.items ≡ registrations_filed (lines_of file.now)) }
{
    let mut filed = Vec::new(alloc);
    let mut lines = Lines::of(file);
    while let Some(line) = lines.next() {
        if record_type_of(line) == RecordType::Registration {
            filed.push(FiledLines {
                opening: line,
                after: lines.rest(),
            })?;
        }
    }
    Ok(filed)
}
