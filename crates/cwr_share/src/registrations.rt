//! The registrations in force, side by side.

ghost use Rattle.std.specs.Prelude.{◌≡◌, ◌≤◌, ◌<◌, ◌++◌, ◌∷◌, [], IfOk, length, slice_index_or};
ghost use Rattle.cwr_share.specs.Compiled.{Kept, whole};
ghost use Rattle.cwr_share.specs.declared.TheConstants.{MOST_SHARE_LINES};

use crate::claim_line::ClaimLine;
use crate::registration::CompiledRegistration;
use crate::share_line::RegisteredShare;
use std::alloc::{AllocError, Global};
use std::marker::Model;
use std::snapshot::Snapshot;

/// Registrations, each a part of one list, so that a look at one of them touches little memory.
#[derive(Drop)]
pub(crate) struct Registrations {
    lines: Vec<ClaimLine>,
    extents: Vec<Extent>,
}

/// Which part of the list is a registration's.
#[derive(Drop)]
pub(crate) struct Extent {
    pub(crate) first: usize,
    pub(crate) count: u32,
    /// The share lines as they came. They take no memory: only contracts speak of them, since the claim
    /// lines have lost the order of the file and what an exclusion would pay.
    pub(crate) shares: Snapshot<Vec<RegisteredShare>>,
}

impl Model for Registrations {
    ghost use Rattle.std.specs.Prelude.{List, All, map};
    ghost use Rattle.cwr_share.specs.Compiled.{Kept, IsExtent, part};

    ghost Value = { List Kept };

    ghost view = { λ r. map (part r.lines.items) r.extents.items };

    ghost invariant = { λ r. All (IsExtent r.lines.items) r.extents.items };
}

impl Registrations {
    /// None yet, of so many to come.
    pub(crate) fn room(alloc: Global, n: usize) -> Result<Registrations, AllocError>
        ensures { IfOk result (λ registrations. registrations ≡ []) }
    {
        Ok(Registrations {
            lines: Vec::new(alloc),
            extents: Vec::with_capacity(alloc, n)?,
        })
    }

    /// How many there are.
    pub(crate) fn len(&self) -> usize
        ensures { result ≡ length self.now }
    {
        self.extents.len()
    }

    /// These and one more, which comes last.
    pub(crate) fn followed_by(
        self,
        registration: &CompiledRegistration,
    ) -> Result<Registrations, AllocError>
        requires few { length registration.now.lines.items ≤ MOST_SHARE_LINES }
        ensures { IfOk result (λ registrations. registrations ≡ self ++ whole registration.now ∷ []) }
    {
        let Registrations {
            mut lines,
            mut extents,
        } = self;
        let extent = Extent {
            first: lines.len(),
            count: registration.lines.len() as u32,
            shares: Snapshot::of(&registration.shares),
        };
        lines.extend_from_slice(registration.lines.as_slice())?;
        extents.push(extent)?;
        Ok(Registrations { lines, extents })
    }

    /// The lines of the one at a place.
    pub(crate) fn lines_of(&self, place: usize) -> &[ClaimLine]
        requires { place < length self.now }
        ensures { (d : Kept) → result.now ≡ (slice_index_or self.now place d).lines }
    {
        let extent = &self.extents[place];
        &self.lines.as_slice()[extent.first..extent.first + extent.count as usize]
    }
}
