//! Submitter work numbers and interested party numbers, and the names of works and parties that are made of them.

ghost use Rattle.std.specs.Prelude.{◌≡◌, ◌≤◌, ◌<◌, IfNone, IfSome, length};
ghost use Rattle.cwr_share.specs.Joined.{qualified as qualified_name};

use crate::fields::{SPT, WORK};
use arrayvec::ArrayVec;

/// The most bytes of a submitter work number: those of its field.
pub const MOST_WORK_BYTES: usize = WORK.last - WORK.first + 1;

/// The most bytes of an interested party number: those of its field, which SPT and SWT have in the same place.
pub const MOST_PARTY_BYTES: usize = SPT.party.last - SPT.party.first + 1;

/// The most bytes of the name of a submitter.
pub const MOST_SUBMITTER_BYTES: usize = 16;

/// The most bytes of the name of a work: a usage line has no longer one.
pub const MOST_WORK_NAME_BYTES: usize = 64;

/// The most bytes of the name of a party: a submitter, a colon and an interested party number.
pub const MOST_PARTY_NAME_BYTES: usize = MOST_SUBMITTER_BYTES + 1 + MOST_PARTY_BYTES;

/// The name that a work is found by, which lies in the value itself: its submitter work number, or a name of its own.
pub(crate) type WorkName = ArrayVec<u8, MOST_WORK_NAME_BYTES>;

/// The name of the party of a share line, which lies in the value itself: its interested party number, in a run over
/// several files behind the name of its submitter.
pub(crate) type PartyName = ArrayVec<u8, MOST_PARTY_NAME_BYTES>;

/// A text, which lies in the value itself.
pub(crate) fn in_place<const MOST: usize>(text: &[u8]) -> ArrayVec<u8, MOST>
    requires { length text.now ≤ MOST }
    ensures { result.items ≡ text.now }
{
    ArrayVec::try_from(text).unwrap()
}

/// The name of a submitter's party among those of several submitters.
pub(crate) fn qualified(submitter: &[u8], party: &[u8]) -> PartyName
    requires submitter { length submitter.now ≤ MOST_SUBMITTER_BYTES }
    requires party { length party.now ≤ MOST_PARTY_BYTES }
    ensures { result.items ≡ qualified_name submitter.now party.now }
{
    let mut name: PartyName = in_place(submitter);
    name.push(b':');
    name.try_extend_from_slice(party).unwrap();
    name
}

/// The same of a text of any length, where it is no longer than that.
pub(crate) fn in_place_if_short<const MOST: usize>(text: &[u8]) -> Option<ArrayVec<u8, MOST>>
    ensures some { IfSome result (λ number. number.items ≡ text.now) }
    ensures none { IfNone result (MOST < length text.now) }
{
    ArrayVec::try_from(text).ok()
}
