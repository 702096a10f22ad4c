//! What a run over several files passes over without a word: rows that link nothing, and registrations that no row
//! links.

ghost use Rattle.std.specs.Prelude.{◌≡◌, ◌≤◌, ◌<◌, [], All, AllPairs, is_some, length, nat_eq, slice_index_or, zip};
ghost use Rattle.std.specs.Cmp.Lexicographic.{pointwise};
ghost use Rattle.std.specs.List.{list_any};
ghost use Rattle.cwr_share.specs.Joined.{qualified as qualified_text};
ghost use Rattle.cwr_share.specs.PassedOver.{IsTallyOf};
ghost use Rattle.cwr_share.specs.Registrations.{find_work};
ghost use Rattle.cwr_share.specs.declared.numbers.TheConstants.{MOST_SUBMITTER_BYTES};
ghost use Rattle.cwr_share.specs.declared.payees.TheConstants.{MOST_NAME_BYTES};
ghost use Rattle.linked_works.specs.Linked.{finds_among};
ghost use Rattle.linked_works.specs.PassedOver.{rows_not_in_force};
ghost use Rattle.linked_works.specs.Rows.{links_by, names_by};
ghost use Rattle.linked_works.specs.Submitters.{IsSubmitter};
ghost use Rattle.linked_works.specs.declared.TheConstants.{MOST_LINKS};

use crate::linking::Link;
use crate::submitters::qualified;
use cwr_share::{InForce, Name, Sought, Tally};
use indexmap::IndexSet;

/// Whether what the submitter at a place has under a number has one of these keys.
pub(crate) fn is_linked(
    names: &[Vec<u8>],
    submitter: usize,
    number: &[u8],
    keys: &IndexSet<Name>,
) -> bool
    requires known { submitter < length names.now }
    requires submitters { All IsSubmitter (names_by names.now) }
    requires number { length number.now ≤ MOST_NAME_BYTES }
    ensures { result ≡ list_any (pointwise nat_eq (qualified_text
        (slice_index_or (names_by names.now) submitter []) number.now)) keys.now.keys }
{
    has_key(names[submitter].as_slice(), number, keys)
}

/// Whether the key of what a submitter has under a number is one of these.
fn has_key(name: &[u8], number: &[u8], keys: &IndexSet<Name>) -> bool
    requires name { length name.now ≤ MOST_SUBMITTER_BYTES }
    requires number { length number.now ≤ MOST_NAME_BYTES }
    ensures { result ≡ list_any (pointwise nat_eq (qualified_text name.now number.now)) keys.now.keys }
{
    keys.contains(Sought(qualified(name, number).as_slice()))
}

/// The links, from 1, whose registration is not in force, by what the submitters of these names have in force.
pub(crate) fn not_in_force(names: &[Vec<u8>], files: &[InForce], links: &[Link]) -> Tally
    requires files { length files.now ≡ length names.now }
    requires known { All (λ link. link.submitter < length names.now) links.now }
    requires few { length links.now ≤ MOST_LINKS }
    requires once { AllPairs (λ name later. ¬ (name ≡ later)) (names_by names.now) }
    ensures { IsTallyOf (rows_not_in_force (finds_among (zip (names_by names.now) files.now))
        (links_by (names_by names.now) links.now)) result }
{
    let mut tally = Tally::none();
    for place in 0..links.len() {
        if !is_in_force(&links[place], files) {
            tally.add(place as u64 + 1);
        }
    }
    tally
}

/// Whether the registration of a link is in force.
fn is_in_force(link: &Link, files: &[InForce]) -> bool
    requires { link.now.submitter < length files.now }
    ensures { result ≡ is_some (find_work link.now.number (slice_index_or files.now link.now.submitter [])) }
{
    files[link.submitter].find(link.number.as_slice()).is_some()
}
