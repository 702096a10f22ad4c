//! Registrations in force that no row links, in words.

ghost use Rattle.std.specs.Prelude.{◌≡◌, ◌<◌, ◌++◌, [], OnOk, length, slice_index_or};
ghost use Rattle.check_inputs.specs.SubmittedReport.{unlinked_remark};

use crate::lists::{Listed, add_items};
use crate::words::add_around;
use cwr_share::MOST_NAMED;
use linked_works::Works;
use starting_tables::{FiledLines, registrations_in_force};
use std::alloc::{AllocError, Global};

/// By its number, in quotes.
impl Listed for FiledLines<'_> {
    ghost use Rattle.starting_tables.specs.InForce.{number_of};
    ghost use Rattle.check_inputs.specs.SubmittedReport.{quoted};

    ghost words = { λ registration. quoted (number_of registration) };

    fn add_to(&self, text: &mut Vec<u8>) -> Result<(), AllocError> {
        add_around(text, "'", self.number(), "'")
    }
}

/// Remarks on the registrations in force in the file of the submitter at a place that no row links, in the order in
/// which their NWR or REV records stand.
pub(crate) fn add_unlinked_remark(
    alloc: Global,
    text: &mut Vec<u8>,
    works: &Works<'_>,
    submitter: usize,
    path: &str,
    bytes: &[u8],
) -> Result<(), AllocError>
    requires { submitter < length works.now.names }
    ensures { OnOk result (text.new.items ≡ text.old.items
        ++ unlinked_remark works.now.links (slice_index_or works.now.names submitter []) path.now bytes.now) }
{
    let mut unlinked = registrations_in_force(alloc, bytes)?;
    unlinked.retain(|registration| !works.is_linked(submitter, registration.number()));
    let unlinked = unlinked.as_slice();
    let first = &unlinked[..MOST_NAMED.min(unlinked.len())];
    add_items(
        text,
        path,
        "registrations in force that no row links",
        "",
        unlinked.len() as u64,
        first,
    )?;
    Ok(())
}
