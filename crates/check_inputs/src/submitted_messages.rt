//! What is wrong with a row of the tables of several submitters, in words.

ghost use Rattle.std.specs.Prelude.{◌≡◌, ◌≤◌, ◌<◌, ◌++◌, ℕ, OnOk, length};
ghost use Rattle.linked_works.specs.declared.works_fault.WorksFault.TheVariants.{Many};
ghost use Rattle.check_inputs.specs.SubmittedMessages.{links_message};

use crate::messages::{Worded, add_fields, add_names};
use crate::words::{add, add_around, add_both};
use csv_table::Rows;
use cwr_share::PayeeFault;
use linked_works::{SubmitterPayees, Works, WorksFault};
use std::alloc::AllocError;

impl<'a> Worded for SubmitterPayees<'a> {
    ghost use Rattle.std.specs.Prelude.{◌≡◌, ◌++◌, OnOk};
    ghost use Rattle.check_inputs.specs.SubmittedMessages.{submitter_payee_message};

    ghost message = { submitter_payee_message };

    fn add_message(fault: &PayeeFault, text: &mut Vec<u8>, row: &Rows<'_>) -> Result<(), AllocError>
        ensures { OnOk result (text.new.items ≡ text.old.items ++ submitter_payee_message row.now.row fault.now) }
    {
        match fault {
            PayeeFault::Csv(0) => add(text, "the first row is not submitter,party,payee,name"),
            PayeeFault::Csv(_) => add_fields(text, 4, row),
            PayeeFault::Fields(_) => add_names(text, row.field(1), row.field(2)),
            PayeeFault::Submitter(_) => {
                add_around(
                    text,
                    "submitter '",
                    row.field(0),
                    "' is the name of no file",
                )
            }
            PayeeFault::Twice(_) => add_both(
                text,
                "party '",
                row.field(1),
                "' of submitter '",
                row.field(0),
                "' has an earlier row",
            ),
            PayeeFault::Rows => add(text, "there are more than 1048576 rows"),
            PayeeFault::Memory => Ok(()),
        }
    }
}

impl<'a> Worded for Works<'a> {
    ghost use Rattle.std.specs.Prelude.{◌≡◌, ◌++◌, OnOk};
    ghost use Rattle.check_inputs.specs.SubmittedMessages.{works_message};

    ghost message = { works_message };

    fn add_message(fault: &WorksFault, text: &mut Vec<u8>, row: &Rows<'_>) -> Result<(), AllocError>
        ensures { OnOk result (text.new.items ≡ text.old.items ++ works_message row.now.row fault.now) }
    {
        match fault {
            WorksFault::Csv(0) => add(text, "the first row is not work,submitter,number,title"),
            WorksFault::Csv(_) => add_fields(text, 4, row),
            WorksFault::Work(_) => add_around(
                text,
                "work '",
                row.field(0),
                "' is not 1 to 64 printable ASCII characters",
            ),
            WorksFault::Submitter(_) => {
                add_around(
                    text,
                    "submitter '",
                    row.field(1),
                    "' is the name of no file",
                )
            }
            WorksFault::Number(_) => add_around(
                text,
                "number '",
                row.field(2),
                "' is not 1 to 14 printable ASCII characters, spaces at its ends not counted",
            ),
            WorksFault::Twice(_) => add_both(
                text,
                "number '",
                row.field(2),
                "' of submitter '",
                row.field(1),
                "' has an earlier row",
            ),
            WorksFault::Rows => add(text, "there are more than 1048576 rows"),
            WorksFault::Many(_) | WorksFault::Accounts | WorksFault::Memory => Ok(()),
        }
    }
}

/// What links are refused for, with all files.
pub(crate) fn add_links_message(
    text: &mut Vec<u8>,
    works: &Works<'_>,
    fault: WorksFault,
) -> Result<(), AllocError>
    requires { (row : ℕ) → fault ≡ Many row → (0 < row) × (row ≤ length works.now.links) }
    ensures { OnOk result (text.new.items ≡ text.old.items ++ links_message works.now.links fault) }
{
    match fault {
        WorksFault::Many(row) => add_around(
            text,
            "with this row the parties of work '",
            works.work_at((row - 1) as usize),
            "' have more than 256 payees",
        ),
        WorksFault::Accounts => add(
            text,
            "the parties of all registrations that are linked have more than 16383 payees",
        ),
        _ => Ok(()),
    }
}
