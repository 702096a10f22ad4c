//! What is wrong with a row or a line, in words.

ghost use Rattle.std.specs.Prelude.{◌≡◌, ◌++◌, ℕ, List, OnOk};
ghost use Rattle.cwr_share.specs.Records.{share_fields};
ghost use Rattle.check_inputs.specs.Messages.{cwr_message, fields_message, names_message, shares_message};

use crate::words::{add, add_around, add_both, add_number};
use csv_table::{RowTable, Rows};
use cwr_share::fields::{ShareFields, TYPE, WORK};
use cwr_share::{CwrFault, PayeeFault, Payees, share_fields_of};
use line_split::{LineFault, Usage};
use std::alloc::AllocError;
use tis_tree::{TisFault, TisTable};

/// A table whose faults can be told.
pub(crate) trait Worded: RowTable {
    // what is wrong with a row
    ghost message: { List (List ℕ) → Self.Fault → List ℕ };

    /// Adds what is wrong with the row at hand.
    fn add_message(
        fault: &Self::Fault,
        text: &mut Vec<u8>,
        row: &Rows<'_>,
    ) -> Result<(), AllocError>
        ensures { OnOk result (text.new.items ≡ text.old.items ++ message row.now.row fault.now) };
}

impl Worded for TisTable {
    ghost use Rattle.check_inputs.specs.Messages.{tis_message};

    ghost message = { tis_message };

    fn add_message(fault: &TisFault, text: &mut Vec<u8>, row: &Rows<'_>) -> Result<(), AllocError> {
        match fault {
            TisFault::Csv(0) => add(text, "the first row is not code,groups"),
            TisFault::Csv(_) => add_fields(text, 2, row),
            TisFault::Code(_) => add_around(
                text,
                "code '",
                row.field(0),
                "' is not one to four digits, or is 0",
            ),
            TisFault::Twice(_) => add_around(text, "code '", row.field(0), "' has an earlier row"),
            TisFault::Group(_) => add_around(
                text,
                "groups '",
                row.field(1),
                "' are not all codes of earlier rows",
            ),
            TisFault::Rows => add(text, "there are more than 2048 rows"),
            TisFault::Memory => Ok(()),
        }
    }
}

impl Worded for Payees {
    ghost use Rattle.check_inputs.specs.Messages.{payee_message};

    ghost message = { payee_message };

    fn add_message(
        fault: &PayeeFault,
        text: &mut Vec<u8>,
        row: &Rows<'_>,
    ) -> Result<(), AllocError> {
        match fault {
            PayeeFault::Csv(0) => add(text, "the first row is not party,payee"),
            PayeeFault::Csv(_) => add_fields(text, 2, row),
            PayeeFault::Fields(_) => add_names(text, row.field(0), row.field(1)),
            PayeeFault::Twice(_) => add_around(
                text,
                "party '",
                row.field(0),
                "' has an earlier row",
            ),
            PayeeFault::Rows => add(text, "there are more than 65536 rows"),
            PayeeFault::Submitter(_) => {
                add_around(
                    text,
                    "submitter '",
                    row.field(0),
                    "' is the name of no file",
                )
            }
            PayeeFault::Memory => Ok(()),
        }
    }
}

impl Worded for Usage {
    ghost use Rattle.check_inputs.specs.Messages.{usage_message};

    ghost message = { usage_message };

    fn add_message(
        fault: &LineFault,
        text: &mut Vec<u8>,
        row: &Rows<'_>,
    ) -> Result<(), AllocError> {
        match fault {
            LineFault::Csv(0) => add(
                text,
                "the first row is not usage,work,territory,right,amount",
            ),
            LineFault::Csv(_) => add_fields(text, 5, row),
            LineFault::Fields(_) => add_both(
                text,
                "usage '",
                row.field(0),
                "' and work '",
                row.field(1),
                "' are not both 1 to 64 printable ASCII characters",
            ),
            LineFault::Territory(_) => add_around(
                text,
                "territory '",
                row.field(2),
                "' is not one to four digits, or is 0",
            ),
            LineFault::Right(_) => add_around(text, "right '", row.field(3), "' is not P, M or S"),
            LineFault::Amount(_) => add_around(
                text,
                "amount '",
                row.field(4),
                "' is not a whole number from -1000000000000 to 1000000000000",
            ),
            LineFault::Lines => add(text, "there are more than 1000000 usage lines"),
            LineFault::Memory => Ok(()),
        }
    }
}

/// What is wrong with a line of the CWR file.
pub(crate) fn add_cwr(text: &mut Vec<u8>, line: &[u8], fault: CwrFault) -> Result<(), AllocError>
    ensures { OnOk result (text.new.items ≡ text.old.items ++ cwr_message line.now fault) }
{
    let fields = share_fields_of(line);
    match fault {
        CwrFault::Short(_) => add_around(
            text,
            "record '",
            TYPE.of(line),
            "' ends before its last field: NWR and REV take 82 bytes, SPT 54, SWT 48",
        ),
        CwrFault::Share(_) => add_shares(text, line, fields),
        CwrFault::Mark(_) => add_around(
            text,
            "indicator '",
            fields.mark.of(line),
            "' is not I, E or a space",
        ),
        CwrFault::Land(_) => add_around(
            text,
            "territory '",
            fields.territory.of(line),
            "' is not four digits from 0001 on",
        ),
        CwrFault::Party(_) => add_around(
            text,
            "interested party number '",
            fields.party.of(line),
            "' is blank or not printable ASCII",
        ),
        CwrFault::Work(_) => add_around(
            text,
            "submitter work number '",
            WORK.of(line),
            "' is blank or not printable ASCII",
        ),
        CwrFault::Many(_) => add(text, "the registration has 256 share lines before this one"),
        CwrFault::Accounts => add(text, "the parties in force have more than 16383 payees"),
        CwrFault::Memory => Ok(()),
    }
}

/// What is wrong with a party and a payee.
pub(crate) fn add_names(text: &mut Vec<u8>, party: &[u8], payee: &[u8]) -> Result<(), AllocError>
    ensures { OnOk result (text.new.items ≡ text.old.items ++ names_message party.now payee.now) }
{
    add_both(
        text,
        "party '",
        party,
        "' and payee '",
        payee,
        "' are not both 1 to 64 printable ASCII characters that are not all spaces",
    )
}

/// What is wrong with a row of another number of fields than it should have.
pub(crate) fn add_fields(text: &mut Vec<u8>, wanted: u64, row: &Rows<'_>) -> Result<(), AllocError>
    ensures { OnOk result (text.new.items ≡ text.old.items ++ fields_message wanted row.now.row) }
{
    add(text, "the number of fields is ")?;
    add_number(text, row.len() as u64)?;
    add(text, ", not ")?;
    add_number(text, wanted)?;
    add_around(text, "; the first is '", row.field(0), "'")?;
    Ok(())
}

/// What is wrong with the shares of a share line, which has its fields here.
fn add_shares(text: &mut Vec<u8>, line: &[u8], fields: ShareFields) -> Result<(), AllocError>
    requires { fields ≡ share_fields line.now }
    ensures { OnOk result (text.new.items ≡ text.old.items ++ shares_message line.now) }
{
    add_around(
        text,
        "PR, MR and SR shares '",
        fields.performing.of(line),
        "', '",
    )?;
    add_around(text, "", fields.mechanical.of(line), "' and '")?;
    add_around(
        text,
        "",
        fields.synchronisation.of(line),
        "' are not each five digits up to 10000, or five spaces",
    )?;
    Ok(())
}
