//! Records whose fields may stand in other columns than they seem to, since a character before them has several bytes.

ghost use Rattle.std.specs.Prelude.{◌≡◌};
ghost use Rattle.cwr_share.specs.Lines.{lines_of};
ghost use Rattle.cwr_share.specs.PassedOver.{IsTallyOf};
ghost use Rattle.file_form.specs.Shifted.{is_shifted, is_shifted_before, shifted_lines};

use cwr_share::fields::{Field, SPT, SWT, WORK};
use cwr_share::{Lines, RecordType, Tally, record_type_of};

/// The lines NWR, REV, SPT and SWT with a byte beyond ASCII before the last field that is read of them.
pub fn shifted_records(bytes: &[u8]) -> Tally
    ensures { IsTallyOf (shifted_lines (lines_of bytes.now)) result }
{
    let mut tally = Tally::none();
    let mut number: u64 = 0;
    let mut lines = Lines::of(bytes);
    while let Some(line) = lines.next() {
        number += 1;
        if is_shifted(line) {
            tally.add(number);
        }
    }
    tally
}

/// Whether a byte beyond ASCII stands before the last field that is read of a line.
fn is_shifted(line: &[u8]) -> bool
    ensures { result ≡ is_shifted line.now }
{
    match record_type_of(line) {
        RecordType::Registration => is_shifted_before(WORK, line),
        RecordType::PublisherShare => is_shifted_before(SPT.territory, line),
        RecordType::WriterShare => is_shifted_before(SWT.territory, line),
        _ => false,
    }
}

/// Whether a byte beyond ASCII stands before a field.
fn is_shifted_before(field: Field, line: &[u8]) -> bool
    ensures { result ≡ is_shifted_before field line.now }
{
    let end = field.first.saturating_sub(1).min(line.len());
    line[..end].iter().any(|byte| *byte > 127)
}
