//! The types of records.

ghost use Rattle.std.specs.Prelude.{◌≡◌, map, nat_eq};
ghost use Rattle.std.specs.List.{list_any};
ghost use Rattle.std.specs.Cmp.Lexicographic.{pointwise};
ghost use Rattle.cwr_share.specs.Records.{share_fields, type_of};

use crate::fields::{SPT, SWT, ShareFields, TYPE};

/// What a record is, by its first three bytes.
#[derive(Clone, Copy, Debug, PartialEq, Eq)]
pub enum RecordType {
    /// NWR, REV: a new or revised registration begins.
    Registration,
    /// SPU, SWR: an interest begins, of a publisher or of a writer.
    Interest,
    /// SPT: a publisher's territory of control.
    PublisherShare,
    /// SWT: a writer's territory of control.
    WriterShare,
    /// HDR, GRH, GRT, TRL, AGR, ACK, ISW, EXC: the registration before it ends.
    Closing,
    /// Any other: it is skipped.
    Other,
}

/// The type of the record that a line is, by its first three bytes (CWR 2.2, record prefix).
pub fn record_type_of(line: &[u8]) -> RecordType
    ensures { result ≡ type_of line.now }
{
    if line.len() < TYPE.last {
        return RecordType::Other;
    }
    let name = &line[..TYPE.last];
    if is_one_of(name, &["NWR", "REV"]) {
        RecordType::Registration
    } else if is_one_of(name, &["SPU", "SWR"]) {
        RecordType::Interest
    } else if is_one_of(name, &["SPT"]) {
        RecordType::PublisherShare
    } else if is_one_of(name, &["SWT"]) {
        RecordType::WriterShare
    } else if is_one_of(
        name,
        &["HDR", "GRH", "GRT", "TRL", "AGR", "ACK", "ISW", "EXC"],
    ) {
        RecordType::Closing
    } else {
        RecordType::Other
    }
}

/// Where the fields of a share line stand, by its type.
pub fn share_fields_of(line: &[u8]) -> ShareFields
    ensures { result ≡ share_fields line.now }
{
    match record_type_of(line) {
        RecordType::WriterShare => SWT,
        _ => SPT,
    }
}

/// Whether a name is among these.
fn is_one_of(name: &[u8], names: &[&str]) -> bool
    ensures { result ≡ list_any (pointwise nat_eq name.now) (map (λ other. other.now) names.now) }
{
    for other in names {
        if name == other.as_bytes() {
            return true;
        }
    }
    false
}
