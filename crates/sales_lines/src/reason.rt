//! Why a row becomes no usage line.

use decimal_amounts::AmountFault;
use value_maps::Kind;

/// Why a row becomes no usage line: the first of these that is so.
#[derive(Clone, Copy, Debug, PartialEq, Eq)]
pub enum Reason {
    /// A field has a line break. A quote that opens and does not end makes one such row of several.
    Broken,
    /// It has more or fewer fields than the header, or lacks one that is asked for.
    Fields,
    /// What its use is called is not 1 to 64 printable bytes.
    Usage,
    /// Its work, territory or right has no row in the table of such values.
    Unknown(Kind),
    /// Its work, territory or right is none.
    Unfit(Kind),
    /// Its amount is none.
    Amount(AmountFault),
}
