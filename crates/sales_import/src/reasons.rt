//! The reasons to reject a row, in their order and in words.

ghost use Rattle.std.specs.Prelude.{◌≡◌, ◌<◌};
ghost use Rattle.sales_import.specs.Imported.{words_of};
ghost use Rattle.sales_import.specs.Tallies.{all_reasons, place_of};

use decimal_amounts::AmountFault;
use sales_lines::Reason;
use value_maps::Kind;

/// How many reasons there are.
pub const REASON_COUNT: usize = 13;

/// All reasons, in the order in which a row is looked at.
const REASONS: [Reason; REASON_COUNT] = [
    Reason::Broken,
    Reason::Fields,
    Reason::Usage,
    Reason::Unknown(Kind::Works),
    Reason::Unfit(Kind::Works),
    Reason::Unknown(Kind::Territories),
    Reason::Unfit(Kind::Territories),
    Reason::Unknown(Kind::Rights),
    Reason::Unfit(Kind::Rights),
    Reason::Amount(AmountFault::Long),
    Reason::Amount(AmountFault::Form),
    Reason::Amount(AmountFault::Fine),
    Reason::Amount(AmountFault::Large),
];

/// All reasons, in that order.
pub fn all_reasons() -> [Reason; REASON_COUNT]
    ensures { result ≡ all_reasons }
{
    REASONS
}

/// The place of a reason among all, from 0.
pub(crate) fn place(reason: Reason) -> usize
    ensures place { result ≡ place_of reason }
    ensures small { result < 13 }
{
    match reason {
        Reason::Broken => 0,
        Reason::Fields => 1,
        Reason::Usage => 2,
        Reason::Unknown(Kind::Works) => 3,
        Reason::Unfit(Kind::Works) => 4,
        Reason::Unknown(Kind::Territories) => 5,
        Reason::Unfit(Kind::Territories) => 6,
        Reason::Unknown(Kind::Rights) => 7,
        Reason::Unfit(Kind::Rights) => 8,
        Reason::Amount(AmountFault::Long) => 9,
        Reason::Amount(AmountFault::Form) => 10,
        Reason::Amount(AmountFault::Fine) => 11,
        Reason::Amount(AmountFault::Large) => 12,
    }
}

/// Why a row is rejected, in words.
pub fn words(reason: Reason) -> &'static str
    ensures { result.now ≡ words_of reason }
{
    match reason {
        Reason::Broken => "a field of it has a line break",
        Reason::Fields => "it does not have the fields that it should have",
        Reason::Usage => "what its use is called is not 1 to 64 printable bytes",
        Reason::Unknown(Kind::Works) => "its work has no row in the table of works",
        Reason::Unknown(Kind::Territories) =>
            "its territory has no row in the table of territories",
        Reason::Unknown(Kind::Rights) => "its right has no row in the table of rights",
        Reason::Unfit(Kind::Works) => "its work is not 1 to 64 printable bytes",
        Reason::Unfit(Kind::Territories) => "its territory is no TIS numeric code",
        Reason::Unfit(Kind::Rights) => "its right is not P or M or S",
        Reason::Amount(AmountFault::Long) => "its amount has more than 38 bytes",
        Reason::Amount(AmountFault::Form) => "its amount is no decimal number",
        Reason::Amount(AmountFault::Fine) => "its amount has more decimal places than are kept",
        Reason::Amount(AmountFault::Large) => "its amount is more than 1000000000000 units",
    }
}
