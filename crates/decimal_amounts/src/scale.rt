//! A number with decimals in units of a power of ten.

ghost use Rattle.std.specs.Prelude.{◌≤◌, ◌<◌, ◌^◌};
ghost use Rattle.decimal_amounts.specs.Scaled.{IsScaled};

use line_split::MOST_AMOUNT;

/// The most decimal places that units have.
pub const MOST_PLACES: u32 = 9;

/// What a number comes to in units.
#[derive(Clone, Copy)]
pub(crate) enum Scaled {
    /// As many as this, exactly.
    Units(u64),
    /// It is no whole number of units.
    Fine,
    /// It is more than 1000000000000 units.
    Large,
}

/// The units of 10^-`places` in a number of which this many digits are decimals, and whose digits write a value.
pub(crate) fn in_units(value: u128, decimals: u32, places: u32) -> Scaled
    requires value { value < 10 ^ 38 }
    requires decimals { decimals ≤ 38 }
    requires places { places ≤ 9 }
    ensures { IsScaled value decimals places result }
{
    if decimals > places {
        let divisor = 10u128.pow(decimals - places);
        if value % divisor != 0 {
            return Scaled::Fine;
        }
        return within(value / divisor);
    }
    if value > u128::from(MOST_AMOUNT) {
        return Scaled::Large;
    }
    within(value * 10u128.pow(places - decimals))
}

/// So many units, if they are not too many.
fn within(units: u128) -> Scaled
    ensures { IsScaled units 0 0 result }
{
    if units <= u128::from(MOST_AMOUNT) {
        Scaled::Units(units as u64)
    } else {
        Scaled::Large
    }
}
