//! What holds of amounts as decimal numbers. A law has an empty body: its contract is the law.

ghost use Rattle.std.specs.Prelude.{◌≡◌};
ghost use Rattle.decimal_amounts.specs.Decimals.{AmountsAreOne};
ghost use Rattle.decimal_amounts.specs.declared.digits.TheConstants.{MOST_AMOUNT_BYTES};
ghost use Rattle.decimal_amounts.specs.declared.scale.TheConstants.{MOST_PLACES};

/// A text writes one amount, whatever it is split into.
pub fn law_a_text_has_one_amount()
    ensures { AmountsAreOne }
{}

/// The limits of an amount.
pub fn law_the_limits()
    ensures bytes { MOST_AMOUNT_BYTES ≡ 38 }
    ensures places { MOST_PLACES ≡ 9 }
{}
