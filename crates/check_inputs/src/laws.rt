//! What the words of a report keep to. A law has an empty body: its contract is the law.

ghost use Rattle.std.specs.Prelude.{◌≡◌};
ghost use Rattle.check_inputs.specs.declared.words.TheConstants.{MOST_FAULTS, MOST_FIELD_BYTES};

/// The limits of a report, as numbers: the faults of a file that are named, and the bytes of a field that are shown.
pub fn law_the_limits()
    ensures most_faults { MOST_FAULTS ≡ 100 }
    ensures most_field_bytes { MOST_FIELD_BYTES ≡ 64 }
{}
