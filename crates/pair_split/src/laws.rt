//! The numbers that are published, as numbers. A law has no body: its contract is the law.

ghost use Rattle.std.specs.Prelude.{◌≡◌};
ghost use Rattle.pair_split.specs.declared.pair.TheConstants.{SEPARATOR, MOST_PARTY_BYTES, MOST_SHARE_DIGITS};

/// A word is a party of 9 bytes at most, the byte 61, which is `=`, and a share of five digits at most.
pub fn law_limits_of_a_word()
    ensures separator { SEPARATOR ≡ 61 }
    ensures most_party_bytes { MOST_PARTY_BYTES ≡ 9 }
    ensures most_share_digits { MOST_SHARE_DIGITS ≡ 5 }
{}
