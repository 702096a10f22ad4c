//! What texts of sums keep to. A law has an empty body: its contract is the law.

ghost use Rattle.std.specs.Prelude.{◌≡◌, ℕ, List};
ghost use Rattle.file_sums.specs.Sums.{IsFaultIn, IsSeal, Seal, text_of_seal};
ghost use Rattle.file_sums.specs.declared.forms.TheConstants.{MOST_PATH_BYTES};

/// A text is that of one seal, if of any.
pub fn law_a_text_is_of_one_seal()
    ensures { (seal other : Seal) → IsSeal seal → IsSeal other → text_of_seal seal ≡ text_of_seal other
        → seal ≡ other }
{}

/// A text that is refused for a line is that of no seal.
pub fn law_a_text_with_a_fault_is_of_no_seal()
    ensures { (text : List ℕ) (line : ℕ) (seal : Seal) → IsFaultIn text line → IsSeal seal
        → ¬ (text ≡ text_of_seal seal) }
{}

/// It is refused for one line.
pub fn law_a_text_has_one_first_fault()
    ensures { (text : List ℕ) (line other : ℕ) → IsFaultIn text line → IsFaultIn text other → line ≡ other }
{}

/// How long a path may be.
pub fn law_the_longest_path()
    ensures { MOST_PATH_BYTES ≡ 4096 }
{}
