//! The numbers that are published, as numbers, and how the rows of a text go with those of its parts. A law has no body: its contract is the law.

ghost use Rattle.std.specs.Prelude.{◌≡◌, ◌++◌, ◌∷◌, [], List, ℕ};
ghost use Rattle.csv.specs.Reading.{strip_bom};
ghost use Rattle.csv_table.specs.Table.{HaveNoLineFeed, rows_of};
ghost use Rattle.csv_table.specs.declared.forms.TheConstants.{MOST_CODE, MOST_CODE_DIGITS};

/// A TIS numeric code is 9999 at most, and has four digits at most.
pub fn law_limits_of_a_code()
    ensures most_code { MOST_CODE ≡ 9999 }
    ensures most_code_digits { MOST_CODE_DIGITS ≡ 4 }
{}

/// A text that is cut behind a line feed has the rows of what stands before the cut and then those of what stands behind it, if no
/// field in the rows before the cut has a line feed and no byte order mark stands behind it. So the rows of the first part tell
/// whether the cut is right: within quotes, the last of them has the line feed at the cut.
pub fn law_rows_of_two_parts()
    ensures { (before after : List ℕ) → HaveNoLineFeed (rows_of (before ++ 10 ∷ [])) → strip_bom after ≡ after → rows_of (before ++ 10 ∷ after) ≡ rows_of (before ++ 10 ∷ []) ++ rows_of after }
{}
