//! What holds of the rows of an export. A law has an empty body: its contract is the law.

ghost use Rattle.std.specs.Prelude.{ℕ, ◌≡◌, ◌++◌, ◌∷◌, [], List, Option, IfSome};
ghost use Rattle.export_rows.specs.Places.{AreRowsOf, HasEnded, HasRead, Place, Takes};
ghost use Rattle.export_rows.specs.declared.delimiter.Delimiter.{Delimiter};

/// An export has one list of rows.
pub fn law_an_export_has_one_list_of_rows()
    ensures { (delimiter : Delimiter) (text : List ℕ) (rows other : List (List (List ℕ)))
        → AreRowsOf delimiter text rows → AreRowsOf delimiter text other → rows ≡ other }
{}

/// Rows that are taken one after another, from the start to the end, are those of the export.
pub fn law_rows_that_are_taken()
    ensures more { (delimiter : Delimiter) (from : Option (List ℕ)) (rows : List (List (List ℕ))) (place next : Place)
        → HasRead delimiter from rows place → Takes place next → HasRead delimiter from (rows ++ next.row ∷ []) next }
    ensures all { (delimiter : Delimiter) (from : Option (List ℕ)) (rows : List (List (List ℕ))) (place : Place)
        → HasRead delimiter from rows place → HasEnded place → IfSome from (λ text. AreRowsOf delimiter text rows) }
{}
