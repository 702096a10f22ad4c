//! What tables of territories and their containment keep to, whatever the table. A law has an empty
//! body: its contract is the law.

ghost use Rattle.std.specs.Prelude.{◌≡◌, ◌↔◌, ◌++◌, ◌∷◌, [], true, ℕ, List};
ghost use Rattle.tis_tree.specs.declared.TheConstants.{MOST_ROWS};
ghost use Rattle.tis_tree.specs.declared.tis_fault.TisFault.{TisFault};
ghost use Rattle.tis_tree.specs.declared.tis_fault.TisFault.TheVariants.{Memory};
ghost use Rattle.tis_tree.specs.Territories.{AreTerritories, Encloses, IsKnown, encloses};
ghost use Rattle.tis_tree.specs.TisRows.{IsFaultOf, IsReadWithout, IsTableOf};

/// A code contains itself where it has a row, and only there.
pub fn law_a_code_contains_itself()
    ensures { (table : List (ℕ × List ℕ)) (code : ℕ) → Encloses table code code ↔ IsKnown table code }
{}

/// What contains a group of a land contains the land.
pub fn law_containment_is_transitive()
    ensures { (table : List (ℕ × List ℕ)) (group between land : ℕ) → Encloses table group between → Encloses table between land → Encloses table group land }
{}

/// Two territories that contain each other are one.
pub fn law_containment_is_antisymmetric()
    ensures { (table : List (ℕ × List ℕ)) (group land : ℕ) → AreTerritories table → Encloses table group land → Encloses table land group → group ≡ land }
{}

/// A code without a row contains nothing and is contained in nothing.
pub fn law_an_unknown_code_is_apart()
    ensures { (table : List (ℕ × List ℕ)) (code other : ℕ) → ¬ IsKnown table code → (¬ Encloses table code other) × (¬ Encloses table other code) }
{}

/// A row more at the end changes nothing in what contains a code before it.
pub fn law_a_later_row_changes_nothing()
    ensures { (table : List (ℕ × List ℕ)) (row : ℕ × List ℕ) (group land : ℕ) → AreTerritories (table ++ row ∷ [])
        → IsKnown table land → Encloses (table ++ row ∷ []) group land ↔ Encloses table group land }
{}

/// What contains what can be worked out, by looking from the last row back.
pub fn law_containment_can_be_worked_out()
    ensures { (table : List (ℕ × List ℕ)) (group land : ℕ) → AreTerritories table → (encloses table group land ≡ true) ↔ Encloses table group land }
{}

/// The rows of a table are one list of territories.
pub fn law_rows_are_one_table()
    ensures { (rows : List (List (List ℕ))) (table other : List (ℕ × List ℕ)) → IsTableOf rows table → IsTableOf rows other → table ≡ other }
{}

/// Rows that are a table of territories are refused for nothing but lack of memory.
pub fn law_a_table_has_no_fault()
    ensures { (rows : List (List (List ℕ))) (table : List (ℕ × List ℕ)) (fault : TisFault) → IsTableOf rows table → IsFaultOf rows fault → fault ≡ Memory }
{}

/// Where rows are read on past those that are refused, and none is, they are the table that was read.
pub fn law_a_table_read_on_without_faults()
    ensures { (rows : List (List (List ℕ))) (table : List (ℕ × List ℕ)) → IsReadWithout rows [] table → IsTableOf rows table }
{}

/// The first row that is left out is what the whole table is refused for.
pub fn law_the_first_row_left_out_is_the_fault()
    ensures { (rows : List (List (List ℕ))) (row : List (List ℕ)) (fault : TisFault) (more : List (List (List ℕ) × TisFault)) (table : List (ℕ × List ℕ))
        → IsReadWithout rows ((row, fault) ∷ more) table → IsFaultOf rows fault }
{}

/// A table has at most 2,048 rows.
pub fn law_the_limits()
    ensures most_rows { MOST_ROWS ≡ 2048 }
{}
