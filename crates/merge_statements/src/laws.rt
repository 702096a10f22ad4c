//! What merging keeps to. A law has an empty body: its contract is the law.

ghost use Rattle.std.specs.Prelude.{◌≡◌, ◌∷◌, ◌↔◌, [], ℕ, All, List, None, Option, Some, flat_map, slice_index_or};
ghost use Rattle.merge_statements.specs.Merged.{AreInLimits, AreMerged, AreMergesOf, IsMergeOf};
ghost use Rattle.merge_statements.specs.Statements.{AreStatements, IsCount, SaysStatements, Statements};
ghost use Rattle.merge_statements.specs.Statements.{count_of_portions, text_of_statements};
ghost use Rattle.merge_statements.specs.Refused.{IsFaultIn, IsRefusalOf, IsStatementText};
ghost use Rattle.merge_statements.specs.declared.refusal.Refusal.TheVariants as Refusal;
ghost use Rattle.merge_statements.specs.declared.refusal.StatementFault.{StatementFault};

/// A text is that of one set of statements, if of any.
pub fn law_a_text_says_one_thing()
    ensures { (all other : Statements) → AreStatements all → AreStatements other
        → text_of_statements all ≡ text_of_statements other → all ≡ other }
{}

/// Statements have a merge where no sum goes beyond its limit.
pub fn law_statements_have_a_merge()
    ensures { (parts : List Statements) → All AreStatements parts → AreInLimits parts → (whole : Statements)
        × AreMerged parts whole }
{}

/// Texts have one merged text.
pub fn law_texts_have_one_merge()
    ensures { (texts : List (List ℕ)) (merged other : List ℕ) → IsMergeOf texts merged → IsMergeOf texts other
        → merged ≡ other }
{}

/// One text by itself is merged already, byte for byte.
pub fn law_one_text_is_its_own_merge()
    ensures merged { (all : Statements) → AreStatements all
        → IsMergeOf (text_of_statements all ∷ []) (text_of_statements all) }
    ensures alone { (text merged : List ℕ) → IsMergeOf (text ∷ []) merged → merged ≡ text }
{}

/// Texts can be merged in groups, and then the merged texts: it comes to the same as merging all at once.
pub fn law_merged_texts_merge_as_their_parts()
    ensures { (groups : List (List (List ℕ))) (merged : List (List ℕ)) (all : List ℕ) → AreMergesOf groups merged
        → IsMergeOf merged all ↔ IsMergeOf (flat_map (λ group. group) groups) all }
{}

/// A text with a fault is no text of statements: so none is refused for one, neither by itself nor where several are
/// merged.
pub fn law_a_text_with_a_fault_is_no_statement_text()
    ensures found { (text : List ℕ) (fault : StatementFault) (lines : ℕ) → IsFaultIn text fault
        → ¬ IsStatementText text lines }
    ensures refused { (text : List ℕ) (fault : StatementFault) (all : Statements) → IsFaultIn text fault
        → AreStatements all → IsCount (count_of_portions all) → ¬ (text ≡ text_of_statements all) }
    ensures merged { (texts : List (Option (List ℕ))) (place : ℕ) (fault : StatementFault) (text : List ℕ)
        (lines : ℕ) → IsRefusalOf texts place (Refusal.Fault fault)
        → slice_index_or texts place None ≡ Some text → ¬ IsStatementText text lines }
{}

/// A text whose rows can stand one after another, from the first to the last, is that of some statements; and the text
/// of any statements is such a text, where their portions are as many as are counted.
pub fn law_a_statement_text_is_that_of_statements()
    ensures { (text : List ℕ) (lines : ℕ) → IsStatementText text lines ↔ SaysStatements text lines }
{}

/// A text has one first fault, if any, in one row.
pub fn law_a_text_has_one_first_fault()
    ensures { (text : List ℕ) (fault other : StatementFault) → IsFaultIn text fault → IsFaultIn text other
        → fault ≡ other }
{}
