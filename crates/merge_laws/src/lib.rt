//! What merging has to do with runs: the statements of runs over the parts of a list merge to those of the whole list.
//! A law has an empty body: its contract is the law.
#![tactic(auto)]

ghost use Rattle.std.specs.Prelude.{◌≡◌, ◌<◌, ◌≤◌, ◌∷◌, ◌↔◌, [], ℕ, All, List, length, map};
ghost use Rattle.csv_table.specs.Table.{rows_of};
ghost use Rattle.merge_laws.specs.WholeList.{AreStatementsOfAll, HasRowsOfAll};
ghost use Rattle.merge_statements.specs.Merged.{IsMergeOf};
ghost use Rattle.merge_statements.specs.Statements.{AreStatements, Statements, text_of_statements};
ghost use Rattle.run_inputs.specs.Inputs.{with_usage};
ghost use Rattle.run_inputs.specs.declared.inputs.Inputs.{Inputs};
ghost use Rattle.settle_run.specs.Settled.{AreStatementsOf};

/// Where each text is that of a run over one part of a list, and all runs have the same territories, payees and
/// registrations, what the texts merge to is the text of the statements of the whole list, of however many lines.
pub fn law_statements_of_parts_merge_to_those_of_the_list()
    ensures { (inputs : Inputs (List ℕ)) (parts : List (List ℕ × List ℕ)) (merged : List ℕ)
        → 0 < length parts → All (λ part. AreStatementsOf (with_usage part.0 inputs) part.1) parts
        → IsMergeOf (map (λ part. part.1) parts) merged
        → AreStatementsOfAll inputs (map (λ part. part.0) parts) merged }
{}

/// Where one file has the rows of all parts, and no more than a run takes, these are the statements that a run over that
/// file has: it prints what the texts of the parts merge to.
pub fn law_parts_merge_to_a_run_over_one_file()
    ensures list { (inputs : Inputs (List ℕ)) (usage_files : List (List ℕ)) (whole text : List ℕ)
        → 0 < length usage_files → HasRowsOfAll usage_files whole → length (rows_of whole) ≤ 1000001
        → AreStatementsOfAll inputs usage_files text → AreStatementsOf (with_usage whole inputs) text }
    ensures merged { (inputs : Inputs (List ℕ)) (parts : List (List ℕ × List ℕ)) (whole merged : List ℕ)
        → 0 < length parts → HasRowsOfAll (map (λ part. part.0) parts) whole → length (rows_of whole) ≤ 1000001
        → All (λ part. AreStatementsOf (with_usage part.0 inputs) part.1) parts
        → IsMergeOf (map (λ part. part.1) parts) merged → AreStatementsOf (with_usage whole inputs) merged }
{}

/// The text of a run's statements says something that can be merged.
pub fn law_statements_of_a_run_can_be_merged()
    ensures { (files : Inputs (List ℕ)) (text : List ℕ) → AreStatementsOf files text
        → (all : Statements) × AreStatements all × (text ≡ text_of_statements all) }
{}

/// The texts of runs have a merge, of up to a million million of them.
pub fn law_texts_of_runs_have_a_merge()
    ensures { (inputs : Inputs (List ℕ)) (parts : List (List ℕ × List ℕ))
        → length parts ≤ 1000000000000 → All (λ part. AreStatementsOf (with_usage part.0 inputs) part.1) parts
        → (merged : List ℕ) × IsMergeOf (map (λ part. part.1) parts) merged }
{}

/// A list that is spread over files has one text, and that of a list in one file is what a run over the file prints.
pub fn law_a_list_has_one_text()
    ensures one { (inputs : Inputs (List ℕ)) (usage_files : List (List ℕ)) (text other : List ℕ)
        → 0 < length usage_files → AreStatementsOfAll inputs usage_files text
        → AreStatementsOfAll inputs usage_files other → text ≡ other }
    ensures run { (inputs : Inputs (List ℕ)) (text : List ℕ)
        → AreStatementsOfAll inputs (inputs.usage ∷ []) text ↔ AreStatementsOf inputs text }
{}
