//! What the statements of a run keep to. A law has an empty body: its contract is the law.

ghost use Rattle.std.specs.Prelude.{◌≡◌, ◌∷◌, ◌↔◌, ℕ, List, None, Some, []};
ghost use Rattle.csv_table.specs.Table.{rows_of};
ghost use Rattle.cwr_share.specs.PayeeTable.{header};
ghost use Rattle.run_inputs.specs.Inputs.{HaveNoFault, with_payees};
ghost use Rattle.run_inputs.specs.declared.inputs.Inputs.{Inputs};
ghost use Rattle.settle_run.specs.Settled.{AreStatementsOf};

/// The inputs have one text, with a table of payees and without: whoever works out their statements, and
/// with however many threads, comes to the same bytes.
pub fn law_inputs_have_one_text()
    ensures { (files : Inputs (List ℕ)) (text other : List ℕ)
        → AreStatementsOf files text → AreStatementsOf files other → text ≡ other }
{}

/// A table of payees that has no rows is as good as none.
pub fn law_a_table_without_rows_is_none()
    ensures { (files : Inputs (List ℕ)) (payees_file text : List ℕ) → rows_of payees_file ≡ header ∷ []
        → AreStatementsOf (with_payees (Some payees_file) files) text ↔ AreStatementsOf (with_payees None files) text }
{}

/// Inputs that have statements have no fault.
pub fn law_inputs_with_statements_have_no_fault()
    ensures { (files : Inputs (List ℕ)) (text : List ℕ) → AreStatementsOf files text → HaveNoFault files }
{}
