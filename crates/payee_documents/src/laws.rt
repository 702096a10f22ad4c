//! What the documents of a payee keep to. A law has an empty body: its contract is the law.

ghost use Rattle.std.specs.Prelude.{◌≡◌, List};
ghost use Rattle.csv_table.specs.Table.{rows_of};
ghost use Rattle.csv_table.specs.Written.{text_of};
ghost use Rattle.payee_documents.specs.Sheet.{sheet_rows};
ghost use Rattle.payee_portions.specs.Portions.{Portion};

/// A sheet reads back: its rows are the header and those of the portions, whatever bytes their titles have.
pub fn law_a_sheet_reads_back()
    ensures { (portions : List Portion) → rows_of (text_of (sheet_rows portions)) ≡ sheet_rows portions }
{}
