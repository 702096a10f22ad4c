//! What imports keep to. A law has an empty body: its contract is the law.

ghost use Rattle.std.specs.Prelude.{ℕ, ◌≡◌, ◌≤◌, ◌∷◌, List, length, map};
ghost use Rattle.line_split.specs.UsageLine.{line_of};
ghost use Rattle.line_split.specs.UsageTable.{IsLine, IsTableOf};
ghost use Rattle.sales_lines.specs.Sales.{IsLineOf};
ghost use Rattle.sales_lines.specs.declared.outcome.SalesLine.{SalesLine};
ghost use Rattle.sales_lines.specs.declared.settings.Settings.{Settings};
ghost use Rattle.csv_table.specs.Table.{rows_of};
ghost use Rattle.csv_table.specs.Written.{text_of};
ghost use Rattle.sales_import.specs.Imported.{AreMade, Made, Sold, line_header, line_row, sold_of};
ghost use Rattle.sales_import.specs.SoFar.{AddsUp, AreCounted};
ghost use Rattle.sales_import.specs.declared.summary.Summary.{Summary};

/// The row that is written of a line is a row of a table of usage lines, and of the same amount.
pub fn law_lines_are_usage_lines()
    ensures row { (settings : Settings) (row : List (List ℕ)) (line : SalesLine) → IsLineOf settings row line
        → IsLine (line_row (sold_of line)) }
    ensures amount { (settings : Settings) (row : List (List ℕ)) (line : SalesLine) → IsLineOf settings row line
        → (line_of (line_row (sold_of line))).amount ≡ line.amount }
{}

/// What an import counts adds up: all rows are those of the three kinds, and so are their amounts.
pub fn law_a_summary_adds_up()
    ensures { (settings : Settings) (number : ℕ) (rows : List (List (List ℕ))) (made : Made) (told : Summary)
        → AreMade settings number rows made → AreCounted made told → AddsUp (length rows) told }
{}

/// The usage lines that an import writes, under their header, are a table of usage lines, as long as there are no more
/// than a table may have; and whatever their number, the text reads back.
pub fn law_the_usage_lines_are_a_table()
    ensures reads_back { (lines : List Sold) → rows_of (text_of (line_header ∷ map line_row lines)) ≡ line_header ∷ map line_row lines }
    ensures table { (settings : Settings) (number : ℕ) (rows : List (List (List ℕ))) (made : Made)
        → AreMade settings number rows made → length made.lines ≤ 1000000
        → IsTableOf (rows_of (text_of (line_header ∷ map line_row made.lines))) (map line_of (map line_row made.lines)) }
{}
