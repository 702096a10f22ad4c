//! What tables keep to. A law has an empty body: its contract is the law.

ghost use Rattle.std.specs.Prelude.{◌≡◌, ℕ, ◌+◌, ◌+ℤ◌, List, sum_by, length};
ghost use Rattle.line_split.specs.Signs.{int_sum_by};
ghost use Rattle.page_parts.specs.Bars.{Others, Row};
ghost use Rattle.page_parts.specs.Shortened.{IsShortened};

/// The rows that are shown and those that are left out come to all, by their number, their portions and their amounts.
pub fn law_a_shortened_table_adds_up()
    ensures rows { (most : ℕ) (rows shown : List Row) (others : Others) → IsShortened most rows shown others
        → length shown + others.rows ≡ length rows }
    ensures counts { (most : ℕ) (rows shown : List Row) (others : Others) → IsShortened most rows shown others
        → sum_by (λ row. row.count) shown + others.count ≡ sum_by (λ row. row.count) rows }
    ensures amounts { (most : ℕ) (rows shown : List Row) (others : Others) → IsShortened most rows shown others
        → int_sum_by (λ row. row.amount) shown +ℤ others.amount ≡ int_sum_by (λ row. row.amount) rows }
{}
