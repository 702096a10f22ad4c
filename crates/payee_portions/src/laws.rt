//! What a list of portions keeps to. A law has an empty body: its contract is the law.

ghost use Rattle.std.specs.Prelude.{ℕ, ℤ, ◌≡◌, ◌-◌, ◌<◌, ◌+ℤ◌, All, List, filter, flat_map, length, map, sum_by};
ghost use Rattle.std.specs.List.Sorted.{IsPermutation};
ghost use Rattle.cwr_share.specs.Registered.{Registered};
ghost use Rattle.line_split.specs.UsageLine.{UsageLine};
ghost use Rattle.line_split.specs.Signs.{int_sum_by};
ghost use Rattle.line_split.specs.declared.usage.Right.TheVariants.{P, M, S};
ghost use Rattle.payee_book.specs.Statement.{total_of};
ghost use Rattle.payee_portions.specs.Lands.{AreTerritories, portions_in};
ghost use Rattle.payee_portions.specs.Portions.{AreListed, Portion, portions_of};
ghost use Rattle.payee_portions.specs.Sections.{is_of, sections_of};
ghost use Rattle.payee_portions.specs.Sums.{sum_for, sum_of};

/// A list has each posting of the statement once, by its row and its amount, and no other; and it comes to the total of the
/// statement.
pub fn law_a_list_has_each_posting_once()
    ensures once { (table : List (ℕ × List ℕ)) (registered : Registered) (usage : List UsageLine)
        (title_of : List ℕ → List ℕ) (account : ℕ) (statement : List (ℕ × ℤ)) (listed : List Portion)
        → All (λ posting. posting.0 < length usage) statement
        → AreListed (portions_of table registered usage title_of account statement) listed
        → IsPermutation statement (map (λ portion. (portion.row - 1, portion.amount)) listed) }
    ensures total { (table : List (ℕ × List ℕ)) (registered : Registered) (usage : List UsageLine)
        (title_of : List ℕ → List ℕ) (account : ℕ) (statement : List (ℕ × ℤ)) (listed : List Portion)
        → All (λ posting. posting.0 < length usage) statement
        → AreListed (portions_of table registered usage title_of account statement) listed
        → sum_of listed ≡ total_of statement }
{}

/// The sections of a list are the list, cut where another work begins: their sums come to that of the list.
pub fn law_sections_add_up()
    ensures whole { (listed : List Portion) → flat_map (λ section. section) (sections_of listed) ≡ listed }
    ensures sums { (listed : List Portion) → int_sum_by sum_of (sections_of listed) ≡ sum_of listed }
{}

/// A work has one section: the portions of the list that are of the work of a section's first portion are those of the section.
pub fn law_a_work_has_one_section()
    ensures { (table : List (ℕ × List ℕ)) (registered : Registered) (usage : List UsageLine)
        (title_of : List ℕ → List ℕ) (account : ℕ) (statement : List (ℕ × ℤ)) (listed : List Portion)
        → AreListed (portions_of table registered usage title_of account statement) listed
        → All (λ section. All (λ portion. filter (is_of portion.line.work) listed ≡ section) section) (sections_of listed) }
{}

/// What a list comes to by right adds up to what it comes to.
pub fn law_rights_add_up()
    ensures { (listed : List Portion)
        → (sum_for P listed +ℤ sum_for M listed) +ℤ sum_for S listed ≡ sum_of listed }
{}

/// What is of each territory comes to the whole.
pub fn law_territories_add_up()
    ensures amounts { (listed : List Portion) (codes : List ℕ) → AreTerritories listed codes
        → int_sum_by (λ code. sum_of (portions_in code listed)) codes ≡ sum_of listed }
    ensures counts { (listed : List Portion) (codes : List ℕ) → AreTerritories listed codes
        → sum_by (λ code. length (portions_in code listed)) codes ≡ length listed }
{}
