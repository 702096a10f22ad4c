//! What totals keep to. A law has an empty body: its contract is the law.

ghost use Rattle.std.specs.Prelude.{ℕ, ℤ, ◌≡◌, ◌<◌, ◌+◌, ◌+ℤ◌, List, [], length, nat_eq, slice_index_or};
ghost use Rattle.std.specs.Cmp.Lexicographic.{pointwise};
ghost use Rattle.cwr_share.specs.ClaimsOn.{claims_on};
ghost use Rattle.cwr_share.specs.Registered.{Registered};
ghost use Rattle.line_split.specs.Signs.{signed_portions_of};
ghost use Rattle.line_split.specs.UsageLine.{UsageLine};
ghost use Rattle.line_split.specs.declared.TheConstants.{RESIDUE};
ghost use Rattle.line_split.specs.declared.reason.Reason.TheVariants.{Land, Open, Over, Work};
ghost use Rattle.payee_book.specs.Run.{IsBookOf};
ghost use Rattle.payee_book.specs.Statement.{total_of};
ghost use Rattle.usage_totals.specs.Greatest.{AreKeysOf, HaveMostMoney};
ghost use Rattle.usage_totals.specs.Totals.{AreTotalsOf, amounts_by_territory, amounts_by_work, lines_for};
ghost use Rattle.usage_totals.specs.Totals.{open_by_work, total_of_lines};
ghost use Rattle.usage_totals.specs.declared.totals.Totals.{Totals};

/// Each line has one reason: the lines of the four reasons are as many as all lines, and come to what these come to.
pub fn law_each_line_has_one_reason()
    ensures lines { (table : List (ℕ × List ℕ)) (registered : Registered) (lines : List UsageLine) (totals : Totals)
        → AreTotalsOf table registered lines totals
        → totals.divided.lines + totals.unregistered.lines + totals.unknown.lines + totals.claimed_over.lines
        ≡ length lines }
    ensures amounts { (table : List (ℕ × List ℕ)) (registered : Registered) (lines : List UsageLine) (totals : Totals)
        → AreTotalsOf table registered lines totals
        → totals.divided.amount +ℤ totals.unregistered.amount +ℤ totals.unknown.amount +ℤ totals.claimed_over.amount
        ≡ (total_of_lines lines).amount }
{}

/// The residue's portions of the lines that are divided, and the others whole, are what the residue's statement comes
/// to in a run.
pub fn law_the_rest_is_the_residues()
    ensures { (table : List (ℕ × List ℕ)) (registered : Registered) (lines : List UsageLine) (totals : Totals)
        (statements : List (List (ℕ × ℤ))) → AreTotalsOf table registered lines totals
        → IsBookOf (λ line. signed_portions_of line.amount (claims_on table registered line)) lines
        (length registered.accounts) statements → RESIDUE < length registered.accounts
        → totals.residue +ℤ totals.unregistered.amount +ℤ totals.unknown.amount +ℤ totals.claimed_over.amount
        ≡ total_of (slice_index_or statements RESIDUE []) }
{}

/// Of the works that nobody has registered, ten at most are shown, each once and with what all its lines come to. None
/// that is left out has more money than one that is shown, and where fewer than ten are shown, none is left out. So it
/// is with the territories that the table has not, with the works of the lines that are claimed over, and with those of
/// which something stays open.
pub fn law_those_shown_have_most_money()
    ensures works { (table : List (ℕ × List ℕ)) (registered : Registered) (lines : List UsageLine) (totals : Totals)
        → AreTotalsOf table registered lines totals
        → HaveMostMoney (pointwise nat_eq) 10 (amounts_by_work (lines_for table registered Work lines))
        totals.works.first.items }
    ensures territories { (table : List (ℕ × List ℕ)) (registered : Registered) (lines : List UsageLine)
        (totals : Totals)
        → AreTotalsOf table registered lines totals
        → HaveMostMoney nat_eq 10 (amounts_by_territory (lines_for table registered Land lines))
        totals.territories.first.items }
    ensures over { (table : List (ℕ × List ℕ)) (registered : Registered) (lines : List UsageLine) (totals : Totals)
        → AreTotalsOf table registered lines totals
        → HaveMostMoney (pointwise nat_eq) 10 (amounts_by_work (lines_for table registered Over lines))
        totals.over.first.items }
    ensures left_open { (table : List (ℕ × List ℕ)) (registered : Registered) (lines : List UsageLine) (totals : Totals)
        → AreTotalsOf table registered lines totals
        → HaveMostMoney (pointwise nat_eq) 10 (open_by_work table registered lines)
        totals.left_open.first.items }
{}

/// How many of these there are, those that are left out too, is told: it is the number of their keys.
pub fn law_all_keys_are_counted()
    ensures works { (table : List (ℕ × List ℕ)) (registered : Registered) (lines : List UsageLine) (totals : Totals)
        → AreTotalsOf table registered lines totals
        → (keys : List (List ℕ))
        × AreKeysOf (pointwise nat_eq) (amounts_by_work (lines_for table registered Work lines)) keys
        × (totals.works.count ≡ length keys) }
    ensures territories { (table : List (ℕ × List ℕ)) (registered : Registered) (lines : List UsageLine)
        (totals : Totals)
        → AreTotalsOf table registered lines totals
        → (keys : List ℕ) × AreKeysOf nat_eq (amounts_by_territory (lines_for table registered Land lines)) keys
        × (totals.territories.count ≡ length keys) }
    ensures over { (table : List (ℕ × List ℕ)) (registered : Registered) (lines : List UsageLine) (totals : Totals)
        → AreTotalsOf table registered lines totals
        → (keys : List (List ℕ))
        × AreKeysOf (pointwise nat_eq) (amounts_by_work (lines_for table registered Over lines)) keys
        × (totals.over.count ≡ length keys) }
    ensures left_open { (table : List (ℕ × List ℕ)) (registered : Registered) (lines : List UsageLine) (totals : Totals)
        → AreTotalsOf table registered lines totals
        → (keys : List (List ℕ)) × AreKeysOf (pointwise nat_eq) (open_by_work table registered lines) keys
        × (totals.left_open.count ≡ length keys) }
{}

/// The works and the territories that are shown are determined, with their order, and so is how many there are: by the
/// same territories and registrations the same lines have one answer.
pub fn law_those_shown_are_determined()
    ensures works { (table : List (ℕ × List ℕ)) (registered : Registered) (lines : List UsageLine)
        (totals other : Totals)
        → AreTotalsOf table registered lines totals → AreTotalsOf table registered lines other
        → (totals.works.first.items ≡ other.works.first.items) × (totals.works.count ≡ other.works.count) }
    ensures territories { (table : List (ℕ × List ℕ)) (registered : Registered) (lines : List UsageLine)
        (totals other : Totals)
        → AreTotalsOf table registered lines totals → AreTotalsOf table registered lines other
        → (totals.territories.first.items ≡ other.territories.first.items)
        × (totals.territories.count ≡ other.territories.count) }
    ensures over { (table : List (ℕ × List ℕ)) (registered : Registered) (lines : List UsageLine)
        (totals other : Totals)
        → AreTotalsOf table registered lines totals → AreTotalsOf table registered lines other
        → (totals.over.first.items ≡ other.over.first.items) × (totals.over.count ≡ other.over.count) }
    ensures left_open { (table : List (ℕ × List ℕ)) (registered : Registered) (lines : List UsageLine)
        (totals other : Totals)
        → AreTotalsOf table registered lines totals → AreTotalsOf table registered lines other
        → (totals.left_open.first.items ≡ other.left_open.first.items)
        × (totals.left_open.count ≡ other.left_open.count) }
{}
