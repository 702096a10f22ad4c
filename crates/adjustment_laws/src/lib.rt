//! What the differences between what was paid and what is right keep to. A law has an empty body: its contract is the
//! law.
#![tactic(auto)]

ghost use Rattle.std.specs.Prelude.{ℕ, ◌≡◌, ◌+ℤ◌, ◌∷◌, [], List, pos};
ghost use Rattle.line_split.specs.ReasonTexts.{reason_text};
ghost use Rattle.line_split.specs.declared.reason.Reason.{Reason};
ghost use Rattle.merge_statements.specs.Merged.{AreMerged, portions_of};
ghost use Rattle.merge_statements.specs.Refused.{IsStatementText};
ghost use Rattle.merge_statements.specs.SoFar.{total_of_portions};
ghost use Rattle.merge_statements.specs.Statements.{AreStatements, Statements, total_of_rests};
ghost use Rattle.adjust_statements.specs.Adjusted.{AreAdjusted, IsAdjustmentOf, rests_for};
ghost use Rattle.adjust_statements.specs.Differences.{sum_of};
ghost use Rattle.adjustment_laws.specs.Turned.{turned};

/// What was paid and the differences come to what is right: for each payee and each use, for each reason why nobody
/// gets money and each use, for all of a payee and for all that nobody gets, and in all.
pub fn law_what_was_paid_and_the_differences_come_to_what_is_right()
    ensures uses { (paid right answer : Statements) (payee usage : List ℕ) → AreAdjusted paid right answer
        → sum_of usage (portions_of payee paid) +ℤ sum_of usage (portions_of payee answer)
        ≡ sum_of usage (portions_of payee right) }
    ensures reasons { (paid right answer : Statements) (reason : Reason) (usage : List ℕ)
        → AreAdjusted paid right answer
        → sum_of usage (rests_for (reason_text reason) paid.rests) +ℤ sum_of usage (rests_for
        (reason_text reason) answer.rests)
        ≡ sum_of usage (rests_for (reason_text reason) right.rests) }
    ensures payees { (paid right answer : Statements) (payee : List ℕ) → AreAdjusted paid right answer
        → total_of_portions (portions_of payee paid) +ℤ total_of_portions (portions_of payee answer)
        ≡ total_of_portions (portions_of payee right) }
    ensures rest { (paid right answer : Statements) → AreStatements paid → AreStatements right
        → AreAdjusted paid right answer
        → total_of_rests paid.rests +ℤ total_of_rests answer.rests ≡ total_of_rests right.rests }
    ensures amount { (paid right answer : Statements) → AreAdjusted paid right answer
        → paid.amount +ℤ answer.amount ≡ right.amount }
{}

/// The differences are a text of statements of no usage lines, so a merge takes it.
pub fn law_the_differences_can_be_merged()
    ensures { (paid right text : List ℕ) → IsAdjustmentOf paid right text → IsStatementText text 0 }
{}

/// What was paid has a merge with the differences, and it has what is right: of each payee and use, of each reason and
/// use, and in all.
pub fn law_merged_with_the_differences_all_is_right()
    ensures merge { (paid right answer : Statements) → AreStatements paid → AreStatements right
        → AreAdjusted paid right answer
        → (whole : Statements) × AreMerged (paid ∷ answer ∷ []) whole }
    ensures uses { (paid right answer whole : Statements) (payee usage : List ℕ) → AreAdjusted paid right answer
        → AreMerged (paid ∷ answer ∷ []) whole
        → sum_of usage (portions_of payee whole) ≡ sum_of usage (portions_of payee right) }
    ensures payees { (paid right answer whole : Statements) (payee : List ℕ) → AreAdjusted paid right answer
        → AreMerged (paid ∷ answer ∷ []) whole
        → total_of_portions (portions_of payee whole) ≡ total_of_portions (portions_of payee right) }
    ensures reasons { (paid right answer whole : Statements) (reason : Reason) (usage : List ℕ)
        → AreAdjusted paid right answer → AreMerged (paid ∷ answer ∷ []) whole
        → sum_of usage (rests_for (reason_text reason) whole.rests)
        ≡ sum_of usage (rests_for (reason_text reason) right.rests) }
    ensures lines { (paid right answer whole : Statements) → AreAdjusted paid right answer
        → AreMerged (paid ∷ answer ∷ []) whole → whole.lines ≡ right.lines }
    ensures amount { (paid right answer whole : Statements) → AreAdjusted paid right answer
        → AreMerged (paid ∷ answer ∷ []) whole → whole.amount ≡ right.amount }
{}

/// Two texts have one text of differences.
pub fn law_texts_have_one_text_of_differences()
    ensures { (paid right text other : List ℕ) → IsAdjustmentOf paid right text → IsAdjustmentOf paid right other
        → text ≡ other }
{}

/// Where all is as it was paid, there are no differences.
pub fn law_equal_statements_have_no_differences()
    ensures { (all answer : Statements) → AreAdjusted all all answer
        → answer ≡ record { payees = []; rests = []; lines = 0; amount = pos 0 } }
{}

/// The differences the other way round are the same with every sign turned.
pub fn law_differences_turn_round()
    ensures { (paid right answer : Statements) → AreAdjusted paid right answer
        → AreAdjusted right paid (turned answer) }
{}
