//! What documents keep to. A law has an empty body: its contract is the law.

ghost use Rattle.std.specs.Prelude.{ℕ, ◌≡◌, ◌<◌, ◌+ℤ◌, All, length};
ghost use Rattle.distribution_documents.specs.Runs.{IsPayee, IsResidue, Run, overview_of, statement_in};
ghost use Rattle.overview_documents.specs.Payees.{group_in_all};
ghost use Rattle.payee_book.specs.Statement.{total_of};
ghost use Rattle.payee_documents.specs.Payees.{Payee};
ghost use Rattle.payee_portions.specs.Sums.{sum_of};
ghost use Rattle.residue_documents.specs.Page.{Residue};
ghost use Rattle.residue_documents.specs.Reasons.{amount_in};
ghost use Rattle.settle_run.specs.Settled.{AreDivided};

/// The overview is in balance: what payees have and what is held back come to what came in.
pub fn law_the_overview_is_in_balance()
    ensures { (run : Run) (residue : Residue) → AreDivided run.tables run.statements run.reasons → IsResidue run residue
        → (group_in_all (overview_of run residue).payees).amount +ℤ amount_in (overview_of run residue).residue
        ≡ (overview_of run residue).lines.amount }
{}

/// The statement of a payee has as many portions as it has postings, and comes to their total.
pub fn law_a_statement_comes_to_its_total()
    ensures count { (run : Run) (account : ℕ) (payee : Payee)
        → All (λ posting. posting.0 < length run.tables.usage) (statement_in run account) → IsPayee run account payee
        → length payee.portions ≡ length (statement_in run account) }
    ensures total { (run : Run) (account : ℕ) (payee : Payee)
        → All (λ posting. posting.0 < length run.tables.usage) (statement_in run account) → IsPayee run account payee
        → sum_of payee.portions ≡ total_of (statement_in run account) }
{}
