//! The limits of a plan, and what a run comes to. A law has an empty body: its contract is the law.

ghost use Rattle.std.specs.Prelude.{◌≡◌, ◌++◌, ◌∷◌, ◌+ℤ◌, ℕ, pos, List};
ghost use Rattle.cwr_share.specs.Registered.{Registered};
ghost use Rattle.line_split.specs.UsageLine.{IsReversalOf, UsageLine};
ghost use Rattle.payee_book.specs.Run.{portion_for, statement_of};
ghost use Rattle.payee_book.specs.Statement.{total_of};
ghost use Rattle.split_run.specs.Divisions.{division_by};
ghost use Rattle.queue_core.specs.declared.TheConstants.{MOST_NODES};
ghost use Rattle.split_run.specs.declared.TheConstants.{MOST_POSTINGS, MOST_THREADS};
ghost use Rattle.split_run.specs.Taken.{TakingKeepsUp, WhatWasSentIsTheStatement};

/// A run has at most 8 workers and 8 readers, a worker at most 64 nodes in a mailbox or a pool, and a line at most 257 postings.
pub fn law_the_limits()
    ensures most_threads { MOST_THREADS ≡ 8 }
    ensures most_nodes { MOST_NODES ≡ 64 }
    ensures most_postings { MOST_POSTINGS ≡ 257 }
{}

/// Of each account: where every block of usage lines was drawn by one worker, and all that the workers sent was taken, in
/// whatever order, the statement is the one that dividing each line comes to.
pub fn law_what_was_sent_is_the_statement()
    ensures { WhatWasSentIsTheStatement }
{}

/// What was taken of an account, in whatever order, is what its statement has, if each posting is put into it as it
/// comes.
pub fn law_taking_keeps_up()
    ensures { TakingKeepsUp }
{}

/// A line that takes another back undoes it: the portions of the two come to nothing for every account, the residue's included.
/// Wherever the two stand among the lines, each account's total is as if there were neither; that the reversal may come first is the
/// same law, since each of the two is the reversal of the other. Both stay in the rows.
pub fn law_a_reversal_undoes_a_line()
    ensures portions { (table : List (ℕ × List ℕ)) (registered : Registered) (line reversal : UsageLine) (account : ℕ) → IsReversalOf line reversal
        → portion_for account (division_by table registered line) +ℤ portion_for account (division_by table registered reversal) ≡ pos 0 }
    ensures totals { (table : List (ℕ × List ℕ)) (registered : Registered) (line reversal : UsageLine) (before between after : List UsageLine) (account : ℕ) → IsReversalOf line reversal
        → total_of (statement_of (division_by table registered) (before ++ line ∷ (between ++ reversal ∷ after)) account)
        ≡ total_of (statement_of (division_by table registered) (before ++ (between ++ after)) account) }
{}
