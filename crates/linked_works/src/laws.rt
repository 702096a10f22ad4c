//! What tables of works and of payees keep to. A law has an empty body: its contract is the law.

ghost use Rattle.std.specs.Prelude.{◌≡◌, ℕ, List};
ghost use Rattle.cwr_share.specs.Joined.{qualified};
ghost use Rattle.cwr_share.specs.declared.payee_fault.PayeeFault.{PayeeFault};
ghost use Rattle.cwr_share.specs.declared.payee_fault.PayeeFault.TheVariants as payee_fault;
ghost use Rattle.linked_works.specs.Linked.{Link};
ghost use Rattle.linked_works.specs.Submitters.{IsSubmitter};
ghost use Rattle.linked_works.specs.SubmitterPayees as payee_rows;
ghost use Rattle.linked_works.specs.WorksTable as works_table;
ghost use Rattle.linked_works.specs.declared.TheConstants.{MOST_LINKS};
ghost use Rattle.linked_works.specs.declared.payee_rows.TheConstants.{MOST_SUBMITTER_PAYEES};
ghost use Rattle.linked_works.specs.declared.works_fault.WorksFault.{WorksFault};
ghost use Rattle.linked_works.specs.declared.works_fault.WorksFault.TheVariants as works_fault;

/// What stands behind the names of different submitters is never the same, nor are different texts behind one name: so
/// parties of different submitters are different parties, and so are their registrations.
pub fn law_submitters_share_no_party()
    ensures { (name other text it : List ℕ) → IsSubmitter name → IsSubmitter other
        → qualified name text ≡ qualified other it → (name ≡ other) × (text ≡ it) }
{}

/// The rows of a table of works are one list of links, and those of a table of payees one list of payees.
pub fn law_rows_are_one_table()
    ensures works { (names : List (List ℕ)) (rows : List (List (List ℕ))) (links other : List Link)
        → works_table.IsTableOf names rows links → works_table.IsTableOf names rows other → links ≡ other }
    ensures payees { (names : List (List ℕ)) (rows : List (List (List ℕ))) (payees other : List (List ℕ × List ℕ))
        → payee_rows.IsTableOf names rows payees → payee_rows.IsTableOf names rows other → payees ≡ other }
{}

/// Rows that are a table of works are refused for nothing but lack of memory.
pub fn law_a_table_of_works_has_no_fault()
    ensures { (names : List (List ℕ)) (rows : List (List (List ℕ))) (links : List Link) (fault : WorksFault)
        → works_table.IsTableOf names rows links → works_table.IsFaultOf names rows fault → fault ≡ works_fault.Memory }
{}

/// Rows that are a table of payees are refused for nothing but lack of memory.
pub fn law_a_table_of_payees_has_no_fault()
    ensures { (names : List (List ℕ)) (rows : List (List (List ℕ))) (payees : List (List ℕ × List ℕ)) (fault : PayeeFault)
        → payee_rows.IsTableOf names rows payees → payee_rows.IsFaultOf names rows fault → fault ≡ payee_fault.Memory }
{}

/// How many rows the two tables may have.
pub fn law_the_limits_of_tables()
    ensures works { MOST_LINKS ≡ 1048576 }
    ensures payees { MOST_SUBMITTER_PAYEES ≡ 1048576 }
{}
