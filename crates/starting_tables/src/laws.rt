//! What the tables keep to. A law has an empty body: its contract is the law.

ghost use Rattle.std.specs.Prelude.{◌≡◌, ◌↔◌, ℕ, List, AllPairs, Contains, find, nat_eq, option_map};
ghost use Rattle.std.specs.Cmp.Lexicographic.{pointwise, slice_cmp};
ghost use Rattle.std.specs.List.Sorted.{IsStrictlySortedBy};
ghost use Rattle.std.specs.Ordering.{nat_cmp};
ghost use Rattle.cwr_share.specs.CwrFile.{IsPartyInForce};
ghost use Rattle.cwr_share.specs.Registrations.{share_lines_of, shares_in_force};
ghost use Rattle.linked_works.specs.WorksTable.{work_field};
ghost use Rattle.starting_tables.specs.InForce.{bodies_of, number_of, registrations_in_force};
ghost use Rattle.starting_tables.specs.Parties.{parties_of};
ghost use Rattle.starting_tables.specs.Works.{works_rows};
ghost use Rattle.starting_tables.specs.declared.fields.TheConstants.{ISWC, SPU_IPI, SPU_NAME, SPU_NUMBER, TITLE};
ghost use Rattle.starting_tables.specs.declared.fields.TheConstants.{SWR_FIRST_NAME, SWR_IPI};
ghost use Rattle.starting_tables.specs.declared.fields.TheConstants.{SWR_LAST_NAME, SWR_NUMBER};

/// The registrations that have rows are those that a run has in force: the one with a number has the share lines that
/// the number has in force, and there is none with a number that has none. No two have the same number.
pub fn law_rows_are_of_what_is_in_force()
    ensures shares { (lines : List (List ℕ)) (number : List ℕ)
        → option_map (λ registration. share_lines_of registration.body)
        (find (λ registration. pointwise nat_eq (number_of registration) number) (registrations_in_force lines))
        ≡ shares_in_force lines number }
    ensures once { (lines : List (List ℕ))
        → AllPairs (λ registration later. ¬ (number_of registration ≡ number_of later)) (registrations_in_force lines) }
{}

/// The fields that tables are made of stand where CWR 2.2 has them, by their first and their last bytes.
pub fn law_the_fields_stand_where_cwr_has_them()
    ensures title { TITLE ≡ record { first = 20; last = 79 } }
    ensures iswc { ISWC ≡ record { first = 96; last = 106 } }
    ensures spu_number { SPU_NUMBER ≡ record { first = 22; last = 30 } }
    ensures spu_name { SPU_NAME ≡ record { first = 31; last = 75 } }
    ensures spu_ipi { SPU_IPI ≡ record { first = 88; last = 98 } }
    ensures swr_number { SWR_NUMBER ≡ record { first = 20; last = 28 } }
    ensures swr_last_name { SWR_LAST_NAME ≡ record { first = 29; last = 73 } }
    ensures swr_first_name { SWR_FIRST_NAME ≡ record { first = 74; last = 103 } }
    ensures swr_ipi { SWR_IPI ≡ record { first = 116; last = 126 } }
{}

/// No two rows of a submitter's file are of one work.
pub fn law_works_of_a_file_differ()
    ensures { (submitter : List ℕ) (lines : List (List ℕ))
        → AllPairs (λ row later. ¬ (work_field row ≡ work_field later)) (works_rows submitter lines) }
{}

/// The parties that have rows are those of the share lines that a run has in force, each once and in byte order.
pub fn law_each_party_has_one_row()
    ensures order { (lines : List (List ℕ))
        → IsStrictlySortedBy (slice_cmp nat_cmp) (parties_of (bodies_of (registrations_in_force lines))) }
    ensures exact { (lines : List (List ℕ)) (party : List ℕ)
        → Contains (parties_of (bodies_of (registrations_in_force lines))) party ↔ IsPartyInForce lines party }
{}
