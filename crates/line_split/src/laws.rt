//! What the portions are in the terms of apportionment, what a table of usage lines keeps to, and the
//! limits. A law has no body: its contract is the law.

ghost use Rattle.std.specs.Prelude.{◌≡◌, ◌<◌, ℕ, ℤ, pos, neg_ℤ, List, [], ◌∷◌, ◌++◌, map, sum_by};
ghost use Rattle.line_split.specs.declared.TheConstants.{FULL_SHARE, MOST_AMOUNT, MOST_CLAIMED, MOST_CLAIMS, RESIDUE};
ghost use Rattle.line_split.specs.declared.line_fault.LineFault.{LineFault};
ghost use Rattle.line_split.specs.declared.line_fault.LineFault.TheVariants.{Memory};
ghost use Rattle.line_split.specs.declared.TheConstants.{MOST_LINES, MOST_TEXT_BYTES};
ghost use Rattle.line_split.specs.Claims.{base_of, participants_of, total_of};
ghost use Rattle.line_split.specs.FairSplit.{IsFairSplit};
ghost use Rattle.line_split.specs.Signs.{signed_portions_of};
ghost use Rattle.line_split.specs.UsageLine.{UsageLine};
ghost use Rattle.line_split.specs.UsageTable.{IsFaultOf, IsReadWithout, IsTableOf};

/// The portions add up to the amount; each is its exact share rounded towards zero or away from it, and none
/// has the other sign than the amount; and a unit left over goes to a greater remainder before a smaller one,
/// among equal ones to the earlier place in the list, which is the lower account, and to the residue last.
pub fn law_portions_are_fair()
    ensures { (amount : ℤ) (claims : List (ℕ × ℕ)) → IsFairSplit amount claims (signed_portions_of amount claims) }
{}

/// The shares of all participants are the whole base, so that nothing of an amount is left unclaimed.
pub fn law_shares_are_the_base()
    ensures { (claims : List (ℕ × ℕ)) → sum_by (λ participant. participant.1) (participants_of claims) ≡ base_of claims }
{}

/// Claims that come to more than 100.06 per cent get nothing, and the residue has the whole amount.
pub fn law_over_goes_to_the_residue()
    ensures { (amount : ℤ) (claims : List (ℕ × ℕ)) → MOST_CLAIMED < total_of claims
        → signed_portions_of amount claims ≡ map (λ claim. (claim.0, pos 0)) claims ++ (RESIDUE, amount) ∷ [] }
{}

/// No other portions are fair.
pub fn law_fair_portions_are_these()
    ensures { (amount : ℤ) (claims : List (ℕ × ℕ)) (portions : List (ℕ × ℤ)) → IsFairSplit amount claims portions → portions ≡ signed_portions_of amount claims }
{}

/// An amount that is taken back is divided as it was, each portion with the other sign.
pub fn law_a_reversal_undoes_a_division()
    ensures { (amount : ℤ) (claims : List (ℕ × ℕ)) → signed_portions_of (neg_ℤ amount) claims ≡ map (λ portion. (portion.0, neg_ℤ portion.1)) (signed_portions_of amount claims) }
{}

/// The rows of a table are one list of usage lines.
pub fn law_rows_are_one_list_of_lines()
    ensures { (rows : List (List (List ℕ))) (lines other : List UsageLine) → IsTableOf rows lines → IsTableOf rows other → lines ≡ other }
{}

/// Rows that are a table of usage lines are refused for nothing but lack of memory.
pub fn law_a_table_of_lines_has_no_fault()
    ensures { (rows : List (List (List ℕ))) (lines : List UsageLine) (fault : LineFault) → IsTableOf rows lines → IsFaultOf rows fault → fault ≡ Memory }
{}

/// Where rows are read on past those that are refused, and none is, they are the lines that were read.
pub fn law_a_list_read_on_without_faults()
    ensures { (rows : List (List (List ℕ))) (lines : List UsageLine) → IsReadWithout rows [] lines → IsTableOf rows lines }
{}

/// The first row that is left out is what the whole table is refused for.
pub fn law_the_first_row_left_out_is_the_fault()
    ensures { (rows : List (List (List ℕ))) (row : List (List ℕ)) (fault : LineFault) (more : List (List (List ℕ) × LineFault)) (lines : List UsageLine)
        → IsReadWithout rows ((row, fault) ∷ more) lines → IsFaultOf rows fault }
{}

/// The residue's account and the limits, as numbers: claims in hundredths of a per cent, the sizes of amounts in
/// minor units.
pub fn law_the_limits()
    ensures residue { RESIDUE ≡ 0 }
    ensures most_claims { MOST_CLAIMS ≡ 256 }
    ensures full_share { FULL_SHARE ≡ 10000 }
    ensures most_claimed { MOST_CLAIMED ≡ 10006 }
    ensures most_amount { MOST_AMOUNT ≡ 1000000000000 }
    ensures most_lines { MOST_LINES ≡ 1000000 }
    ensures most_text_bytes { MOST_TEXT_BYTES ≡ 64 }
{}
