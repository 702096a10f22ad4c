//! What explanations keep to. A law has an empty body: its contract is the law.

ghost use Rattle.std.specs.List.{enumerate_from};
ghost use Rattle.std.specs.Prelude.{ℕ, ℤ, ◌≡◌, ◌<◌, ◌+◌, ◌==◌, [], List};
ghost use Rattle.std.specs.Prelude.{None, Some, drop, filter, length, map, slice_index_or, unwrap_or, zip};
ghost use Rattle.cwr_share.specs.ClaimsOn.{claims_by, claims_on, decides, deciding, reason_against};
ghost use Rattle.cwr_share.specs.Filed.{last_opening, numbers_from, shares_from};
ghost use Rattle.cwr_share.specs.Lines.{lines_of};
ghost use Rattle.cwr_share.specs.Registrations.{ShareLine};
ghost use Rattle.explain_line.specs.Explanation.{IsExplanationOf, IsRow, portions_shown};
ghost use Rattle.line_split.specs.Signs.{signed_portions_of};
ghost use Rattle.line_split.specs.UsageLine.{UsageLine};
ghost use Rattle.linked_works.specs.Linked.{finds_in, shares_linked};
ghost use Rattle.payee_book.specs.Run.{IsBookOf, portion_for, posting_of};
ghost use Rattle.run_inputs.specs.Inputs.{IsReading};
ghost use Rattle.run_inputs.specs.declared.inputs.Inputs.{Inputs};
ghost use Rattle.run_inputs.specs.declared.inputs.Tables.{Tables};
ghost use Rattle.submitted_inputs.specs.Submitted as submitted;
ghost use Rattle.submitted_inputs.specs.declared.inputs.SubmittedTables.{SubmittedTables};

use submitted_inputs::SubmitterFiles;

/// The portions that an explanation shows are the postings of its line in the statements of a run over the same files, those that
/// are not 0: the statement of each account has this posting of the line, and no other. The run may have read the files by itself.
pub fn law_explained_portions_are_posted()
    ensures { (files : Inputs (List ℕ)) (tables of_run : Tables) (statements : List (List (ℕ × ℤ)))
        (place : ℕ) (line : UsageLine) (account : ℕ)
        → IsReading files tables → IsReading files of_run
        → IsBookOf (λ other. signed_portions_of other.amount (claims_on of_run.territories of_run.registry other))
        of_run.usage (length of_run.registry.accounts) statements
        → IsRow tables.usage (place + 1) line → account < length tables.registry.accounts
        → filter (λ posting. posting.0 == place) (slice_index_or statements account [])
        ≡ posting_of place
        (portion_for account (portions_shown line.amount (claims_on tables.territories tables.registry line))) }
{}

/// Where no reason stands against them, the claims by the share lines that an explanation shows are those that the line is divided by.
/// And it shows a line of the file for each of these.
pub fn law_the_claims_shown_are_those_divided()
    ensures claims { (files : Inputs (List ℕ)) (tables : Tables) (line : UsageLine)
        → IsReading files tables → reason_against tables.territories tables.registry line ≡ None
        → (number : ℕ) × (last_opening (lines_of files.registrations) line.work ≡ Some number)
        × (claims_by tables.territories tables.registry line (shares_from (lines_of files.registrations) number)
        ≡ claims_on tables.territories tables.registry line) }
    ensures numbers { (file : List (List ℕ)) (number : ℕ) → length (numbers_from file number) ≡ length (shares_from file number) }
{}

/// In a run over the files of several submitters too the claims that an explanation shows are those that the line is divided by,
/// where no reason stands against them: those of all linked registrations in force together.
pub fn law_the_claims_shown_of_submitters_are_those_divided<F: SubmitterFiles>(files: &F)
    ensures { (names : List (List ℕ)) (inputs : SubmittedTables (List ℕ)) (tables : Tables)
        (line : UsageLine) (read : submitted.IsReading names (F.holds files.now) inputs tables)
        → reason_against tables.territories tables.registry line ≡ None
        → claims_by tables.territories tables.registry line
        (unwrap_or (shares_linked (finds_in (zip names (map lines_of read.files))) read.links line.work) [])
        ≡ claims_on tables.territories tables.registry line }
{}

/// A row of the usage list has one explanation: whoever works it out by the definitions comes to the same bytes.
pub fn law_a_row_has_one_explanation()
    ensures { (files : Inputs (List ℕ)) (row : ℕ) (text other : List ℕ)
        → IsExplanationOf files row text → IsExplanationOf files row other → text ≡ other }
{}

/// The share lines of which an explanation says that they decide are those that the claims are the sum of.
pub fn law_lines_that_decide_are_the_deciding_ones()
    ensures { (table : List (ℕ × List ℕ)) (land : ℕ) (shares : List ShareLine)
        → map (λ e. e.1) (filter (λ e. decides table land e.1 (drop (e.0 + 1) shares)) (enumerate_from 0 shares)) ≡ deciding table land shares }
{}
