//! What explanations and reports over the files of several submitters keep to, and what a report has to do with a run.
//! A law has an empty body: its contract is the law.

ghost use Rattle.std.specs.Prelude.{ℕ, ℤ, ◌≡◌, ◌<◌, ◌+◌, ◌==◌, ◌↔◌, [], All, AllPairs, Contains, List, Some, true};
ghost use Rattle.std.specs.Prelude.{filter, length, slice_index_or, sum_by, unwrap_or};
ghost use Rattle.check_inputs.specs.Found.{Found, IsFoundIn, is_sound};
ghost use Rattle.check_inputs.specs.SubmittedFound as on_submitters;
ghost use Rattle.check_inputs.specs.SubmittedFound.{SubmittedFound};
ghost use Rattle.check_inputs.specs.SubmittedOver.{claims_of_submitters};
ghost use Rattle.cwr_share.specs.ClaimsOn.{claimed_in, claims_by, claims_on};
ghost use Rattle.cwr_share.specs.Registered.{IsRegistered, Registered};
ghost use Rattle.cwr_share.specs.Registrations.{ShareLine, find_work};
ghost use Rattle.explanation_laws.specs.FirstFound.{first_fault};
ghost use Rattle.explanation_laws.specs.FirstSubmitted.{first_submitted_fault};
ghost use Rattle.explain_line.specs.Explanation.{IsRow, portions_shown};
ghost use Rattle.explain_line.specs.Submitted.{IsSubmittedExplanationOf};
ghost use Rattle.line_split.specs.Claims.{total_of};
ghost use Rattle.line_split.specs.Signs.{signed_portions_of};
ghost use Rattle.line_split.specs.UsageLine.{UsageLine};
ghost use Rattle.linked_works.specs.Linked.{Finds, Link, shares_linked};
ghost use Rattle.payee_book.specs.Run.{IsBookOf, portion_for, posting_of};
ghost use Rattle.run_inputs.specs.Inputs.{HaveNoFault, IsFaultOf};
ghost use Rattle.run_inputs.specs.declared.fault.Fault.{Fault};
ghost use Rattle.run_inputs.specs.declared.fault.Fault.TheVariants.{Room};
ghost use Rattle.run_inputs.specs.declared.inputs.Inputs.{Inputs};
ghost use Rattle.run_inputs.specs.declared.inputs.Tables.{Tables};
ghost use Rattle.submitted_inputs.specs.Submitted as over_submitters;
ghost use Rattle.submitted_inputs.specs.Submitted.{IsReading};
ghost use Rattle.submitted_inputs.specs.declared.fault.SubmittedFault.{SubmittedFault};
ghost use Rattle.submitted_inputs.specs.declared.fault.SubmittedFault.TheVariants as submitted_fault;
ghost use Rattle.submitted_inputs.specs.declared.inputs.SubmittedTables.{SubmittedTables};
ghost use Rattle.submitted_laws.specs.Alike.{HoldsOneText, RefusesNoText};

use submitted_inputs::SubmitterFiles;

/// The first fault that a report tells is one that a run over the same files is refused for.
pub fn law_the_first_fault_of_a_report_refuses_a_run()
    ensures { (files : Inputs (List ℕ)) (found : Found) (fault : Fault) → IsFoundIn files found
        → first_fault found ≡ Some fault → IsFaultOf files fault }
{}

/// A report tells of no fault exactly where no input has one.
pub fn law_a_report_is_sound_where_no_input_has_a_fault()
    ensures { (files : Inputs (List ℕ)) (found : Found) → IsFoundIn files found
        → (is_sound found ≡ true) ↔ HaveNoFault files }
{}

/// Two faults that a run is refused for are one, but for lack of memory (`run`): so what a run is refused for, but for
/// that, is the first fault that a report tells (`report`).
pub fn law_a_run_has_one_first_fault()
    ensures run { (files : Inputs (List ℕ)) (fault other : Fault) → IsFaultOf files fault → IsFaultOf files other
        → ¬ (fault ≡ Room) → ¬ (other ≡ Room) → fault ≡ other }
    ensures report { (files : Inputs (List ℕ)) (found : Found) (fault other : Fault) → IsFoundIn files found
        → first_fault found ≡ Some fault → IsFaultOf files other → ¬ (other ≡ Room) → other ≡ fault }
{}

/// The first fault that a report on the files of submitters tells is one that a run over the same files is refused for.
pub fn law_the_first_fault_of_a_report_on_submitters_refuses_a_run<F: SubmitterFiles>(files: &F)
    ensures { (names paths : List (List ℕ)) (inputs : SubmittedTables (List ℕ)) (found : SubmittedFound)
        (fault : SubmittedFault) → length paths ≡ length names
        → on_submitters.IsFoundIn names paths (F.holds files.now) inputs found
        → first_submitted_fault found ≡ Some fault
        → over_submitters.IsFaultOf names (F.holds files.now) (F.refuses files.now) inputs fault }
{}

/// A report on the files of submitters tells of no fault exactly where the inputs can be read, where each file has one
/// text.
pub fn law_a_report_on_submitters_is_sound_where_no_input_has_a_fault<F: SubmitterFiles>(files: &F)
    ensures { (names paths : List (List ℕ)) (inputs : SubmittedTables (List ℕ)) (found : SubmittedFound)
        → length paths ≡ length names → HoldsOneText (F.holds files.now)
        → on_submitters.IsFoundIn names paths (F.holds files.now) inputs found
        → (on_submitters.is_sound found ≡ true)
        ↔ ((tables : Tables) × IsReading names (F.holds files.now) inputs tables) }
{}

/// Two faults that a run over the files of submitters is refused for are one, but for lack of memory (`run`), where
/// each file has one text and no file both has a text and cannot be read: so what a run is refused for, but for that,
/// is the first fault that a report tells (`report`).
pub fn law_a_run_over_submitters_has_one_first_fault<F: SubmitterFiles>(files: &F)
    ensures run { (names : List (List ℕ)) (inputs : SubmittedTables (List ℕ)) (fault other : SubmittedFault)
        → HoldsOneText (F.holds files.now)
        → RefusesNoText (F.holds files.now) (F.refuses files.now)
        → over_submitters.IsFaultOf names (F.holds files.now) (F.refuses files.now) inputs fault
        → over_submitters.IsFaultOf names (F.holds files.now) (F.refuses files.now) inputs other
        → ¬ (fault ≡ submitted_fault.Room) → ¬ (other ≡ submitted_fault.Room) → fault ≡ other }
    ensures report { (names paths : List (List ℕ)) (inputs : SubmittedTables (List ℕ)) (found : SubmittedFound)
        (fault other : SubmittedFault) → length paths ≡ length names → HoldsOneText (F.holds files.now)
        → RefusesNoText (F.holds files.now) (F.refuses files.now)
        → on_submitters.IsFoundIn names paths (F.holds files.now) inputs found
        → first_submitted_fault found ≡ Some fault
        → over_submitters.IsFaultOf names (F.holds files.now) (F.refuses files.now) inputs other
        → ¬ (other ≡ submitted_fault.Room) → other ≡ fault }
{}

/// A row of the usage list has one explanation, where each file has one text: whoever works it out by the definitions
/// comes to the same bytes.
pub fn law_a_row_of_submitters_has_one_explanation<F: SubmitterFiles>(files: &F)
    ensures { (names : List (List ℕ)) (inputs : SubmittedTables (List ℕ)) (row : ℕ) (text other : List ℕ)
        → HoldsOneText (F.holds files.now) → IsSubmittedExplanationOf names (F.holds files.now) inputs row text
        → IsSubmittedExplanationOf names (F.holds files.now) inputs row other → text ≡ other }
{}

/// The portions that an explanation shows are the postings of its line in the statements of a run over the same files,
/// those that are not 0: the statement of each account has this posting of the line, and no other.
pub fn law_explained_portions_of_submitters_are_posted<F: SubmitterFiles>(files: &F)
    ensures { (names : List (List ℕ)) (inputs : SubmittedTables (List ℕ)) (tables of_run : Tables)
        (statements : List (List (ℕ × ℤ))) (place : ℕ) (line : UsageLine) (account : ℕ)
        → HoldsOneText (F.holds files.now) → IsReading names (F.holds files.now) inputs tables
        → IsReading names (F.holds files.now) inputs of_run
        → IsBookOf (λ other. signed_portions_of other.amount (claims_on of_run.territories of_run.registry other))
        of_run.usage (length of_run.registry.accounts) statements
        → IsRow tables.usage (place + 1) line → account < length tables.registry.accounts
        → filter (λ posting. posting.0 == place) (slice_index_or statements account [])
        ≡ posting_of place
        (portion_for account (portions_shown line.amount (claims_on tables.territories tables.registry line))) }
{}

/// What a report says that each submitter claims on a line comes to what all its linked registrations claim together,
/// and that to what the accounts claim, which is what the line is divided by or refused for.
pub fn law_claims_of_submitters_add_up()
    ensures submitters { (table : List (ℕ × List ℕ)) (finds : Finds) (links : List Link) (names : List (List ℕ))
        (line : UsageLine) → AllPairs (λ name later. ¬ (name ≡ later)) names
        → All (λ link. Contains names link.submitter) links
        → sum_by (λ claim. claim.1) (claims_of_submitters table finds links names line)
        ≡ claimed_in table line.territory line.right (unwrap_or (shares_linked finds links line.work) []) }
    ensures accounts { (table : List (ℕ × List ℕ)) (registered : Registered) (line : UsageLine)
        (shares : List ShareLine) → IsRegistered registered → find_work line.work registered.works ≡ Some shares
        → total_of (claims_by table registered line shares) ≡ claimed_in table line.territory line.right shares }
{}
