//! What the statements of a run over the files of several submitters keep to. A law has an empty body: its contract is
//! the law.

ghost use Rattle.std.specs.Prelude.{◌≡◌, ◌∷◌, ◌↔◌, [], ℕ, List, Option};
ghost use Rattle.cwr_share.specs.Registered.{IsRegistered};
ghost use Rattle.cwr_share.specs.RegistryOf.{IsRegistryOf};
ghost use Rattle.cwr_share.specs.Registrations.{ShareLine};
ghost use Rattle.run_inputs.specs.declared.inputs.Inputs.{Inputs};
ghost use Rattle.run_inputs.specs.declared.inputs.Tables.{Tables};
ghost use Rattle.settle_run.specs.Settled as one_file;
ghost use Rattle.settle_run.specs.Settled.{AreStatementsFor};
ghost use Rattle.submitted_inputs.specs.Submitted.{IsFaultOf, IsReading};
ghost use Rattle.submitted_inputs.specs.declared.fault.SubmittedFault.{SubmittedFault};
ghost use Rattle.submitted_inputs.specs.declared.fault.SubmittedFault.TheVariants.{Room};
ghost use Rattle.submitted_inputs.specs.declared.inputs.SubmittedTables.{SubmittedTables};
ghost use Rattle.submitted_laws.specs.Alike.{AnswerAlike, AreOfAnyOrder, AreOfOneFile, HoldsOneText, RefusesNoText};
ghost use Rattle.submitted_laws.specs.SubmittedStatements.{AreStatementsOf};
ghost use Rattle.works_laws.specs.OneList.{AreOneLists};

use submitted_inputs::SubmitterFiles;

/// Statements go by accounts, claims and reasons alone: where two runs read the same territories and usage lines, and
/// have the same of these, they have the same statements, whatever files they are of.
pub fn law_statements_go_by_claims_and_accounts()
    ensures { (tables other : Tables) (text : List ℕ) → AnswerAlike tables other
        → AreStatementsFor tables text → AreStatementsFor other text }
{}

/// One submitter alone, each of whose registrations is of the work with its own number, has the statements of its file
/// run by itself, where its parties are paid as there.
pub fn law_one_file_has_its_own_statements<F: SubmitterFiles>(files: &F)
    ensures { (name : List ℕ) (alone : Inputs (List ℕ)) (inputs : SubmittedTables (List ℕ)) (text other : List ℕ)
        → AreOfOneFile name (F.holds files.now) alone inputs → one_file.AreStatementsOf alone text
        → AreStatementsOf (name ∷ []) (F.holds files.now) inputs other → text ≡ other }
{}

/// The order of the submitters, of the rows of the table of works and of those of the table of payees changes no byte
/// of the statements.
pub fn law_order_has_no_bearing_on_statements<F: SubmitterFiles, G: SubmitterFiles>(
    files: &F,
    later: &G,
)
    ensures { (names others : List (List ℕ)) (inputs moved : SubmittedTables (List ℕ)) (text other : List ℕ)
        → AreOfAnyOrder names others (F.holds files.now) (G.holds later.now) inputs moved
        → AreStatementsOf names (F.holds files.now) inputs text
        → AreStatementsOf others (G.holds later.now) moved other → text ≡ other }
{}

/// The inputs have one text, where each file has: whoever works out their statements, and with however many threads,
/// comes to the same bytes.
pub fn law_inputs_of_submitters_have_one_text<F: SubmitterFiles>(files: &F)
    ensures { (names : List (List ℕ)) (inputs : SubmittedTables (List ℕ)) (text other : List ℕ)
        → HoldsOneText (F.holds files.now) → AreStatementsOf names (F.holds files.now) inputs text
        → AreStatementsOf names (F.holds files.now) inputs other → text ≡ other }
{}

/// Inputs that are read are refused for nothing but lack of memory, where each file has one text and no file both has a
/// text and cannot be read.
pub fn law_submitted_inputs_that_are_read_have_no_fault<F: SubmitterFiles>(files: &F)
    ensures { (names : List (List ℕ)) (inputs : SubmittedTables (List ℕ)) (tables : Tables) (fault : SubmittedFault)
        → HoldsOneText (F.holds files.now) → RefusesNoText (F.holds files.now) (F.refuses files.now)
        → IsReading names (F.holds files.now) inputs tables
        → IsFaultOf names (F.holds files.now) (F.refuses files.now) inputs fault → fault ≡ Room }
{}

/// One list of share lines for each work, in which each interest and party has an interest of its own under the name of
/// its payee, has the statements of the lists that it stands for.
pub fn law_one_list_has_the_same_statements()
    ensures { (rows : List (List ℕ × List ℕ)) (shares_of single_of : List ℕ → Option (List ShareLine))
        (tables other : Tables) (text : List ℕ) → AreOneLists rows shares_of single_of
        → tables.territories ≡ other.territories → tables.usage ≡ other.usage
        → IsRegistryOf rows shares_of tables.registry → IsRegistered tables.registry
        → IsRegistryOf [] single_of other.registry → IsRegistered other.registry
        → AreStatementsFor tables text ↔ AreStatementsFor other text }
{}
