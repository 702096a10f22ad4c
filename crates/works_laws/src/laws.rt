//! What the claims on the works of several submitters keep to. A law has an empty body: its contract is the law.

ghost use Rattle.std.specs.Prelude.{◌≡◌, ◌∷◌, [], ℕ, List, Option};
ghost use Rattle.line_split.specs.UsageLine.{UsageLine};
ghost use Rattle.cwr_share.specs.ClaimsOn.{claims_on, reason_against};
ghost use Rattle.cwr_share.specs.CwrFile.{IsFileOf};
ghost use Rattle.cwr_share.specs.Registered.{IsRegistered, Registered};
ghost use Rattle.cwr_share.specs.RegistryOf.{IsRegistryOf};
ghost use Rattle.cwr_share.specs.Registrations.{ShareLine};
ghost use Rattle.linked_works.specs.Linked.{Link, finds_in, shares_linked};
ghost use Rattle.works_laws.specs.ByNumbers.{ArePaidAsIn, IsByNumbers};
ghost use Rattle.works_laws.specs.OneList.{AreOneLists};
ghost use Rattle.works_laws.specs.Reordered.{AreReordered};

/// One submitter alone, each of whose registrations is of the work with its own number, has the accounts, the claims
/// and the reasons of its file read by itself, where its parties are paid as there.
pub fn law_one_file_of_a_submitter()
    ensures accounts { (name : List ℕ) (lines : List (List ℕ)) (rows named : List (List ℕ × List ℕ)) (links : List Link)
        (registered joined : Registered) → IsByNumbers name lines links → ArePaidAsIn name lines rows named
        → IsFileOf rows lines registered → IsRegistered registered
        → IsRegistryOf named (shares_linked (finds_in ((name, lines) ∷ [])) links) joined → IsRegistered joined
        → joined.accounts ≡ registered.accounts }
    ensures claims { (name : List ℕ) (lines : List (List ℕ)) (rows named : List (List ℕ × List ℕ)) (links : List Link)
        (registered joined : Registered) → IsByNumbers name lines links → ArePaidAsIn name lines rows named
        → IsFileOf rows lines registered → IsRegistered registered
        → IsRegistryOf named (shares_linked (finds_in ((name, lines) ∷ [])) links) joined → IsRegistered joined
        → (table : List (ℕ × List ℕ)) (line : UsageLine)
        → claims_on table joined line ≡ claims_on table registered line }
    ensures reason { (name : List ℕ) (lines : List (List ℕ)) (rows named : List (List ℕ × List ℕ)) (links : List Link)
        (registered joined : Registered) → IsByNumbers name lines links → ArePaidAsIn name lines rows named
        → IsFileOf rows lines registered → IsRegistered registered
        → IsRegistryOf named (shares_linked (finds_in ((name, lines) ∷ [])) links) joined → IsRegistered joined
        → (table : List (ℕ × List ℕ)) (line : UsageLine)
        → reason_against table joined line ≡ reason_against table registered line }
{}

/// The order of the files, of the rows of the table of works and of those of the table of payees changes no account, no
/// claim and no refusal.
pub fn law_order_does_not_matter()
    ensures accounts { (files others : List (List ℕ × List (List ℕ))) (links moved : List Link)
        (rows mixed : List (List ℕ × List ℕ)) (registered other : Registered)
        → AreReordered files others links moved rows mixed
        → IsRegistryOf rows (shares_linked (finds_in files) links) registered → IsRegistered registered
        → IsRegistryOf mixed (shares_linked (finds_in others) moved) other → IsRegistered other
        → registered.accounts ≡ other.accounts }
    ensures claims { (files others : List (List ℕ × List (List ℕ))) (links moved : List Link)
        (rows mixed : List (List ℕ × List ℕ)) (registered other : Registered)
        → AreReordered files others links moved rows mixed
        → IsRegistryOf rows (shares_linked (finds_in files) links) registered → IsRegistered registered
        → IsRegistryOf mixed (shares_linked (finds_in others) moved) other → IsRegistered other
        → (table : List (ℕ × List ℕ)) (line : UsageLine)
        → claims_on table registered line ≡ claims_on table other line }
    ensures reason { (files others : List (List ℕ × List (List ℕ))) (links moved : List Link)
        (rows mixed : List (List ℕ × List ℕ)) (registered other : Registered)
        → AreReordered files others links moved rows mixed
        → IsRegistryOf rows (shares_linked (finds_in files) links) registered → IsRegistered registered
        → IsRegistryOf mixed (shares_linked (finds_in others) moved) other → IsRegistered other
        → (table : List (ℕ × List ℕ)) (line : UsageLine)
        → reason_against table registered line ≡ reason_against table other line }
{}

/// One list of share lines for each work, in which each interest and party has an interest of its own under the name of
/// its payee, has the accounts, the claims and the reasons of the list that it stands for.
pub fn law_one_list_for_many()
    ensures accounts { (rows : List (List ℕ × List ℕ)) (shares_of single_of : List ℕ → Option (List ShareLine))
        (registered other : Registered) → AreOneLists rows shares_of single_of
        → IsRegistryOf rows shares_of registered → IsRegistered registered
        → IsRegistryOf [] single_of other → IsRegistered other
        → registered.accounts ≡ other.accounts }
    ensures claims { (rows : List (List ℕ × List ℕ)) (shares_of single_of : List ℕ → Option (List ShareLine))
        (registered other : Registered) → AreOneLists rows shares_of single_of
        → IsRegistryOf rows shares_of registered → IsRegistered registered
        → IsRegistryOf [] single_of other → IsRegistered other
        → (table : List (ℕ × List ℕ)) (line : UsageLine)
        → claims_on table registered line ≡ claims_on table other line }
    ensures reason { (rows : List (List ℕ × List ℕ)) (shares_of single_of : List ℕ → Option (List ShareLine))
        (registered other : Registered) → AreOneLists rows shares_of single_of
        → IsRegistryOf rows shares_of registered → IsRegistered registered
        → IsRegistryOf [] single_of other → IsRegistered other
        → (table : List (ℕ × List ℕ)) (line : UsageLine)
        → reason_against table registered line ≡ reason_against table other line }
{}
