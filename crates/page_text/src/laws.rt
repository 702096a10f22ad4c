//! What documents keep to. A law has an empty body: its contract is the law.

ghost use Rattle.std.specs.Prelude.{ℕ, ℤ, ◌≡◌, ◌≢◌, ◌<◌, ◌≤◌, ◌^◌, ◌⊎◌, All, IsTrue, List, false, length, map};
ghost use Rattle.std.specs.Prelude.{slice_index, unsigned_abs};
ghost use Rattle.page_text.specs.Escaped.{escaped, read_back};
ghost use Rattle.page_text.specs.Figures.{amount_text, count_text, last_digits, number_in};
ghost use Rattle.page_text.specs.declared.figures.TheConstants.{MOST_DECIMALS};
ghost use Rattle.page_text.specs.FileNames.{file_name, is_plain, lower, slug};
ghost use Rattle.page_text.specs.Formulas.{begins_formula, guarded};
ghost use Rattle.page_text.specs.Shown.{shown};
ghost use Rattle.page_text.specs.Styled.{styled};

/// A text that was escaped reads back as it was, whatever its bytes.
pub fn law_text_reads_back()
    ensures { (text : List ℕ) → read_back (escaped text) ≡ text }
{}

/// It opens no tag and ends no attribute.
pub fn law_text_opens_nothing()
    ensures { (text : List ℕ) → All (λ byte. (byte ≢ 60) × (byte ≢ 62) × (byte ≢ 34) × (byte ≢ 39)) (escaped text) }
{}

/// A text in a style sheet ends neither its quotes nor the sheet: it has no quote, no `<` and no line end.
pub fn law_a_style_text_ends_nothing()
    ensures { (text : List ℕ) → All (λ byte. (byte ≢ 34) × (byte ≢ 60) × (byte ≢ 10)) (styled text) }
{}

/// A text of characters of ASCII that can be seen is shown as it stands.
pub fn law_plain_text_is_shown_as_it_is()
    ensures { (text : List ℕ) → All (λ byte. (32 ≤ byte) × (byte ≤ 126)) text → shown text ≡ text }
{}

/// The digits of an amount are those of its minor units, whatever stands between them, and there are as many decimal
/// places as were asked for: nothing is rounded. The functions here take no number of more than 64 digits.
pub fn law_figures_are_exact()
    ensures amount { (decimals : ℕ) (amount : ℤ) → unsigned_abs amount < 10 ^ 64
        → number_in (amount_text decimals amount) ≡ unsigned_abs amount }
    ensures places { (decimals n : ℕ) → length (last_digits decimals n) ≡ decimals }
    ensures count { (n : ℕ) → n < 10 ^ 64 → number_in (count_text n) ≡ n }
{}

/// Files of two accounts have different names, also where case does not count.
pub fn law_file_names_differ()
    ensures { (width number other : ℕ) (name another : List ℕ) → number < 10 ^ width → other < 10 ^ width
        → map lower (file_name width number name) ≡ map lower (file_name width other another) → number ≡ other }
{}

/// A name has letters, digits and `-` alone, and 1 to 40 bytes behind its digits and a `-`.
pub fn law_file_names_are_plain()
    ensures bytes { (width number : ℕ) (name : List ℕ)
        → All (λ byte. IsTrue (is_plain byte) ⊎ (byte ≡ 45)) (file_name width number name) }
    ensures short { (name : List ℕ) → (0 < length (slug name)) × (length (slug name) ≤ 40) }
{}

/// No field begins a formula.
pub fn law_no_field_begins_a_formula()
    ensures { (text : List ℕ) → begins_formula (slice_index (guarded text) 0) ≡ false }
{}

/// The most decimal places.
pub fn law_the_limit_of_decimals()
    ensures { MOST_DECIMALS ≡ 9 }
{}
