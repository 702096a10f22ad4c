//! What the sizes of the statements' rows keep to. A law has an empty body: its contract is the law.

ghost use Rattle.std.specs.Prelude.{◌*◌, ◌+◌, ◌≤◌};
ghost use Rattle.payee_book.specs.declared.sheets.TheConstants.{MOST_ON_SHEET, PAGES_OF_SHEET};

/// A sheet has room for the most rows of the most bytes. A row has a byte of its kind; a payee and a use of 64 bytes each, twice
/// as many where all are quotes, and two quotes around them; less than 20 bytes of an amount, its sign among them; three commas and the end of its line. A row
/// that ends a statement is shorter: it has how many rows there were, of at most 7 digits, in the place of a use. A page has 131,072 bytes.
pub fn law_a_sheet_has_room_for_its_rows()
    ensures { MOST_ON_SHEET * (1 + (2 * 64 + 2) + (2 * 64 + 2) + 20 + 4) ≤ PAGES_OF_SHEET * 131072 }
{}
