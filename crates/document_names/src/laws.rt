//! What tables of names keep to. A law has an empty body: its contract is the law.

ghost use Rattle.std.specs.Prelude.{◌≡◌};
ghost use Rattle.document_names.specs.declared.territories.TheConstants.{MOST_TERRITORY_NAMES};

/// How many rows a table of names of territories may have below its header: one for each code.
pub fn law_the_limit_of_names()
    ensures { MOST_TERRITORY_NAMES ≡ 9999 }
{}
