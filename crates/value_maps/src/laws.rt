//! What tables of values keep to. A law has an empty body: its contract is the law.

ghost use Rattle.std.specs.Prelude.{◌≡◌};
ghost use Rattle.value_maps.specs.declared.value_map.TheConstants.{MOST_VALUES};

/// How many rows a table of values may have below its header.
pub fn law_the_limit_of_values()
    ensures { MOST_VALUES ≡ 4194304 }
{}
