//! The limits of a draw, and what finding no block left means. A law has an empty body: its contract is the law.

ghost use Rattle.std.specs.Prelude.{◌≡◌};
ghost use Rattle.block_draw.specs.declared.TheConstants.{MOST_BLOCKS, MOST_DRAWERS};
ghost use Rattle.block_draw.specs.Left.{NoneIsLeft};

/// A draw has at most 15,625 blocks and 8 drawers.
pub fn law_the_limits()
    ensures most_blocks { MOST_BLOCKS ≡ 15625 }
    ensures most_drawers { MOST_DRAWERS ≡ 8 }
{}

/// At any moment under the rule: the counter is past the last block exactly where each block was drawn, by one drawer. So each
/// was drawn where a drawer has answered None, and where one was gathered.
pub fn law_none_is_left()
    ensures { NoneIsLeft }
{}
