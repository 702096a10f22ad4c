//! Why two texts have no differences.

ghost use Rattle.std.specs.Prelude.{◌≡◌};
ghost use Rattle.adjust_statements.specs.declared.refusal.AdjustRefusal.TheVariants as AdjustRefusal;

use merge_statements::{Refusal, TextRefusal};

/// Why two texts have no differences.
#[derive(Debug, Drop)]
pub enum AdjustRefusal {
    /// One is no text of statements, as `merge` refuses it; or memory, a read or a write was refused. What was paid is
    /// the first text and what is right the second, counted from 0.
    Text(TextRefusal),
    /// What is right is of another number of usage lines than what was paid. It says so in its last row, counted
    /// from 1.
    Lines(u64),
}

/// The refusal of the text with a number.
pub(crate) fn refused(place: u64, refusal: Refusal) -> AdjustRefusal
    ensures { result ≡ AdjustRefusal.Text (record { place = place; refusal = refusal }) }
{
    AdjustRefusal::Text(TextRefusal { place, refusal })
}
