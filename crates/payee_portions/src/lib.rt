//! The portions of a payee, as its documents list them: by the titles of the works, each with its usage line and with
//! what the payee claims there.
#![tactic(auto)]

mod held;
mod lands;
pub mod laws;
mod listing;
mod money;
mod portion;
mod reversals;
mod sections;
mod sums;

pub use held::{RunLines, held_list};
pub use lands::{count_in, sum_in, territories_of};
pub use listing::list_of;
pub use money::{Section, sections_by_money};
pub use portion::Portion;
pub use reversals::{count_of_reversals, sum_of_reversals};
pub use sections::{count_of_sections, end_of_section};
pub use sums::{count_for, sum_for, sum_of};
