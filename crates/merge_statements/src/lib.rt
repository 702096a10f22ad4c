//! The statements of several runs merged into one text.
#![tactic(auto)]

pub mod amount;
mod buffer;
mod checking;
pub mod laws;
mod merging;
mod page;
mod part;
mod read_fault;
mod reader;
mod refusal;
mod row;
mod walk;

pub use checking::{Counts, check};
pub use merging::{TextRefusal, end_text, lesser_payee, merge, pass_if_next};
pub use page::Page;
pub use part::Part;
pub use read_fault::ReadFault;
pub use reader::RowReader;
pub use refusal::{Refusal, StatementFault};
pub use row::{Row, RowRoom};
pub use walk::{Place, Progress, Wrong};
