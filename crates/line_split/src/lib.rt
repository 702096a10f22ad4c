//! Usage lines, and how the amount of one is divided: claims in, portions out.
//!
//! The rule is the method of largest remainder (Hamilton). `split` applies it, `portion_by_rank`
//! computes the sizes slowly, and `laws` says what makes the division a fair one.
#![tactic(auto)]

mod by_rank;
mod claims;
mod contender;
pub mod laws;
mod line_fault;
mod pairs;
mod parts;
mod portions;
mod reason;
mod text;
mod usage;

pub use by_rank::{Working, base_for, portion_by_rank, units_left_of, working_of};
pub use claims::{ClaimFault, Claims};
pub use csv_table::FileFault;
pub use line_fault::LineFault;
pub use portions::{Portions, split};
pub use reason::Reason;
pub use usage::{Line, Right, Usage};

/// Who a claim or a portion belongs to, by number. 0 is the residue account.
pub type Account = u16;

/// The account that gets what nobody claims.
pub const RESIDUE: Account = 0;

/// The most claims that one line has.
pub const MOST_CLAIMS: usize = 256;

/// 100.00 per cent, in hundredths of a per cent: the whole of a line, and the most that `Claims::of`
/// takes for one claim.
pub const FULL_SHARE: u32 = 10_000;

/// 100.06 per cent, in hundredths of a per cent. Claims that come to more hold the whole line in the
/// residue.
pub const MOST_CLAIMED: u32 = 10_006;

/// The greatest size of a line's amount, in minor units of its currency.
pub const MOST_AMOUNT: u64 = 1_000_000_000_000;

/// The most lines that one list has.
pub const MOST_LINES: u64 = 1_000_000;

/// The longest text of a usage or of a work number, in bytes.
pub const MOST_TEXT_BYTES: usize = 64;
