//! The sums of files, in the text form of `sha256sum`, and files that are summed while they are read or written.
#![tactic(auto)]

mod forms;
pub mod laws;
mod lines;
mod running_sum;
mod seal_fault;
mod seal_text;
mod summed_file;
mod summing;

pub use forms::{MOST_PATH_BYTES, fits_in_comment, fits_in_line};
pub use lines::{add_comment, add_sum};
pub use running_sum::RunningSum;
pub use seal_fault::SealFault;
pub use seal_text::{FileSum, SealText, read_seal};
pub use summed_file::SummedFile;
pub use summing::{Known, Summing, Unknown};
