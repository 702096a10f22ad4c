//! What the program `royalty_run` does with its words and files, and the status that it answers.
#![tactic(auto)]

mod adjust_command;
mod adjust_files;
mod answering;
mod check_command;
mod commands;
mod document_files;
mod explain_command;
mod failure;
mod files;
mod folders;
mod import_command;
mod import_files;
mod inputs;
mod merge_command;
mod merge_files;
mod named_files;
mod options;
mod plan_words;
mod run_command;
mod sources;
mod split_command;
mod starting_command;
mod statements_command;
mod submitted_command;
mod submitted_files;
mod targets;

pub use answering::{answer, program, words_of};
pub use failure::Failure;
pub use folders::Folders;
pub use sources::{Disk, Source, Texts};
pub use targets::Target;
