//! Tables of works and of payees to begin with, made of the CWR 2.2 files of submitters. People then correct them by
//! hand.
//!
//! `add_works` adds a row for each registration in force of a file to a table of works, and `add_parties` a row for
//! each party of these to a table of payees. `registrations_in_force` has the registrations in force as they stand.
#![tactic(auto)]

pub mod fields;
mod in_force;
pub mod laws;
mod numbers;
mod parties;
mod party_records;
mod works;

pub use in_force::{FiledLines, registrations_in_force};
pub use parties::{add_parties, parties_header};
pub use party_records::{PartyRecords, records_of_parties};
pub use works::{add_works, works_header};
