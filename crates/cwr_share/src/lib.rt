//! Registrations of works, as a publisher sends them in a CWR 2.2 file, and the claims that they give
//! on a usage line.
//!
//! `Registry::read` reads a file. Each registration has share lines: who collects which share, in
//! which territories. `Registry::claims` asks, for the work, the land and the right of a usage line,
//! what each party's shares come to. `Registry::paid` does the same for a table of payees, which
//! `Payees::read` reads: several parties may be paid to one account.
#![tactic(auto)]

mod claim_line;
mod cwr_fault;
mod cwr_reader;
mod deciding;
pub mod fields;
mod filed;
mod in_force;
pub mod laws;
mod lines;
mod name;
mod numbers;
mod parties;
mod passed_over;
mod payee_fault;
mod payees;
mod reading;
mod record_type;
mod registration;
mod registrations;
mod registry;
mod share_line;

pub use csv_table::FileFault;
pub use cwr_fault::CwrFault;
pub use cwr_reader::CwrReader;
pub use deciding::{claimed_in, covers_land, decides};
pub use filed::{FiledRegistration, count_registrations, filed_registration};
pub use in_force::InForce;
pub use lines::Lines;
pub use name::{Name, Sought};
pub use numbers::{MOST_PARTY_BYTES, MOST_SUBMITTER_BYTES, MOST_WORK_BYTES, MOST_WORK_NAME_BYTES};
pub use passed_over::{MOST_NAMED, Tally, unknown_territories, unused_payees};
pub use payee_fault::PayeeFault;
pub use payees::{MOST_NAME_BYTES, MOST_PAYEES, Payees};
pub use record_type::{RecordType, record_type_of, share_fields_of};
pub use registry::{Registry, Work};
pub use share_line::{ShareRecord, trimmed};

/// The most share lines that one registration has.
pub const MOST_SHARES: usize = 256;

/// The most share lines that one work has: of 1,048,576 registrations.
pub const MOST_SHARE_LINES: usize = 1_048_576 * MOST_SHARES;

/// The most accounts that the payees of all registrations in force have.
pub const MOST_ACCOUNTS: usize = 16_383;
