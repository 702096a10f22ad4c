//! The tables of a run over the files of several submitters.

/// One of each table of a run over the files of several submitters: its path, say, or its bytes.
#[derive(Debug, Drop)]
pub struct SubmittedTables<T> {
    /// The table of territories.
    pub territories: T,
    /// The table of payees by submitter, where there is one.
    pub payees: Option<T>,
    /// The table of works: which registrations are of which work.
    pub works: T,
    /// The table of usage lines.
    pub usage: T,
}
