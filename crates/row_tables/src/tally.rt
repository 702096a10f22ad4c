//! How many rows of tables were answered as they say, and which were not.

use crate::rows::Rows;
use std::alloc::{AllocError, Global};
use std::fmt;

/// The rows that were compared so far.
#[derive(Drop)]
pub struct Tally {
    rows: u64,
    wrong: u64,
    report: String,
}

impl Tally {
    pub fn new(alloc: Global) -> Tally {
        Tally {
            rows: 0,
            wrong: 0,
            report: String::new(alloc),
        }
    }

    /// Compares what was answered to a row of a table with what it wants.
    pub fn compare(
        &mut self,
        alloc: Global,
        table: &str,
        rows: &Rows<'_>,
        found: &[u8],
    ) -> Result<(), AllocError> {
        self.rows = self.rows.saturating_add(1);
        if rows.wanted() == found {
            return Ok(());
        }
        self.wrong = self.wrong.saturating_add(1);
        let (place, question) = (rows.place(), rows.question());
        let line = format!(in alloc;
            "{table}:{place}: {question}\n  wanted {}\n  found  {}\n",
            text_of(rows.wanted()),
            text_of(found)
        )?;
        self.report.push_str(line.as_str())
    }

    /// Whether all rows were answered as they say.
    pub fn is_right(&self) -> bool {
        self.wrong == 0
    }

    /// The rows that were not, each with what it wants and what was found.
    pub fn report(&self) -> &str {
        self.report.as_str()
    }
}

impl fmt::Display for Tally {
    fn fmt<W: fmt::Write>(&self, f: &mut fmt::Formatter<W>) -> fmt::Result {
        let (rows, wrong) = (self.rows, self.wrong);
        write!(f, "{rows} rows, {wrong} wrong")
    }
}

/// The text that bytes are, or a question mark.
pub fn text_of(bytes: &[u8]) -> &str {
    str::from_utf8(bytes).unwrap_or("?")
}
