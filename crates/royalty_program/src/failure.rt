//! Why the program has no answer.

ghost use Rattle.std.specs.Io.KnownBytes.{Appends};
ghost use Rattle.std.specs.Prelude.{◌≡◌, ◌++◌, IfSome, OnOk, codes, decimal};
ghost use Rattle.std.specs.Fmt.{WritesOnOk};
ghost use Rattle.royalty_program.specs.Status.{column_text, fault_text, file_fault_text, map_fault_text};
ghost use Rattle.royalty_program.specs.Status.{statement_fault_text};

use csv_table::FileFault;
use cwr_share::CwrFault;
use document_names::NameFault;
use linked_works::WorksFault;
use merge_statements::StatementFault;
use pair_split::PairFault;
use run_inputs::Fault;
use std::fmt;
use std::io::{self, Write};
use value_maps::MapFault;

/// Why there is no answer. Its text is what the program writes to standard error, with its end of
/// line.
#[derive(Debug, Drop)]
pub enum Failure {
    /// The words of the command line are refused. The text is clap's.
    Words(clap::Error),
    /// An argument is not UTF-8.
    NotText,
    /// The pairs of a division are refused.
    Pairs(PairFault),
    /// An input of a run is refused.
    Input(Fault),
    /// The table of works is refused.
    Works(WorksFault),
    /// The CWR file of a submitter is refused, which has this path.
    Registrations { fault: CwrFault, path: String },
    /// The usage list has no row with this number.
    Row(u64),
    /// Memory was refused.
    Room,
    /// The file of this path cannot be read, or is too large.
    File(String),
    /// The output refused a write.
    Output,
    /// The text cannot be kept in the file of this path.
    Target(String),
    /// The text of statements in the file of a path is refused.
    Statement { fault: StatementFault, path: String },
    /// Texts of statements are of more than 1,000,000,000,000,000,000 usage lines.
    Many,
    /// They are, or have more portions than that, which was seen only when their merge or comparison had begun.
    ManyMerged,
    /// The file of this path changed between two readings.
    Changed(String),
    /// The statements of a run were to go to this path, which an input has too.
    Replaces(String),
    /// The table of names of territories is refused.
    Names(NameFault),
    /// Documents were to go to a new folder of this path, which something has already.
    Taken(String),
    /// The table of values in the file of a path is refused.
    Map { fault: MapFault, path: String },
    /// The export of this path has no first row, and so no header.
    Headless(String),
    /// No column of the export of a path has the name that a word is, or stands in the place that it says.
    NoColumn { word: String, path: String },
    /// More than one column has it.
    ManyColumns { word: String, path: String },
    /// A word is the name of a column, where there is no header.
    NoHeader(String),
    /// The usage lines and the rejected rows of an import were to go to the file of this path.
    BothTables(String),
    /// The statements in the file of a path are of another number of usage lines than those that were paid, as their
    /// last row says.
    OtherLines { row: u64, path: String },
}

impl fmt::Display for Failure {
    ghost use Rattle.royalty_program.specs.Status.{text_of};

    ghost output = { text_of };

    fn fmt<W: fmt::Write>(&self, f: &mut fmt::Formatter<W>) -> fmt::Result {
        match self {
            Failure::Words(error) => write!(f, "{error}"),
            Failure::NotText => f.write_str("royalty_run: an argument is not UTF-8\n"),
            Failure::Pairs(fault) => write_fault(f, "pair", fault.number(), "", fault.place()),
            Failure::Input(Fault::Tis(fault)) => {
                write_fault(f, "tis", fault.number(), "row ", fault.place())
            }
            Failure::Input(Fault::Payee(fault)) => {
                write_fault(f, "payee", fault.number(), "row ", fault.place())
            }
            Failure::Input(Fault::Cwr(fault)) => {
                write_fault(f, "cwr", fault.number(), "line ", fault.place())
            }
            Failure::Input(Fault::Usage(fault)) => {
                write_fault(f, "usage", fault.number(), "row ", fault.place())
            }
            Failure::Works(fault) => {
                write_fault(f, "works", fault.number(), "row ", fault.place())
            }
            Failure::Registrations { fault, path } => {
                write_file_fault(f, fault.number(), fault.place(), path.as_str())
            }
            Failure::Row(row) => { write!(f, "royalty_run: the usage list has no row {row}\n") }
            Failure::Input(Fault::Room) | Failure::Room => {
                f.write_str("royalty_run: out of room\n")
            }
            Failure::File(path) => write!(f, "royalty_run: cannot read {path}\n"),
            Failure::Output => f.write_str("royalty_run: cannot write\n"),
            Failure::Target(path) => write!(f, "royalty_run: cannot write {path}\n"),
            Failure::Statement { fault, path } => {
                write_statement_fault(f, fault.number(), fault.row(), path.as_str())
            }
            Failure::Many | Failure::ManyMerged => f.write_str(
                "royalty_run: the statements are of more than 1000000000000000000 portions or usage lines\n",
            ),
            Failure::Changed(path) => {
                write!(f, "royalty_run: {path} changed while it was read\n")
            }
            Failure::Replaces(path) => write!(
                f,
                "royalty_run: {path} is an input, which the output would replace\n"
            ),
            Failure::Names(fault) => {
                write_fault(f, "names", fault.number(), "row ", fault.place())
            }
            Failure::Taken(path) => write!(f, "royalty_run: {path} is there already\n"),
            Failure::Map { fault, path } => {
                write_map_fault(f, fault.number(), fault.place(), path.as_str())
            }
            Failure::Headless(path) => write!(f, "royalty_run: {path} has no header\n"),
            Failure::NoColumn { word, path } => {
                write_column(f, path.as_str(), "has no column", word.as_str())
            }
            Failure::ManyColumns { word, path } => {
                write_column(f, path.as_str(), "has more than one column", word.as_str())
            }
            Failure::NoHeader(word) => write!(
                f,
                "royalty_run: there is no header to find the column '{word}' in\n"
            ),
            Failure::BothTables(path) => {
                write!(f, "royalty_run: {path} is named for both tables\n")
            }
            Failure::OtherLines { row, path } => write_statement_fault(f, 7, *row, path.as_str()),
        }
    }
}

/// Says which fault of what there is, and at what place, if it has one.
fn write_fault<W: fmt::Write>(
    f: &mut fmt::Formatter<W>,
    what: &str,
    number: u8,
    at: &str,
    place: Option<u64>,
) -> fmt::Result
    ensures { WritesOnOk W.write_str_gives f.old result (fault_text what.now number at.now place) f.new }
{
    match place {
        Some(place) => write!(f, "royalty_run: {what} fault {number} at {at}{place}\n"),
        None => write!(f, "royalty_run: {what} fault {number}\n"),
    }
}

/// Says which fault the CWR file of a path has, and in which line, if it has one.
fn write_file_fault<W: fmt::Write>(
    f: &mut fmt::Formatter<W>,
    number: u8,
    line: Option<u64>,
    path: &str,
) -> fmt::Result
    ensures { WritesOnOk W.write_str_gives f.old result (file_fault_text number line path.now) f.new }
{
    match line {
        Some(line) => write!(
            f,
            "royalty_run: cwr fault {number} at line {line} of {path}\n"
        ),
        None => write!(f, "royalty_run: cwr fault {number} of {path}\n"),
    }
}

/// Says which fault the table of values of a path has, and in which row, if it has one.
fn write_map_fault<W: fmt::Write>(
    f: &mut fmt::Formatter<W>,
    number: u8,
    row: Option<u64>,
    path: &str,
) -> fmt::Result
    ensures { WritesOnOk W.write_str_gives f.old result (map_fault_text number row path.now) f.new }
{
    match row {
        Some(row) => write!(
            f,
            "royalty_run: map fault {number} at row {row} of {path}\n"
        ),
        None => write!(f, "royalty_run: map fault {number} of {path}\n"),
    }
}

/// Says what is wrong with the column of the export of a path that a word names.
fn write_column<W: fmt::Write>(
    f: &mut fmt::Formatter<W>,
    path: &str,
    what: &str,
    word: &str,
) -> fmt::Result
    ensures { WritesOnOk W.write_str_gives f.old result (column_text path.now what.now word.now) f.new }
{
    write!(f, "royalty_run: {path} {what} '{word}'\n")
}

/// Says which fault a text of statements has, in which row, and in the file of which path.
fn write_statement_fault<W: fmt::Write>(
    f: &mut fmt::Formatter<W>,
    number: u8,
    row: u64,
    path: &str,
) -> fmt::Result
    ensures { WritesOnOk W.write_str_gives f.old result (statement_fault_text number row path.now) f.new }
{
    write!(
        f,
        "royalty_run: statement fault {number} at row {row} of {path}\n"
    )
}

impl From<PairFault> for Failure {
    ghost use Rattle.std.specs.Prelude.{◌≡◌};
    ghost use Rattle.royalty_program.specs.Status.{failure_of_fault};

    ghost from_gives = { λ fault given. given ≡ failure_of_fault fault };

    /// Lack of memory is no fault of the pairs.
    fn from(fault: PairFault) -> Failure {
        match fault {
            PairFault::Memory => Failure::Room,
            PairFault::Pair(_) | PairFault::Name(_) | PairFault::Share(_) | PairFault::Many => {
                Failure::Pairs(fault)
            }
        }
    }
}

impl From<Fault> for Failure {
    ghost use Rattle.std.specs.Prelude.{◌≡◌};
    ghost use Rattle.royalty_program.specs.Status.{failure_of_run};

    ghost from_gives = { λ fault given. given ≡ failure_of_run fault };

    /// Lack of memory is no fault of an input.
    fn from(fault: Fault) -> Failure {
        match fault {
            Fault::Room => Failure::Room,
            Fault::Tis(_) | Fault::Payee(_) | Fault::Cwr(_) | Fault::Usage(_) => {
                Failure::Input(fault)
            }
        }
    }
}

impl From<NameFault> for Failure {
    ghost use Rattle.std.specs.Prelude.{◌≡◌};
    ghost use Rattle.royalty_program.specs.Status.{failure_of_names};

    ghost from_gives = { λ fault given. given ≡ failure_of_names fault };

    /// Lack of memory is no fault of the table.
    fn from(fault: NameFault) -> Failure {
        match fault {
            NameFault::Memory => Failure::Room,
            _ => Failure::Names(fault),
        }
    }
}

impl Failure {
    ghost use Rattle.royalty_program.specs.Status.{status_of, text_of};

    /// The status that the program answers.
    pub fn status(&self) -> u8
        ensures { result ≡ status_of self.now }
    {
        match self {
            Failure::Input(_)
            | Failure::Works(_)
            | Failure::Registrations { .. }
            | Failure::Statement { .. }
            | Failure::Many
            | Failure::Names(_)
            | Failure::Map { .. }
            | Failure::Headless(_)
            | Failure::NoColumn { .. }
            | Failure::ManyColumns { .. }
            | Failure::OtherLines { .. } => 1,
            Failure::Words(_)
            | Failure::NotText
            | Failure::Pairs(_)
            | Failure::Row(_)
            | Failure::Replaces(_)
            | Failure::Taken(_)
            | Failure::NoHeader(_)
            | Failure::BothTables(_) => 2,
            Failure::Room => 3,
            Failure::File(_)
            | Failure::Output
            | Failure::Target(_)
            | Failure::ManyMerged
            | Failure::Changed(_) => 4,
        }
    }

    /// Says on `err` what failed, and answers the status. An `err` that refuses a write changes
    /// nothing.
    pub fn report<E: Write>(&self, err: &mut E) -> u8
        ensures { result ≡ status_of self.now }
    {
        let _ = self.tell(err);
        self.status()
    }

    /// Writes the text of the failure, and sees it through.
    fn tell<E: Write>(&self, err: &mut E) -> io::Result<()>
        ensures { OnOk result (IfSome (text_of self.now) (Appends (E.contents err.old) (E.contents err.new))) }
    {
        write!(err, "{self}")?;
        err.flush()
    }
}
