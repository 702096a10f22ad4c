//! The grammar of the commands `works` and `parties`, and what their words ask for.

ghost use Rattle.std.specs.Prelude.{◌≡◌, [], IfErr, IfOk, map, string_bytes};
ghost use Rattle.clap.specs.Words.{new_app};
ghost use Rattle.royalty_program.specs.Args.{HasArgs};
ghost use Rattle.royalty_program.specs.Asked.{IsSubmittedError, files_given};
ghost use Rattle.royalty_program.specs.NamedFiles.{AreNamedBy};
ghost use Rattle.royalty_program.specs.StartingCommand.{IsStartingCommand, starting_app, starting_name};

use crate::named_files::{NamedFiles, named_files};
use crate::options::{files_arg, new_command};
use crate::submitted_command::wrong_files;
use clap::{Command, Error};
use starting_files::StartingTable;
use std::alloc::{AllocError, Global};

/// What stands below the help of `works`.
const WORKS_HELP: &str = "\
The answer is a table of works for `royalty_run run --works`, as CSV with a header:
  work,submitter,number,title
It has a row for each registration in force, file by file. The work is the ISWC, so registrations with
one ISWC are of one work, whoever sent them; a registration without one, and each but the first of a
submitter with one ISWC, is a work of its own, NAME:NUMBER. The number is the submitter work number.

Look the table through before it is used: an ISWC that a submitter left out makes two works of one,
and titles, which nothing else looks at, often tell. The usage lines then name works as the table does.

Example:
  royalty_run works --cwr MOON=moon.cwr --cwr HARBOR=harbor.cwr > works.csv";

/// What stands below the help of `parties`.
const PARTIES_HELP: &str = "\
The answer is a table of payees for `royalty_run run --works F --payees`, as CSV with a header:
  submitter,party,payee,name
It has a row for each party of the share lines of registrations in force, file by file. The payee is
the IPI name number of the last of the party's SPU and SWR records that has one, so parties with one
IPI name number are paid to one account, whoever sent them; another party is paid to NAME:PARTY.

Look the table through before it is used: names, which nothing else looks at, often tell that two
parties are one. A party whose row is taken out is paid to NAME:PARTY.

Example:
  royalty_run parties --cwr MOON=moon.cwr --cwr HARBOR=harbor.cwr > payees.csv";

/// The words of a table to begin with: which it is, and the CWR file of each submitter.
#[derive(Drop)]
pub struct StartingWords {
    pub table: StartingTable,
    pub files: NamedFiles,
}

/// Reads the words of a table to begin with, the first of which is the name of its command. Values of `--cwr` that do
/// not name the files of 1 to 256 submitters are refused.
pub fn read_starting(
    alloc: Global,
    table: StartingTable,
    words: &[String],
) -> Result<StartingWords, Error>
    ensures table { IfOk result (λ asked. asked.table ≡ table) }
    ensures files { IfOk result (λ asked. AreNamedBy (files_given (starting_app table) (map string_bytes words.now)) asked.files) }
    ensures error { IfErr result (IsSubmittedError (starting_app table) (map string_bytes words.now)) }
{
    let matches = starting_command(alloc, table)?.try_get_matches_from(words)?;
    match named_files(alloc, matches.get_strs("cwr").unwrap())? {
        Ok(files) => Ok(StartingWords { table, files }),
        Err(message) => Err(wrong_files(starting_command(alloc, table)?, message.as_str())?),
    }
}

/// The command of a table to begin with.
pub fn starting_command<'a>(alloc: Global, table: StartingTable) -> Result<Command<'a>, AllocError>
    ensures { IfOk result (IsStartingCommand table) }
{
    command_of(alloc, table)?.arg(files_arg(
        alloc,
        "cwr",
        "The registrations of a submitter, and the name that the tables give it; one for each of 1 to 256",
    ))
}

/// It without its option.
fn command_of<'a>(alloc: Global, table: StartingTable) -> Result<Command<'a>, AllocError>
    ensures { IfOk result (λ command. HasArgs command [] (new_app (starting_name table))) }
{
    match table {
        StartingTable::Works => new_command(
            alloc,
            "works",
            "royalty_run works",
            "Make a table of works to begin with, of the files of several submitters",
            WORKS_HELP,
        ),
        StartingTable::Parties => new_command(
            alloc,
            "parties",
            "royalty_run parties",
            "Make a table of payees to begin with, of the files of several submitters",
            PARTIES_HELP,
        ),
    }
}
