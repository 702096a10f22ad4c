//! The grammar of the command `check`, and what its words ask for.

ghost use Rattle.std.specs.Prelude.{IfOk, IfErr, map, string_bytes};
ghost use Rattle.royalty_program.specs.Answered.{AreCheckedFrom, AreOneFile};
ghost use Rattle.royalty_program.specs.Asked.{IsCheckError, IsErrorOf, inputs_given};
ghost use Rattle.royalty_program.specs.CheckCommand.{IsCheckCommand, check_app};

use crate::inputs::{RunInputs, input_command, read_inputs};
use crate::options::works_arg;
use crate::submitted_command::{names_works, read_submitted_check};
use clap::{Command, Error};
use std::alloc::{AllocError, Global};

/// What `check` does, in a line.
pub(crate) const CHECK_ABOUT: &str =
    "Say what is wrong with the files of a run, and what is in them";

/// What stands below the help of `check`.
pub(crate) const CHECK_HELP: &str = "\
The files are those of a run: `royalty_run run --help` says what they have in them. Each is read
whatever stands in the others, past each row or line that a run would refuse.

The answer has a line for each fault, the first hundred of each file, as
  usage.csv: row 3: amount '12,5' is not a whole number from -1000000000000 to 1000000000000 (fault 5)
and then how many there are of what is in the files without a fault, and remarks on what a run
passes over: share lines whose territory is not in the table, and rows of payees whose party no
registration in force has. Where no file has a fault, it has how many usage lines are divided and
how many are not (WORK, LAND, OVER), what they come to, and the unregistered works and the unknown
territories with most money. The first fault is the one for which a run refuses the files. Status 0:
no file has a fault; 1: one has.

With `--works F` the files are those of a run over the files of several submitters, and each is
reported on by itself. Where the tables of payees and of works and all CWR files have no fault, it
also says what the rows of the table of works come to with all files, and what no row links. The ten
works with most money that are claimed OVER have a line each, with what every submitter claims on the
first of these usage lines.

Examples:
  royalty_run check --tis territories.csv --cwr works.cwr --usage usage.csv
  royalty_run check --tis territories.csv --works works.csv --payees payees.csv \\
    --cwr MOON=moon.cwr --cwr HARBOR=harbor.cwr --usage usage.csv";

/// Reads the words of a check, the first of which is `check`; with the option `--works` those of one of a run over the
/// files of several submitters.
pub fn read_check(alloc: Global, words: &[String]) -> Result<RunInputs, Error>
    ensures read { IfOk result (AreCheckedFrom (map string_bytes words.now)) }
    ensures error { IfErr result (IsCheckError (map string_bytes words.now)) }
{
    if names_works(words) {
        read_submitted_check(alloc, words)
    } else {
        read_check_of_one_file(alloc, words)
    }
}

/// Reads the words of a check of a run over one CWR file.
fn read_check_of_one_file(alloc: Global, words: &[String]) -> Result<RunInputs, Error>
    ensures inputs { IfOk result (AreOneFile (inputs_given check_app (map string_bytes words.now))) }
    ensures error { IfErr result (IsErrorOf check_app (map string_bytes words.now)) }
{
    let matches = check_command(alloc)?.try_get_matches_from(words)?;
    let inputs = read_inputs(alloc, &matches)?;
    Ok(RunInputs::OneFile(inputs))
}

pub fn check_command<'a>(alloc: Global) -> Result<Command<'a>, AllocError>
    ensures { IfOk result IsCheckCommand }
{
    input_command(alloc, "check", "royalty_run check", CHECK_ABOUT, CHECK_HELP)?.arg(works_arg(
        alloc,
    ))
}
