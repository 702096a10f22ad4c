//! The whole command line, and what its words ask for.

ghost use Rattle.std.specs.Prelude.{◌≡◌, ◌≢◌, IfOk, IfErr, codes, drop, map, string_bytes};
ghost use Rattle.clap.specs.Words.{kind_of};
ghost use Rattle.clap.specs.declared.error.kind.ErrorKind.TheVariants as kinds;
ghost use Rattle.royalty_program.specs.Asked.{IsCheckError, IsDivision, IsErrorOf, IsExplainError, IsMergeError, IsRun};
ghost use Rattle.royalty_program.specs.Asked.{IsRunError, IsStatementsError, IsSubmittedError};
ghost use Rattle.royalty_program.specs.SplitCommand.{split_app};
ghost use Rattle.royalty_program.specs.StartingCommand.{starting_app, starting_name};
ghost use Rattle.starting_files.specs.declared.making.StartingTable.{StartingTable};
ghost use Rattle.royalty_program.specs.Answered.{IsCheckAsked, IsDivisionOf, IsExplanationAsked, IsInRange};
ghost use Rattle.royalty_program.specs.Answered.{IsMergeAsked, IsNamedBy, IsRunInOrder, IsRunOf, IsTableAsked};
ghost use Rattle.royalty_program.specs.AdjustCommand.{adjust_app};
ghost use Rattle.royalty_program.specs.Answered.{IsAdjustmentAsked, IsImportAsked, IsStatementsAsked};
ghost use Rattle.royalty_program.specs.ImportCommand.{IsImportError};
ghost use Rattle.pair_split.specs.Pair.{word_at};

use crate::adjust_command::{AdjustWords, adjust_command, read_adjust};
use crate::check_command::{check_command, read_check};
use crate::explain_command::{ExplainWords, explain_command, read_explain};
use crate::import_command::{ImportWords, import_command, read_import};
use crate::inputs::RunInputs;
use crate::merge_command::{MergeWords, merge_command, read_merge};
use crate::run_command::{RunWords, read_run, run_command};
use crate::split_command::{SplitWords, read_split, split_command};
use crate::starting_command::{StartingWords, read_starting, starting_command};
use crate::statements_command::{StatementsWords, read_statements, statements_command};
use clap::error::ErrorKind;
use clap::{Command, Error};
use pair_split::word;
use starting_files::StartingTable;
use std::alloc::{AllocError, Global};

/// What `--version` says below the name: the version, the checker and libraries that the program is
/// proved with, by their checksum, and the licences.
const VERSION: &str = "0.1.0\nlogic dac8208d650f15bf\nMIT or Apache-2.0, at your choice";

/// What stands below the help of the whole program.
const HELP: &str = "\
`royalty_run import --help` says how usage lines are made of a sales report,
`royalty_run run --help` what the files of a distribution run have in them,
`royalty_run statements --help` how its statements are written as documents that people read,
`royalty_run works --help` and `royalty_run parties --help` which tables a run over several
submitters' files begins with, `royalty_run merge --help` how the statements of several runs are merged,
`royalty_run adjust --help` how what was paid is compared with what should have been,
`royalty_run check --help` how the files are checked, `royalty_run explain --help` how one usage line
is explained, and `royalty_run split --help` how an amount is divided.

A refusal has a number and a place. `royalty_run check` says what is wrong with the files of a run in
words, and the table of faults in docs/FORMATS.md what to correct, in statements and in pairs too.

Exit status:
  0  the answer was printed, or help, or the version
  1  an input file is refused for what is in it, a check tells of a fault, or an import rejected a row
  2  the words are refused
  3  memory, or a thread, was refused
  4  a file cannot be read or written, or the output refused a write";

/// What the words of the command line ask for.
#[derive(Drop)]
pub enum Asked {
    /// The division of one amount.
    Division(SplitWords),
    /// A distribution run.
    Run(RunWords),
    /// The statements of a run as documents.
    Statements(StatementsWords),
    /// The explanation of a usage line.
    Explanation(ExplainWords),
    /// A report on the files of a run.
    Check(RunInputs),
    /// The statements of several runs in one text.
    Merge(MergeWords),
    /// The difference between statements that were paid and those that are right.
    Adjustment(AdjustWords),
    /// A table to begin with.
    Starting(StartingWords),
    /// The usage lines of a sales report.
    Import(ImportWords),
}

/// Reads the words of the command line, the first of which is the program's own name.
pub fn read_words(alloc: Global, words: &[String]) -> Result<Asked, Error>
    ensures named { IfOk result (IsNamedBy (word_at (map string_bytes words.now) 1)) }
    ensures in_range { IfOk result IsInRange }
    ensures division { IsDivision (map string_bytes words.now)
        → IfOk result (IsDivisionOf (map string_bytes words.now)) }
    ensures run { word_at (map string_bytes words.now) 1 ≡ codes "run"
        → IfOk result (IsRunOf (map string_bytes words.now)) }
    ensures documents { word_at (map string_bytes words.now) 1 ≡ codes "statements"
        → IfOk result (IsStatementsAsked (map string_bytes words.now)) }
    ensures no_documents { word_at (map string_bytes words.now) 1 ≡ codes "statements"
        → IfErr result (IsStatementsError (drop 1 (map string_bytes words.now))) }
    ensures explanation { word_at (map string_bytes words.now) 1 ≡ codes "explain"
        → IfOk result (IsExplanationAsked (map string_bytes words.now)) }
    ensures unexplained { word_at (map string_bytes words.now) 1 ≡ codes "explain"
        → IfErr result (IsExplainError (drop 1 (map string_bytes words.now))) }
    ensures checked { word_at (map string_bytes words.now) 1 ≡ codes "check"
        → IfOk result (IsCheckAsked (map string_bytes words.now)) }
    ensures unchecked { word_at (map string_bytes words.now) 1 ≡ codes "check"
        → IfErr result (IsCheckError (drop 1 (map string_bytes words.now))) }
    ensures merged { word_at (map string_bytes words.now) 1 ≡ codes "merge"
        → IfOk result (IsMergeAsked (map string_bytes words.now)) }
    ensures unmerged { word_at (map string_bytes words.now) 1 ≡ codes "merge"
        → IfErr result (IsMergeError (drop 1 (map string_bytes words.now))) }
    ensures adjusted { word_at (map string_bytes words.now) 1 ≡ codes "adjust"
        → IfOk result (IsAdjustmentAsked (map string_bytes words.now)) }
    ensures unadjusted { word_at (map string_bytes words.now) 1 ≡ codes "adjust"
        → IfErr result (IsErrorOf adjust_app (drop 1 (map string_bytes words.now))) }
    ensures table { (table : StartingTable) → word_at (map string_bytes words.now) 1 ≡ starting_name table
        → IfOk result (IsTableAsked table (map string_bytes words.now)) }
    ensures no_table { (table : StartingTable) → word_at (map string_bytes words.now) 1 ≡ starting_name table
        → IfErr result (IsSubmittedError (starting_app table) (drop 1 (map string_bytes words.now))) }
    ensures imported { word_at (map string_bytes words.now) 1 ≡ codes "import"
        → IfOk result (IsImportAsked (map string_bytes words.now)) }
    ensures unimported { word_at (map string_bytes words.now) 1 ≡ codes "import"
        → IfErr result (IsImportError (drop 1 (map string_bytes words.now))) }
    ensures in_order { (run : IsRun (map string_bytes words.now))
        → IfOk result (IsRunInOrder (map string_bytes words.now) run.options) }
    ensures error { word_at (map string_bytes words.now) 1 ≡ codes "run"
        → IfErr result (IsRunError (drop 1 (map string_bytes words.now))) }
    ensures undivided { word_at (map string_bytes words.now) 1 ≡ codes "split"
        → IfErr result (IsErrorOf split_app (drop 1 (map string_bytes words.now))) }
    ensures no_help { IsDivision (map string_bytes words.now)
        → IfErr result (λ error. (kind_of error ≢ kinds.DisplayHelp) × (kind_of error ≢ kinds.DisplayVersion)) }
{
    if words.len() < 2 {
        return Err(refusal(alloc, words)?);
    }
    match word(words, 1) {
        "split" => Ok(Asked::Division(read_split(alloc, &words[1..])?)),
        "run" => Ok(Asked::Run(read_run(alloc, &words[1..])?)),
        "statements" => Ok(Asked::Statements(read_statements(alloc, &words[1..])?)),
        "explain" => Ok(Asked::Explanation(read_explain(alloc, &words[1..])?)),
        "check" => Ok(Asked::Check(read_check(alloc, &words[1..])?)),
        "merge" => Ok(Asked::Merge(read_merge(alloc, &words[1..])?)),
        "adjust" => Ok(Asked::Adjustment(read_adjust(alloc, &words[1..])?)),
        "works" => { Ok(Asked::Starting(read_starting(alloc, StartingTable::Works, &words[1..])?)) }
        "import" => Ok(Asked::Import(read_import(alloc, &words[1..])?)),
        "parties" => {
            Ok(Asked::Starting(read_starting(alloc, StartingTable::Parties, &words[1..])?))
        }
        _ => Err(refusal(alloc, words)?),
    }
}

/// What is wrong with words that name no command, or the help that they ask for.
fn refusal(alloc: Global, words: &[String]) -> Result<Error, AllocError> {
    let mut whole = Command::new(alloc, "royalty_run")
        .bin_name("royalty_run")?
        .version(VERSION)
        .about("Divide the money of music usage among those who are due it")
        .after_help(HELP)
        .subcommand_required(true)
        .arg_required_else_help(true)
        .subcommand(import_command(alloc)?)?
        .subcommand(run_command(alloc)?)?
        .subcommand(statements_command(alloc)?)?
        .subcommand(merge_command(alloc)?)?
        .subcommand(adjust_command(alloc)?)?
        .subcommand(starting_command(alloc, StartingTable::Works)?)?
        .subcommand(starting_command(alloc, StartingTable::Parties)?)?
        .subcommand(check_command(alloc)?)?
        .subcommand(explain_command(alloc)?)?
        .subcommand(split_command(alloc)?)?;
    match whole.try_get_matches_from_mut(words) {
        Err(error) => Ok(error),
        Ok(_) => whole.error(ErrorKind::MissingSubcommand, "the command comes first"),
    }
}
