//! The grammar of the commands `run`, `explain` and `check` over the files of several submitters, and what their words
//! ask for.

ghost use Rattle.std.specs.List.{list_any};
ghost use Rattle.std.specs.Option.{option_map};
ghost use Rattle.std.specs.Prelude.{◌≡◌, [], List, ℕ, IfErr, IfOk, codes, map, string_bytes};
ghost use Rattle.clap.specs.Words.{App, found_of, kind_of, matches_of, new_app, rows_of};
ghost use Rattle.clap.specs.declared.error.kind.ErrorKind.TheVariants as kinds;
ghost use Rattle.royalty_program.specs.Asked.{IsSubmittedError, files_given, is_works_word as is_works, name_works, number_given};
ghost use Rattle.royalty_program.specs.Asked.{path_if_given, plan_given, submitted_given};
ghost use Rattle.royalty_program.specs.Answered.{AreSubmitted};
ghost use Rattle.royalty_program.specs.NamedFiles.{AreNamed};
ghost use Rattle.royalty_program.specs.SubmittedCommand.{FindsTables, HasSubmittedArgs, IsSubmittedCheckCommand};
ghost use Rattle.royalty_program.specs.SubmittedCommand.{IsSubmittedCommand, IsSubmittedExplainCommand};
ghost use Rattle.royalty_program.specs.SubmittedCommand.{submitted_app, submitted_check_app, submitted_explain_app};
ghost use Rattle.royalty_program.specs.SubmittedCommand.{with_submitted};
ghost use Rattle.royalty_program.specs.SubmittedFiles.{paths_of};
ghost use Rattle.submitted_inputs.specs.Submitted.{map_tables};

use crate::check_command::{CHECK_ABOUT, CHECK_HELP};
use crate::explain_command::{EXPLAIN_ABOUT, EXPLAIN_HELP, ExplainWords, row_arg};
use crate::inputs::{RunInputs, SubmittedInputs};
use crate::named_files::named_files;
use crate::options::{file_arg, files_arg, new_command, optional_file_arg, output_arg, owned};
use crate::plan_words::{nodes_arg, read_plan, readers_arg, workers_arg};
use crate::run_command::{RUN_ABOUT, RUN_HELP, RunWords};
use clap::error::ErrorKind;
use clap::{ArgMatches, Command, Error};
use std::alloc::{AllocError, Global};
use submitted_inputs::SubmittedTables;

/// Whether words have the option `--works` after the first, so that they are of a run over the files of several submitters.
pub(crate) fn names_works(words: &[String]) -> bool
    ensures { result ≡ name_works (map string_bytes words.now) }
{
    if words.is_empty() {
        return false;
    }
    have_works(&words[1..])
}

/// Whether words have the option `--works`.
fn have_works(words: &[String]) -> bool
    ensures { result ≡ list_any (λ word. is_works (string_bytes word)) words.now }
{
    words.iter().any(|word| is_works_word(word.as_str()))
}

/// Whether a word is the option `--works`, alone or with its value.
fn is_works_word(word: &str) -> bool
    ensures { result ≡ is_works word.now }
{
    word == "--works" || word.starts_with("--works=")
}

/// Reads the words of a run over the files of several submitters. Values of `--cwr` that do not name the files of 1 to
/// 256 submitters are refused.
pub(crate) fn read_submitted_run(alloc: Global, words: &[String]) -> Result<RunWords, Error>
    ensures inputs { IfOk result (λ asked. AreSubmitted (submitted_given submitted_app (map string_bytes words.now)) asked.inputs) }
    ensures plan { IfOk result (λ asked. asked.plan ≡ plan_given submitted_app (map string_bytes words.now)) }
    ensures output { IfOk result (λ asked. option_map string_bytes asked.output
        ≡ path_if_given submitted_app (codes "output") (map string_bytes words.now)) }
    ensures error { IfErr result (IsSubmittedError submitted_app (map string_bytes words.now)) }
{
    let matches = submitted_command(alloc)?.try_get_matches_from(words)?;
    let inputs = read_submitted_inputs(alloc, &matches)?;
    let output = owned(alloc, matches.get_str("output"))?;
    let plan = read_plan(&matches);
    match inputs {
        Ok(inputs) => Ok(RunWords {
            inputs: RunInputs::Submitted(inputs),
            plan,
            output,
        }),
        Err(message) => Err(wrong_files(submitted_command(alloc)?, message.as_str())?),
    }
}

/// Reads the words of an explanation in a run over the files of several submitters. Values of `--cwr` that do not name the
/// files of 1 to 256 submitters are refused.
pub(crate) fn read_submitted_explain(alloc: Global, words: &[String]) -> Result<ExplainWords, Error>
    ensures inputs { IfOk result (λ asked. AreSubmitted (submitted_given submitted_explain_app (map string_bytes words.now)) asked.inputs) }
    ensures row { IfOk result (λ asked. asked.row ≡ number_given submitted_explain_app (codes "row") (map string_bytes words.now)) }
    ensures error { IfErr result (IsSubmittedError submitted_explain_app (map string_bytes words.now)) }
{
    let matches = submitted_explain_command(alloc)?.try_get_matches_from(words)?;
    let inputs = read_submitted_inputs(alloc, &matches)?;
    let row = matches.get_one::<u64>("row").unwrap();
    match inputs {
        Ok(inputs) => Ok(ExplainWords {
            inputs: RunInputs::Submitted(inputs),
            row,
        }),
        Err(message) => Err(wrong_files(submitted_explain_command(alloc)?, message.as_str())?),
    }
}

/// Reads the words of a check of a run over the files of several submitters. Values of `--cwr` that do not name the
/// files of 1 to 256 submitters are refused.
pub(crate) fn read_submitted_check(alloc: Global, words: &[String]) -> Result<RunInputs, Error>
    ensures inputs { IfOk result (AreSubmitted (submitted_given submitted_check_app (map string_bytes words.now))) }
    ensures error { IfErr result (IsSubmittedError submitted_check_app (map string_bytes words.now)) }
{
    let matches = submitted_check_command(alloc)?.try_get_matches_from(words)?;
    let inputs = read_submitted_inputs(alloc, &matches)?;
    match inputs {
        Ok(inputs) => Ok(RunInputs::Submitted(inputs)),
        Err(message) => Err(wrong_files(submitted_check_command(alloc)?, message.as_str())?),
    }
}

/// The error of words that a command accepts, but whose values of `--cwr` do not name the files of submitters.
pub(crate) fn wrong_files(mut command: Command<'_>, message: &str) -> Result<Error, AllocError>
    ensures { IfOk result (λ error. kind_of error ≡ kinds.ValueValidation) }
{
    command.error(ErrorKind::ValueValidation, message)
}

/// The inputs that a parse found, or what is wrong with its values of `--cwr`.
pub(crate) fn read_submitted_inputs(
    alloc: Global,
    matches: &ArgMatches<'_>,
) -> Result<Result<SubmittedInputs, String>, AllocError>
    requires { FindsTables matches.now }
    ensures inputs { IfOk result (λ read. IfOk read (λ inputs. (app : App) (words : List (List ℕ))
        → rows_of (found_of matches.now) ≡ matches_of app words → paths_of inputs ≡ submitted_given app words)) }
    ensures named { IfOk result (λ read. IfOk read (λ inputs. (app : App) (words : List (List ℕ))
        → rows_of (found_of matches.now) ≡ matches_of app words → AreNamed (files_given app words))) }
    ensures wrong { IfOk result (λ read. IfErr read (λ message. (app : App) (words : List (List ℕ))
        → rows_of (found_of matches.now) ≡ matches_of app words → ¬ AreNamed (files_given app words))) }
{
    let tables = read_tables(alloc, matches)?;
    match named_files(alloc, matches.get_strs("cwr").unwrap())? {
        Ok(files) => Ok(Ok(SubmittedInputs { tables, files })),
        Err(message) => Ok(Err(message)),
    }
}

/// The paths of the tables that a parse found.
fn read_tables(
    alloc: Global,
    matches: &ArgMatches<'_>,
) -> Result<SubmittedTables<String>, AllocError>
    requires { FindsTables matches.now }
    ensures { IfOk result (λ tables. (app : App) (words : List (List ℕ)) → rows_of (found_of matches.now) ≡ matches_of app words
        → map_tables string_bytes tables ≡ (submitted_given app words).tables) }
{
    let territories = String::from_str(alloc, matches.get_str("tis").unwrap())?;
    let payees = owned(alloc, matches.get_str("payees"))?;
    let works = String::from_str(alloc, matches.get_str("works").unwrap())?;
    let usage = String::from_str(alloc, matches.get_str("usage").unwrap())?;
    Ok(SubmittedTables {
        territories,
        payees,
        works,
        usage,
    })
}

/// The command of a run over the files of several submitters.
fn submitted_command<'a>(alloc: Global) -> Result<Command<'a>, AllocError>
    ensures { IfOk result IsSubmittedCommand }
{
    submitted_input_command(alloc, "run", "royalty_run run", RUN_ABOUT, RUN_HELP)?
        .arg(workers_arg(alloc))?
        .arg(readers_arg(alloc))?
        .arg(nodes_arg(alloc))?
        .arg(output_arg(alloc))
}

/// The command of an explanation in one.
fn submitted_explain_command<'a>(alloc: Global) -> Result<Command<'a>, AllocError>
    ensures { IfOk result IsSubmittedExplainCommand }
{
    submitted_input_command(
        alloc,
        "explain",
        "royalty_run explain",
        EXPLAIN_ABOUT,
        EXPLAIN_HELP,
    )?
    .arg(row_arg(alloc))
}

/// The command of a check of one.
fn submitted_check_command<'a>(alloc: Global) -> Result<Command<'a>, AllocError>
    ensures { IfOk result IsSubmittedCheckCommand }
{
    submitted_input_command(alloc, "check", "royalty_run check", CHECK_ABOUT, CHECK_HELP)
}

/// A command with the options that name the tables, and the files of several submitters.
pub(crate) fn submitted_input_command<'a>(
    alloc: Global,
    name: &'a str,
    bin_name: &str,
    about: &'a str,
    help: &'a str,
) -> Result<Command<'a>, AllocError>
    ensures { IfOk result (λ command. HasSubmittedArgs command [] (with_submitted (new_app name.entry.now))) }
{
    new_command(alloc, name, bin_name, about, help)?
        .arg(file_arg(alloc, "tis", "The table of territories"))?
        .arg(optional_file_arg(
            alloc,
            "payees",
            "The table of payees by submitter, where parties are paid to other accounts",
        ))?
        .arg(file_arg(
            alloc,
            "works",
            "The table of works: which registrations are of which work",
        ))?
        .arg(files_arg(
            alloc,
            "cwr",
            "The registrations of a submitter, and the name that the tables give it; one for each of 1 to 256",
        ))?
        .arg(file_arg(alloc, "usage", "The usage lines"))
}
