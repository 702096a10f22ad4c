//! The grammar of the command `statements`, and what its words ask for.

ghost use Rattle.std.specs.Prelude.{◌≡◌, ◌≤◌, List, ℕ, IfErr, IfOk, Some, codes, map, string_bytes};
ghost use Rattle.clap.specs.Words.{App, found_of, matches_of, rows_of, rule_of};
ghost use Rattle.clap.specs.declared.builder.value_parser.ValueParser.TheVariants as vp;
ghost use Rattle.royalty_program.specs.Answered.{AreChosenFrom, AreDocumentsFrom, AreOneFile, AreSubmitted};
ghost use Rattle.royalty_program.specs.Args.{IsOptionalArg, IsRequiredArg, file_rule};
ghost use Rattle.royalty_program.specs.Asked.{IsErrorOf, IsStatementsError, IsSubmittedError, inputs_given};
ghost use Rattle.royalty_program.specs.Asked.{some_unless_empty, submitted_given};
ghost use Rattle.std.specs.Option.{option_map};
ghost use Rattle.royalty_program.specs.StatementsCommand.{AddsDocumentArgs, FindsDocuments, IsStatementsCommand};
ghost use Rattle.royalty_program.specs.StatementsCommand.{IsSubmittedStatementsCommand, MOST_DECIMALS, decimals_rule};
ghost use Rattle.royalty_program.specs.StatementsCommand.{statements_app, submitted_statements_app};

use crate::inputs::{RunInputs, input_command, read_inputs};
use crate::options::{file_arg, optional_arg, optional_file_arg, owned, owned_or, works_arg};
use crate::plan_words::{
    optional_nodes_arg, optional_readers_arg, optional_workers_arg, read_plan_or_usual,
};
use crate::submitted_command::{
    names_works, read_submitted_inputs, submitted_input_command, wrong_files,
};
use clap::{Arg, ArgMatches, Command, Error, value_parser};
use split_run::Plan;
use std::alloc::{AllocError, Global};

/// What `statements` does, in a line.
const STATEMENTS_ABOUT: &str =
    "Write the statements of a distribution as documents that people read";

/// What stands below the help of `statements`.
const STATEMENTS_HELP: &str = "\
The files are those of a run: `royalty_run run --help` says what they have in them, and what
`--works F` with a `--cwr NAME=F` for each submitter means. With `--names F` the documents call
territories by their names. It is CSV with a header too:
  names        code,name: a TIS numeric code, and the name of the territory

The new folder has:
  index.html              the overview: the money that came in, what became of it, and all payees
  residue.html            the money that nobody gets: of which works, why, and what to do about it
  statements.csv          the statements as `royalty_run run` prints them
  payees/0001-NAME.html   for each payee its statement, with all its portions
  payees/0001-NAME.csv    and the same portions as a table for spreadsheets

FOLDER must not exist. It has its name only once it is whole: the documents are written to a new
folder beside it, which then takes the name. Whatever fails before that, there is no FOLDER.

Where options are left out, the title is Distribution, no currency is named, amounts have 2 decimal
places, and there are 4 workers, 2 readers and 64 nodes. An empty title counts as left out. Amounts in the files are in minor units:
with 2 decimal places the documents have 151.01 for 15101.

Examples:
  royalty_run statements --tis territories.csv --cwr works.cwr --usage usage.csv --to march
  royalty_run statements --tis territories.csv --works works.csv --payees payees.csv \\
    --cwr MOON=moon.cwr --cwr HARBOR=harbor.cwr --usage usage.csv --names names.csv \\
    --title \"Distribution of March\" --currency EUR --to march";

/// The words of documents: the files that they are made from, the folder that they go to, the plan of the run, and how
/// they are written.
#[derive(Drop)]
pub struct StatementsWords {
    pub inputs: RunInputs,
    pub plan: Plan,
    /// The new folder.
    pub to: String,
    /// The table of names of territories, where there is one.
    pub names: Option<String>,
    /// What the distribution is called: never nothing.
    pub title: String,
    /// The currency of all amounts; none where it is empty.
    pub currency: String,
    /// How many decimal places amounts have.
    pub decimals: u32,
}

/// Reads the words of documents, the first of which is `statements`; with the option `--works` those of documents of a
/// run over the files of several submitters.
pub fn read_statements(alloc: Global, words: &[String]) -> Result<StatementsWords, Error>
    ensures read { IfOk result (AreDocumentsFrom (map string_bytes words.now)) }
    ensures in_range { IfOk result (λ asked. asked.decimals ≤ MOST_DECIMALS) }
    ensures error { IfErr result (IsStatementsError (map string_bytes words.now)) }
{
    if names_works(words) {
        read_submitted_statements(alloc, words)
    } else {
        read_statements_of_one_file(alloc, words)
    }
}

/// Reads the words of documents of a run over one CWR file.
fn read_statements_of_one_file(alloc: Global, words: &[String]) -> Result<StatementsWords, Error>
    ensures inputs { IfOk result (λ asked.
        AreOneFile (inputs_given statements_app (map string_bytes words.now)) asked.inputs) }
    ensures chosen { IfOk result (AreChosenFrom statements_app (map string_bytes words.now)) }
    ensures in_range { IfOk result (λ asked. asked.decimals ≤ MOST_DECIMALS) }
    ensures error { IfErr result (IsErrorOf statements_app (map string_bytes words.now)) }
{
    let matches = statements_command(alloc)?.try_get_matches_from(words)?;
    let inputs = read_inputs(alloc, &matches)?;
    let asked = read_chosen(alloc, RunInputs::OneFile(inputs), &matches)?;
    Ok(asked)
}

/// Reads the words of documents of a run over the files of several submitters. Values of `--cwr` that do not name the
/// files of 1 to 256 submitters are refused.
fn read_submitted_statements(alloc: Global, words: &[String]) -> Result<StatementsWords, Error>
    ensures inputs { IfOk result (λ asked.
        AreSubmitted (submitted_given submitted_statements_app (map string_bytes words.now)) asked.inputs) }
    ensures chosen { IfOk result (AreChosenFrom submitted_statements_app (map string_bytes words.now)) }
    ensures in_range { IfOk result (λ asked. asked.decimals ≤ MOST_DECIMALS) }
    ensures error { IfErr result (IsSubmittedError submitted_statements_app (map string_bytes words.now)) }
{
    let matches = submitted_statements_command(alloc)?.try_get_matches_from(words)?;
    match read_submitted_inputs(alloc, &matches)? {
        Ok(inputs) => {
            let asked = read_chosen(alloc, RunInputs::Submitted(inputs), &matches)?;
            Ok(asked)
        }
        Err(message) => Err(wrong_files(submitted_statements_command(alloc)?, message.as_str())?),
    }
}

/// The words of documents of a run over these inputs, by what a parse found beside them.
fn read_chosen(
    alloc: Global,
    inputs: RunInputs,
    matches: &ArgMatches<'_>,
) -> Result<StatementsWords, AllocError>
    requires { FindsDocuments matches.now }
    ensures inputs { IfOk result (λ asked. asked.inputs ≡ inputs) }
    ensures chosen { IfOk result (λ asked. (app : App) (words : List (List ℕ))
        → rows_of (found_of matches.now) ≡ matches_of app words → AreChosenFrom app words asked) }
    ensures in_range { IfOk result (λ asked. asked.decimals ≤ MOST_DECIMALS) }
{
    let plan = read_plan_or_usual(matches);
    let to = String::from_str(alloc, matches.get_str("to").unwrap())?;
    let names = owned(alloc, matches.get_str("names"))?;
    let title = owned_or(
        alloc,
        unless_empty(matches.get_str("title")),
        "Distribution",
    )?;
    let currency = owned_or(alloc, matches.get_str("currency"), "")?;
    let decimals = matches.get_one::<u64>("decimals").unwrap_or(2) as u32;
    Ok(StatementsWords {
        inputs,
        plan,
        to,
        names,
        title,
        currency,
        decimals,
    })
}

/// The text that an option is given, if it is not empty.
fn unless_empty<'a>(text: Option<&'a str>) -> Option<&'a str>
    ensures { option_map (λ text. text.now) result ≡ some_unless_empty (option_map (λ text. text.now) text.entry) }
{
    match text {
        Some(given) if given.is_empty() => None,
        _ => text,
    }
}

pub fn statements_command<'a>(alloc: Global) -> Result<Command<'a>, AllocError>
    ensures { IfOk result IsStatementsCommand }
{
    let command = input_command(
        alloc,
        "statements",
        "royalty_run statements",
        STATEMENTS_ABOUT,
        STATEMENTS_HELP,
    )?;
    with_document_args(alloc, command.arg(works_arg(alloc))?)
}

/// The command of documents of a run over the files of several submitters.
fn submitted_statements_command<'a>(alloc: Global) -> Result<Command<'a>, AllocError>
    ensures { IfOk result IsSubmittedStatementsCommand }
{
    let command = submitted_input_command(
        alloc,
        "statements",
        "royalty_run statements",
        STATEMENTS_ABOUT,
        STATEMENTS_HELP,
    )?;
    with_document_args(alloc, command)
}

/// A command with the options too that are not of the files of a run.
fn with_document_args<'a>(alloc: Global, command: Command<'a>) -> Result<Command<'a>, AllocError>
    ensures { IfOk result (AddsDocumentArgs command.entry) }
{
    command
        .arg(optional_file_arg(
            alloc,
            "names",
            "The table of names of territories, where documents are to show them",
        ))?
        .arg(folder_arg(alloc))?
        .arg(optional_arg(
            alloc,
            "title",
            "TEXT",
            "What the distribution is called [default: Distribution]",
        ))?
        .arg(optional_arg(
            alloc,
            "currency",
            "CODE",
            "The currency of all amounts, as EUR; left out, none is named",
        ))?
        .arg(decimals_arg(alloc))?
        .arg(optional_workers_arg(alloc))?
        .arg(optional_readers_arg(alloc))?
        .arg(optional_nodes_arg(alloc))
}

/// The option of the folder that the documents go to.
fn folder_arg<'a>(alloc: Global) -> Arg<'a>
    ensures needed { IsRequiredArg (codes "to") result }
    ensures rule { rule_of result ≡ file_rule (codes "to") }
{
    file_arg(
        alloc,
        "to",
        "The folder for the documents, which must not exist yet",
    )
    .value_name("FOLDER")
}

/// The option of the decimal places of amounts.
fn decimals_arg<'a>(alloc: Global) -> Arg<'a>
    ensures optional { IsOptionalArg (codes "decimals") result }
    ensures few { result.value_parser ≡ Some (vp.Unsigned 0 MOST_DECIMALS) }
    ensures rule { rule_of result ≡ decimals_rule }
{
    optional_arg(
        alloc,
        "decimals",
        "n",
        "How many decimal places amounts have: 0 to 9 [default: 2]",
    )
    .value_parser(value_parser!(u64).range(0..=9))
}
