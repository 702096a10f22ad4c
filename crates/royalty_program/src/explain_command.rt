//! The grammar of the command `explain`, and what its words ask for.

ghost use Rattle.std.specs.Prelude.{◌≡◌, IfOk, IfErr, Some, codes, map, string_bytes};
ghost use Rattle.clap.specs.Words.{rule_of};
ghost use Rattle.clap.specs.declared.builder.value_parser.ValueParser.TheVariants as vp;
ghost use Rattle.line_split.specs.declared.TheConstants.{MOST_LINES};
ghost use Rattle.royalty_program.specs.Answered.{AreExplainedFrom, AreOneFile};
ghost use Rattle.royalty_program.specs.Args.{IsRequiredArg, number_rule};
ghost use Rattle.royalty_program.specs.Asked.{IsErrorOf, IsExplainError, inputs_given, number_given};
ghost use Rattle.royalty_program.specs.ExplainCommand.{IsExplainCommand, explain_app};

use crate::inputs::{RunInputs, input_command, read_inputs};
use crate::options::{number_arg, works_arg};
use crate::submitted_command::{names_works, read_submitted_explain};
use clap::{Arg, Command, Error, value_parser};
use std::alloc::{AllocError, Global};

/// What `explain` does, in a line.
pub(crate) const EXPLAIN_ABOUT: &str = "Say why a usage line pays what it pays";

/// What stands below the help of `explain`.
pub(crate) const EXPLAIN_HELP: &str = "\
The files are those of a run: `royalty_run run --help` says what they have in them. Rows of the usage
list count from 1, the row below the header.

The answer is CSV, in this order:
  U,row,usage,work,territory,right,amount          the usage line
  N,line,reason                                    the line of the registration in force, and why no
                                                   claim counts: WORK, LAND or OVER
  C,line,interest,party,payee,share,mark,territory,contains,decides
                                                   each of its share lines: the share for the line's
                                                   right, I or E, whether the territory contains the
                                                   line's, and whether the share line decides
  A,account,payee,claim                            what each account claims
  B,base,residue,left                              what a share is a share of, the residue's share, and
                                                   how many units the quotas leave
  P,account,payee,share,quota,remainder,rank,portion
                                                   each participant, the residue last

With `--works F` the line is one of a run over the files of several submitters. In place of N and C
stand:
  R,reason                                         why no claim counts, or nothing
  W,submitter,number,line                          each row of the table of works that has the work, and
                                                   the line of its registration in force, or nothing
  C,submitter,line,..                              behind it each of the share lines, as above; interests
                                                   are counted anew in each registration
The claims are those of all these registrations together.

Shares are in hundredths of a per cent. Each of the first ranks has one of the units left. In a
reversal the size is divided, and each portion has a - before it.

Examples:
  royalty_run explain --tis territories.csv --cwr works.cwr --usage usage.csv --row 2
  royalty_run explain --tis territories.csv --works works.csv --payees payees.csv \\
    --cwr MOON=moon.cwr --cwr HARBOR=harbor.cwr --usage usage.csv --row 2";

/// The words of an explanation: the paths of the files, and the row of the usage line.
#[derive(Drop)]
pub struct ExplainWords {
    pub inputs: RunInputs,
    /// The row below its header, from 1.
    pub row: u64,
}

/// Reads the words of an explanation, the first of which is `explain`; with the option `--works` those of one in a run
/// over the files of several submitters.
pub fn read_explain(alloc: Global, words: &[String]) -> Result<ExplainWords, Error>
    ensures read { IfOk result (AreExplainedFrom (map string_bytes words.now)) }
    ensures error { IfErr result (IsExplainError (map string_bytes words.now)) }
{
    if names_works(words) {
        read_submitted_explain(alloc, words)
    } else {
        read_explain_of_one_file(alloc, words)
    }
}

/// Reads the words of an explanation in a run over one CWR file.
fn read_explain_of_one_file(alloc: Global, words: &[String]) -> Result<ExplainWords, Error>
    ensures inputs { IfOk result (λ asked. AreOneFile (inputs_given explain_app (map string_bytes words.now)) asked.inputs) }
    ensures row { IfOk result (λ asked. asked.row ≡ number_given explain_app (codes "row") (map string_bytes words.now)) }
    ensures error { IfErr result (IsErrorOf explain_app (map string_bytes words.now)) }
{
    let matches = explain_command(alloc)?.try_get_matches_from(words)?;
    let inputs = read_inputs(alloc, &matches)?;
    let row = matches.get_one::<u64>("row").unwrap();
    Ok(ExplainWords {
        inputs: RunInputs::OneFile(inputs),
        row,
    })
}

pub fn explain_command<'a>(alloc: Global) -> Result<Command<'a>, AllocError>
    ensures { IfOk result IsExplainCommand }
{
    input_command(
        alloc,
        "explain",
        "royalty_run explain",
        EXPLAIN_ABOUT,
        EXPLAIN_HELP,
    )?
    .arg(row_arg(alloc))?
    .arg(works_arg(alloc))
}

/// The option that names the row.
pub(crate) fn row_arg<'a>(alloc: Global) -> Arg<'a>
    ensures needed { IsRequiredArg (codes "row") result }
    ensures rule { rule_of result ≡ number_rule (codes "row") MOST_LINES }
    ensures few { result.value_parser ≡ Some (vp.Unsigned 1 MOST_LINES) }
{
    number_arg(
        alloc,
        "row",
        value_parser!(u64).range(1..=1_000_000),
        "Which usage line: its row below the header, from 1",
    )
}
