//! The grammar of the command `adjust`, and what its words ask for.

ghost use Rattle.std.specs.Prelude.{◌≡◌, IfErr, IfOk, codes, map, string_bytes};
ghost use Rattle.clap.specs.Words.{rule_of};
ghost use Rattle.royalty_program.specs.AdjustCommand.{IsAdjustCommand, adjust_app, text_rule};
ghost use Rattle.royalty_program.specs.Answered.{AreAdjustFrom};
ghost use Rattle.royalty_program.specs.Args.{IsRequiredArg};
ghost use Rattle.royalty_program.specs.Asked.{IsErrorOf};

use crate::options::{new_command, optional_file_arg, owned};
use clap::{Arg, ArgAction, Command, Error};
use std::alloc::{AllocError, Global};

/// What stands below the help of `adjust`.
const ADJUST_HELP: &str = "\
Each file has what `run` or `merge` wrote, over one usage list: PAID is what was paid, and RIGHT what
should have been paid, a run of the same list over corrected files. The list has to have as many lines
as before, each in its place; a line that should not have been there is given the amount 0.

The answer is the difference, in the form of statements: for each payee, and for each use of which the
two do not come to the same, a row with what is still owed, or below 0 with what was overpaid; and so
for the residue, by reason. It counts no usage lines. Merge it with the next statements, and each
payee has one sum of both:
  royalty_run merge --output payment.csv difference.csv march.csv

PAID is never such a payment, but the statements of one list. Correct it a second time, and PAID is
what RIGHT was the first time.

A text that `merge` refuses is refused here too, for the same fault, and RIGHT as fault 7 at its last
row where its number of usage lines differs. Each file may be read twice, so it must be a file and no
pipe. Where a text is refused, nothing is printed but the fault.
With `--output F` the difference goes to a new file beside F, which takes the name F once it is whole;
whatever fails before that, F stays as it was. F must not be one of the two files.

Example:
  royalty_run adjust paid.csv right.csv --output difference.csv";

/// The words of an adjustment: the paths of its files.
#[derive(Debug, Drop)]
pub struct AdjustWords {
    /// The file that the difference goes to, where it is not standard output.
    pub output: Option<String>,
    /// The file of the statements that were paid.
    pub paid: String,
    /// The file of those that should have been paid.
    pub right: String,
}

/// Reads the words of an adjustment, the first of which is `adjust`.
pub fn read_adjust(alloc: Global, words: &[String]) -> Result<AdjustWords, Error>
    ensures read { IfOk result (AreAdjustFrom (map string_bytes words.now)) }
    ensures error { IfErr result (IsErrorOf adjust_app (map string_bytes words.now)) }
{
    let matches = adjust_command(alloc)?.try_get_matches_from(words)?;
    let output = owned(alloc, matches.get_str("output"))?;
    let paid = String::from_str(alloc, matches.get_str("PAID").unwrap())?;
    let right = String::from_str(alloc, matches.get_str("RIGHT").unwrap())?;
    Ok(AdjustWords {
        output,
        paid,
        right,
    })
}

pub fn adjust_command<'a>(alloc: Global) -> Result<Command<'a>, AllocError>
    ensures { IfOk result IsAdjustCommand }
{
    new_command(
        alloc,
        "adjust",
        "royalty_run adjust",
        "Compare statements that were paid with those that should have been",
        ADJUST_HELP,
    )?
    .arg(optional_file_arg(
        alloc,
        "output",
        "A file for the difference, in place of standard output",
    ))?
    .arg(text_arg(alloc, "PAID", "The file of the statements that were paid"))?
    .arg(text_arg(
        alloc,
        "RIGHT",
        "The file of those that should have been paid",
    ))
}

/// The path of a text, which is no option.
fn text_arg<'a>(alloc: Global, name: &'a str, help: &'a str) -> Arg<'a>
    ensures needed { IsRequiredArg name.entry.now result }
    ensures rule { rule_of result ≡ text_rule name.entry.now }
{
    Arg::new(alloc, name)
        .help(help)
        .required(true)
        .action(ArgAction::Set)
}
