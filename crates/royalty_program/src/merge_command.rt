//! The grammar of the command `merge`, and what its words ask for.

ghost use Rattle.std.specs.Prelude.{◌≡◌, ◌<◌, ◌↔◌, ℕ, IfOk, IfErr, IfNone, IfSome, IsTrue, OnOk, codes, length, map, string_bytes};
ghost use Rattle.clap.specs.Words.{kind_of, rule_of};
ghost use Rattle.clap.specs.declared.error.kind.ErrorKind.TheVariants as kinds;
ghost use Rattle.royalty_program.specs.Answered.{AreMergeFrom};
ghost use Rattle.royalty_program.specs.Asked.{IsMergeError};
ghost use Rattle.royalty_program.specs.MergeCommand.{AreFewAndDifferent, IsMergeCommand, IsNamedBefore, IsPathError, statements_rule};
ghost use Rattle.royalty_program.specs.Args.{IsRequiredArg};

use crate::options::{new_command, optional_file_arg, owned, owned_all};
use clap::error::ErrorKind;
use clap::{Arg, ArgAction, Command, Error};
use pair_split::word;
use std::alloc::{AllocError, Global};

/// The most files that are merged at once.
const MOST_FILES: usize = 1024;

/// What stands below the help of `merge`.
const MERGE_HELP: &str = "\
Each file has what `run` or `merge` wrote. The statements of consecutive parts of one usage list, each
run over the same tables and registrations, merge to those of the whole list. Name the files one
after another, in the order of the parts, and each once. The statements of separate distributions
merge to their sums. Never merge runs of one usage list over files that share works, since each of
them pays the same use: name all files in one run, with `--works`.

The answer is one text in the same form: each payee with its portions of the first file, then those
of the second, and so on, and a sum of them all; then so for the residue, and all usage lines.

Each file may be read twice, to look for what is wrong in it before anything is printed, so it must
be a file and no pipe. Where a text is refused, nothing is printed but the fault and its row, as
  royalty_run: statement fault 1 at row 3 of february.csv
With `--output F` the statements go to a new file beside F, which takes the name F once it is whole;
whatever fails before that, F stays as it was. Only where its folder cannot be brought to the disk
behind the new name does status 4 leave F whole and new. F may be one of the files. Then it has what
all of them merge to, and the same call once more adds the others to it again.

Example:
  royalty_run merge --output year.csv january.csv february.csv march.csv";

/// The words of a merge: the paths of its files.
#[derive(Debug, Drop)]
pub struct MergeWords {
    /// The file that the statements go to, where it is not standard output.
    pub output: Option<String>,
    /// The files of the statements that are merged, in their order.
    pub statements: Vec<String>,
}

/// Reads the words of a merge, the first of which is `merge`. More than 1,024 files are refused,
/// and a path that stands twice among them.
pub fn read_merge(alloc: Global, words: &[String]) -> Result<MergeWords, Error>
    ensures read { IfOk result (AreMergeFrom (map string_bytes words.now)) }
    ensures error { IfErr result (IsMergeError (map string_bytes words.now)) }
{
    let matches = merge_command(alloc)?.try_get_matches_from(words)?;
    let output = owned(alloc, matches.get_str("output"))?;
    let statements = owned_all(alloc, matches.get_strs("statements").unwrap())?;
    look_at(alloc, statements.as_slice())?;
    Ok(MergeWords { output, statements })
}

/// Refuses too many paths, and one that stands twice among them.
fn look_at(alloc: Global, paths: &[String]) -> Result<(), Error>
    ensures sound { OnOk result (AreFewAndDifferent (map string_bytes paths.now)) }
    ensures error { IfErr result (IsPathError (map string_bytes paths.now)) }
{
    if paths.len() > MOST_FILES {
        return Err(refusal(alloc, "at most 1024 files of statements are merged at once")?);
    }
    match first_named_before(paths) {
        Some(place) => Err(named_twice(alloc, word(paths, place))?),
        None => Ok(()),
    }
}

/// The first path that stands before it too.
fn first_named_before(paths: &[String]) -> Option<usize>
    ensures found { IfSome result (λ place. (place < length paths.now) × IsNamedBefore (map string_bytes paths.now) place) }
    ensures none { IfNone result ((i : ℕ) → ¬ IsNamedBefore (map string_bytes paths.now) i) }
{
    for place in 0..paths.len() {
        if is_named_before(paths, place) {
            return Some(place);
        }
    }
    None
}

/// Whether the path at a place stands before it too.
fn is_named_before(paths: &[String], place: usize) -> bool
    requires { place < length paths.now }
    ensures { IsTrue result ↔ IsNamedBefore (map string_bytes paths.now) place }
{
    for earlier in 0..place {
        if word(paths, earlier) == word(paths, place) {
            return true;
        }
    }
    false
}

fn named_twice(alloc: Global, path: &str) -> Result<Error, AllocError>
    ensures { IfOk result (λ error. kind_of error ≡ kinds.ValueValidation) }
{
    let message = format!(in alloc; "the file '{path}' is named twice")?;
    refusal(alloc, message.as_str())
}

/// The error of words that clap accepts.
fn refusal(alloc: Global, message: &str) -> Result<Error, AllocError>
    ensures { IfOk result (λ error. kind_of error ≡ kinds.ValueValidation) }
{
    let mut command = merge_command(alloc)?;
    command.error(ErrorKind::ValueValidation, message)
}

pub fn merge_command<'a>(alloc: Global) -> Result<Command<'a>, AllocError>
    ensures { IfOk result IsMergeCommand }
{
    new_command(
        alloc,
        "merge",
        "royalty_run merge",
        "Merge the statements of several runs into one text",
        MERGE_HELP,
    )?
    .arg(optional_file_arg(
        alloc,
        "output",
        "A file for the merged statements, in place of standard output",
    ))?
    .arg(statements_arg(alloc))
}

/// The files of the statements, one or more.
fn statements_arg<'a>(alloc: Global) -> Arg<'a>
    ensures needed { IsRequiredArg (codes "statements") result }
    ensures rule { rule_of result ≡ statements_rule }
{
    Arg::new(alloc, "statements")
        .value_name("STATEMENTS")
        .help("The files of the statements, in their order, at most 1024 of them")
        .required(true)
        .action(ArgAction::Set)
        .num_args(1..)
}
