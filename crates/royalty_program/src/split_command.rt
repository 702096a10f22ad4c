//! The grammar of the command `split`, and what its words ask for.

ghost use Rattle.std.specs.Prelude.{◌≡◌, ◌≢◌, ◌≤◌, IfOk, IfErr, Some, All, codes, drop, map, string_bytes};
ghost use Rattle.clap.specs.Words.{kind_of, rule_of};
ghost use Rattle.clap.specs.declared.error.kind.ErrorKind.TheVariants as kinds;
ghost use Rattle.clap.specs.declared.builder.value_parser.ValueParser.TheVariants as vp;
ghost use Rattle.royalty_program.specs.Asked.{IsErrorOf, IsValue, number_in};
ghost use Rattle.pair_split.specs.Pair.{word_at};
ghost use Rattle.royalty_program.specs.Args.{IsRequiredArg};
ghost use Rattle.royalty_program.specs.SplitCommand.{IsSplitCommand, amount_rule, pairs_rule, split_app};
ghost use Rattle.line_split.specs.declared.TheConstants.{MOST_AMOUNT};

use crate::options::{new_command, owned_all};
use clap::{Arg, ArgAction, Command, Error, value_parser};
use std::alloc::{AllocError, Global};

/// What stands below the help of `split`.
const SPLIT_HELP: &str = "\
The answer has a row P,party,portion for each party and last M,,portion for the residue, which has
what no party gets. Units left by rounding down go to the largest remainders. Shares that come to
more than 10006 leave the whole amount to the residue.

Example:
  royalty_run split 100 A=3333 B=3333 C=3333
prints
  P,A,34
  P,B,33
  P,C,33
  M,,0";

/// The words of a division: the amount in minor units, and the words PARTY=SHARE.
#[derive(Debug, Drop)]
pub struct SplitWords {
    pub amount: u64,
    pub pairs: Vec<String>,
}

/// Reads the words of a division, the first of which is `split`. They are a command of their own,
/// since what is proved of a parse that succeeds is proved of the top command's arguments.
pub fn read_split(alloc: Global, words: &[String]) -> Result<SplitWords, Error>
    ensures in_range { IfOk result (λ asked. asked.amount ≤ MOST_AMOUNT) }
    ensures amount { All IsValue (drop 1 (map string_bytes words.now)) → IfOk result (λ asked. asked.amount ≡ number_in (word_at (map string_bytes words.now) 1)) }
    ensures pairs { All IsValue (drop 1 (map string_bytes words.now)) → IfOk result (λ asked. map string_bytes asked.pairs.items ≡ drop 2 (map string_bytes words.now)) }
    ensures error { IfErr result (IsErrorOf split_app (map string_bytes words.now)) }
    ensures no_help { All IsValue (drop 1 (map string_bytes words.now)) → IfErr result (λ error. (kind_of error ≢ kinds.DisplayHelp) × (kind_of error ≢ kinds.DisplayVersion)) }
{
    let matches = split_command(alloc)?.try_get_matches_from(words)?;
    let amount = matches.get_one::<u64>("AMOUNT").unwrap();
    let pairs = owned_all(alloc, matches.get_strs("PARTY=SHARE").unwrap())?;
    Ok(SplitWords { amount, pairs })
}

pub fn split_command<'a>(alloc: Global) -> Result<Command<'a>, AllocError>
    ensures { IfOk result IsSplitCommand }
{
    new_command(
        alloc,
        "split",
        "royalty_run split",
        "Divide an amount among parties by their shares",
        SPLIT_HELP,
    )?
    .arg(amount_arg(alloc))?
    .arg(pairs_arg(alloc))
}

/// The amount, whose range clap checks as it parses.
fn amount_arg<'a>(alloc: Global) -> Arg<'a>
    ensures needed { IsRequiredArg (codes "AMOUNT") result }
    ensures in_range { result.value_parser ≡ Some (vp.Unsigned 0 MOST_AMOUNT) }
    ensures rule { rule_of result ≡ amount_rule }
{
    Arg::new(alloc, "AMOUNT")
        .help("What is divided: a whole number of minor units, as cents, from 0 to 1000000000000")
        .required(true)
        .action(ArgAction::Set)
        .value_parser(value_parser!(u64).range(0..=1_000_000_000_000))
}

/// The words PARTY=SHARE, one or more.
fn pairs_arg<'a>(alloc: Global) -> Arg<'a>
    ensures needed { IsRequiredArg (codes "PARTY=SHARE") result }
    ensures rule { rule_of result ≡ pairs_rule }
{
    Arg::new(alloc, "PARTY=SHARE")
        .help(
            "A party (1 to 9 printable characters other than =) and its share in hundredths of a per cent, as A=2500 for 25 per cent; 0 to 10000, at most 256 of them",
        )
        .required(true)
        .action(ArgAction::Set)
        .num_args(1..)
}
