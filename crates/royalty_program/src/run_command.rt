//! The grammar of the command `run`, and what its words ask for.

ghost use Rattle.std.specs.Option.{option_map};
ghost use Rattle.std.specs.Prelude.{◌≡◌, IfOk, IfErr, codes, map, string_bytes};
ghost use Rattle.royalty_program.specs.Asked.{IsErrorOf, IsRunError, inputs_given};
ghost use Rattle.royalty_program.specs.Asked.{path_if_given, plan_given};
ghost use Rattle.royalty_program.specs.Answered.{AreOneFile, AreReadFrom};
ghost use Rattle.royalty_program.specs.RunCommand.{IsRunCommand, run_app};

use crate::inputs::{RunInputs, input_command, read_inputs};
use crate::options::{output_arg, owned, works_arg};
use crate::plan_words::{nodes_arg, read_plan, readers_arg, workers_arg};
use crate::submitted_command::{names_works, read_submitted_run};
use clap::{Command, Error};
use split_run::Plan;
use std::alloc::{AllocError, Global};

/// What `run` does, in a line.
pub(crate) const RUN_ABOUT: &str = "Make the statements of all payees of a distribution";

/// What stands below the help of `run`.
pub(crate) const RUN_HELP: &str = "\
A file has at most 268435456 bytes. The tables are CSV with a header:
  territories  code,groups: a TIS numeric code, and the codes of its groups with spaces between
               them, each of an earlier row; 2136 is the world
  payees       party,payee: who is paid what a party of the registrations claims; one without a
               row is paid itself, and a payee is not looked up again
  usage lines  usage,work,territory,right,amount: a name, the submitter work number, a TIS numeric
               code, P (performing), M (mechanical) or S (synchronisation), and minor units, as cents,
               with a - before them in a reversal
The registrations are a CWR 2.2 file: of NWR and REV records the submitter work number is read, of
SPT and SWT records the party, the three collection shares, the mark I or E and the territory.
Records of other types are skipped, and nothing checks that the file is CWR, or all of it.

With `--works F` it is a run over the files of several submitters, who may share works. Each file has
a `--cwr NAME=F` of its own, and the tables name it by NAME:
  works        work,submitter,number,title: a name for the work, and the submitter work number of a
               registration of it, with a row for each; usage lines have the name
  payees       submitter,party,payee,name: as above; a party without a row is paid to NAME:PARTY
`royalty_run works` and `royalty_run parties` print such tables to begin with.

The answer is CSV too. A row L,payee,usage,amount for each portion of a payee, then its sum
S,payee,count,total; for each portion of the residue M,reason,usage,amount with the reason WORK,
LAND, OVER or OPEN, then T,,count,total; last R,,lines,amount.
A row M,WORK is a usage line whose work has no registration: many of them say that the wrong file,
or half of one, went in.
The numbers of workers, readers and nodes have no bearing on it, only on the time that it takes:
4, 2 and 64 suit a machine with four processors that does nothing else, and 2, 1 and 64 one with two
or one that others keep busy.
With `--output F` the statements go to a new file beside F, which takes the name F once it is whole;
whatever fails before that, F stays as it was. Only where its folder cannot be brought to the disk
behind the new name does status 4 leave F whole and new.

A refusal has a number and a place. `royalty_run check` with the same files says what is wrong with
them in words, and what the lines come to by reason; the table of faults in docs/FORMATS.md says
what to correct.

Examples:
  royalty_run run --tis territories.csv --cwr works.cwr --usage usage.csv \\
    --workers 4 --readers 2 --nodes 16
  royalty_run run --tis territories.csv --works works.csv --payees payees.csv \\
    --cwr MOON=moon.cwr --cwr HARBOR=harbor.cwr --usage usage.csv \\
    --workers 4 --readers 2 --nodes 16";

/// The words of a run: the paths of its inputs, and its plan.
#[derive(Drop)]
pub struct RunWords {
    pub inputs: RunInputs,
    pub plan: Plan,
    /// The file that the statements go to, where it is not standard output.
    pub output: Option<String>,
}

/// Reads the words of a run, the first of which is `run`. They are a command of their own, as those
/// of a division are; with the option `--works` those of a run over the files of several submitters.
pub fn read_run(alloc: Global, words: &[String]) -> Result<RunWords, Error>
    ensures read { IfOk result (AreReadFrom (map string_bytes words.now)) }
    ensures error { IfErr result (IsRunError (map string_bytes words.now)) }
{
    if names_works(words) {
        read_submitted_run(alloc, words)
    } else {
        read_run_of_one_file(alloc, words)
    }
}

/// Reads the words of a run over one CWR file.
fn read_run_of_one_file(alloc: Global, words: &[String]) -> Result<RunWords, Error>
    ensures inputs { IfOk result (λ asked. AreOneFile (inputs_given run_app (map string_bytes words.now)) asked.inputs) }
    ensures plan { IfOk result (λ asked. asked.plan ≡ plan_given run_app (map string_bytes words.now)) }
    ensures output { IfOk result (λ asked. option_map string_bytes asked.output
        ≡ path_if_given run_app (codes "output") (map string_bytes words.now)) }
    ensures error { IfErr result (IsErrorOf run_app (map string_bytes words.now)) }
{
    let matches = run_command(alloc)?.try_get_matches_from(words)?;
    let inputs = read_inputs(alloc, &matches)?;
    let output = owned(alloc, matches.get_str("output"))?;
    let plan = read_plan(&matches);
    Ok(RunWords {
        inputs: RunInputs::OneFile(inputs),
        plan,
        output,
    })
}

pub fn run_command<'a>(alloc: Global) -> Result<Command<'a>, AllocError>
    ensures { IfOk result IsRunCommand }
{
    input_command(alloc, "run", "royalty_run run", RUN_ABOUT, RUN_HELP)?
        .arg(workers_arg(alloc))?
        .arg(readers_arg(alloc))?
        .arg(nodes_arg(alloc))?
        .arg(output_arg(alloc))?
        .arg(works_arg(alloc))
}
