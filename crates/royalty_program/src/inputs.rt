//! The inputs of a run, and the options that name those of one over one CWR file, which several commands have.

ghost use Rattle.std.specs.Prelude.{◌≡◌, [], List, ℕ, IfOk, string_bytes};
ghost use Rattle.clap.specs.Words.{App, found_of, matches_of, new_app, rows_of};
ghost use Rattle.run_inputs.specs.Inputs.{map_inputs};
ghost use Rattle.royalty_program.specs.Asked.{inputs_given};
ghost use Rattle.royalty_program.specs.InputCommand.{FindsInputs, HasInputArgs, with_inputs};

use crate::named_files::NamedFiles;
use crate::options::{file_arg, new_command, optional_file_arg, owned};
use clap::{ArgMatches, Command};
use run_inputs::Inputs;
use std::alloc::{AllocError, Global};
use submitted_inputs::SubmittedTables;

/// The paths of the inputs of a run.
#[derive(Drop)]
pub enum RunInputs {
    /// Over one CWR file.
    OneFile(Inputs<String>),
    /// Over the files of several submitters.
    Submitted(SubmittedInputs),
}

/// The paths of the inputs of a run over the files of several submitters.
#[derive(Drop)]
pub struct SubmittedInputs {
    /// The paths of the tables.
    pub tables: SubmittedTables<String>,
    /// The CWR file of each submitter.
    pub files: NamedFiles,
}

/// The paths that a parse found.
pub(crate) fn read_inputs(
    alloc: Global,
    matches: &ArgMatches<'_>,
) -> Result<Inputs<String>, AllocError>
    requires { FindsInputs matches.now }
    ensures { IfOk result (λ inputs. (app : App) (words : List (List ℕ))
        → rows_of (found_of matches.now) ≡ matches_of app words
        → map_inputs string_bytes inputs ≡ inputs_given app words) }
{
    let territories = String::from_str(alloc, matches.get_str("tis").unwrap())?;
    let payees = owned(alloc, matches.get_str("payees"))?;
    let registrations = String::from_str(alloc, matches.get_str("cwr").unwrap())?;
    let usage = String::from_str(alloc, matches.get_str("usage").unwrap())?;
    Ok(Inputs {
        territories,
        payees,
        registrations,
        usage,
    })
}

/// A command with these options.
pub(crate) fn input_command<'a>(
    alloc: Global,
    name: &'a str,
    bin_name: &str,
    about: &'a str,
    help: &'a str,
) -> Result<Command<'a>, AllocError>
    ensures { IfOk result (λ command. HasInputArgs command [] (with_inputs (new_app name.entry.now))) }
{
    new_command(alloc, name, bin_name, about, help)?
        .arg(file_arg(alloc, "tis", "The table of territories"))?
        .arg(optional_file_arg(
            alloc,
            "payees",
            "The table of payees, where parties are paid to other accounts",
        ))?
        .arg(file_arg(alloc, "cwr", "The registrations of works"))?
        .arg(file_arg(alloc, "usage", "The usage lines"))
}
