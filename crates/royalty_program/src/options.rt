//! What several commands have: the form of a command, and of its options.

ghost use Rattle.std.specs.Option.{option_map};
ghost use Rattle.std.specs.Prelude.{◌≡◌, [], IfOk, Some, codes, map, string_bytes, true, unwrap_or};
ghost use Rattle.clap.specs.Words.{new_app, rule_of};
ghost use Rattle.royalty_program.specs.Args.{HasArgs, IsOptionalArg, IsRequiredArg, file_rule, optional_rule};
ghost use Rattle.royalty_program.specs.SubmittedCommand.{files_rule};

use clap::builder::ValueParser;
use clap::{Arg, ArgAction, Command};
use std::alloc::{AllocError, Global};

/// A command with no argument yet.
pub(crate) fn new_command<'a>(
    alloc: Global,
    name: &'a str,
    bin_name: &str,
    about: &'a str,
    help: &'a str,
) -> Result<Command<'a>, AllocError>
    ensures { IfOk result (λ command. HasArgs command [] (new_app name.entry.now)) }
{
    let command = Command::new(alloc, name).bin_name(bin_name)?;
    Ok(command.about(about).after_help(help))
}

/// A required option whose value is the path of a file.
pub(crate) fn file_arg<'a>(alloc: Global, name: &'a str, help: &'a str) -> Arg<'a>
    ensures needed { IsRequiredArg name.entry.now result }
    ensures rule { rule_of result ≡ file_rule name.entry.now }
{
    Arg::new(alloc, name)
        .long(name)
        .value_name("F")
        .help(help)
        .required(true)
        .action(ArgAction::Set)
}

/// An option whose value is the path of a file, and which need not be there.
pub(crate) fn optional_file_arg<'a>(alloc: Global, name: &'a str, help: &'a str) -> Arg<'a>
    ensures optional { IsOptionalArg name.entry.now result }
    ensures rule { rule_of result ≡ optional_rule name.entry.now }
{
    optional_arg(alloc, name, "F", help)
}

/// An option whose value is any text, and which need not be there. Help calls the value by a name.
pub(crate) fn optional_arg<'a>(
    alloc: Global,
    name: &'a str,
    value_name: &'a str,
    help: &'a str,
) -> Arg<'a>
    ensures optional { IsOptionalArg name.entry.now result }
    ensures rule { rule_of result ≡ optional_rule name.entry.now }
{
    Arg::new(alloc, name)
        .long(name)
        .value_name(value_name)
        .help(help)
        .action(ArgAction::Set)
}

/// The option `--works`, as it stands among the options of a run over one CWR file: for the help alone.
pub(crate) fn works_arg<'a>(alloc: Global) -> Arg<'a>
    ensures optional { IsOptionalArg (codes "works") result }
    ensures rule { rule_of result ≡ optional_rule (codes "works") }
{
    optional_file_arg(
        alloc,
        "works",
        "The table of works, where several submitters have a CWR file each: --cwr NAME=F for each",
    )
}

/// A required option whose value is NAME=F, and which may stand several times.
pub(crate) fn files_arg<'a>(alloc: Global, name: &'a str, help: &'a str) -> Arg<'a>
    ensures optional { IsOptionalArg name.entry.now result }
    ensures needed { result.required ≡ true }
    ensures rule { rule_of result ≡ files_rule name.entry.now }
{
    Arg::new(alloc, name)
        .long(name)
        .value_name("NAME=F")
        .help(help)
        .required(true)
        .action(ArgAction::Append)
}

/// The option of a file for the statements of a run.
pub(crate) fn output_arg<'a>(alloc: Global) -> Arg<'a>
    ensures optional { IsOptionalArg (codes "output") result }
    ensures rule { rule_of result ≡ optional_rule (codes "output") }
{
    optional_file_arg(
        alloc,
        "output",
        "A file for the statements, in place of standard output",
    )
}

/// A required option whose value is a number, of which clap checks that the parser takes it.
pub(crate) fn number_arg<'a>(
    alloc: Global,
    name: &'a str,
    parser: ValueParser<'a>,
    help: &'a str,
) -> Arg<'a>
    ensures needed { IsRequiredArg name.entry.now result }
    ensures in_range { result.value_parser ≡ Some parser.entry }
    ensures rule { rule_of result ≡ record (file_rule name.entry.now) { parser = Some parser.entry } }
{
    Arg::new(alloc, name)
        .long(name)
        .value_name("n")
        .help(help)
        .required(true)
        .action(ArgAction::Set)
        .value_parser(parser)
}

/// A text of its own, where there is one.
pub(crate) fn owned(alloc: Global, text: Option<&str>) -> Result<Option<String>, AllocError>
    ensures { IfOk result (λ owned. option_map string_bytes owned ≡ option_map (λ text. text.now) text.entry) }
{
    match text {
        Some(text) => Ok(Some(String::from_str(alloc, text)?)),
        None => Ok(None),
    }
}

/// A text of its own: this one, or the other where there is none.
pub(crate) fn owned_or(
    alloc: Global,
    text: Option<&str>,
    missing: &str,
) -> Result<String, AllocError>
    ensures { IfOk result (λ owned.
        string_bytes owned ≡ unwrap_or (option_map (λ text. text.now) text.entry) missing.now) }
{
    match text {
        Some(text) => String::from_str(alloc, text),
        None => String::from_str(alloc, missing),
    }
}

/// Texts of one's own, in the order of these.
pub(crate) fn owned_all(alloc: Global, texts: &[&str]) -> Result<Vec<String>, AllocError>
    ensures { IfOk result (λ owned. map string_bytes owned.items ≡ map (λ text. text.now) texts.now) }
{
    let mut own = Vec::new(alloc);
    for text in texts {
        own.push(String::from_str(alloc, text)?)?;
    }
    Ok(own)
}
