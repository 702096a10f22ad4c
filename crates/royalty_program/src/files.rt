//! A run, an explanation and a report over files.

ghost use Rattle.std.specs.Io.KnownBytes.{Appends};
ghost use Rattle.std.specs.Prelude.{◌≡◌, ℕ, List, Some, String, false, true, IfOk, IfErr};
ghost use Rattle.std.specs.Prelude.{IfSome, IfNone, IsSome, OnErr, OnOk, string_bytes};
ghost use Rattle.std.specs.Option.{option_map};
ghost use Rattle.check_inputs.specs.Checked.{bytes_of, path_of};
ghost use Rattle.run_inputs.specs.Inputs.{map_inputs};
ghost use Rattle.royalty_program.specs.Files.{AreRead, AreStatementsOver, HaveNoFaultOver};
ghost use Rattle.royalty_program.specs.Files.{HoldsIfGiven, IsExplanationOver, IsReportOver};
ghost use Rattle.royalty_program.specs.OutputPath.{IsNoInput, IsOfSomeInput};
ghost use Rattle.royalty_program.specs.RunInputs.{AreStatementsFrom, HaveEachAPath, IsExplanationFrom, IsNoInputOf};
ghost use Rattle.royalty_program.specs.RunInputs.{IsOfInputs, IsOfSomeInputOf, IsReportFrom, IsUncheckedFrom};
ghost use Rattle.royalty_program.specs.RunInputs.{IsUnexplainedFrom};
ghost use Rattle.royalty_program.specs.Status.{IsOfFile, IsOfNoInput, IsOfPaths, IsOfRunOutput, IsRefusal, IsUnchecked};
ghost use Rattle.royalty_program.specs.Status.{IsUnexplained};
ghost use Rattle.royalty_program.specs.Targets.{IsLeftOrHas, IsPut};
ghost use Rattle.royalty_program.specs.declared.failure.Failure.TheVariants.{Replaces};
ghost use Rattle.std.specs.declared.alloc.Global.{Global};

use crate::explain_command::ExplainWords;
use crate::failure::Failure;
use crate::inputs::RunInputs;
use crate::run_command::RunWords;
use crate::sources::{Source, unread};
use crate::submitted_files::{
    check_in_submitted, explain_in_submitted, is_submitted, settle_submitted,
};
use crate::targets::{Target, finish, unkept};
use check_inputs::{Checked, File, check};
use explain_line::explain;
use run_inputs::Inputs;
use settle_run::settle_to;
use split_run::Plan;
use std::alloc::Global;
use std::io::{self, Write};
use std::sync::Wait;
use std::thread::Threads;

/// Prints the statements of a run over its files.
fn settle_files<R: Threads + Wait + Sync, S: Source + Sync, W: Write>(
    rt: &R,
    alloc: Global,
    files: &S,
    asked: RunWords,
    out: &mut W,
) -> Result<io::Result<()>, Failure>
    ensures statements { IfOk result (λ printed. OnOk printed ((text : List ℕ)
        × Appends (W.contents out.old) (W.contents out.new) text
        × AreStatementsFrom (S.holds files.now) asked.inputs text)) }
    ensures failure { IfErr result IsRefusal }
    ensures files { IfErr result (IsOfInputs (S.holds files.now) (S.refuses files.now) asked.inputs) }
    ensures silent { IfErr result (λ _. out.new ≡ out.old) }
{
    let RunWords { inputs, plan, .. } = asked;
    match inputs {
        RunInputs::OneFile(inputs) => settle_one_file(rt, alloc, files, inputs, plan, out),
        RunInputs::Submitted(inputs) => settle_submitted(rt, alloc, files, inputs, plan, out),
    }
}

/// Prints the statements of a run over one CWR file. All inputs are read, in the order of `Inputs`,
/// before any is parsed.
fn settle_one_file<R: Threads + Wait + Sync, S: Source, W: Write>(
    rt: &R,
    alloc: Global,
    files: &S,
    inputs: Inputs<String>,
    plan: Plan,
    out: &mut W,
) -> Result<io::Result<()>, Failure>
    ensures statements { IfOk result (λ printed. OnOk printed ((text : List ℕ)
        × Appends (W.contents out.old) (W.contents out.new) text
        × AreStatementsOver (S.holds files.now) (map_inputs string_bytes inputs) text)) }
    ensures read { IfOk result (λ _. HaveNoFaultOver (S.holds files.now) (map_inputs string_bytes inputs)) }
    ensures failure { IfErr result IsRefusal }
    ensures files { IfErr result (IsOfPaths (S.holds files.now) (S.refuses files.now)
        (map_inputs string_bytes inputs)) }
    ensures silent { IfErr result (λ _. out.new ≡ out.old) }
{
    let inputs = read_all(files, alloc, inputs)?;
    match settle_to(rt, alloc, inputs, plan, out) {
        Ok(printed) => Ok(printed),
        Err(fault) => Err(Failure::from(fault)),
    }
}

/// Whether a path is that of an input, by whatever name.
fn is_input<T: Target>(target: &T, inputs: &RunInputs, path: &str) -> io::Result<bool>
    ensures none { IfOk result (λ is_input. is_input ≡ false → IsNoInputOf inputs.now path.now) }
    ensures some { IfOk result (λ is_input.
        is_input ≡ true → IsOfSomeInputOf (T.one_file target.now path.now) inputs.now) }
{
    match inputs {
        RunInputs::OneFile(inputs) => is_input_of_one(target, inputs, path),
        RunInputs::Submitted(inputs) => is_submitted(target, inputs, path),
    }
}

/// Whether a path is that of an input of a run over one CWR file.
fn is_input_of_one<T: Target>(target: &T, inputs: &Inputs<String>, path: &str) -> io::Result<bool>
    ensures none { IfOk result (λ is_input.
        is_input ≡ false → IsNoInput (map_inputs string_bytes inputs.now) path.now) }
    ensures some { IfOk result (λ is_input. is_input ≡ true
        → IsOfSomeInput (T.one_file target.now path.now) (map_inputs string_bytes inputs.now)) }
{
    if let Some(payees) = &inputs.payees
        && target.is_one_file(path, payees.as_str())?
    {
        return Ok(true);
    }
    Ok(
        target.is_one_file(path, inputs.territories.as_str())?
            || target.is_one_file(path, inputs.registrations.as_str())?
            || target.is_one_file(path, inputs.usage.as_str())?,
    )
}

/// The same into the file of a path: whole, or that is as it was. A path that is an input's is
/// refused before anything is read.
fn settle_kept<R: Threads + Wait + Sync, S: Source + Sync, T: Target>(
    rt: &R,
    alloc: Global,
    files: &S,
    target: &mut T,
    asked: RunWords,
    path: String,
) -> Result<(), Failure>
    ensures statements { IfOk result (λ _. (text : List ℕ) × T.keeps target.new (string_bytes path) (Some text)
        × AreStatementsFrom (S.holds files.now) asked.inputs text) }
    ensures apart { IfOk result (λ _. IsNoInputOf asked.inputs (string_bytes path)) }
    ensures replaces { IfErr result (λ failure. (at : String Global) → failure ≡ Replaces at
        → IsOfSomeInputOf (T.one_file target.old (string_bytes at)) asked.inputs) }
    ensures failure { IfErr result IsRefusal }
    ensures files { IfErr result (IsOfRunOutput (Some path)
        (IsOfInputs (S.holds files.now) (S.refuses files.now) asked.inputs)) }
    ensures left { OnErr result (IsLeftOrHas (T.keeps target.old (string_bytes path))
        (T.keeps target.new (string_bytes path))
        (AreStatementsFrom (S.holds files.now) asked.inputs)) }
{
    match is_input(target, &asked.inputs, path.as_str()) {
        Ok(false) => {}
        Ok(true) => return Err(Failure::Replaces(path)),
        Err(error) => return Err(unkept(error.kind(), path)),
    }
    let mut draft = match target.begin(alloc, path.as_str()) {
        Ok(draft) => draft,
        Err(error) => return Err(unkept(error.kind(), path)),
    };
    let written = settle_files(rt, alloc, files, asked, &mut draft);
    finish(target, draft, path, written)
}

/// Prints the statements of a run, or keeps them in the file of a path, where there is one.
pub fn settle_out<R: Threads + Wait + Sync, S: Source + Sync, T: Target, W: Write>(
    rt: &R,
    alloc: Global,
    files: &S,
    target: &mut T,
    mut asked: RunWords,
    out: &mut W,
) -> Result<io::Result<()>, Failure>
    ensures statements { IfOk result (λ printed. OnOk printed ((text : List ℕ)
        × IsPut (option_map string_bytes asked.output) (T.keeps target.new) (W.contents out.old)
        (W.contents out.new) text
        × AreStatementsFrom (S.holds files.now) asked.inputs text)) }
    ensures apart { IfOk result (λ _. IfSome (option_map string_bytes asked.output) (IsNoInputOf asked.inputs)) }
    ensures replaces { IfErr result (λ failure. (at : String Global) → failure ≡ Replaces at
        → IsOfSomeInputOf (T.one_file target.old (string_bytes at)) asked.inputs) }
    ensures failure { IfErr result IsRefusal }
    ensures files { IfErr result
        (IsOfRunOutput asked.output (IsOfInputs (S.holds files.now) (S.refuses files.now) asked.inputs)) }
    ensures silent { IfErr result (λ _. out.new ≡ out.old) }
    ensures left { IfSome asked.output (λ path. IsLeftOrHas (T.keeps target.old (string_bytes path))
        (T.keeps target.new (string_bytes path))
        (AreStatementsFrom (S.holds files.now) asked.inputs)) }
    ensures unused { IfNone asked.output (target.new ≡ target.old) }
{
    match asked.output.take() {
        None => settle_files(rt, alloc, files, asked, out),
        Some(path) => {
            settle_kept(rt, alloc, files, target, asked, path)?;
            Ok(Ok(()))
        }
    }
}

/// The explanation of a usage line over the files of a run.
pub fn explain_files<S: Source>(
    alloc: Global,
    files: &S,
    asked: ExplainWords,
) -> Result<Vec<u8>, Failure>
    ensures explanation { IfOk result (λ text. IsExplanationFrom
        (S.holds files.now) asked.inputs asked.row text.items) }
    ensures failure { IfErr result IsRefusal }
    ensures files { IfErr result (IsUnexplainedFrom (S.holds files.now) (S.refuses files.now) asked.inputs asked.row) }
{
    let ExplainWords { inputs, row } = asked;
    match inputs {
        RunInputs::OneFile(inputs) => explain_one_file(alloc, files, inputs, row),
        RunInputs::Submitted(inputs) => explain_in_submitted(alloc, files, inputs, row),
    }
}

/// The same over one CWR file. All inputs are read, in the order of `Inputs`, before any is parsed.
fn explain_one_file<S: Source>(
    alloc: Global,
    files: &S,
    inputs: Inputs<String>,
    row: u64,
) -> Result<Vec<u8>, Failure>
    ensures explanation { IfOk result (λ text.
        IsExplanationOver (S.holds files.now) (map_inputs string_bytes inputs) row text.items) }
    ensures failure { IfErr result IsRefusal }
    ensures files { IfErr result
        (IsUnexplained (S.holds files.now) (S.refuses files.now) (map_inputs string_bytes inputs) row) }
{
    let inputs = read_all(files, alloc, inputs)?;
    match explain(alloc, &inputs, row) {
        Ok(Some(text)) => Ok(text),
        Ok(None) => Err(Failure::Row(row)),
        Err(fault) => Err(Failure::from(fault)),
    }
}

/// The report on the files of a run.
pub fn check_files<S: Source>(
    alloc: Global,
    files: &S,
    inputs: RunInputs,
) -> Result<Checked, Failure>
    requires { HaveEachAPath inputs }
    ensures report { IfOk result (λ checked.
        IsReportFrom (S.holds files.now) inputs checked.is_sound checked.text.items) }
    ensures failure { IfErr result IsRefusal }
    ensures files { IfErr result (IsUncheckedFrom (S.holds files.now) (S.refuses files.now) inputs) }
{
    match inputs {
        RunInputs::OneFile(inputs) => check_one_file(alloc, files, inputs),
        RunInputs::Submitted(inputs) => check_in_submitted(alloc, files, inputs),
    }
}

/// The same of a run over one CWR file. All inputs are read, in the order of `Inputs`, before any is parsed.
fn check_one_file<S: Source>(
    alloc: Global,
    files: &S,
    inputs: Inputs<String>,
) -> Result<Checked, Failure>
    ensures report { IfOk result (λ checked.
        IsReportOver (S.holds files.now) (map_inputs string_bytes inputs) checked.is_sound checked.text.items) }
    ensures failure { IfErr result IsRefusal }
    ensures files { IfErr result
        (IsUnchecked (S.holds files.now) (S.refuses files.now) (map_inputs string_bytes inputs)) }
{
    let inputs = read_all(files, alloc, inputs)?;
    match check(alloc, &inputs) {
        Ok(checked) => Ok(checked),
        Err(_) => Err(Failure::Room),
    }
}

/// The files of these paths, read in this order.
pub(crate) fn read_all<S: Source>(
    files: &S,
    alloc: Global,
    inputs: Inputs<String>,
) -> Result<Inputs<File>, Failure>
    ensures read { IfOk result (λ read.
        AreRead (S.holds files.now) (map_inputs string_bytes inputs) (map_inputs bytes_of read)) }
    ensures paths { IfOk result (λ read. map_inputs path_of read ≡ map_inputs string_bytes inputs) }
    ensures failure { IfErr result IsRefusal }
    ensures files { IfErr result
        (IsOfPaths (S.holds files.now) (S.refuses files.now) (map_inputs string_bytes inputs)) }
    ensures no_input { IfErr result IsOfNoInput }
{
    let territories = file_of(files, alloc, inputs.territories)?;
    let payees = file_if_given(files, alloc, inputs.payees)?;
    let registrations = file_of(files, alloc, inputs.registrations)?;
    let usage = file_of(files, alloc, inputs.usage)?;
    Ok(Inputs {
        territories,
        payees,
        registrations,
        usage,
    })
}

/// The file of a path.
pub(crate) fn file_of<S: Source>(files: &S, alloc: Global, path: String) -> Result<File, Failure>
    ensures bytes { IfOk result (λ file. S.holds files.now (string_bytes path) (bytes_of file)) }
    ensures path { IfOk result (λ file. path_of file ≡ string_bytes path) }
    ensures failure { IfErr result (IsOfFile (S.refuses files.now) path) }
{
    match files.read(alloc, path.as_str()) {
        Ok(bytes) => Ok(File { path, bytes }),
        Err(error) => Err(unread(error.kind(), path)),
    }
}

/// The file of a path, where there is one.
pub(crate) fn file_if_given<S: Source>(
    files: &S,
    alloc: Global,
    path: Option<String>,
) -> Result<Option<File>, Failure>
    ensures bytes { IfOk result (λ file.
        HoldsIfGiven (S.holds files.now) (option_map string_bytes path) (option_map bytes_of file)) }
    ensures path { IfOk result (λ file. option_map path_of file ≡ option_map string_bytes path) }
    ensures failure { IfErr result (λ failure. IfSome path (λ path. IsOfFile (S.refuses files.now) path failure)) }
    ensures given { IfErr result (λ failure. IsSome path) }
{
    match path {
        Some(path) => Ok(Some(file_of(files, alloc, path)?)),
        None => Ok(None),
    }
}
