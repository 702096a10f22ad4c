//! Explanations, and the statements of runs.

use crate::files::{bytes_in, inputs_in};
use anyhow::{Context, Result};
use explain_line::explain;
use row_tables::text_of;
use run_inputs::Inputs;
use settle_run::{Fault, settle, settle_paid, settle_to};
use split_run::Plan;
use std::alloc::Global;
use std::rt::Files;
use std::sync::Wait;
use std::thread::Threads;

/// The explanation of a row of usage lines, or what its inputs are refused for.
pub fn explained<R: Files + AllocGlobal>(
    rt: &R,
    alloc: Global,
    of: &str,
    row: &str,
) -> Result<String> {
    let inputs = inputs_in(rt, alloc, of)?;
    Ok(match explain(alloc, &inputs, row.parse()?) {
        Ok(Some(text)) => String::from_str(alloc, text_of(text.as_slice()))?,
        Ok(None) => String::from_str(alloc, "no such row")?,
        Err(fault) => format!(in alloc; "{fault:?}")?,
    })
}

/// What a run by a plan of workers, readers and nodes comes to, lent its inputs and given them. Where the question
/// has the name of a file behind the plan, the statements have to be its bytes.
pub fn statements<R: Files + AllocGlobal + Threads + Wait + Sync>(
    rt: &R,
    alloc: Global,
    of: &str,
    question: &str,
) -> Result<String> {
    let inputs = inputs_in(rt, alloc, of)?;
    let text = text_of_run(rt, alloc, inputs, plan_in(question)?)?;
    as_in_file(rt, alloc, text, question.split(' ').nth(3).unwrap_or(""))
}

/// What a run comes to both ways, or that they differ.
fn text_of_run<R: Threads + Wait + Sync>(
    rt: &R,
    alloc: Global,
    inputs: Inputs<Vec<u8>>,
    plan: Plan,
) -> Result<String> {
    let lent = lent(rt, alloc, &inputs, plan)?;
    let given = given(rt, alloc, inputs, plan)?;
    if given.as_str() != lent.as_str() {
        return Ok(format!(in alloc; "lent: {lent}given: {given}")?);
    }
    Ok(lent)
}

/// A text, or that it is the text of a file, if one is named.
fn as_in_file<R: Files + AllocGlobal>(
    rt: &R,
    alloc: Global,
    text: String,
    name: &str,
) -> Result<String> {
    if !name.is_empty() && bytes_in(rt, alloc, name)?.as_slice() == text.as_bytes() {
        return Ok(String::from_str(alloc, "as in the file")?);
    }
    Ok(text)
}

/// Whether the numbers of a text are a plan.
pub fn plan(alloc: Global, text: &str) -> Result<String> {
    Ok(format!(in alloc; "{}", plan_in(text).is_ok())?)
}

/// The plan in a text like `3 1 64`, whatever stands behind it.
pub fn plan_in(text: &str) -> Result<Plan> {
    let mut numbers = text.split(' ');
    let workers = numbers.next().unwrap_or("").parse()?;
    let readers = numbers.next().unwrap_or("").parse()?;
    let nodes = numbers.next().unwrap_or("").parse()?;
    Plan::new(workers, readers, nodes).context("no plan")
}

/// What a run comes to that is lent its inputs.
fn lent<R: Threads + Wait + Sync>(
    rt: &R,
    alloc: Global,
    inputs: &Inputs<Vec<u8>>,
    plan: Plan,
) -> Result<String> {
    let (tis, cwr, usage) = (
        inputs.territories.as_slice(),
        inputs.registrations.as_slice(),
        inputs.usage.as_slice(),
    );
    match &inputs.payees {
        Some(payees) => told(
            alloc,
            settle_paid(rt, alloc, tis, payees.as_slice(), cwr, usage, plan),
        ),
        None => told(alloc, settle(rt, alloc, tis, cwr, usage, plan)),
    }
}

/// What a run comes to that is given its inputs, and prints its statements.
fn given<R: Threads + Wait + Sync>(
    rt: &R,
    alloc: Global,
    inputs: Inputs<Vec<u8>>,
    plan: Plan,
) -> Result<String> {
    let mut printed = Vec::new(alloc);
    match settle_to(rt, alloc, inputs, plan, &mut printed) {
        Ok(Ok(())) => told(alloc, Ok(printed)),
        Ok(Err(error)) => Ok(format!(in alloc; "a refused write: {error}")?),
        Err(_) if !printed.is_empty() => Ok(String::from_str(
            alloc,
            "a refused run has printed something",
        )?),
        Err(fault) => told(alloc, Err(fault)),
    }
}

/// The statements, or the fault's number, its place and its text.
fn told(alloc: Global, answer: Result<Vec<u8>, Fault>) -> Result<String> {
    match answer {
        Ok(text) => Ok(String::from_str(alloc, text_of(text.as_slice()))?),
        Err(fault) => {
            let (number, place) = (fault.number(), fault.place());
            Ok(format!(in alloc; "{number} {place:?} {fault}")?)
        }
    }
}
