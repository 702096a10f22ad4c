//! Schedules in tables that were written by hand, with what they come to.
//!
//! A question opens a machine (`core 2 1`, `pool 2 2 1`), or is asked of the one that was opened last: steps divided by
//! blanks, behind `in B:` those of mailbox B, for how many of them are done; `last take in B`, `last call P`,
//! `item N`, `held N` or `holder N`; or `words`.

use crate::machine::Machine;
use crate::parse;
use queue_core::Step;
use std::alloc::{AllocError, Global};

/// The answer to a question.
pub fn answer(
    alloc: Global,
    machine: &mut Option<Machine>,
    question: &str,
) -> Result<String, AllocError> {
    if let Some(opened) = Machine::open(alloc, question)? {
        *machine = Some(opened);
        return String::from_str(alloc, "opened");
    }
    match machine {
        Some(machine) => answer_of(alloc, machine, question),
        None => String::from_str(alloc, "nothing is open"),
    }
}

fn answer_of(alloc: Global, machine: &mut Machine, question: &str) -> Result<String, AllocError> {
    let (name, number) = question.rsplit_once(' ').unwrap_or((question, ""));
    let number = number.parse().unwrap_or(0);
    match name {
        "words" => machine.words(alloc),
        "last take in" => format!(in alloc; "{:?}", machine.last_take(number)),
        "last call" => format!(in alloc; "{:?}", machine.last_call(number)),
        "item" => format!(in alloc; "{:?}", machine.item(number)),
        "held" => format!(in alloc; "{}", machine.is_held(number)),
        "holder" => format!(in alloc; "{:?}", machine.holder(number)),
        _ => replayed(alloc, machine, question),
    }
}

/// How many steps are done, and of how many.
fn replayed(alloc: Global, machine: &mut Machine, question: &str) -> Result<String, AllocError> {
    let (mailbox, names) = match question.strip_prefix("in ") {
        Some(rest) => rest.split_once(": ").unwrap_or((rest, "")),
        None => ("0", question),
    };
    let Some(steps) = steps_in(alloc, names)? else {
        return String::from_str(alloc, "no such step");
    };
    let done = machine.replay(alloc, mailbox.parse().unwrap_or(0), steps.as_slice())?;
    format!(in alloc; "{done} of {}", steps.len())
}

/// The steps of these names. None: one of them is no step.
fn steps_in(alloc: Global, names: &str) -> Result<Option<Vec<Step>>, AllocError> {
    let mut steps = Vec::new(alloc);
    for name in names.split(' ') {
        let Some(step) = parse::step(name) else {
            return Ok(None);
        };
        steps.push(step)?;
    }
    Ok(Some(steps))
}
