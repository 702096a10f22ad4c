//! A core beside the answers that a schedule gives.

use crate::machine::Machine;
use crate::parse;
use queue_core::{Posted, Step, Stepped, Took};
use std::alloc::{AllocError, Global};
use std::fmt;

/// How far the answers agree.
#[derive(Drop)]
pub struct Comparison {
    machine: Option<Machine>,
    /// The words that the schedule ends with, so far.
    words: String,
    schedules: u64,
    steps: u64,
    lines: u64,
    /// The first line that does not agree.
    first_wrong: Option<u64>,
}

impl Comparison {
    pub fn new(alloc: Global) -> Comparison {
        Comparison {
            machine: None,
            words: String::new(alloc),
            schedules: 0,
            steps: 0,
            lines: 0,
            first_wrong: None,
        }
    }

    pub fn agrees(&self) -> bool {
        self.first_wrong.is_none()
    }

    /// Takes a line.
    pub fn take(&mut self, alloc: Global, line: &str) -> Result<(), AllocError> {
        self.lines = self.lines.saturating_add(1);
        if line.starts_with("core ") || line.starts_with("pool ") {
            return self.open(alloc, line);
        }
        if line.is_empty() {
            return self.end(alloc);
        }
        if line.starts_with("head ") || line.starts_with("node ") {
            self.words.push_str(line)?;
            return self.words.push('\n');
        }
        let agrees = self.is_answered(line);
        self.note(agrees);
        self.steps = self.steps.saturating_add(1);
        Ok(())
    }

    fn note(&mut self, agrees: bool) {
        if !agrees && self.first_wrong.is_none() {
            self.first_wrong = Some(self.lines);
        }
    }

    fn open(&mut self, alloc: Global, line: &str) -> Result<(), AllocError> {
        self.words.clear();
        self.machine = Machine::open(alloc, line)?;
        let is_open = self.machine.is_some();
        self.note(is_open);
        Ok(())
    }

    /// The end of a schedule: every word has to be as it says.
    fn end(&mut self, alloc: Global) -> Result<(), AllocError> {
        let agrees = match &self.machine {
            Some(machine) => machine.words(alloc)?.as_str() == self.words.as_str(),
            None => false,
        };
        self.note(agrees);
        self.schedules = self.schedules.saturating_add(1);
        self.machine = None;
        Ok(())
    }

    /// Whether the core answers a step as the line says.
    fn is_answered(&mut self, line: &str) -> bool {
        let (name, answer) = line.split_once(' ').unwrap_or((line, ""));
        let Some((mailbox, answer)) = parse::mailbox(answer) else {
            return false;
        };
        let Some(step) = parse::step(name) else {
            return false;
        };
        let Some(machine) = self.machine.as_mut() else {
            return false;
        };
        let (moved, note) = answer.split_once(' ').unwrap_or((answer, ""));
        let stepped = machine.step(mailbox, step);
        if stepped
            != (if moved == "moved" {
                Stepped::Moved
            } else {
                Stepped::NotNow
            })
        {
            return false;
        }
        note.is_empty() || is_noted(machine, mailbox, step, note)
    }
}

/// Whether the call that a step finished answered this.
fn is_noted(machine: &Machine, mailbox: u64, step: Step, note: &str) -> bool {
    match parse::sender(step) {
        Some(p) => {
            let posted = if note == "Sent" {
                Posted::Sent
            } else {
                Posted::Full
            };
            machine.last_call(p) == Some(posted)
        }
        None => machine.last_take(mailbox) == took(note),
    }
}

fn took(note: &str) -> Option<Took<u64>> {
    match note {
        "Empty" => Some(Took::Empty),
        "Busy" => Some(Took::Busy),
        _ => {
            let node = note.strip_prefix("Held(")?.strip_suffix(')')?;
            Some(Took::Held(node.parse().ok()?))
        }
    }
}

impl fmt::Display for Comparison {
    fn fmt<W: fmt::Write>(&self, f: &mut fmt::Formatter<W>) -> fmt::Result {
        let (schedules, steps) = (self.schedules, self.steps);
        match self.first_wrong {
            None => write!(f, "{schedules} schedules with {steps} steps: all agree"),
            Some(line) => write!(f, "line {line} does not agree"),
        }
    }
}
