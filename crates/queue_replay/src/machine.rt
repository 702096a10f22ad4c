//! What schedules are replayed on.

use crate::parse;
use queue_core::{
    Core, Item, MOST_MAILBOXES, MOST_NODES, MOST_SENDERS, PoolCore, PoolStep, Posted, Step,
    Stepped, Took,
};
use std::alloc::{AllocError, Global};

/// A mailbox by itself, or many over one table of nodes.
#[derive(Drop)]
pub enum Machine {
    Mailbox(Core),
    Pool(PoolCore),
}

impl Machine {
    /// The machine of a text like `core SENDERS NODES` or `pool SENDERS MAILBOXES NODES`. None: it is no such text, or
    /// a number is out of range.
    pub fn open(alloc: Global, text: &str) -> Result<Option<Machine>, AllocError> {
        if let Some(numbers) = text.strip_prefix("core ") {
            return Machine::open_core(alloc, numbers);
        }
        match text.strip_prefix("pool ") {
            Some(numbers) => Machine::open_pool(alloc, numbers),
            None => Ok(None),
        }
    }

    fn open_core(alloc: Global, numbers: &str) -> Result<Option<Machine>, AllocError> {
        let (senders, nodes) = parse::two(numbers);
        if !(1..=MOST_SENDERS).contains(&senders) || !(1..=MOST_NODES).contains(&nodes) {
            return Ok(None);
        }
        Ok(Some(Machine::Mailbox(Core::open(alloc, senders, nodes)?)))
    }

    fn open_pool(alloc: Global, numbers: &str) -> Result<Option<Machine>, AllocError> {
        let (senders, rest) = numbers.split_once(' ').unwrap_or((numbers, ""));
        let senders = senders.parse().unwrap_or(0);
        let (mailboxes, nodes) = parse::two(rest);
        if !(1..=MOST_SENDERS).contains(&senders)
            || !(1..=MOST_MAILBOXES).contains(&mailboxes)
            || !(1..=MOST_NODES).contains(&nodes)
        {
            return Ok(None);
        }
        let core = PoolCore::open(alloc, senders, mailboxes, nodes)?;
        Ok(Some(Machine::Pool(core)))
    }

    pub fn step(&mut self, mailbox: u64, step: Step) -> Stepped {
        match self {
            Machine::Mailbox(core) => core.step(step),
            Machine::Pool(core) => core.step(PoolStep { mailbox, step }),
        }
    }

    /// How many of some steps are done, up to the first that is not due.
    pub fn replay(
        &mut self,
        alloc: Global,
        mailbox: u64,
        steps: &[Step],
    ) -> Result<usize, AllocError> {
        match self {
            Machine::Mailbox(core) => Ok(core.replay(steps)),
            Machine::Pool(core) => {
                let mut of_pool = Vec::new(alloc);
                for step in steps {
                    of_pool.push(PoolStep {
                        mailbox,
                        step: *step,
                    })?;
                }
                Ok(core.replay(of_pool.as_slice()))
            }
        }
    }

    pub fn last_call(&self, p: u64) -> Option<Posted> {
        match self {
            Machine::Mailbox(core) => core.last_call(p),
            Machine::Pool(core) => core.last_call(p),
        }
    }

    pub fn last_take(&self, mailbox: u64) -> Option<Took<u64>> {
        match self {
            Machine::Mailbox(core) => core.last_take(),
            Machine::Pool(core) => core.last_take(mailbox),
        }
    }

    /// Whether a node is held.
    pub fn is_held(&self, node: u64) -> bool {
        match self {
            Machine::Mailbox(core) => core.is_held(node),
            Machine::Pool(core) => core.is_held(node),
        }
    }

    /// The mailbox whose reader holds a node, if one does. A mailbox by itself is number 0.
    pub fn holder(&self, node: u64) -> Option<u64> {
        match self {
            Machine::Mailbox(core) if core.is_held(node) => Some(0),
            Machine::Mailbox(_) => None,
            Machine::Pool(core) => core.holder(node),
        }
    }

    /// The item of a node that is held, and its sender.
    pub fn item(&self, node: u64) -> Option<(u64, Item)> {
        match self {
            Machine::Mailbox(core) if core.is_held(node) => Some(core.item(node)),
            Machine::Pool(core) if core.is_held(node) => Some(core.item(node)),
            _ => None,
        }
    }

    pub fn words(&self, alloc: Global) -> Result<String, AllocError> {
        match self {
            Machine::Mailbox(core) => format!(in alloc; "{core}"),
            Machine::Pool(core) => format!(in alloc; "{core}"),
        }
    }
}
