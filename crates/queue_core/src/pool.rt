//! The core of a pool: one table of nodes for several mailboxes, and where their senders and readers are, as a
//! machine of atomic steps.

ghost use Rattle.std.specs.Prelude.{◌≡◌, ◌+◌, ◌/◌, ◌<◌, ◌≤◌, IfOk, None, Some, is_some, length, slice_index_or, take, true};
ghost use Rattle.queue_core.specs.declared.TheConstants.{MOST_MAILBOXES, MOST_NODES, MOST_POOL_POSTS, MOST_SENDERS};
ghost use Rattle.queue_core.specs.declared.step.PoolStep.{PoolStep};
ghost use Rattle.queue_core.specs.declared.step.Step.TheVariants.{LoadNext};
ghost use Rattle.queue_core.specs.declared.step.Stepped.TheVariants.{Moved, NotNow};
ghost use Rattle.queue_core.specs.StoredWords.{item_of as item_in};
ghost use Rattle.queue_core.specs.Pooled.{IsPooled, holder_of, node_at, nodes_of_each, opening_pooled, reader_in, sender_at};
ghost use Rattle.queue_core.specs.PoolSteps.{Follows, stepped, stepped_in};

use crate::MOST_POOL_POSTS;
use crate::item::{Item, Posted, Took};
use crate::state::State;
use crate::step::{PoolStep, Step, Stepped};
use crate::words::{Node, item_of};
use std::alloc::{AllocError, Global};
use std::fmt;
use std::marker::Model;

/// Mailboxes over one table of nodes: their words, their senders and their readers.
///
/// With N ring nodes a sender and B mailboxes, sender p has the nodes from `p * (N + B)` on: N ring nodes,
/// which its posts use in turn, whichever mailbox they go to, and one kept back for its end mark in each
/// mailbox. The stubs of the mailboxes are the nodes after all of these.
#[derive(Debug, Drop)]
pub struct PoolCore {
    state: State,
}

impl Model for PoolCore {
    ghost use Rattle.queue_core.specs.Pooled.{IsPooled, Pooled};

    ghost Value = { Pooled };

    ghost view = { λ core. core.state };

    ghost invariant = { λ core. IsPooled core.state };
}

impl State {
    /// Does a step in a mailbox, where it is due.
    pub(crate) fn step_in(&mut self, b: u64, step: Step) -> Stepped
        requires pooled { IsPooled self.old }
        requires mailbox { b < length self.old.heads }
        ensures moved { result ≡ Moved → stepped_in self.old b step ≡ Some self.new }
        ensures not_now { result ≡ NotNow → (stepped_in self.old b step ≡ None) × (self.new ≡ self.old) }
    {
        match step {
            Step::LoadTurn(p, line, amount) => self.load_turn(b, p, line, amount),
            Step::EndLine(p) => self.end_line(b, p),
            Step::StoreLine(p) => self.store_line(b, p),
            Step::StoreAmount(p) => self.store_amount(b, p),
            Step::StoreNull(p) => self.store_null(b, p),
            Step::SwapHead(p) => self.swap_head(b, p),
            Step::StoreLink(p) => self.store_link(b, p),
            Step::LoadNext => self.load_next(b),
            Step::LoadHead => self.load_head(b),
            Step::StubNull => self.stub_null(b),
            Step::StubSwap => self.stub_swap(b),
            Step::StubLink => self.stub_link(b),
            Step::LoadLine(node) | Step::LoadAmount(node) => self.load_held(b, node),
            Step::GiveBack(node) => self.give_back(b, node),
        }
    }
}

impl PoolCore {
    /// A pool of 1 to 8 senders and 1 to 16,384 mailboxes, with 1 to 64 ring nodes of each sender, in which
    /// nothing has happened. A sender may send 257,000,000 posts.
    pub fn open(
        alloc: Global,
        senders: u64,
        mailboxes: u64,
        nodes: u64,
    ) -> Result<PoolCore, AllocError>
        requires senders { (0 < senders) × (senders ≤ MOST_SENDERS) }
        requires mailboxes { (0 < mailboxes) × (mailboxes ≤ MOST_MAILBOXES) }
        requires nodes { (0 < nodes) × (nodes ≤ MOST_NODES) }
        ensures { IfOk result (λ core. core ≡ opening_pooled senders mailboxes nodes MOST_POOL_POSTS) }
    {
        let state = State::open(alloc, senders, mailboxes, nodes, MOST_POOL_POSTS)?;
        Ok(PoolCore { state })
    }

    /// Does a step, where it is due.
    pub fn step(&mut self, step: PoolStep) -> Stepped
        ensures moved { result ≡ Moved → stepped self.old step ≡ Some self.new }
        ensures not_now { result ≡ NotNow → (stepped self.old step ≡ None) × (self.new ≡ self.old) }
    {
        if step.mailbox < self.state.mailboxes() {
            self.state.step_in(step.mailbox, step.step)
        } else {
            Stepped::NotNow
        }
    }

    /// Does the steps in order, up to the first that is not due, and answers how many it did.
    pub fn replay(&mut self, steps: &[PoolStep]) -> usize
        ensures count { result ≤ length steps.now }
        ensures moved { Follows (take result steps.now) self.old self.new }
        ensures stopped { result < length steps.now → stepped self.new (slice_index_or steps.now result (record { mailbox = 0; step = LoadNext })) ≡ None }
    {
        let mut done = 0;
        for step in steps {
            match self.step(*step) {
                Stepped::Moved => done += 1,
                Stepped::NotNow => return done,
            }
        }
        done
    }

    /// What the last finished take of a mailbox answered: the node that is held, or Empty or Busy. None before
    /// the first, and where there is no such mailbox.
    pub fn last_take(&self, mailbox: u64) -> Option<Took<u64>>
        ensures { result ≡ (reader_in self.now mailbox).last }
    {
        if mailbox < self.state.mailboxes() {
            self.state.reader(mailbox).last
        } else {
            None
        }
    }

    /// What the last finished call of a sender answered. None before the first, and where there is no such
    /// sender.
    pub fn last_call(&self, p: u64) -> Option<Posted>
        ensures { result ≡ (sender_at self.now p).last }
    {
        self.state.sender(p).last
    }

    /// Whether a reader holds the node.
    pub fn is_held(&self, node: u64) -> bool
        ensures { result ≡ is_some (holder_of self.now node) }
    {
        self.state.holder(node).is_some()
    }

    /// The mailbox whose reader holds the node, if one does.
    pub fn holder(&self, node: u64) -> Option<u64>
        ensures { result ≡ holder_of self.now node }
    {
        self.state.holder(node)
    }

    /// The item of a node that a reader holds, and the number of its sender.
    pub fn item(&self, node: u64) -> (u64, Item)
        requires { is_some (holder_of self.now node) ≡ true }
        ensures { result ≡ (node / nodes_of_each self.now, item_in (node_at self.now node).line (node_at self.now node).amount) }
    {
        let words = self.state.node(node);
        (
            node / (self.state.ring() + self.state.mailboxes()),
            item_of(words.line, words.amount),
        )
    }
}

/// The words, a line for the head of each mailbox and one for each node: next, turn, line and amount, and the
/// mailbox whose reader holds it, if one does.
impl fmt::Display for PoolCore {
    fn fmt<W: fmt::Write>(&self, f: &mut fmt::Formatter<W>) -> fmt::Result {
        for head in self.state.heads.iter() {
            write!(f, "head {head}\n")?;
        }
        for (place, node) in self.state.nodes.iter().enumerate() {
            let Node {
                next,
                turn,
                line,
                amount,
            } = *node;
            write!(f, "node {place} {next} {turn} {line} {amount}")?;
            if let Some(holder) = self.holder(place as u64) {
                write!(f, " held by {holder}")?;
            }
            write!(f, "\n")?;
        }
        Ok(())
    }
}
