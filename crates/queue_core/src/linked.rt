//! A mailbox alone: a pool of one.

ghost use Rattle.std.specs.Prelude.{◌≡◌, ◌+◌, ◌/◌, ◌<◌, ◌≤◌, IfOk, None, Some, length, map, slice_index_or, take, true};
ghost use Rattle.queue_core.specs.declared.TheConstants.{MOST_NODES, MOST_POSTS, MOST_SENDERS};
ghost use Rattle.queue_core.specs.declared.step.Step.TheVariants.{LoadNext};
ghost use Rattle.queue_core.specs.declared.step.Stepped.TheVariants.{Moved, NotNow};
ghost use Rattle.queue_core.specs.StoredWords.{item_of as item_in};
ghost use Rattle.queue_core.specs.Pooled.{is_held_in, node_at, opening_pooled, reader_in, sender_at};
ghost use Rattle.queue_core.specs.PoolSteps.{Follows, in_first, stepped};

use crate::MOST_POSTS;
use crate::item::{Item, Posted, Took};
use crate::state::State;
use crate::step::{Step, Stepped};
use crate::words::{Node, item_of};
use std::alloc::{AllocError, Global};
use std::fmt;
use std::marker::Model;

/// A mailbox: its words, its senders and its reader.
///
/// With N ring nodes a sender, sender p has the nodes from `p * (N + 1)` on: N ring nodes, which its posts
/// use in turn, and one kept back for its end mark. The stub is the node after all of these.
#[derive(Debug, Drop)]
pub struct Core {
    state: State,
}

impl Model for Core {
    ghost use Rattle.std.specs.Prelude.{◌≡◌, length};
    ghost use Rattle.queue_core.specs.Pooled.{IsPooled, Pooled};

    ghost Value = { Pooled };

    ghost view = { λ core. core.state };

    ghost invariant = { λ core. IsPooled core.state × (length core.state.heads ≡ 1) };
}

impl Core {
    /// A mailbox of 1 to 8 senders with 1 to 64 ring nodes each, in which nothing has happened.
    pub fn open(alloc: Global, senders: u64, nodes: u64) -> Result<Core, AllocError>
        requires senders { (0 < senders) × (senders ≤ MOST_SENDERS) }
        requires nodes { (0 < nodes) × (nodes ≤ MOST_NODES) }
        ensures { IfOk result (λ core. core ≡ opening_pooled senders 1 nodes MOST_POSTS) }
    {
        let state = State::open(alloc, senders, 1, nodes, MOST_POSTS)?;
        Ok(Core { state })
    }

    /// Does a step, where it is due.
    pub fn step(&mut self, step: Step) -> Stepped
        ensures moved { result ≡ Moved → stepped self.old (in_first step) ≡ Some self.new }
        ensures not_now { result ≡ NotNow → (stepped self.old (in_first step) ≡ None) × (self.new ≡ self.old) }
    {
        self.state.step_in(0, step)
    }

    /// Does the steps in order, up to the first that is not due, and answers how many it did.
    pub fn replay(&mut self, steps: &[Step]) -> usize
        ensures count { result ≤ length steps.now }
        ensures moved { Follows (map in_first (take result steps.now)) self.old self.new }
        ensures stopped { result < length steps.now → stepped self.new (in_first (slice_index_or steps.now result LoadNext)) ≡ None }
    {
        let mut done = 0;
        for step in steps {
            match self.step(*step) {
                Stepped::Moved => done += 1,
                Stepped::NotNow => return done,
            }
        }
        done
    }

    /// What the last finished take answered: the node that is held, or that there was none.
    pub fn last_take(&self) -> Option<Took<u64>>
        ensures { result ≡ (reader_in self.now 0).last }
    {
        self.state.reader(0).last
    }

    /// What the last finished call of a sender answered; none where there is no such sender.
    pub fn last_call(&self, p: u64) -> Option<Posted>
        ensures { result ≡ (sender_at self.now p).last }
    {
        self.state.sender(p).last
    }

    /// Whether the reader holds the node.
    pub fn is_held(&self, node: u64) -> bool
        ensures { result ≡ is_held_in self.now 0 node }
    {
        self.state.is_held(0, node)
    }

    /// The item of a node that is held, and the number of its sender.
    pub fn item(&self, node: u64) -> (u64, Item)
        requires { is_held_in self.now 0 node ≡ true }
        ensures { result ≡ (node / (self.now.ring + 1), item_in (node_at self.now node).line (node_at self.now node).amount) }
    {
        let words = self.state.node(node);
        (
            node / (self.state.ring() + 1),
            item_of(words.line, words.amount),
        )
    }
}

/// The words, a line for the head and one for each node: next, turn, line and amount, and whether it is
/// held.
impl fmt::Display for Core {
    fn fmt<W: fmt::Write>(&self, f: &mut fmt::Formatter<W>) -> fmt::Result {
        let head = self.state.head(0);
        write!(f, "head {head}\n")?;
        for (place, node) in self.state.nodes.iter().enumerate() {
            let Node {
                next,
                turn,
                line,
                amount,
            } = *node;
            let held = if self.is_held(place as u64) {
                " held"
            } else {
                ""
            };
            write!(f, "node {place} {next} {turn} {line} {amount}{held}\n")?;
        }
        Ok(())
    }
}
