//! The words of a pool, and where its senders and its readers are: what a step reads and writes of them.

ghost use Rattle.std.specs.Prelude.{◌≡◌, ◌+◌, ◌*◌, ◌<◌, ◌≤◌, IfOk, false, length};
ghost use Rattle.queue_core.specs.declared.TheConstants.{MOST_MAILBOXES, MOST_NODES, MOST_SENDERS};
ghost use Rattle.queue_core.specs.Pooled.{IsPooled, first_node, has_ended_in, head_in, holder_of, is_held_in, node_at, node_of as node_for};
ghost use Rattle.queue_core.specs.Pooled.{nodes_of_each, opening_pooled, point_in as point_seen, reader_in, sender_at, stub_in, with_end};
ghost use Rattle.queue_core.specs.Pooled.{with_head, with_holder, with_node, with_point, with_reader, with_sender};
ghost use Rattle.queue_core.specs.PoolSteps.{answers, goes_to};

use crate::item::{Item, Took};
use crate::reader::{Reader, ReaderPoint};
use crate::sender::{Caller, SenderPoint};
use crate::words::{NULL, Node, link_to};
use std::alloc::{AllocError, Global};
use std::marker::Model;

/// The words of the mailboxes, their senders and their readers.
#[derive(Debug, Drop)]
pub struct State {
    /// How many ring nodes a sender has, for all mailboxes.
    pub(crate) ring: u64,
    /// How many posts a sender may fill, for all mailboxes.
    pub(crate) most: u64,
    /// The head of each mailbox: the node that was exchanged in last, plus 1.
    pub(crate) heads: Vec<u64>,
    pub(crate) nodes: Vec<Node>,
    /// The mailbox whose reader holds the node, if one does.
    pub(crate) holders: Vec<Option<u64>>,
    pub(crate) senders: Vec<Caller>,
    /// Whether a sender has ended in a mailbox: all mailboxes of the first sender, then those of the next.
    pub(crate) ended: Vec<bool>,
    /// The reader of each mailbox.
    pub(crate) readers: Vec<Reader>,
}

impl Model for State {
    ghost use Rattle.queue_core.specs.Pooled.{Pooled};

    ghost Value = { Pooled };

    ghost view = { λ s. record {
      ring = s.ring;
      most = s.most;
      heads = s.heads.items;
      nodes = s.nodes.items;
      holders = s.holders.items;
      senders = s.senders.items;
      ended = s.ended.items;
      readers = s.readers.items;
    } };
}

impl State {
    /// A state in which nothing has happened.
    pub(crate) fn open(
        alloc: Global,
        senders: u64,
        mailboxes: u64,
        nodes: u64,
        most: u64,
    ) -> Result<State, AllocError>
        requires senders { (0 < senders) × (senders ≤ MOST_SENDERS) }
        requires mailboxes { (0 < mailboxes) × (mailboxes ≤ MOST_MAILBOXES) }
        requires nodes { (0 < nodes) × (nodes ≤ MOST_NODES) }
        ensures { IfOk result (λ state. state ≡ opening_pooled senders mailboxes nodes most) }
    {
        let first_stub = senders * (nodes + mailboxes);
        let words = Node {
            next: NULL,
            turn: 0,
            line: 0,
            amount: 0,
        };
        let sender = Caller {
            point: SenderPoint::Rest,
            mailbox: 0,
            count: 0,
            last: None,
        };
        let mut heads = Vec::with_capacity(alloc, mailboxes as usize)?;
        let mut readers = Vec::with_capacity(alloc, mailboxes as usize)?;
        for mailbox in 0..mailboxes {
            heads.push(link_to(first_stub + mailbox))?;
            readers.push(Reader {
                point: ReaderPoint::Rest,
                tail: first_stub + mailbox,
                last: None,
            })?;
        }
        let all = (first_stub + mailboxes) as usize;
        Ok(State {
            ring: nodes,
            most,
            heads,
            nodes: vec![in alloc; words; all]?,
            holders: vec![in alloc; None; all]?,
            senders: vec![in alloc; sender; senders as usize]?,
            ended: vec![in alloc; false; (senders * mailboxes) as usize]?,
            readers,
        })
    }

    /// How many ring nodes a sender has.
    pub(crate) fn ring(&self) -> u64
        ensures { result ≡ self.now.ring }
    {
        self.ring
    }

    /// How many mailboxes there are.
    pub(crate) fn mailboxes(&self) -> u64
        ensures { result ≡ length self.now.heads }
    {
        self.heads.len() as u64
    }

    /// The word of the head of a mailbox.
    pub(crate) fn head(&self, b: u64) -> u64
        requires { b < length self.now.heads }
        ensures { result ≡ head_in self.now b }
    {
        self.heads[b as usize]
    }

    /// The words of a node.
    pub(crate) fn node(&self, n: u64) -> Node
        requires { n < length self.now.nodes }
        ensures { result ≡ node_at self.now n }
    {
        self.nodes[n as usize]
    }

    /// The first node of a sender.
    pub(crate) fn first_node(&self, p: u64) -> u64
        requires pooled { IsPooled self.now }
        requires sender { p < length self.now.senders }
        ensures node { result ≡ first_node self.now p }
        ensures within { result + nodes_of_each self.now ≤ length self.now.nodes }
    {
        p * (self.ring() + self.mailboxes())
    }

    /// The stub of a mailbox.
    pub(crate) fn stub(&self, b: u64) -> u64
        requires pooled { IsPooled self.now }
        requires mailbox { b < length self.now.heads }
        ensures node { result ≡ stub_in self.now b }
        ensures within { result < length self.now.nodes }
    {
        self.nodes.len() as u64 - self.mailboxes() + b
    }

    /// The mailbox whose reader holds a node, if one does.
    pub(crate) fn holder(&self, n: u64) -> Option<u64>
        ensures { result ≡ holder_of self.now n }
    {
        match self.holders.get(n as usize) {
            Some(holder) => *holder,
            None => None,
        }
    }

    /// Whether the reader of a mailbox holds a node.
    pub(crate) fn is_held(&self, b: u64, n: u64) -> bool
        ensures { result ≡ is_held_in self.now b n }
    {
        match self.holder(n) {
            Some(holder) => holder == b,
            None => false,
        }
    }

    /// A sender; where there is none, one that does nothing.
    pub(crate) fn sender(&self, p: u64) -> Caller
        ensures { result ≡ sender_at self.now p }
    {
        match self.senders.get(p as usize) {
            Some(sender) => *sender,
            None => Caller {
                point: SenderPoint::Rest,
                mailbox: 0,
                count: 0,
                last: None,
            },
        }
    }

    /// Where a sender is, as a mailbox sees it: at rest, except in that of its call.
    pub(crate) fn point_in(&self, b: u64, p: u64) -> SenderPoint
        ensures { result ≡ point_seen self.now b p }
    {
        let sender = self.sender(p);
        if sender.mailbox == b {
            sender.point
        } else {
            SenderPoint::Rest
        }
    }

    /// Whether a sender has ended in a mailbox, or does not exist.
    pub(crate) fn has_ended(&self, b: u64, p: u64) -> bool
        requires pooled { IsPooled self.now }
        requires mailbox { b < length self.now.heads }
        ensures ended { result ≡ has_ended_in self.now b p }
        ensures there { result ≡ false → p < length self.now.senders }
    {
        p >= self.senders.len() as u64 || self.ended[(p * self.mailboxes() + b) as usize]
    }

    /// The reader of a mailbox.
    pub(crate) fn reader(&self, b: u64) -> Reader
        requires { b < length self.now.readers }
        ensures { result ≡ reader_in self.now b }
    {
        self.readers[b as usize]
    }

    /// The node that a sender fills with an item of a mailbox.
    pub(crate) fn node_of(&self, b: u64, p: u64, item: Item) -> u64
        requires pooled { IsPooled self.now }
        requires mailbox { b < length self.now.heads }
        requires sender { p < length self.now.senders }
        ensures node { result ≡ node_for self.now b p item }
        ensures within { result < length self.now.nodes }
    {
        let ring = self.ring();
        let place = match item {
            Item::Post { .. } => self.sender(p).count % ring,
            Item::End => ring + b,
        };
        self.first_node(p) + place
    }

    /// Writes the word of the head of a mailbox.
    pub(crate) fn set_head(&mut self, b: u64, head: u64)
        requires { b < length self.old.heads }
        ensures { self.new ≡ with_head b head self.old }
    {
        self.heads[b as usize] = head;
    }

    /// Writes the words of a node.
    pub(crate) fn set_node(&mut self, n: u64, node: Node)
        requires { n < length self.old.nodes }
        ensures { self.new ≡ with_node n node self.old }
    {
        self.nodes[n as usize] = node;
    }

    /// Writes which mailbox's reader holds a node.
    pub(crate) fn set_holder(&mut self, n: u64, holder: Option<u64>)
        requires { n < length self.old.holders }
        ensures { self.new ≡ with_holder n holder self.old }
    {
        self.holders[n as usize] = holder;
    }

    /// Writes a sender.
    pub(crate) fn set_sender(&mut self, p: u64, sender: Caller)
        requires { p < length self.old.senders }
        ensures { self.new ≡ with_sender p sender self.old }
    {
        self.senders[p as usize] = sender;
    }

    /// A sender is at a point of a call in a mailbox.
    pub(crate) fn set_point(&mut self, b: u64, p: u64, point: SenderPoint)
        requires { p < length self.old.senders }
        ensures { self.new ≡ with_point b p point self.old }
    {
        let sender = self.sender(p);
        self.set_sender(
            p,
            Caller {
                point,
                mailbox: b,
                ..sender
            },
        );
    }

    /// A sender has ended in a mailbox.
    pub(crate) fn set_end(&mut self, b: u64, p: u64)
        requires pooled { length self.old.ended ≡ length self.old.senders * length self.old.heads }
        requires few { length self.old.senders ≤ MOST_SENDERS }
        requires mailbox { b < length self.old.heads }
        requires mailboxes { length self.old.heads ≤ MOST_MAILBOXES }
        requires sender { p < length self.old.senders }
        ensures { self.new ≡ with_end b p self.old }
    {
        let place = p * self.mailboxes() + b;
        self.ended[place as usize] = true;
    }

    /// Writes the reader of a mailbox.
    pub(crate) fn set_reader(&mut self, b: u64, reader: Reader)
        requires { b < length self.old.readers }
        ensures { self.new ≡ with_reader b reader self.old }
    {
        self.readers[b as usize] = reader;
    }

    /// The reader of a mailbox is at another point.
    pub(crate) fn go_to(&mut self, b: u64, point: ReaderPoint)
        requires { b < length self.old.readers }
        ensures { self.new ≡ goes_to b point self.old }
    {
        let reader = self.reader(b);
        self.set_reader(b, Reader { point, ..reader });
    }

    /// A take ends.
    pub(crate) fn answer(&mut self, b: u64, took: Took<u64>)
        requires { b < length self.old.readers }
        ensures { self.new ≡ answers b took self.old }
    {
        let reader = self.reader(b);
        self.set_reader(
            b,
            Reader {
                point: ReaderPoint::Rest,
                last: Some(took),
                ..reader
            },
        );
    }
}
