//! A table of nodes as its ends use it: senders, the receivers of its mailboxes, and a tally.
ghost use Rattle.std.specs.Prelude.{unsigned_abs, ◌≡◌, ◌++◌, ◌+◌, ◌/◌, ◌<◌, ◌≤◌, ◌∷◌, ℕ, [], HoldsAt, IfOk, None, get_or, Some, false, true, vec_items, vec_len};
ghost use Rattle.std.specs.Arc.{arc_value};
ghost use Rattle.queue_core.specs.declared.TheConstants.{MOST_AMOUNT, MOST_POOL_POSTS, MOST_POSTS};
ghost use Rattle.queue_core.specs.declared.item.Item.{Item as AnItem};
ghost use Rattle.queue_core.specs.declared.item.Item.TheVariants.{End, Post};
ghost use Rattle.queue_core.specs.declared.reader.ReaderPoint.TheVariants as reads;
ghost use Rattle.queue_core.specs.declared.sender.SenderPoint.TheVariants as sends;
ghost use Rattle.queue_core.specs.StoredWords.{amount_word};
ghost use Rattle.node_table.specs.declared.seats.Known.TheVariants.{Receives, Sends, Tallies};
ghost use Rattle.node_table.specs.Asks.{IsPosting, IsSending, IsTally, holding_in, receiver_in, sender_in, tally_in};
ghost use Rattle.queue_core.specs.Matches.{MatchPosted, MatchTook};
ghost use Rattle.node_table.specs.Calls.{AtNode, AtRest, HasFound, HasSameMail, IsAtRestSender, IsHeldSeat, IsHolder, IsTakingAt, after_post, finished_at, put_in_at, sent};
ghost use Rattle.node_table.specs.Layout.{IsSmall, head_word, next_word, nodes_in, slot_of, stub_of, words_in};
ghost use Rattle.node_table.specs.Rule.{opened_tally};
ghost use Rattle.node_table.specs.Seats.{HasEndedEverywhere, has_ended};
ghost use Rattle.node_table.specs.Tells.{BeginsAt, IsHeldAt, TallyBegins, new_receiver, new_sender, posting, with_hand, with_receiver, with_sender, with_taken_in};

use crate::layout::{first_of, head_word, slots_in, stub_of, words_in};
use crate::seats::{Posting, Shape};
use crate::steps;
use crate::steps::{Board, NodeSeat, Nodes};
use queue_core::{Item, NULL, Posted, Took, encoded, item_of, link_to, linked_node};
use std::alloc::{AllocError, Global};
use std::sync::Arc;

/// A sender to the mailboxes of a table. It may be moved to another thread.
#[derive(Drop)]
pub struct NodeSender {
    nodes: Arc<Nodes>,
    seat: NodeSeat,
    number: u64,
    count: u64,
    ghost seated: { seat.table_id ≡ (arc_value nodes).board.shared.table_id },
    ghost within: { number < (arc_value nodes).shape.senders },
    ghost me: { IsAtRestSender (arc_value nodes).shape number count seat.me },
}

/// The receiver of a mailbox. It may be moved to another thread.
#[derive(Drop)]
pub struct NodeReceiver {
    nodes: Arc<Nodes>,
    seat: NodeSeat,
    mailbox: u64,
    tail: u64,
    ghost seated: { seat.table_id ≡ (arc_value nodes).board.shared.table_id },
    ghost within: { mailbox < (arc_value nodes).shape.mailboxes },
    ghost rest: { IsTakingAt AtRest (arc_value nodes).shape mailbox tail seat.me },
    ghost begins: { BeginsAt (receiver_in seat.me.0) },
}

/// An item that was taken. It has a seat of its own, which says that its node is held.
pub struct NodeHeld {
    seat: NodeSeat,
    node: u64,
    number: u64,
    item: Item,
    ghost me: { IsHeldSeat node number item seat.me },
}

/// What gathers the receivers of a table and takes its senders in.
#[derive(Drop)]
pub struct NodeTally {
    nodes: Arc<Nodes>,
    seat: NodeSeat,
    ghost seated: { seat.table_id ≡ (arc_value nodes).board.shared.table_id },
    ghost me: { IsTally seat.me × ((tally_in seat.me.0).shape ≡ (arc_value nodes).shape) },
}

/// Puts a node in that is filled but for its next.
fn put_in(nodes: &Nodes, seat: &mut NodeSeat, mailbox: u64, node: u64)
    requires seat { seat.old.table_id ≡ nodes.now.board.shared.table_id }
    requires node { node < nodes_in nodes.now.shape }
    requires at { (item : AnItem) × IsSending nodes.now.shape (sends.Null item) mailbox item node seat.old.me }
    ensures same { seat.new.table_id ≡ seat.old.table_id }
    ensures told { seat.new.me ≡ (Sends (put_in_at (sender_in seat.old.me.0).caller.point (sender_in seat.old.me.0)), seat.old.me.1) }
{
    steps::store_null(nodes, seat, node);
    let before = steps::swap_head(nodes, seat, mailbox, node);
    steps::store_link(nodes, seat, before, node);
}

/// Stores the word of the amount of a node whose line is stored, and puts the node in.
fn finish(nodes: &Nodes, seat: &mut NodeSeat, mailbox: u64, node: u64, word: u64)
    requires seat { seat.old.table_id ≡ nodes.now.board.shared.table_id }
    requires node { node < nodes_in nodes.now.shape }
    requires at { (item : AnItem) × IsSending nodes.now.shape (sends.Amount item) mailbox item node seat.old.me × (amount_word item ≡ word) }
    ensures same { seat.new.table_id ≡ seat.old.table_id }
    ensures told { seat.new.me ≡ (Sends (finished_at (sender_in seat.old.me.0).caller.point (sender_in seat.old.me.0)), seat.old.me.1) }
{
    steps::store_amount(nodes, seat, node, word);
    put_in(nodes, seat, mailbox, node);
}

/// Sends a post, if the sender's next ring node is free. Whether it was.
fn send(
    nodes: &Nodes,
    seat: &mut NodeSeat,
    number: u64,
    count: u64,
    mailbox: u64,
    line: u64,
    amount: i64,
) -> bool
    requires seat { seat.old.table_id ≡ nodes.now.board.shared.table_id }
    requires number { number < nodes.now.shape.senders }
    requires at { IsPosting nodes.now.shape number count mailbox line amount seat.old.me }
    ensures same { seat.new.table_id ≡ seat.old.table_id }
    ensures told { seat.new.me ≡ (Sends (after_post result (posting mailbox (Post line amount)) (sender_in seat.old.me.0)), (slot_of number, posting mailbox (Post line amount)) ∷ []) }
    ensures full { result ≡ false → nodes.now.shape.ring ≤ count }
{
    if !steps::load_turn(nodes, seat, number, count, mailbox, line, amount) {
        return false;
    }
    let node = first_of(&nodes.shape, number) + count % nodes.shape.ring;
    steps::store_line(nodes, seat, node, line);
    finish(nodes, seat, mailbox, node, encoded(amount));
    true
}

/// Nothing follows the stub: the mailbox is empty, or something is on its way.
fn look_at_stub(nodes: &Nodes, seat: &mut NodeSeat, mailbox: u64, tail: u64) -> Took<u64>
    requires seat { seat.old.table_id ≡ nodes.now.board.shared.table_id }
    requires there { mailbox < nodes.now.shape.mailboxes }
    requires at { IsTakingAt (λ point. point ≡ reads.StubHead) nodes.now.shape mailbox tail seat.old.me }
    ensures same { seat.new.table_id ≡ seat.old.table_id }
    ensures found { HasFound nodes.now.shape mailbox (result, tail) seat.old.me seat.new.me }
{
    if steps::load_head(nodes, seat, mailbox) == link_to(tail) {
        Took::Empty
    } else {
        Took::Busy
    }
}

/// Exchanges the stub in behind the tail, and links it.
fn put_stub_in(nodes: &Nodes, seat: &mut NodeSeat, mailbox: u64, tail: u64)
    requires seat { seat.old.table_id ≡ nodes.now.board.shared.table_id }
    requires there { mailbox < nodes.now.shape.mailboxes }
    requires at { IsTakingAt (λ point. point ≡ reads.Null) nodes.now.shape mailbox tail seat.old.me }
    ensures same { seat.new.table_id ≡ seat.old.table_id }
    ensures at { IsTakingAt (λ point. point ≡ reads.Last) nodes.now.shape mailbox tail seat.new.me }
    ensures mail { HasSameMail (receiver_in seat.old.me.0) (receiver_in seat.new.me.0) }
{
    let stub = stub_of(&nodes.shape, mailbox);
    steps::stub_null(nodes, seat, mailbox, stub);
    let before = steps::stub_swap(nodes, seat, mailbox, stub);
    steps::stub_link(nodes, seat, mailbox, before, stub);
}

/// The tail has no next: where it is the last node too, the stub is put in behind it, and it is looked at once more.
fn take_last(nodes: &Nodes, seat: &mut NodeSeat, mailbox: u64, tail: u64) -> (Took<u64>, u64)
    requires seat { seat.old.table_id ≡ nodes.now.board.shared.table_id }
    requires there { mailbox < nodes.now.shape.mailboxes }
    requires at { IsTakingAt (λ point. point ≡ reads.NodeHead) nodes.now.shape mailbox tail seat.old.me }
    requires node { ¬ (tail ≡ stub_of nodes.now.shape mailbox) }
    ensures same { seat.new.table_id ≡ seat.old.table_id }
    ensures found { HasFound nodes.now.shape mailbox result seat.old.me seat.new.me }
{
    if steps::load_head(nodes, seat, mailbox) != link_to(tail) {
        return (Took::Busy, tail);
    }
    put_stub_in(nodes, seat, mailbox, tail);
    let next = steps::load_next(nodes, seat, tail);
    if next == NULL {
        (Took::Busy, tail)
    } else {
        (Took::Held(tail), linked_node(next))
    }
}

/// Takes the node at the tail, if another follows it. The answer, and the tail then.
fn take_node(nodes: &Nodes, seat: &mut NodeSeat, mailbox: u64, tail: u64) -> (Took<u64>, u64)
    requires seat { seat.old.table_id ≡ nodes.now.board.shared.table_id }
    requires there { mailbox < nodes.now.shape.mailboxes }
    requires at { IsTakingAt AtNode nodes.now.shape mailbox tail seat.old.me }
    requires node { ¬ (tail ≡ stub_of nodes.now.shape mailbox) }
    ensures same { seat.new.table_id ≡ seat.old.table_id }
    ensures found { HasFound nodes.now.shape mailbox result seat.old.me seat.new.me }
{
    let next = steps::load_next(nodes, seat, tail);
    if next == NULL {
        take_last(nodes, seat, mailbox, tail)
    } else {
        (Took::Held(tail), linked_node(next))
    }
}

/// Takes the next node, past the stub if it is at the tail. The answer, and the tail then.
fn take_from(nodes: &Nodes, seat: &mut NodeSeat, mailbox: u64, tail: u64) -> (Took<u64>, u64)
    requires seat { seat.old.table_id ≡ nodes.now.board.shared.table_id }
    requires there { mailbox < nodes.now.shape.mailboxes }
    requires at { IsTakingAt AtRest nodes.now.shape mailbox tail seat.old.me }
    ensures same { seat.new.table_id ≡ seat.old.table_id }
    ensures found { HasFound nodes.now.shape mailbox result seat.old.me seat.new.me }
{
    if tail != stub_of(&nodes.shape, mailbox) {
        return take_node(nodes, seat, mailbox, tail);
    }
    let next = steps::load_next(nodes, seat, tail);
    if next == NULL {
        return (look_at_stub(nodes, seat, mailbox, tail), tail);
    }
    take_node(nodes, seat, mailbox, linked_node(next))
}

/// The words of a table in which nothing has happened: each mailbox has its stub alone.
fn first_words(alloc: Global, shape: &Shape) -> Result<Vec<u64>, AllocError>
    requires { IsSmall shape.now }
    ensures wide { IfOk result (λ words. vec_len words ≡ words_in shape.now) }
    ensures heads { IfOk result (λ words. (b : ℕ) → b < shape.now.mailboxes → get_or (vec_items words) (head_word shape.now b) 0 ≡ stub_of shape.now b + 1) }
    ensures zeros { IfOk result (λ words. (n k : ℕ) → k < 4 → get_or (vec_items words) (next_word n + k) 0 ≡ 0) }
{
    let many = words_in(shape);
    let mut words = Vec::from_elem(alloc, NULL, many)?;
    for mailbox in 0..shape.mailboxes {
        let head = head_word(shape, mailbox);
        words[head] = link_to(stub_of(shape, mailbox));
    }
    Ok(words)
}

/// A table in which nothing has happened, and the tally's seat.
fn open_nodes(alloc: Global, shape: Shape) -> Result<(Arc<Nodes>, NodeSeat), AllocError>
    requires { IsSmall shape }
    ensures shape { IfOk result (λ r. (arc_value r.0).shape ≡ shape) }
    ensures seat { IfOk result (λ r. r.1.table_id ≡ (arc_value r.0).board.shared.table_id) }
    ensures tally { IfOk result (λ r. r.1.me ≡ (Tallies (opened_tally shape 0), [])) }
{
    let words = first_words(alloc, &shape)?;
    let slot = Posting {
        mailbox: 0,
        item: Item::End,
    };
    let slots = Vec::from_elem(alloc, slot, slots_in(&shape))?;
    let Ok((board, seat)) = Board::new(alloc, words.as_slice(), slots, &shape) else {
        return Err(AllocError);
    };
    Ok((Arc::new(alloc, Nodes { board, shape })?, seat))
}

impl NodeSender {
    ghost use Rattle.node_table.specs.Views.{AreNewSenders, WasFull, sender_of, table_of_sender};

    /// A sender for each number, each with its slot.
    fn deal_all(
        alloc: Global,
        nodes: &Arc<Nodes>,
        tally: &mut NodeSeat,
    ) -> Result<Vec<NodeSender>, AllocError>
        requires seated { tally.old.table_id ≡ (arc_value nodes.now).board.shared.table_id }
        requires me { tally.old.me ≡ (Tallies (opened_tally (arc_value nodes.now).shape 0), []) }
        ensures same { tally.new.table_id ≡ tally.old.table_id }
        ensures me { IfOk result (λ _. tally.new.me ≡ (Tallies (opened_tally (arc_value nodes.now).shape (arc_value nodes.now).shape.senders), [])) }
        ensures count { IfOk result (λ senders. vec_len senders ≡ (arc_value nodes.now).shape.senders) }
        ensures opened { IfOk result (λ senders. AreNewSenders tally.old.table_id (arc_value nodes.now).shape (vec_items senders)) }
    {
        let many = nodes.shape.senders;
        let mut senders = Vec::with_capacity(alloc, many as usize)?;
        for number in 0..many {
            let mut seat = steps::deal_seat(nodes, tally);
            steps::take_slot(nodes, &mut seat, number);
            senders.push(NodeSender {
                nodes: Arc::try_clone(nodes)?,
                seat,
                number,
                count: 0,
            })?;
        }
        Ok(senders)
    }

    /// Its number, from 0.
    pub fn number(&self) -> u64
        ensures { result ≡ (sender_of self.now).number }
    {
        self.number
    }

    /// Sends a post to a mailbox: the number of a usage line, at most 999,999, and an amount in minor units, of size 1 to
    /// 1,000,000,000,000. `Full`: nothing was sent, as what it posted as many posts ago as it has ring nodes was not given
    /// back, in whichever mailbox that was (`law_load_turn` of `queue_core` says so of the moment of the look).
    pub fn try_send(&mut self, mailbox: u64, line: u64, amount: i64) -> Posted
        requires there { mailbox < (sender_of self.old).shape.mailboxes }
        requires going { has_ended (sender_of self.old) mailbox ≡ false }
        requires few { (sender_of self.old).caller.count < MOST_POOL_POSTS }
        requires line { line < MOST_POSTS }
        requires amount { (0 < unsigned_abs amount) × (unsigned_abs amount ≤ MOST_AMOUNT) }
        ensures same { table_of_sender self.new ≡ table_of_sender self.old }
        ensures posted { MatchPosted result (sender_of self.new ≡ sent (posting mailbox (Post line amount)) (sender_of self.old)) (WasFull (sender_of self.old) (sender_of self.new)) }
    {
        if !send(
            &self.nodes,
            &mut self.seat,
            self.number,
            self.count,
            mailbox,
            line,
            amount,
        ) {
            return Posted::Full;
        }
        self.count += 1;
        Posted::Sent
    }

    /// Sends its end mark to a mailbox, after which it sends nothing there. The end mark has a node for itself.
    pub fn end(&mut self, mailbox: u64)
        requires there { mailbox < (sender_of self.old).shape.mailboxes }
        requires going { has_ended (sender_of self.old) mailbox ≡ false }
        ensures same { table_of_sender self.new ≡ table_of_sender self.old }
        ensures ended { sender_of self.new ≡ sent (posting mailbox End) (sender_of self.old) }
    {
        steps::end_line(&self.nodes, &mut self.seat, self.number, mailbox);
        let shape = &self.nodes.shape;
        let node = first_of(shape, self.number) + (shape.ring + mailbox);
        finish(&self.nodes, &mut self.seat, mailbox, node, 0);
    }

    /// Gives its slot back, and leaves its seat.
    fn leave(self) -> NodeSeat
        ensures same { result.table_id ≡ (table_of_sender self).table }
        ensures left { result.me ≡ (Sends (sender_of self), []) }
        ensures rest { (sender_of self).caller.point ≡ sends.Rest }
    {
        let NodeSender {
            nodes,
            mut seat,
            number: _,
            count: _,
        } = self;
        steps::give_slot(&nodes, &mut seat);
        seat
    }
}

impl NodeReceiver {
    ghost use Rattle.node_table.specs.Views.{AreNewReceivers, HasKept, HasTakenItem, WasAwaited, WasWhole, entry_of, holding_of};
    ghost use Rattle.node_table.specs.Views.{receiver_of, sender_of, table_of_held, table_of_receiver, table_of_sender};

    /// A receiver for each mailbox.
    fn deal_all(
        alloc: Global,
        nodes: &Arc<Nodes>,
        tally: &mut NodeSeat,
    ) -> Result<Vec<NodeReceiver>, AllocError>
        requires seated { tally.old.table_id ≡ (arc_value nodes.now).board.shared.table_id }
        requires me { tally.old.me ≡ (Tallies (opened_tally (arc_value nodes.now).shape (arc_value nodes.now).shape.senders), []) }
        ensures same { tally.new.table_id ≡ tally.old.table_id }
        ensures me { IfOk result (λ _. tally.new.me ≡ (Tallies (opened_tally (arc_value nodes.now).shape ((arc_value nodes.now).shape.senders + (arc_value nodes.now).shape.mailboxes)), [])) }
        ensures count { IfOk result (λ receivers. vec_len receivers ≡ (arc_value nodes.now).shape.mailboxes) }
        ensures opened { IfOk result (λ receivers. AreNewReceivers tally.old.table_id (arc_value nodes.now).shape (vec_items receivers)) }
    {
        let many = nodes.shape.mailboxes;
        let mut receivers = Vec::with_capacity(alloc, many as usize)?;
        for mailbox in 0..many {
            let mut seat = steps::deal_seat(nodes, tally);
            steps::begin_receiving(nodes, &mut seat, mailbox);
            receivers.push(NodeReceiver {
                nodes: Arc::try_clone(nodes)?,
                seat,
                mailbox,
                tail: stub_of(&nodes.shape, mailbox),
            })?;
        }
        Ok(receivers)
    }

    /// What is at hand gets a seat of its own, and its item is loaded.
    fn hold(nodes: &Nodes, seat: &mut NodeSeat, node: u64) -> NodeHeld
        requires seat { seat.old.table_id ≡ nodes.now.board.shared.table_id }
        requires at { IsHolder nodes.now.shape node seat.old.me }
        ensures same { (seat.new.table_id ≡ seat.old.table_id) × (result.seat.table_id ≡ seat.old.table_id) }
        ensures reads { seat.new.me ≡ (Receives (with_hand None (receiver_in seat.old.me.0)), []) }
        ensures hand { (receiver_in seat.old.me.0).at_hand ≡ Some (holding_in result.seat.me.0) }
        ensures held { IsHeldSeat result.node result.number result.item result.seat.me }
    {
        let line = steps::load_line(nodes, seat, node);
        let word = steps::load_amount(nodes, seat, node);
        NodeHeld {
            seat: steps::hand_out(nodes, seat),
            node,
            number: node / (nodes.shape.ring + nodes.shape.mailboxes),
            item: item_of(line, word),
        }
    }

    /// The number of its mailbox, from 0.
    pub fn mailbox(&self) -> u64
        ensures { result ≡ (receiver_of self.now).mailbox }
    {
        self.mailbox
    }

    /// Takes an item of any sender, which was not taken before, and is held from then on. `Empty`: all is received of the
    /// senders that it took in. `Busy`: something may be on its way, and some sender was not taken in.
    pub fn take(&mut self) -> Took<NodeHeld>
        ensures same { table_of_receiver self.new ≡ table_of_receiver self.old }
        ensures took { MatchTook result (HasTakenItem self.old self.new) (WasWhole (receiver_of self.old) (receiver_of self.new)) (WasAwaited (receiver_of self.old) (receiver_of self.new)) }
        ensures begins { BeginsAt (receiver_of self.new) }
    {
        let (took, tail) = take_from(&self.nodes, &mut self.seat, self.mailbox, self.tail);
        self.tail = tail;
        match took {
            Took::Held(node) => Took::Held(NodeReceiver::hold(&self.nodes, &mut self.seat, node)),
            Took::Empty => Took::Empty,
            Took::Busy => Took::Busy,
        }
    }

    /// Gives an item back, which was held, and with it the node that it stood in.
    pub fn give_back(&mut self, held: NodeHeld)
        requires table { table_of_held held ≡ table_of_receiver self.old }
        requires mailbox { (holding_of held).mailbox ≡ (receiver_of self.old).mailbox }
        ensures same { table_of_receiver self.new ≡ table_of_receiver self.old }
        ensures given { (receiver_of self.new).given ≡ (receiver_of self.old).given ++ entry_of (holding_of held) ∷ [] }
        ensures kept { HasKept (receiver_of self.old) (receiver_of self.new) }
        ensures held { IsHeldAt (receiver_of self.old) (holding_of held) }
    {
        let NodeHeld {
            seat,
            node,
            number: _,
            item: _,
        } = held;
        steps::take_back(&self.nodes, &mut self.seat, seat);
        steps::give_back(&self.nodes, &mut self.seat, node);
    }

    /// Takes in a sender that has ended in its mailbox: from then on the receiver knows what it sent there.
    pub fn take_in(&mut self, sender: NodeSender)
        requires table { table_of_sender sender ≡ table_of_receiver self.old }
        requires ended { has_ended (sender_of sender) (receiver_of self.old).mailbox ≡ true }
        ensures same { table_of_receiver self.new ≡ table_of_receiver self.old }
        ensures known { receiver_of self.new ≡ with_taken_in (sender_of sender) (receiver_of self.old) }
        ensures begins { BeginsAt (receiver_of self.new) }
    {
        let seat = sender.leave();
        steps::take_in(&self.nodes, &mut self.seat, seat);
        steps::look_again(&self.nodes, &mut self.seat);
    }
}

impl NodeHeld {
    ghost use Rattle.node_table.specs.Views.{holding_of};

    /// The sender's number, and the item.
    pub fn read(&self) -> (u64, Item)
        ensures { result ≡ ((holding_of self.now).sender, (holding_of self.now).item) }
    {
        (self.number, self.item)
    }
}

impl NodeTally {
    ghost use Rattle.node_table.specs.Views.{receiver_of, sender_of, table_of_receiver, table_of_sender, table_of_tally, tally_of};

    /// A table of 1 to 8 senders, each with 1 to 64 ring nodes, and of 1 to 16,384 mailboxes: its senders by number, its
    /// receivers by mailbox, and its tally. The only call that takes memory.
    pub fn open(
        alloc: Global,
        shape: Shape,
    ) -> Result<(Vec<NodeSender>, Vec<NodeReceiver>, NodeTally), AllocError>
        requires { IsSmall shape }
        ensures senders_count { IfOk result (λ r. vec_len r.0 ≡ shape.senders) }
        ensures receivers_count { IfOk result (λ r. vec_len r.1 ≡ shape.mailboxes) }
        ensures senders { IfOk result (λ r. (p : ℕ) → p < shape.senders → HoldsAt (λ s. (table_of_sender s ≡ table_of_tally r.2) × (sender_of s ≡ new_sender shape p)) (vec_items r.0) p) }
        ensures receivers { IfOk result (λ r. (b : ℕ) → b < shape.mailboxes → HoldsAt (λ s. (table_of_receiver s ≡ table_of_tally r.2) × (receiver_of s ≡ new_receiver shape b)) (vec_items r.1) b) }
        ensures tally { IfOk result (λ r. tally_of r.2 ≡ opened_tally shape (shape.senders + shape.mailboxes)) }
    {
        let (nodes, mut seat) = open_nodes(alloc, shape)?;
        let senders = NodeSender::deal_all(alloc, &nodes, &mut seat)?;
        let receivers = NodeReceiver::deal_all(alloc, &nodes, &mut seat)?;
        Ok((senders, receivers, NodeTally { nodes, seat }))
    }

    /// Gathers the receiver of a mailbox: what that received is known from then on.
    pub fn gather(&mut self, receiver: NodeReceiver)
        requires table { table_of_receiver receiver ≡ table_of_tally self.old }
        ensures same { table_of_tally self.new ≡ table_of_tally self.old }
        ensures gathered { tally_of self.new ≡ with_receiver (receiver_of receiver) (tally_of self.old) }
        ensures begins { TallyBegins (tally_of self.new) }
    {
        steps::gather(&self.nodes, &mut self.seat, receiver.seat);
        steps::tally_look(&self.nodes, &mut self.seat);
    }

    /// Takes in a sender that has ended in every mailbox: what it sent in each is known from then on.
    pub fn take_in(&mut self, sender: NodeSender)
        requires table { table_of_sender sender ≡ table_of_tally self.old }
        requires ended { HasEndedEverywhere (sender_of sender) }
        ensures same { table_of_tally self.new ≡ table_of_tally self.old }
        ensures taken { tally_of self.new ≡ with_sender (sender_of sender) (tally_of self.old) }
        ensures begins { TallyBegins (tally_of self.new) }
    {
        let seat = sender.leave();
        steps::tally_in(&self.nodes, &mut self.seat, seat);
        steps::tally_look(&self.nodes, &mut self.seat);
    }
}
