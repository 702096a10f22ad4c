//! The atomic steps at a table of nodes. Each kind of step is a type with one thin function that makes it; its contract
//! says what the seat knows then.
ghost use Rattle.std.specs.Prelude.{◌≡◌, ◌<◌, ◌≤◌, ◌+◌, ◌%◌, ◌∷◌, ℕ, [], None, Some, false};
ghost use Rattle.queue_core.specs.declared.item.Item.{Item as AnItem};
ghost use Rattle.queue_core.specs.declared.item.Item.TheVariants.{End, Post};
ghost use Rattle.queue_core.specs.declared.reader.ReaderPoint.TheVariants as reads;
ghost use Rattle.queue_core.specs.declared.sender.SenderPoint.TheVariants as sends;
ghost use Rattle.queue_core.specs.StoredWords.{amount_word, line_word};
ghost use Rattle.node_table.specs.declared.seats.Holding.{Holding as AHolding};
ghost use Rattle.node_table.specs.declared.seats.Known.TheVariants.{Gone, Receives, Sends};
ghost use Rattle.node_table.specs.Layout.{IsTableOf, first_of, nodes_in, slot_of, stub_of};
ghost use Rattle.node_table.specs.Rule.{KeepsNodes, nodes_opened};
ghost use Rattle.node_table.specs.Asks.{HasAtHand, IsDealing, IsEnding, IsGathering, IsHandingOut, IsPosting, IsReading, IsResting};
ghost use Rattle.node_table.specs.Asks.{IsSending, IsDealtSender, IsTakingBack, IsTakingIn, IsTally, IsTallying, IsDealtReceiver};
ghost use Rattle.node_table.specs.Asks.{after_look, after_swap_on, receiver_in, sender_in, tally_in};
ghost use Rattle.node_table.specs.Tells.{BeginsAt, HasLoadedHead, HasLoadedNext, IsHeldAt, LoadsHead, LoadsNext, TallyBegins};
ghost use Rattle.node_table.specs.Tells.{after_amount_at, after_deal, after_give, after_hand, after_line_at, after_link_at};
ghost use Rattle.node_table.specs.Tells.{after_null_at, dealt, filling, gathered, hand_of, in_slot, new_receiver};
ghost use Rattle.node_table.specs.Tells.{new_sender, posting, reading_at, taken_back, taken_in, tallied};
ghost use Rattle.node_table.specs.Tells.{tells_begin_receiving, tells_give_back, tells_give_slot, tells_load_amount};
ghost use Rattle.node_table.specs.Tells.{tells_load_head, tells_load_line, tells_load_next, tells_load_turn, tells_look};
ghost use Rattle.node_table.specs.Tells.{tells_store_amount, tells_store_line, tells_store_link, tells_store_null, tells_stub_link};
ghost use Rattle.node_table.specs.Tells.{tells_stub_null, tells_stub_swap, tells_swap_head, tells_take_slot, tells_tally};

use crate::layout::{
    amount_word_of, first_of, head_word, line_word_of, next_word, slot_of, stub_of, turn_word,
};
use crate::seats::{Known, Posting, Shape};
use atomic_table::{Join, Play, Seat, Split, Table, TableRule};
use queue_core::{Item, NULL, link_to, linked_node};
use std::alloc::Global;

/// The rule of the table.
pub struct Linking;

impl TableRule<Posting, Known, Shape> for Linking {
    ghost holds = { KeepsNodes };

    ghost first = { nodes_opened };
}

/// The tally deals a seat.
struct DealSeat;

impl Split<Known> for DealSeat {
    ghost left = { after_deal };

    ghost right = { dealt };
}

/// What a receiver has at hand gets a seat of its own.
struct HandOut;

impl Split<Known> for HandOut {
    ghost left = { after_hand };

    ghost right = { hand_of };
}

struct TakeBack;

impl Join<Known> for TakeBack {
    ghost both = { taken_back };

    ghost spent = { Gone };
}

/// A receiver takes a sender in.
struct TakeIn;

impl Join<Known> for TakeIn {
    ghost both = { taken_in };

    ghost spent = { Gone };
}

/// The tally gathers a receiver.
struct GatherReceiver;

impl Join<Known> for GatherReceiver {
    ghost both = { gathered };

    ghost spent = { Gone };
}

/// The tally takes a sender in.
struct TallyIn;

impl Join<Known> for TallyIn {
    ghost both = { tallied };

    ghost spent = { Gone };
}

/// A sender takes the slot in which it lays what it is to fill.
struct TakeSlot;

impl Play<Posting, Known> for TakeSlot {
    ghost then = { tells_take_slot };
}

struct GiveSlot;

impl Play<Posting, Known> for GiveSlot {
    ghost then = { tells_give_slot };
}

struct BeginReceiving;

impl Play<Posting, Known> for BeginReceiving {
    ghost then = { tells_begin_receiving };
}

struct LoadTurn;

impl Play<Posting, Known> for LoadTurn {
    ghost then = { tells_load_turn };
}

struct StoreLine;

impl Play<Posting, Known> for StoreLine {
    ghost then = { tells_store_line };
}

struct StoreAmount;

impl Play<Posting, Known> for StoreAmount {
    ghost then = { tells_store_amount };
}

struct StoreNull;

impl Play<Posting, Known> for StoreNull {
    ghost then = { tells_store_null };
}

struct SwapHead;

impl Play<Posting, Known> for SwapHead {
    ghost then = { tells_swap_head };
}

struct StoreLink;

impl Play<Posting, Known> for StoreLink {
    ghost then = { tells_store_link };
}

struct LoadNext;

impl Play<Posting, Known> for LoadNext {
    ghost then = { tells_load_next };
}

struct LoadHead;

impl Play<Posting, Known> for LoadHead {
    ghost then = { tells_load_head };
}

struct StubNull;

impl Play<Posting, Known> for StubNull {
    ghost then = { tells_stub_null };
}

struct StubSwap;

impl Play<Posting, Known> for StubSwap {
    ghost then = { tells_stub_swap };
}

struct StubLink;

impl Play<Posting, Known> for StubLink {
    ghost then = { tells_stub_link };
}

struct Look;

impl Play<Posting, Known> for Look {
    ghost then = { tells_look };
}

struct LoadLine;

impl Play<Posting, Known> for LoadLine {
    ghost then = { tells_load_line };
}

struct LoadAmount;

impl Play<Posting, Known> for LoadAmount {
    ghost then = { tells_load_amount };
}

struct GiveBack;

impl Play<Posting, Known> for GiveBack {
    ghost then = { tells_give_back };
}

/// The tally looks at a word that nobody writes.
struct TallyLook;

impl Play<Posting, Known> for TallyLook {
    ghost then = { tells_tally };
}

pub type Board = Table<Posting, Known, Shape, Linking, Global>;

pub type NodeSeat = Seat<Posting, Known>;

/// A table of nodes, and its shape.
#[derive(Drop)]
pub struct Nodes {
    pub(crate) board: Board,
    pub(crate) shape: Shape,
    ghost table: { IsTableOf shape board.shared.key board.shared.table_id.words },
}

/// The tally deals the next seat: the senders come first, then the receivers.
pub fn deal_seat(nodes: &Nodes, tally: &mut NodeSeat) -> NodeSeat
    requires seat { tally.old.table_id ≡ nodes.now.board.shared.table_id }
    requires at { IsDealing tally.old.me }
    ensures same { (tally.new.table_id ≡ tally.old.table_id) × (result.table_id ≡ tally.old.table_id) }
    ensures dealt { (tally.new.me ≡ (after_deal tally.old.me.0, [])) × (result.me ≡ (dealt tally.old.me.0, [])) }
{
    nodes.board.shared.split_seat::<DealSeat>(tally)
}

/// What a receiver has at hand gets a seat of its own.
pub fn hand_out(nodes: &Nodes, receiver: &mut NodeSeat) -> NodeSeat
    requires seat { receiver.old.table_id ≡ nodes.now.board.shared.table_id }
    requires at { IsHandingOut receiver.old.me }
    ensures same { (receiver.new.table_id ≡ receiver.old.table_id) × (result.table_id ≡ receiver.old.table_id) }
    ensures handed { (receiver.new.me ≡ (after_hand receiver.old.me.0, [])) × (result.me ≡ (hand_of receiver.old.me.0, [])) }
{
    nodes.board.shared.split_seat::<HandOut>(receiver)
}

/// A receiver takes back what was handed out.
pub fn take_back(nodes: &Nodes, receiver: &mut NodeSeat, held: NodeSeat)
    requires seat { (receiver.old.table_id ≡ nodes.now.board.shared.table_id) × (held.table_id ≡ nodes.now.board.shared.table_id) }
    requires at { IsTakingBack receiver.old.me held.me }
    ensures same { receiver.new.table_id ≡ receiver.old.table_id }
    ensures taken { receiver.new.me ≡ (taken_back receiver.old.me.0 held.me.0, []) }
{
    nodes.board.shared.join_seat::<TakeBack>(receiver, held);
}

/// A receiver takes a sender in.
pub fn take_in(nodes: &Nodes, receiver: &mut NodeSeat, sender: NodeSeat)
    requires seat { (receiver.old.table_id ≡ nodes.now.board.shared.table_id) × (sender.table_id ≡ nodes.now.board.shared.table_id) }
    requires at { IsTakingIn receiver.old.me sender.me }
    ensures same { receiver.new.table_id ≡ receiver.old.table_id }
    ensures taken { receiver.new.me ≡ (taken_in receiver.old.me.0 sender.me.0, []) }
{
    nodes.board.shared.join_seat::<TakeIn>(receiver, sender);
}

/// The tally gathers a receiver: what that received is known to the tally.
pub fn gather(nodes: &Nodes, tally: &mut NodeSeat, receiver: NodeSeat)
    requires seat { (tally.old.table_id ≡ nodes.now.board.shared.table_id) × (receiver.table_id ≡ nodes.now.board.shared.table_id) }
    requires at { IsGathering tally.old.me receiver.me }
    ensures same { tally.new.table_id ≡ tally.old.table_id }
    ensures taken { tally.new.me ≡ (gathered tally.old.me.0 receiver.me.0, []) }
{
    nodes
        .board
        .shared
        .join_seat::<GatherReceiver>(tally, receiver);
}

/// The tally takes a sender in: what the sender sent in each mailbox is known to the tally.
pub fn tally_in(nodes: &Nodes, tally: &mut NodeSeat, sender: NodeSeat)
    requires seat { (tally.old.table_id ≡ nodes.now.board.shared.table_id) × (sender.table_id ≡ nodes.now.board.shared.table_id) }
    requires at { IsTallying tally.old.me sender.me }
    ensures same { tally.new.table_id ≡ tally.old.table_id }
    ensures taken { tally.new.me ≡ (tallied tally.old.me.0 sender.me.0, []) }
{
    nodes.board.shared.join_seat::<TallyIn>(tally, sender);
}

/// A sender begins, and takes its slot.
pub fn take_slot(nodes: &Nodes, seat: &mut NodeSeat, number: u64)
    requires seat { seat.old.table_id ≡ nodes.now.board.shared.table_id }
    requires at { IsDealtSender nodes.now.shape number seat.old.me }
    ensures same { seat.new.table_id ≡ seat.old.table_id }
    ensures told { seat.new.me ≡ (Sends (new_sender nodes.now.shape number), (slot_of number, in_slot seat.new.me.1) ∷ []) }
{
    nodes.board.shared.load::<TakeSlot>(seat, 0);
}

/// The receiver of a mailbox begins.
pub fn begin_receiving(nodes: &Nodes, seat: &mut NodeSeat, mailbox: u64)
    requires seat { seat.old.table_id ≡ nodes.now.board.shared.table_id }
    requires at { IsDealtReceiver nodes.now.shape mailbox seat.old.me }
    ensures same { seat.new.table_id ≡ seat.old.table_id }
    ensures told { seat.new.me ≡ (Receives (new_receiver nodes.now.shape mailbox), []) }
{
    nodes.board.shared.load::<BeginReceiving>(seat, 0);
}

/// A sender lays a post into its slot, and loads the turn of its next ring node. Answers whether that node is free; if so
/// the post is filled by this step.
pub fn load_turn(
    nodes: &Nodes,
    seat: &mut NodeSeat,
    number: u64,
    count: u64,
    mailbox: u64,
    line: u64,
    amount: i64,
) -> bool
    requires seat { seat.old.table_id ≡ nodes.now.board.shared.table_id }
    requires number { number < nodes.now.shape.senders }
    requires at { IsPosting nodes.now.shape number count mailbox line amount seat.old.me }
    ensures same { seat.new.table_id ≡ seat.old.table_id }
    ensures told { seat.new.me ≡ (Sends (after_look result (posting mailbox (Post line amount)) (sender_in seat.old.me.0)), (slot_of number, posting mailbox (Post line amount)) ∷ []) }
    ensures full { result ≡ false → nodes.now.shape.ring ≤ count }
{
    nodes.board.shared.exchange(
        seat,
        slot_of(number),
        Posting {
            mailbox,
            item: Item::Post { line, amount },
        },
    );
    let node = first_of(&nodes.shape, number) + count % nodes.shape.ring;
    let word = turn_word(node);
    nodes.board.shared.load::<LoadTurn>(seat, word) == count / nodes.shape.ring
}

/// It stores the line of its item.
pub fn store_line(nodes: &Nodes, seat: &mut NodeSeat, node: u64, line: u64)
    requires seat { seat.old.table_id ≡ nodes.now.board.shared.table_id }
    requires node { node < nodes_in nodes.now.shape }
    requires small { line < 10000000 }
    requires at { (mailbox : ℕ) × (item : AnItem) × IsSending nodes.now.shape (sends.Line item) mailbox item node seat.old.me × (line_word item ≡ line + 1) }
    ensures same { seat.new.table_id ≡ seat.old.table_id }
    ensures told { seat.new.me ≡ (Sends (after_line_at (sender_in seat.old.me.0).caller.point (in_slot seat.old.me.1) (sender_in seat.old.me.0)), seat.old.me.1) }
{
    let word = line_word_of(node);
    nodes.board.shared.store::<StoreLine>(seat, word, line + 1);
}

/// It lays an end mark into its slot, and stores its line: by that it is filled.
pub fn end_line(nodes: &Nodes, seat: &mut NodeSeat, number: u64, mailbox: u64)
    requires seat { seat.old.table_id ≡ nodes.now.board.shared.table_id }
    requires number { number < nodes.now.shape.senders }
    requires at { IsEnding nodes.now.shape number mailbox seat.old.me }
    ensures same { seat.new.table_id ≡ seat.old.table_id }
    ensures told { seat.new.me ≡ (Sends (filling (sends.Amount End) (posting mailbox End) (sender_in seat.old.me.0)), (slot_of number, posting mailbox End) ∷ []) }
{
    nodes.board.shared.exchange(
        seat,
        slot_of(number),
        Posting {
            mailbox,
            item: Item::End,
        },
    );
    let node = first_of(&nodes.shape, number) + (nodes.shape.ring + mailbox);
    let word = line_word_of(node);
    nodes.board.shared.store::<StoreLine>(seat, word, 0);
}

/// It stores the word of its item's amount.
pub fn store_amount(nodes: &Nodes, seat: &mut NodeSeat, node: u64, amount: u64)
    requires seat { seat.old.table_id ≡ nodes.now.board.shared.table_id }
    requires node { node < nodes_in nodes.now.shape }
    requires at { (mailbox : ℕ) × (item : AnItem) × IsSending nodes.now.shape (sends.Amount item) mailbox item node seat.old.me × (amount_word item ≡ amount) }
    ensures same { seat.new.table_id ≡ seat.old.table_id }
    ensures told { seat.new.me ≡ (Sends (after_amount_at (sender_in seat.old.me.0).caller.point (sender_in seat.old.me.0)), seat.old.me.1) }
{
    let word = amount_word_of(node);
    nodes.board.shared.store::<StoreAmount>(seat, word, amount);
}

/// It stores null as the next of its node.
pub fn store_null(nodes: &Nodes, seat: &mut NodeSeat, node: u64)
    requires seat { seat.old.table_id ≡ nodes.now.board.shared.table_id }
    requires node { node < nodes_in nodes.now.shape }
    requires at { (mailbox : ℕ) × (item : AnItem) × IsSending nodes.now.shape (sends.Null item) mailbox item node seat.old.me }
    ensures same { seat.new.table_id ≡ seat.old.table_id }
    ensures told { seat.new.me ≡ (Sends (after_null_at (sender_in seat.old.me.0).caller.point (sender_in seat.old.me.0)), seat.old.me.1) }
{
    let word = next_word(node);
    nodes.board.shared.store::<StoreNull>(seat, word, NULL);
}

/// It exchanges the head of the mailbox for its node. What was the head is the node that gets the link.
pub fn swap_head(nodes: &Nodes, seat: &mut NodeSeat, mailbox: u64, node: u64) -> u64
    requires seat { seat.old.table_id ≡ nodes.now.board.shared.table_id }
    requires node { node < nodes_in nodes.now.shape }
    requires at { (item : AnItem) × IsSending nodes.now.shape (sends.Swap item) mailbox item node seat.old.me }
    ensures same { seat.new.table_id ≡ seat.old.table_id }
    ensures told { seat.new.me ≡ (Sends (after_swap_on (sender_in seat.old.me.0).caller.point result (sender_in seat.old.me.0)), seat.old.me.1) }
    ensures before { result < nodes_in nodes.now.shape }
{
    let word = head_word(&nodes.shape, mailbox);
    let link = link_to(node);
    linked_node(nodes.board.shared.swap::<SwapHead>(seat, word, link))
}

/// It stores its node as the next of the node that was the head.
pub fn store_link(nodes: &Nodes, seat: &mut NodeSeat, before: u64, node: u64)
    requires seat { seat.old.table_id ≡ nodes.now.board.shared.table_id }
    requires nodes { (node < nodes_in nodes.now.shape) × (before < nodes_in nodes.now.shape) }
    requires at { (mailbox : ℕ) × (item : AnItem) × IsSending nodes.now.shape (sends.Link item before) mailbox item node seat.old.me }
    ensures same { seat.new.table_id ≡ seat.old.table_id }
    ensures told { seat.new.me ≡ (Sends (after_link_at (sender_in seat.old.me.0).caller.point (sender_in seat.old.me.0)), seat.old.me.1) }
{
    let word = next_word(before);
    let link = link_to(node);
    nodes.board.shared.store::<StoreLink>(seat, word, link);
}

/// A sender in no call gives its slot back.
pub fn give_slot(nodes: &Nodes, seat: &mut NodeSeat)
    requires seat { seat.old.table_id ≡ nodes.now.board.shared.table_id }
    requires at { IsResting seat.old.me }
    ensures same { seat.new.table_id ≡ seat.old.table_id }
    ensures told { seat.new.me ≡ (Sends (sender_in seat.old.me.0), []) }
{
    nodes.board.shared.load::<GiveSlot>(seat, 0);
}

/// The receiver loads the next of its tail.
pub fn load_next(nodes: &Nodes, seat: &mut NodeSeat, tail: u64) -> u64
    requires seat { seat.old.table_id ≡ nodes.now.board.shared.table_id }
    requires tail { tail < nodes_in nodes.now.shape }
    requires at { (mailbox : ℕ) × IsReading LoadsNext nodes.now.shape mailbox tail seat.old.me }
    requires free { (receiver_in seat.old.me.0).at_hand ≡ None }
    ensures same { seat.new.table_id ≡ seat.old.table_id }
    ensures reads { seat.new.me ≡ (Receives (receiver_in seat.new.me.0), []) }
    ensures told { HasLoadedNext result (receiver_in seat.old.me.0) (receiver_in seat.new.me.0) }
{
    let word = next_word(tail);
    nodes.board.shared.load::<LoadNext>(seat, word)
}

/// It loads the head of its mailbox.
pub fn load_head(nodes: &Nodes, seat: &mut NodeSeat, mailbox: u64) -> u64
    requires seat { seat.old.table_id ≡ nodes.now.board.shared.table_id }
    requires there { mailbox < nodes.now.shape.mailboxes }
    requires at { (tail : ℕ) × IsReading LoadsHead nodes.now.shape mailbox tail seat.old.me }
    ensures same { seat.new.table_id ≡ seat.old.table_id }
    ensures reads { seat.new.me ≡ (Receives (receiver_in seat.new.me.0), []) }
    ensures told { HasLoadedHead result (receiver_in seat.old.me.0) (receiver_in seat.new.me.0) }
{
    let word = head_word(&nodes.shape, mailbox);
    nodes.board.shared.load::<LoadHead>(seat, word)
}

/// It stores null as the stub's next.
pub fn stub_null(nodes: &Nodes, seat: &mut NodeSeat, mailbox: u64, stub: u64)
    requires seat { seat.old.table_id ≡ nodes.now.board.shared.table_id }
    requires there { mailbox < nodes.now.shape.mailboxes }
    requires stub { stub ≡ stub_of nodes.now.shape mailbox }
    requires at { (tail : ℕ) × IsReading (λ point. point ≡ reads.Null) nodes.now.shape mailbox tail seat.old.me }
    ensures same { seat.new.table_id ≡ seat.old.table_id }
    ensures told { seat.new.me ≡ (Receives (reading_at reads.Swap (receiver_in seat.old.me.0)), []) }
{
    let word = next_word(stub);
    nodes.board.shared.store::<StubNull>(seat, word, NULL);
}

/// It exchanges the head of its mailbox for the stub. What was the head is the node that gets the link.
pub fn stub_swap(nodes: &Nodes, seat: &mut NodeSeat, mailbox: u64, stub: u64) -> u64
    requires seat { seat.old.table_id ≡ nodes.now.board.shared.table_id }
    requires there { mailbox < nodes.now.shape.mailboxes }
    requires stub { stub ≡ stub_of nodes.now.shape mailbox }
    requires at { (tail : ℕ) × IsReading (λ point. point ≡ reads.Swap) nodes.now.shape mailbox tail seat.old.me }
    ensures same { seat.new.table_id ≡ seat.old.table_id }
    ensures told { seat.new.me ≡ (Receives (reading_at (reads.Link result) (receiver_in seat.old.me.0)), []) }
    ensures before { result < nodes_in nodes.now.shape }
{
    let word = head_word(&nodes.shape, mailbox);
    let link = link_to(stub);
    linked_node(nodes.board.shared.swap::<StubSwap>(seat, word, link))
}

/// It stores the stub as the next of the node that was the head.
pub fn stub_link(nodes: &Nodes, seat: &mut NodeSeat, mailbox: u64, before: u64, stub: u64)
    requires seat { seat.old.table_id ≡ nodes.now.board.shared.table_id }
    requires before { before < nodes_in nodes.now.shape }
    requires there { mailbox < nodes.now.shape.mailboxes }
    requires stub { stub ≡ stub_of nodes.now.shape mailbox }
    requires at { (tail : ℕ) × IsReading (λ point. point ≡ reads.Link before) nodes.now.shape mailbox tail seat.old.me }
    ensures same { seat.new.table_id ≡ seat.old.table_id }
    ensures told { seat.new.me ≡ (Receives (reading_at reads.Last (receiver_in seat.old.me.0)), []) }
{
    let word = next_word(before);
    let link = link_to(stub);
    nodes.board.shared.store::<StubLink>(seat, word, link);
}

/// It loads the line of what it has at hand.
pub fn load_line(nodes: &Nodes, seat: &mut NodeSeat, node: u64) -> u64
    requires seat { seat.old.table_id ≡ nodes.now.board.shared.table_id }
    requires node { node < nodes_in nodes.now.shape }
    requires at { HasAtHand nodes.now.shape node seat.old.me }
    ensures same { seat.new.table_id ≡ seat.old.table_id }
    ensures told { seat.new.me ≡ seat.old.me }
    ensures found { (h : AHolding) → (receiver_in seat.old.me.0).at_hand ≡ Some h → result ≡ line_word h.item }
{
    let word = line_word_of(node);
    nodes.board.shared.load::<LoadLine>(seat, word)
}

/// It loads the amount.
pub fn load_amount(nodes: &Nodes, seat: &mut NodeSeat, node: u64) -> u64
    requires seat { seat.old.table_id ≡ nodes.now.board.shared.table_id }
    requires node { node < nodes_in nodes.now.shape }
    requires at { HasAtHand nodes.now.shape node seat.old.me }
    ensures same { seat.new.table_id ≡ seat.old.table_id }
    ensures told { seat.new.me ≡ seat.old.me }
    ensures found { (h : AHolding) → (receiver_in seat.old.me.0).at_hand ≡ Some h → result ≡ amount_word h.item }
{
    let word = amount_word_of(node);
    nodes.board.shared.load::<LoadAmount>(seat, word)
}

/// It gives back what it has at hand, which is held: one more turn of its node.
pub fn give_back(nodes: &Nodes, seat: &mut NodeSeat, node: u64)
    requires seat { seat.old.table_id ≡ nodes.now.board.shared.table_id }
    requires node { node < nodes_in nodes.now.shape }
    requires at { HasAtHand nodes.now.shape node seat.old.me }
    ensures same { seat.new.table_id ≡ seat.old.table_id }
    ensures told { seat.new.me ≡ (Receives (after_give (receiver_in seat.old.me.0).at_hand (receiver_in seat.old.me.0)), []) }
    ensures held { (h : AHolding) → (receiver_in seat.old.me.0).at_hand ≡ Some h → IsHeldAt (receiver_in seat.old.me.0) h }
{
    let word = turn_word(node);
    nodes.board.shared.fetch_add::<GiveBack>(seat, word, 1);
}

/// It looks at a word that nobody writes: what it received of each sender that it took in is the first part of what the sender sent.
pub fn look_again(nodes: &Nodes, seat: &mut NodeSeat)
    requires seat { seat.old.table_id ≡ nodes.now.board.shared.table_id }
    requires at { seat.old.me ≡ (Receives (receiver_in seat.old.me.0), []) }
    ensures same { seat.new.table_id ≡ seat.old.table_id }
    ensures told { seat.new.me ≡ seat.old.me }
    ensures begins { BeginsAt (receiver_in seat.old.me.0) }
{
    nodes.board.shared.load::<Look>(seat, 0);
}

/// The tally looks at a word that nobody writes: what each gathered receiver received of each sender that was taken in is the first part of what the sender sent there.
pub fn tally_look(nodes: &Nodes, seat: &mut NodeSeat)
    requires seat { seat.old.table_id ≡ nodes.now.board.shared.table_id }
    requires at { IsTally seat.old.me }
    ensures same { seat.new.table_id ≡ seat.old.table_id }
    ensures told { seat.new.me ≡ seat.old.me }
    ensures begins { TallyBegins (tally_in seat.old.me.0) }
{
    nodes.board.shared.load::<TallyLook>(seat, 0);
}
