//! Where the nodes, the words and the slots of a table are. Each node has eight words, of which it
//! uses four; the head of a mailbox stands in the fifth of its stub. Six words come before the first
//! node.
ghost use Rattle.std.specs.Prelude.{◌≡◌, ◌<◌, ◌^◌};
ghost use Rattle.node_table.specs.Layout.{amount_word_of, first_of, head_word, line_word_of, next_word, slot_of, slots_in, stub_of, turn_word, words_in};

use crate::seats::Shape;

/// The first node of a sender: its ring nodes come first, then those of its end marks.
pub fn first_of(shape: &Shape, number: u64) -> u64
    requires { (number < 10000) × (shape.now.mailboxes < 100000) × (shape.now.ring < 10000) }
    ensures { result ≡ first_of shape.now number }
{
    number * (shape.ring + shape.mailboxes)
}

/// The stub of a mailbox.
pub fn stub_of(shape: &Shape, mailbox: u64) -> u64
    requires { (mailbox < 100000) × (shape.now.senders < 10000) × (shape.now.mailboxes < 100000) × (shape.now.ring < 10000) }
    ensures { result ≡ stub_of shape.now mailbox }
{
    first_of(shape, shape.senders) + mailbox
}

/// The word of a node's next.
pub fn next_word(node: u64) -> usize
    requires { next_word node < 2 ^ 64 }
    ensures { result ≡ next_word node }
{
    8 * node as usize + 6
}

/// The word of a node's turn.
pub fn turn_word(node: u64) -> usize
    requires { turn_word node < 2 ^ 64 }
    ensures { result ≡ turn_word node }
{
    8 * node as usize + 7
}

/// The word of a node's line.
pub fn line_word_of(node: u64) -> usize
    requires { line_word_of node < 2 ^ 64 }
    ensures { result ≡ line_word_of node }
{
    8 * node as usize + 8
}

/// The word of a node's amount.
pub fn amount_word_of(node: u64) -> usize
    requires { amount_word_of node < 2 ^ 64 }
    ensures { result ≡ amount_word_of node }
{
    8 * node as usize + 9
}

/// The word of the head of a mailbox.
pub fn head_word(shape: &Shape, mailbox: u64) -> usize
    requires { (mailbox < 100000) × (shape.now.senders < 10000) × (shape.now.mailboxes < 100000) × (shape.now.ring < 10000) }
    ensures { result ≡ head_word shape.now mailbox }
{
    8 * stub_of(shape, mailbox) as usize + 10
}

/// How many words a table has.
pub fn words_in(shape: &Shape) -> usize
    requires { (shape.now.senders < 10000) × (shape.now.mailboxes < 100000) × (shape.now.ring < 10000) }
    ensures { result ≡ words_in shape.now }
{
    next_word(stub_of(shape, shape.mailboxes))
}

/// The slot of a sender.
pub fn slot_of(number: u64) -> usize
    requires { slot_of number < 2 ^ 64 }
    ensures { result ≡ slot_of number }
{
    4 * number as usize + 2
}

/// How many slots a table has.
pub fn slots_in(shape: &Shape) -> usize
    requires { slots_in shape.now < 2 ^ 64 }
    ensures { result ≡ slots_in shape.now }
{
    slot_of(shape.senders)
}
