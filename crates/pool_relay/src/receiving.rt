//! A receiver that takes until two senders have ended in its mailbox.
ghost use Rattle.std.specs.Prelude.{◌≡◌, MatchOption};
ghost use Rattle.pool_relay.specs.Postings.{HasReceived, HasReceivedBoth};

use crossbeam_utils::Backoff;
use pool_box::{Item, Pool, Took};
use std::sync::Wait;

/// Takes one item, reads it and gives it back: the sender's number and the item. None: nothing was taken.
pub fn receive<P: Pool>(receiver: &mut P::Receiver) -> Option<(u64, Item)>
    ensures { MatchOption result (P.receiver receiver.new ≡ P.receiver receiver.old) (λ pair. HasReceived (P.receiver receiver.old) (P.receiver receiver.new) pair.0 pair.1) }
{
    match P::take(receiver) {
        Took::Held(held) => {
            let pair = P::read(receiver, &held);
            P::give_back(receiver, held);
            Some(pair)
        }
        Took::Empty | Took::Busy => None,
    }
}

/// Takes until both senders have ended in this mailbox, however long it takes.
pub fn receive_all<P: Pool, R: Wait>(rt: &R, receiver: &mut P::Receiver)
    requires { (P.receiver receiver.old).senders ≡ 2 }
    ensures { HasReceivedBoth (P.receiver receiver.old) (P.receiver receiver.new) }
{
    let mut first_ended = false;
    let mut second_ended = false;
    let turn = Backoff::new();
    for _ in rt.forever() {
        if first_ended && second_ended {
            return;
        }
        match receive::<P>(receiver) {
            Some((0, Item::End)) => first_ended = true,
            Some((_, Item::End)) => second_ended = true,
            Some((_, Item::Post { .. })) => {}
            None => turn.snooze(),
        }
    }
    unreachable!()
}
