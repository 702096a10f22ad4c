//! A take that is read and given back at once.
ghost use Rattle.std.specs.Prelude.{◌≡◌, ◌⊎◌, MatchOption, ⊤};
ghost use Rattle.mail_box.specs.Mails.{HasReceived, IsAwaited, IsWhole};

use crate::Mail;
use queue_core::{Item, Took};
use std::sync::Wait;

/// Takes one item of a mailbox, reads it and gives it back: the sender's number and the item. None: all of what is known to
/// be sent was received, or some sender was not taken in.
pub fn receive<M: Mail, R: Wait>(rt: &R, receiver: &mut M::Receiver) -> Option<(u64, Item)>
    ensures received { MatchOption result (M.receiver receiver.new ≡ M.receiver receiver.old) (λ pair. HasReceived (M.receiver receiver.old) (M.receiver receiver.new) pair.0 pair.1) }
    ensures none { MatchOption result (IsWhole (M.receiver receiver.old) ⊎ IsAwaited (M.receiver receiver.old)) (λ pair. ⊤) }
{
    match M::take(rt, receiver) {
        Took::Held(held) => {
            let pair = M::read(rt, receiver, &held);
            M::give_back(rt, receiver, held);
            Some(pair)
        }
        Took::Empty | Took::Busy => None,
    }
}
