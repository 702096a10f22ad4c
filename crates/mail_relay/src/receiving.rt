//! A receiver that takes until two senders have ended.
ghost use Rattle.std.specs.Prelude.{◌≡◌};
ghost use Rattle.mail_relay.specs.Posts.{HasReceivedBoth};

use crossbeam_utils::Backoff;
use mail_box::{Item, Mail, receive};
use std::sync::Wait;

/// Takes until both senders have ended, however long it takes.
pub fn receive_all<M: Mail, R: Wait>(rt: &R, receiver: &mut M::Receiver)
    requires { (M.receiver receiver.old).senders ≡ 2 }
    ensures { HasReceivedBoth (M.receiver receiver.old) (M.receiver receiver.new) }
{
    let mut first_ended = false;
    let mut second_ended = false;
    let turn = Backoff::new();
    for _ in rt.forever() {
        if first_ended && second_ended {
            return;
        }
        match receive::<M, R>(rt, receiver) {
            Some((0, Item::End)) => first_ended = true,
            Some((_, Item::End)) => second_ended = true,
            Some((_, Item::Post { .. })) => {}
            None => turn.snooze(),
        }
    }
    unreachable!()
}
