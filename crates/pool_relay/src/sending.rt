//! A sender that waits while it has no free node.
ghost use Rattle.std.specs.Prelude.{◌≡◌, ◌<◌, false};
ghost use Rattle.pool_box.specs.Pools.{with_post};
ghost use Rattle.pool_relay.specs.Postings.{HasPosted, IsFreshFor, IsPostable};

use crate::posting::Posting;
use crossbeam_utils::Backoff;
use pool_box::{Pool, Posted};
use std::sync::Wait;

/// Sends a post, however long it takes.
pub fn send<P: Pool, R: Wait>(rt: &R, sender: &mut P::Sender, posting: Posting)
    requires mailbox { posting.mailbox < (P.sender sender.old).mailboxes }
    requires open { (P.sender sender.old).is_ended posting.mailbox ≡ false }
    requires left { 0 < (P.sender sender.old).left }
    requires range { IsPostable posting }
    ensures { P.sender sender.new ≡ with_post (P.sender sender.old) posting.mailbox posting.line posting.amount }
{
    let turn = Backoff::new();
    for _ in rt.forever() {
        let posted = P::try_send(sender, posting.mailbox, posting.line, posting.amount);
        if let Posted::Sent = posted {
            return;
        }
        turn.snooze();
    }
    unreachable!()
}

/// Sends these posts, each to its mailbox, and then the end mark to both mailboxes.
pub fn send_all<P: Pool, R: Wait>(rt: &R, sender: &mut P::Sender, posts: &[Posting])
    requires { IsFreshFor (P.sender sender.old) posts.now }
    ensures { HasPosted (P.sender sender.old) (P.sender sender.new) posts.now }
{
    for posting in posts {
        send::<P, R>(rt, sender, *posting);
    }
    P::end(sender, 0);
    P::end(sender, 1);
}
