//! The queue of one sender: what was taken from it is the first part of what was sent to it.
ghost use Rattle.std.specs.Prelude.{◌≡◌, ◌<◌, ◌≤◌, ◌++◌, ◌∷◌, [], IfOk, MatchOption, true, false, length};
ghost use Rattle.crossbeam_queue.specs.Passes.{IsPassOf, IsSamePass, ruled_capacity, view};
ghost use Rattle.queue_core.specs.Items.{IsInRange};
ghost use Rattle.queue_core.specs.Matches.{MatchPosted};
ghost use Rattle.mail_box.specs.Lanes.{BeginsLane, HasPopped, IsWholeLane, log, with_sent};

use crossbeam_queue::protocol::{Join, Lesson, Outcome, Protocol, Split};
use crossbeam_queue::{Pass, RuledArrayQueue};
use queue_core::{Item, Posted};
use std::alloc::{AllocError, Global};
use std::collections::LinkedList;
use std::sync::Wait;

// What a pass of a lane knows: whether it may send and take, what was sent by it, and what was taken by it. No
// value of it is made.
pub struct Log {
    pub sends: bool,
    pub takes: bool,
    pub sent: LinkedList<Item>,
    pub got: LinkedList<Item>,
}

pub struct InOrder;

impl Protocol<Item, Log> for InOrder {
    ghost use Rattle.std.specs.Prelude.{true, []};
    ghost use Rattle.mail_box.specs.Lanes.{log, Relays};

    ghost holds = { Relays };

    ghost first = { log true true [] [] };
}

struct Roles;

impl Split<Log> for Roles {
    ghost use Rattle.std.specs.Prelude.{true, false, []};
    ghost use Rattle.mail_box.specs.Lanes.{BeginsLane, log};

    ghost left = { λ v. log true false v.sent [] };

    ghost right = { λ v. log false true [] v.got };
}

impl Join<Log> for Roles {
    ghost use Rattle.std.specs.Prelude.{true, false, []};
    ghost use Rattle.mail_box.specs.Lanes.{BeginsLane, log};

    ghost both = { λ v w. log true true w.sent v.got };

    ghost spent = { log false false [] [] };
}

struct Sends;

impl Outcome<Item, Log> for Sends {
    ghost then = { λ v x w. w ≡ log v.sends v.takes (v.sent ++ x ∷ []) v.got };
}

impl Lesson<Item, Log> for Sends {
    ghost fact = { λ v items. length items ≤ length v.sent };
}

struct Takes;

impl Outcome<Item, Log> for Takes {
    ghost then = { λ v x w. (w ≡ log v.sends v.takes v.sent (v.got ++ x ∷ [])) × IsInRange x × BeginsLane w };
}

impl Lesson<Item, Log> for Takes {
    ghost fact = { λ v items. v.sends ≡ true → v.sent ≡ v.got ++ items };
}

pub type Lane = RuledArrayQueue<Item, Log, InOrder>;

/// A lane with this room, and the passes of its sender and of its receiver.
pub fn open_lane(
    alloc: Global,
    nodes: usize,
) -> Result<(Lane, Pass<Item, Log>, Pass<Item, Log>), AllocError>
    requires { 0 < nodes }
    ensures lane { IfOk result (λ r. (ruled_capacity r.0 ≡ nodes) × IsPassOf r.0 r.1 × IsPassOf r.0 r.2) }
    ensures views { IfOk result (λ r. (view r.1 ≡ log true false [] []) × (view r.2 ≡ log false true [] [])) }
{
    let (lane, mut sender) = Lane::ruled(alloc, nodes)?;
    let receiver = lane.another::<Roles>(&mut sender);
    Ok((lane, sender, receiver))
}

/// Sends an item. `Full`: as many items as the lane has room for were sent and not taken.
pub fn push<R: Wait>(rt: &R, lane: &Lane, pass: &mut Pass<Item, Log>, item: Item) -> Posted
    requires lane { IsPassOf lane.now pass.old }
    requires role { (view pass.old).sends ≡ true }
    requires range { IsInRange item }
    ensures same { IsSamePass pass.old pass.new }
    ensures posted { MatchPosted result (view pass.new ≡ with_sent (view pass.old) item) ((view pass.new ≡ view pass.old) × (ruled_capacity lane.now ≤ length (view pass.old).sent)) }
{
    match lane.push_as::<Sends, R>(rt, pass, item) {
        Ok(()) => Posted::Sent,
        Err(_) => Posted::Full,
    }
}

/// Takes the next item. None: where the sender was taken in, all that it sent was taken.
pub fn pop<R: Wait>(rt: &R, lane: &Lane, pass: &mut Pass<Item, Log>) -> Option<Item>
    requires lane { IsPassOf lane.now pass.old }
    requires role { (view pass.old).takes ≡ true }
    ensures same { IsSamePass pass.old pass.new }
    ensures popped { MatchOption result ((view pass.new ≡ view pass.old) × IsWholeLane (view pass.old)) (HasPopped (view pass.old) (view pass.new)) }
{
    lane.pop_as::<Takes, R>(rt, pass)
}

/// Takes the sender's pass in: from then on the receiver's knows what was sent.
pub fn take_in(lane: &Lane, pass: &mut Pass<Item, Log>, sender: Pass<Item, Log>)
    requires lane { IsPassOf lane.now pass.old × IsPassOf lane.now sender }
    requires roles { ((view pass.old).takes ≡ true) × ((view sender).sends ≡ true) }
    ensures same { IsSamePass pass.old pass.new }
    ensures known { view pass.new ≡ log true true (view sender).sent (view pass.old).got }
    ensures begins { BeginsLane (view pass.new) }
{
    lane.absorb::<Roles>(pass, sender);
    lane.learn_as::<Takes>(pass);
}
