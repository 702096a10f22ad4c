//! Made-up calls of a pool of linked nodes, all in one thread. Each is made step by step on the machine of a pool's words
//! too, and both have to answer the same.

ghost use Rattle.std.specs.Prelude.{◌≡◌, ◌+◌, ◌<◌, ◌≤◌, All, length, unsigned_abs, vec_items, vec_len};
ghost use Rattle.pool_box.specs.PoolViews.{held_of, receiver_of};

use crate::posters::{Poster, open_posters};
use pool_box::{PoolHeld, PoolMail, PoolReceiver, Posted, Took};
use queue_core::{PoolCore, PoolStep, Step, Stepped};
use std::alloc::Global;
use std::process::Abort;
use std::test::Fail;

/// How many calls are made on a pool.
const CALLS: u64 = 3_000;

/// Numbers that are made from a seed, by Marsaglia's xorshift.
#[derive(Drop)]
struct Random {
    state: u64,
}

impl Random {
    /// The next number, below a bound.
    fn below(&mut self, bound: u64) -> u64
        requires { 0 < bound }
        ensures { result < bound }
    {
        self.state ^= self.state << 13;
        self.state ^= self.state >> 7;
        self.state ^= self.state << 17;
        self.state % bound
    }

    /// The amount of a post.
    fn amount(&mut self) -> i64
        ensures { (0 < unsigned_abs result) × (unsigned_abs result ≤ 1000000000000) }
    {
        let size = (self.below(1_000_000_000_000) + 1) as i64;
        if self.below(2) == 0 { size } else { -size }
    }
}

/// The machine, and which answers have come.
#[derive(Drop)]
struct Machine {
    core: PoolCore,
    seen: Seen,
}

/// Which answers have come.
#[derive(Clone, Copy, Debug, Default, PartialEq, Eq)]
struct Seen {
    sent: bool,
    full: bool,
    held: bool,
    empty: bool,
}

/// An item that is held, and its node in the machine.
struct Taken {
    held: PoolHeld,
    node: u64,
}

/// A receiver, and what it has taken and not given back.
struct Inbox {
    receiver: PoolReceiver,
    mailbox: u64,
    taken: Vec<Taken>,
    ghost here: { All (λ t. ((held_of t.held).pool ≡ (receiver_of receiver).pool) × ((held_of t.held).mailbox ≡ (receiver_of receiver).mailbox)) (vec_items taken) },
}

/// A step in a mailbox.
fn at(mailbox: u64, step: Step) -> PoolStep {
    PoolStep { mailbox, step }
}

/// The steps of a post.
fn steps_of_post(mailbox: u64, p: u64, line: u64, amount: i64) -> [PoolStep; 6] {
    [
        at(mailbox, Step::LoadTurn(p, line, amount)),
        at(mailbox, Step::StoreLine(p)),
        at(mailbox, Step::StoreAmount(p)),
        at(mailbox, Step::StoreNull(p)),
        at(mailbox, Step::SwapHead(p)),
        at(mailbox, Step::StoreLink(p)),
    ]
}

/// The steps of an end mark.
fn steps_of_end(mailbox: u64, p: u64) -> [PoolStep; 5] {
    [
        at(mailbox, Step::EndLine(p)),
        at(mailbox, Step::StoreAmount(p)),
        at(mailbox, Step::StoreNull(p)),
        at(mailbox, Step::SwapHead(p)),
        at(mailbox, Step::StoreLink(p)),
    ]
}

/// The steps of a take that has found no next node. The first of them ends the take, unless the tail is a sender's node
/// and the last.
fn steps_at_the_end(mailbox: u64) -> [PoolStep; 5] {
    [
        at(mailbox, Step::LoadHead),
        at(mailbox, Step::StubNull),
        at(mailbox, Step::StubSwap),
        at(mailbox, Step::StubLink),
        at(mailbox, Step::LoadNext),
    ]
}

/// How many nodes the machine's reader of a mailbox holds.
fn held_by(core: &PoolCore, mailbox: u64) -> usize {
    (0..64u64)
        .filter(|node| core.holder(*node) == Some(mailbox))
        .count()
}

/// What a take answers in the machine. Where its first step finds a next node and no item is held, it has passed the
/// stub.
fn take_by_steps(rt: &impl Abort, core: &mut PoolCore, mailbox: u64) -> Option<Took<u64>> {
    let held = held_by(core, mailbox);
    assert_eq!(rt; core.step(at(mailbox, Step::LoadNext)), Stepped::Moved);
    if core.replay(&steps_at_the_end(mailbox)) == 0 && held_by(core, mailbox) == held {
        assert_eq!(rt; core.step(at(mailbox, Step::LoadNext)), Stepped::Moved);
        core.replay(&steps_at_the_end(mailbox));
    }
    core.last_take(mailbox)
}

/// Sends a post. The machine does one step of it where it is full, and none where the sender has ended.
fn post(
    rt: &impl Abort,
    machine: &mut Machine,
    poster: &mut Poster,
    mailbox: u64,
    line: u64,
    amount: i64,
)
    requires line { line ≤ 999999 }
    requires amount { (0 < unsigned_abs amount) × (unsigned_abs amount ≤ 1000000000000) }
{
    let p = PoolMail::number(&poster.sender);
    let done = machine
        .core
        .replay(&steps_of_post(mailbox, p, line, amount));
    assert!(rt; mailbox < poster.mailboxes && PoolMail::left(&poster.sender) > 0);
    if PoolMail::ended(&poster.sender, mailbox) {
        assert_eq!(rt; done, 0);
        return;
    }
    let posted = PoolMail::try_send(&mut poster.sender, mailbox, line, amount);
    assert_eq!(rt; machine.core.last_call(p), Some(posted));
    match posted {
        Posted::Sent => {
            assert_eq!(rt; done, 6);
            machine.seen.sent = true;
        }
        Posted::Full => {
            assert_eq!(rt; done, 1);
            machine.seen.full = true;
        }
    }
}

/// Sends an end mark, which the machine does not do twice.
fn end(rt: &impl Abort, machine: &mut Machine, poster: &mut Poster, mailbox: u64) {
    let p = PoolMail::number(&poster.sender);
    let done = machine.core.replay(&steps_of_end(mailbox, p));
    assert!(rt; mailbox < poster.mailboxes);
    if PoolMail::ended(&poster.sender, mailbox) {
        assert_eq!(rt; done, 0);
        return;
    }
    PoolMail::end(&mut poster.sender, mailbox);
    assert_eq!(rt; done, 5);
    assert_eq!(rt; machine.core.last_call(p), Some(Posted::Sent));
}

/// Reads an item that is held.
fn read(rt: &impl Abort, machine: &Machine, inbox: &mut Inbox, place: usize)
    requires { place < vec_len inbox.old.taken }
    ensures { vec_len inbox.new.taken ≡ vec_len inbox.old.taken }
{
    let taken = &inbox.taken[place];
    assert!(rt; machine.core.is_held(taken.node));
    let pair = PoolMail::read(&mut inbox.receiver, &taken.held);
    assert_eq!(rt; pair, machine.core.item(taken.node));
}

/// Keeps an item that was taken, and reads it.
fn keep(rt: &impl Abort, machine: &mut Machine, inbox: &mut Inbox, held: PoolHeld, node: u64)
    requires { ((held_of held).pool ≡ (receiver_of inbox.old.receiver).pool) × ((held_of held).mailbox ≡ (receiver_of inbox.old.receiver).mailbox) }
{
    let place = inbox.taken.len();
    match inbox.taken.push(Taken { held, node }) {
        Ok(()) => {}
        Err(_failed) => panic!(rt; "there is no memory"),
    }
    read(rt, machine, inbox, place);
    machine.seen.held = true;
}

/// Takes an item.
fn take(rt: &impl Abort, machine: &mut Machine, inbox: &mut Inbox) {
    let by_steps = take_by_steps(rt, &mut machine.core, inbox.mailbox);
    match PoolMail::take(&mut inbox.receiver) {
        Took::Held(held) => {
            let Some(Took::Held(node)) = by_steps else {
                panic!(rt; "the machine takes nothing");
            };
            keep(rt, machine, inbox, held, node);
        }
        Took::Empty => {
            assert_eq!(rt; by_steps, Some(Took::Empty));
            machine.seen.empty = true;
        }
        Took::Busy => panic!(rt; "nothing is on its way"),
    }
}

/// Reads an item once more, and gives it back.
fn give_back(rt: &impl Abort, machine: &mut Machine, inbox: &mut Inbox, place: usize)
    requires { place < vec_len inbox.old.taken }
    ensures { vec_len inbox.new.taken + 1 ≡ vec_len inbox.old.taken }
{
    read(rt, machine, inbox, place);
    let Taken { held, node } = inbox.taken.swap_remove(place);
    PoolMail::give_back(&mut inbox.receiver, held);
    let step = at(inbox.mailbox, Step::GiveBack(node));
    assert_eq!(rt; machine.core.step(step), Stepped::Moved);
}

/// Makes a call: of 1,000, one is an end mark, 349 are posts, 300 takes, and 50 read an item that is held; the others give
/// one back. Where none is held, both take.
fn call(
    rt: &impl Abort,
    random: &mut Random,
    machine: &mut Machine,
    poster: &mut Poster,
    inbox: &mut Inbox,
) {
    let taken = inbox.taken.len();
    match random.below(1_000) {
        0 => end(rt, machine, poster, inbox.mailbox),
        1..350 => {
            let (line, amount) = (random.below(1_000_000), random.amount());
            post(rt, machine, poster, inbox.mailbox, line, amount);
        }
        350..650 => take(rt, machine, inbox),
        650..700 if taken > 0 => {
            let place = random.below(taken as u64) as usize;
            read(rt, machine, inbox, place);
        }
        _ if taken > 0 => {
            let place = random.below(taken as u64) as usize;
            give_back(rt, machine, inbox, place);
        }
        _ => take(rt, machine, inbox),
    }
}

/// Makes calls, each of a sender and a mailbox.
fn make_calls(
    rt: &impl Abort,
    random: &mut Random,
    machine: &mut Machine,
    posters: &mut [Poster],
    inboxes: &mut [Inbox],
)
    requires { (0 < length posters.old) × (0 < length inboxes.old) }
{
    for _ in 0..CALLS {
        let from = random.below(posters.len() as u64) as usize;
        let to = random.below(inboxes.len() as u64) as usize;
        call(rt, random, machine, &mut posters[from], &mut inboxes[to]);
    }
}

/// Ends all senders in a mailbox, takes what is in it, at most two posts and an end mark of each, and gives all back.
fn empty_out(rt: &impl Abort, machine: &mut Machine, posters: &mut [Poster], mut inbox: Inbox) {
    for poster in posters.iter_mut() {
        end(rt, machine, poster, inbox.mailbox);
    }
    for _ in 0..10 {
        take(rt, machine, &mut inbox);
    }
    assert_eq!(rt; machine.core.last_take(inbox.mailbox), Some(Took::Empty));
    while !inbox.taken.is_empty() {
        give_back(rt, machine, &mut inbox, 0);
    }
    let Inbox {
        receiver: _,
        mailbox: _,
        taken,
    } = inbox;
    taken.destroy_empty();
}

/// The mailboxes of receivers.
fn inboxes_of(rt: &impl Abort, alloc: Global, receivers: Vec<PoolReceiver>) -> Vec<Inbox> {
    let mut inboxes = Vec::new(alloc);
    for (number, receiver) in receivers.into_iter().enumerate() {
        let inbox = Inbox {
            receiver,
            mailbox: number as u64,
            taken: Vec::new(alloc),
        };
        match inboxes.push(inbox) {
            Ok(()) => {}
            Err(_failed) => panic!(rt; "there is no memory"),
        }
    }
    inboxes
}

/// Makes calls on a pool and on its machine, all by a seed, and in the end empties both.
fn assert_same_answers(rt: &impl Abort, alloc: Global, seed: u64) -> Result<(), Fail> {
    let (senders, mailboxes, nodes) = (2 + seed % 2, 2 + seed / 2 % 2, 1 + seed / 4 % 2);
    let mut random = Random { state: seed };
    let mut machine = Machine {
        core: PoolCore::open(alloc, senders, mailboxes, nodes)?,
        seen: Seen::default(),
    };
    let (mut posters, receivers) = open_posters(alloc, senders, mailboxes, nodes, CALLS)?;
    let mut inboxes = inboxes_of(rt, alloc, receivers);
    assert!(rt; !posters.is_empty() && !inboxes.is_empty());
    make_calls(
        rt,
        &mut random,
        &mut machine,
        posters.as_mut_slice(),
        inboxes.as_mut_slice(),
    );
    while let Some(inbox) = inboxes.pop() {
        empty_out(rt, &mut machine, posters.as_mut_slice(), inbox);
    }
    inboxes.destroy_empty();
    let all = Seen {
        sent: true,
        full: true,
        held: true,
        empty: true,
    };
    assert_eq!(rt; machine.seen, all);
    Ok(())
}

/// Of each number of senders, of mailboxes and of nodes there are six pools.
#[test]
fn whole_calls_answer_as_their_steps(rt: HostRuntime) -> Result<(), Fail> {
    for seed in 1..49 {
        assert_same_answers(&rt, rt.alloc(), seed)?;
    }
    Ok(())
}
