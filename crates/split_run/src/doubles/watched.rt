//! A mailbox and a pool of another kind, which tell a watcher of each take.
ghost use Rattle.std.specs.Prelude.{◌≡◌, IfOk, map};

use mail_box::{Item, Mail, Posted, Took};
use pool_box::Pool;
use std::alloc::{AllocError, Global};
use std::sync::atomic::{AtomicU64, Ordering};
use std::sync::{Arc, Wait};

/// What is told of the mailboxes as they are opened, and of each take from any of them. It has no bearing on what is taken.
pub trait Watcher: Send + Sync + Drop {
    /// A mailbox or a pool is about to be opened with so many nodes.
    fn at_open(&self, nodes: u64);

    /// A take from the mailbox with this number, from 0, is about to begin.
    fn before_take(&self, mailbox: u64);

    /// A take has given an item.
    fn after_item(&self);
}

/// Mailboxes of another kind, numbered as they are opened, with one watcher.
#[derive(Drop)]
pub struct WatchedMail<M, W> {
    mail: M,
    opened: AtomicU64,
    watcher: Arc<W>,
}

/// A receiver whose takes are watched.
#[derive(Drop)]
pub struct WatchedReceiver<T, W> {
    receiver: T,
    /// The number of its mailbox.
    mailbox: u64,
    watcher: Arc<W>,
}

impl<M: Drop, W: Drop> WatchedMail<M, W> {
    /// Mailboxes of this kind, with none opened.
    pub(crate) fn of(alloc: Global, mail: M, watcher: W) -> Result<WatchedMail<M, W>, AllocError> {
        Ok(WatchedMail {
            mail,
            opened: AtomicU64::new(0),
            watcher: Arc::new(alloc, watcher)?,
        })
    }

    /// What was told of the takes.
    pub(crate) fn watcher(&self) -> &W {
        &self.watcher
    }
}

impl<M: Mail, W: Watcher> Mail for WatchedMail<M, W> {
    type Sender = M::Sender;

    type Receiver = WatchedReceiver<M::Receiver, W>;

    type Held = M::Held;

    ghost Name = { M.Name };

    ghost sender = { M.sender };

    ghost receiver = { λ r. M.receiver r.receiver };

    ghost held = { M.held };

    fn open(
        &self,
        alloc: Global,
        senders: u64,
        nodes: u64,
        most: u64,
    ) -> Result<(Vec<M::Sender>, WatchedReceiver<M::Receiver, W>), AllocError> {
        self.watcher.at_open(nodes);
        let (senders, receiver) = self.mail.open(alloc, senders, nodes, most)?;
        let watcher = Arc::try_clone(&self.watcher)?;
        let mailbox = self.opened.fetch_add(1, Ordering::SeqCst);
        let receiver = WatchedReceiver {
            receiver,
            mailbox,
            watcher,
        };
        Ok((senders, receiver))
    }

    fn number(s: &M::Sender) -> u64 {
        M::number(s)
    }

    fn left(s: &M::Sender) -> u64 {
        M::left(s)
    }

    fn ended(s: &M::Sender) -> bool {
        M::ended(s)
    }

    fn try_send<R: Wait>(rt: &R, s: &mut M::Sender, line: u64, amount: i64) -> Posted {
        M::try_send(rt, s, line, amount)
    }

    fn end<R: Wait>(rt: &R, s: &mut M::Sender) -> Posted {
        M::end(rt, s)
    }

    fn take<R: Wait>(rt: &R, r: &mut WatchedReceiver<M::Receiver, W>) -> Took<M::Held> {
        r.watcher.before_take(r.mailbox);
        let took = M::take(rt, &mut r.receiver);
        if let Took::Held(_) = &took {
            r.watcher.after_item();
        }
        took
    }

    fn read<R: Wait>(rt: &R, r: &mut WatchedReceiver<M::Receiver, W>, h: &M::Held) -> (u64, Item) {
        M::read(rt, &mut r.receiver, h)
    }

    fn give_back<R: Wait>(rt: &R, r: &mut WatchedReceiver<M::Receiver, W>, h: M::Held) {
        M::give_back(rt, &mut r.receiver, h);
    }

    fn take_in<R: Wait>(rt: &R, r: &mut WatchedReceiver<M::Receiver, W>, s: M::Sender) {
        M::take_in(rt, &mut r.receiver, s);
    }
}

/// A pool of another kind, with one watcher.
#[derive(Drop)]
pub struct WatchedPool<P, W> {
    pool: P,
    watcher: Arc<W>,
}

impl<P: Drop, W: Drop> WatchedPool<P, W> {
    /// A pool of this kind, of which nothing was taken.
    pub(crate) fn of(alloc: Global, pool: P, watcher: W) -> Result<WatchedPool<P, W>, AllocError> {
        let watcher = Arc::new(alloc, watcher)?;
        Ok(WatchedPool { pool, watcher })
    }

    /// What was told of the takes.
    pub(crate) fn watcher(&self) -> &W {
        &self.watcher
    }
}

impl<P: Pool, W: Watcher> Pool for WatchedPool<P, W> {
    type Sender = P::Sender;

    type Receiver = WatchedReceiver<P::Receiver, W>;

    type Held = P::Held;

    type Tally = P::Tally;

    ghost Name = { P.Name };

    ghost sender = { P.sender };

    ghost receiver = { λ r. P.receiver r.receiver };

    ghost held = { P.held };

    ghost tally = { P.tally };

    fn open(
        &self,
        alloc: Global,
        senders: u64,
        mailboxes: u64,
        nodes: u64,
        most: u64,
    ) -> Result<
        (
            Vec<P::Sender>,
            Vec<WatchedReceiver<P::Receiver, W>>,
            P::Tally,
        ),
        AllocError,
    > {
        self.watcher.at_open(nodes);
        let (senders, receivers, tally) = self.pool.open(alloc, senders, mailboxes, nodes, most)?;
        let receivers = all_watched(alloc, receivers, &self.watcher)?;
        Ok((senders, receivers, tally))
    }

    fn number(s: &P::Sender) -> u64 {
        P::number(s)
    }

    fn left(s: &P::Sender) -> u64 {
        P::left(s)
    }

    fn ended(s: &P::Sender, mailbox: u64) -> bool {
        P::ended(s, mailbox)
    }

    fn try_send(s: &mut P::Sender, mailbox: u64, line: u64, amount: i64) -> Posted {
        P::try_send(s, mailbox, line, amount)
    }

    fn end(s: &mut P::Sender, mailbox: u64) {
        P::end(s, mailbox);
    }

    fn take(r: &mut WatchedReceiver<P::Receiver, W>) -> Took<P::Held> {
        r.watcher.before_take(r.mailbox);
        let took = P::take(&mut r.receiver);
        if let Took::Held(_) = &took {
            r.watcher.after_item();
        }
        took
    }

    fn read(r: &mut WatchedReceiver<P::Receiver, W>, h: &P::Held) -> (u64, Item) {
        P::read(&mut r.receiver, h)
    }

    fn give_back(r: &mut WatchedReceiver<P::Receiver, W>, h: P::Held) {
        P::give_back(&mut r.receiver, h);
    }

    fn gather(t: &mut P::Tally, r: WatchedReceiver<P::Receiver, W>) {
        P::gather(t, r.receiver);
    }

    fn take_in(t: &mut P::Tally, s: P::Sender) {
        P::take_in(t, s);
    }
}

/// The receivers of a pool, numbered in their order, each with the watcher.
fn all_watched<T: Drop, W: Drop>(
    alloc: Global,
    receivers: Vec<T>,
    watcher: &Arc<W>,
) -> Result<Vec<WatchedReceiver<T, W>>, AllocError>
    ensures { IfOk result (λ all. map (λ one. one.receiver) all.items ≡ receivers.items) }
{
    let mut all = Vec::new(alloc);
    for receiver in receivers {
        let mailbox = all.len() as u64;
        let watcher = Arc::try_clone(watcher)?;
        all.push(WatchedReceiver {
            receiver,
            mailbox,
            watcher,
        })?;
    }
    Ok(all)
}
