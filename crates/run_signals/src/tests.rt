//! Which hints a reader hears, and who wakes whom. A thread that has to be woken would sleep for an hour if nobody
//! woke it, and the test be ended before that.

use crate::ring::{Ring, WORDS, accounts_of, with_hint};
use crate::sleeper::Sleeper;
use crate::{ReaderSignals, Signals, Turn, WorkerSignals};
use crossbeam_utils::CachePadded;
use std::alloc::{AllocError, Global};
use std::hint::spin_loop;
use std::sync::Wait;
use std::sync::atomic::{AtomicBool, Ordering};
use std::thread::join;

/// The microseconds of an hour, which no test is given.
const HOUR: u64 = 3_600_000_000;

/// Signals under which a thread sleeps for an hour that nobody wakes.
fn sleepy(
    alloc: Global,
    workers: u64,
    readers: u64,
    nodes: Option<u64>,
) -> Result<Signals, AllocError> {
    let mut shared = Signals::open(alloc, workers, readers, nodes)?;
    shared.longest = HOUR;
    Ok(shared)
}

/// Whether the first of some threads sleeps or is about to.
fn is_asleep(sleepers: &[CachePadded<Sleeper>]) -> bool {
    match sleepers.first() {
        Some(sleeper) => sleeper.is_announced(),
        None => false,
    }
}

/// Waits until the first of some threads sleeps or is about to.
fn wait_until_asleep<R: Wait>(rt: &R, sleepers: &[CachePadded<Sleeper>]) {
    for _ in rt.forever() {
        if is_asleep(sleepers) {
            return;
        }
        spin_loop();
    }
}

/// The accounts that a reader hears of from a worker before it hears of no more.
fn heard(signals: &mut ReaderSignals<'_>, worker: usize) -> [Option<usize>; 9] {
    let mut all = [None; 9];
    let mut count = 0usize;
    for _ in 0..WORDS {
        let Some(accounts) = signals.hear(worker) else {
            break;
        };
        for account in accounts {
            if account.is_some() {
                if let Some(place) = all.get_mut(count) {
                    *place = account;
                }
                count = count.wrapping_add(1);
            }
        }
    }
    all
}

/// Waits for room in the mailbox of account 0. False: the worker slept, and nobody woke it.
fn wait_for_room<R: Wait>(rt: &R, signals: &mut WorkerSignals<'_>, room: &AtomicBool) -> bool {
    let mut turn = Turn::new();
    for _ in rt.forever() {
        if room.load(Ordering::SeqCst) {
            signals.stop_waiting(&turn);
            return true;
        }
        if !signals.wait(rt, &mut turn, 0) {
            return false;
        }
    }
    unreachable!()
}

/// Makes room once the worker sleeps: first a reader takes something on whom it doesn't depend.
fn make_room<R: Wait>(
    rt: &R,
    shared: &Signals,
    other: usize,
    own: usize,
    room: &AtomicBool,
) -> bool {
    wait_until_asleep(rt, &shared.workers);
    ReaderSignals::new(shared, other).stop_waiting();
    let is_asleep = is_asleep(&shared.workers);
    room.store(true, Ordering::SeqCst);
    ReaderSignals::new(shared, own).stop_waiting();
    is_asleep
}

#[test]
fn worker_is_woken_by_the_reader_of_the_full_mailbox(rt: HostRuntime) -> Result<(), AllocError> {
    let shared = &sleepy(rt.alloc(), 1, 2, None)?;
    let room = &AtomicBool::new(false);
    let (is_woken, is_left_asleep) = join(
        &rt,
        || wait_for_room(&rt, &mut WorkerSignals::new(Some(shared), 0), room),
        || make_room(&rt, shared, 1, 0, room),
    );
    assert!(rt; is_woken, "nobody woke it");
    assert!(rt; is_left_asleep, "another reader woke it");
    assert!(rt; !is_asleep(&shared.workers), "it is awake");
    Ok(())
}

/// Sends to accounts 5, 4 and 6, and waits for room.
fn send_and_wait<R: Wait>(rt: &R, shared: &Signals, room: &AtomicBool) -> bool {
    let mut signals = WorkerSignals::new(Some(shared), 0);
    signals.tell(5);
    signals.tell(4);
    signals.tell(6);
    wait_for_room(rt, &mut signals, room)
}

#[test]
fn worker_of_a_pool_is_woken_by_the_reader_of_its_oldest_node(
    rt: HostRuntime,
) -> Result<(), AllocError> {
    let shared = &sleepy(rt.alloc(), 1, 2, Some(3))?;
    let room = &AtomicBool::new(false);
    let (is_woken, is_left_asleep) = join(
        &rt,
        || send_and_wait(&rt, shared, room),
        || make_room(&rt, shared, 0, 1, room),
    );
    assert!(rt; is_woken, "nobody woke it");
    assert!(rt; is_left_asleep, "another reader woke it");
    Ok(())
}

/// Waits until something is heard of. None: the reader slept, and nobody woke it.
fn wait_for_hint<R: Wait>(rt: &R, shared: &Signals) -> Option<[Option<usize>; 3]> {
    let mut signals = ReaderSignals::new(shared, 0);
    for _ in rt.forever() {
        let heard = signals.hear(0);
        if heard.is_some() {
            signals.stop_waiting();
            return heard;
        }
        if !signals.wait(rt) {
            return None;
        }
    }
    unreachable!()
}

/// Sends so many postings to account 7 once the reader sleeps.
fn send_to_sleeper<R: Wait>(rt: &R, shared: &Signals, postings: u32) {
    wait_until_asleep(rt, &shared.readers);
    let mut signals = WorkerSignals::new(Some(shared), 0);
    for _ in 0..postings {
        signals.tell(7);
    }
}

#[test]
fn reader_is_woken_after_some_postings(rt: HostRuntime) -> Result<(), AllocError> {
    let shared = &sleepy(rt.alloc(), 1, 1, None)?;
    let (heard, _) = join(
        &rt,
        || wait_for_hint(&rt, shared),
        || send_to_sleeper(&rt, shared, 24),
    );
    assert_eq!(rt; heard, Some([Some(7), Some(7), Some(7)]));
    assert!(rt; !is_asleep(&shared.readers), "it is awake");
    Ok(())
}

/// Sends one posting to account 7 once the reader sleeps, and ends.
fn send_one_and_end<R: Wait>(rt: &R, shared: &Signals) {
    wait_until_asleep(rt, &shared.readers);
    let mut signals = WorkerSignals::new(Some(shared), 0);
    signals.tell(7);
    signals.end();
}

#[test]
fn reader_is_woken_by_the_end_of_a_worker(rt: HostRuntime) -> Result<(), AllocError> {
    let shared = &sleepy(rt.alloc(), 1, 1, None)?;
    let (heard, _) = join(
        &rt,
        || wait_for_hint(&rt, shared),
        || send_one_and_end(&rt, shared),
    );
    assert_eq!(rt; heard, Some([None, None, Some(7)]));
    assert!(rt; ReaderSignals::new(shared, 0).must_look_everywhere());
    Ok(())
}

/// Waits until all workers have ended. False: the reader slept, and nobody woke it.
fn sleep_once<R: Wait>(rt: &R, signals: &mut ReaderSignals<'_>, shared: &Signals) -> bool {
    for _ in rt.forever() {
        if !signals.wait(rt) {
            return false;
        }
        if shared.have_ended() {
            return true;
        }
    }
    unreachable!()
}

/// Ends with no posting, once the reader sleeps.
fn end_once_asleep<R: Wait>(rt: &R, shared: &Signals) {
    wait_until_asleep(rt, &shared.readers);
    WorkerSignals::new(Some(shared), 0).end();
}

#[test]
fn reader_is_woken_by_the_end_of_a_worker_that_sent_nothing(
    rt: HostRuntime,
) -> Result<(), AllocError> {
    let shared = &sleepy(rt.alloc(), 1, 1, None)?;
    let (is_woken, _) = join(
        &rt,
        || sleep_once(&rt, &mut ReaderSignals::new(shared, 0), shared),
        || end_once_asleep(&rt, shared),
    );
    assert!(rt; is_woken, "nobody woke it");
    Ok(())
}

#[test]
fn worker_tells_all_before_it_waits(rt: HostRuntime) -> Result<(), AllocError> {
    let shared = &Signals::open(rt.alloc(), 1, 1, None)?;
    let mut worker = WorkerSignals::new(Some(shared), 0);
    let mut reader = ReaderSignals::new(shared, 0);
    worker.tell(7);
    assert_eq!(rt; reader.hear(0), None);
    let mut turn = Turn::new();
    assert!(rt; worker.wait(&rt, &mut turn, 7));
    assert_eq!(rt; reader.hear(0), Some([None, None, Some(7)]));
    Ok(())
}

#[test]
fn worker_that_has_room_sleeps_no_more(rt: HostRuntime) -> Result<(), AllocError> {
    let shared = &sleepy(rt.alloc(), 1, 1, None)?;
    let mut worker = WorkerSignals::new(Some(shared), 0);
    let mut turn = Turn::new();
    for _ in rt.forever() {
        if is_asleep(&shared.workers) {
            break;
        }
        assert!(rt; worker.wait(&rt, &mut turn, 7));
    }
    worker.stop_waiting(&turn);
    assert!(rt; !is_asleep(&shared.workers), "it is awake");
    Ok(())
}

#[test]
fn wake_up_that_never_comes_costs_time_alone(rt: HostRuntime) -> Result<(), AllocError> {
    let shared = &Signals::open(rt.alloc(), 1, 1, None)?;
    let mut reader = ReaderSignals::new(shared, 0);
    assert!(rt; !reader.must_look_everywhere());
    for _ in rt.forever() {
        if !reader.wait(&rt) {
            break;
        }
    }
    assert!(rt; reader.must_look_everywhere());
    assert!(rt; !reader.must_look_everywhere());
    let full = &AtomicBool::new(false);
    assert!(rt; !wait_for_room(&rt, &mut WorkerSignals::new(Some(shared), 0), full));
    assert!(rt; !wait_for_room(&rt, &mut WorkerSignals::new(None, 0), full));
    Ok(())
}

#[test]
fn each_reader_hears_of_its_own_mailboxes(rt: HostRuntime) -> Result<(), AllocError> {
    let shared = &Signals::open(rt.alloc(), 2, 2, None)?;
    let mut first = WorkerSignals::new(Some(shared), 0);
    let mut second = WorkerSignals::new(Some(shared), 1);
    for account in 0..9 {
        first.tell(account);
    }
    second.tell(16_383);
    let mut even = ReaderSignals::new(shared, 0);
    let mut odd = ReaderSignals::new(shared, 1);
    let three = [
        Some(0),
        Some(2),
        Some(4),
        None,
        None,
        None,
        None,
        None,
        None,
    ];
    assert_eq!(rt; heard(&mut even, 0), three);
    let three = [
        Some(1),
        Some(3),
        Some(5),
        None,
        None,
        None,
        None,
        None,
        None,
    ];
    assert_eq!(rt; heard(&mut odd, 0), three);
    assert_eq!(rt; heard(&mut odd, 1), [None; 9]);
    first.end();
    assert!(rt;
        !even.must_look_everywhere(),
        "one of two workers has ended"
    );
    second.end();
    assert!(rt; even.must_look_everywhere(), "both have");
    let two = [Some(6), Some(8), None, None, None, None, None, None, None];
    assert_eq!(rt; heard(&mut even, 0), two);
    let one = [Some(7), None, None, None, None, None, None, None, None];
    assert_eq!(rt; heard(&mut odd, 0), one);
    let one = [Some(16_383), None, None, None, None, None, None, None, None];
    assert_eq!(rt; heard(&mut odd, 1), one);
    Ok(())
}

#[test]
fn reader_sees_that_it_was_overrun(rt: HostRuntime) -> Result<(), AllocError> {
    let shared = &Signals::open(rt.alloc(), 1, 1, None)?;
    let mut worker = WorkerSignals::new(Some(shared), 0);
    let mut reader = ReaderSignals::new(shared, 0);
    for account in 0..3 * (WORDS as usize + 1) {
        worker.tell(account);
    }
    assert!(rt; !reader.must_look_everywhere());
    assert_eq!(rt; reader.hear(0), Some([Some(192), Some(193), Some(194)]));
    assert!(rt; reader.must_look_everywhere());
    assert_eq!(rt; reader.hear(0), None);
    Ok(())
}

#[test]
fn word_of_an_earlier_round_is_not_read(rt: HostRuntime) -> Result<(), AllocError> {
    let ring = Ring::open(rt.alloc())?;
    assert_eq!(rt; ring.read(0), None);
    ring.write(0, with_hint(with_hint(0, 16_383), 0));
    let read = ring
        .read(0)
        .map(|(number, word)| (number, accounts_of(word)));
    assert_eq!(rt; read, Some((0, [None, Some(16_383), Some(0)])));
    assert_eq!(rt; ring.read(WORDS), None);
    ring.write(5 * WORDS, with_hint(0, 1));
    let read = ring
        .read(WORDS)
        .map(|(number, word)| (number, accounts_of(word)));
    assert_eq!(rt; read, Some((5 * WORDS, [None, None, Some(1)])));
    Ok(())
}
