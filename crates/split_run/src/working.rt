//! A worker's half of a run: it divides the lines of its blocks, and sends each portion to the mailbox of its account.

ghost use Rattle.std.specs.Prelude.{[], ◌≡◌, ◌*◌, ◌+◌, ◌-◌, ◌<◌, ◌≤◌, ℕ, None, false, Some, length, map, slice_get, slice_index_or, true};
ghost use Rattle.std.specs.Mem.{FitsInMemory};
ghost use Rattle.cwr_share.specs.Found.{IsLookUp};
ghost use Rattle.cwr_share.specs.Registered.{IsRegistered};
ghost use Rattle.line_split.specs.UsageLine.{UsageLine};
ghost use Rattle.line_split.specs.declared.TheConstants.{MOST_CLAIMS};
ghost use Rattle.block_draw.specs.Views.{drawer_of};
ghost use Rattle.pool_box.specs.Pools.{HasEndedEverywhere};
ghost use Rattle.split_run.specs.Blocks.{lines_from, lines_within};
ghost use Rattle.split_run.specs.Divisions.{division_by};
ghost use Rattle.split_run.specs.Inputs.{account_count, division_in, line_count, lines_in};
ghost use Rattle.split_run.specs.Opening.{IsFresh};
ghost use Rattle.split_run.specs.Running.{IsSameDrawer};
ghost use Rattle.split_run.specs.Sending.{AreFresh, AreReadyFor, HasSpent, HaveEnded};
ghost use Rattle.split_run.specs.Working.{HasSentEachList, HaveSentBlock, HaveSentBlocksAndEnded, HaveSentLine, HaveSentTheirLists, IsSameSender};

mod sending;

use crate::LINES_IN_BLOCK;
use crate::gate::Gate;
use crate::mailboxes::Mailboxes;
use crate::mailboxes::pooled::Pooled;
use crate::mailboxes::separate::Separate;
use block_draw::Drawer;
use cwr_share::{Registry, Work};
use line_split::{Claims, MOST_CLAIMS, MOST_LINES, Portions, Usage, split};
use mail_box::Mail;
use pool_box::Pool;
use run_signals::WorkerSignals;
use sending::{send_end, send_line};
use std::array::from_mut;
use std::sync::Wait;
use std::sync::atomic::{AtomicBool, Ordering};
use tis_tree::TisTable;

/// The lines of a run, and what they are divided by.
#[derive(Clone, Copy)]
pub(crate) struct Inputs<'a> {
    pub tis: &'a TisTable,
    pub registry: &'a Registry,
    pub usage: &'a Usage,
}

/// Draws blocks until none is left, divides the lines of each, and sends each portion that is not 0 to the mailbox of its
/// account; at the end, an end mark to every mailbox. `senders` has one sender for each account, and `worker` is the number
/// that the gate is told. False: the stop word was found set, and some postings or end marks were not sent.
pub fn work<M: Mail, G: Gate, R: Wait>(
    rt: &R,
    senders: &mut [M::Sender],
    tis: &TisTable,
    registry: &Registry,
    usage: &Usage,
    drawer: &mut Drawer,
    worker: u64,
    claims: &mut Claims,
    portions: &mut Portions,
    gate: &G,
    stop: &AtomicBool,
) -> bool
    requires accounts { length senders.old ≡ length registry.now.accounts }
    requires fresh { AreFresh (map M.sender senders.old) }
    requires ready { AreReadyFor false (map M.sender senders.old) (length usage.now) }
    requires drawer { IsFresh (length usage.now) (drawer_of drawer.old) }
    requires claims { MOST_CLAIMS ≤ claims.old.room }
    requires portions { MOST_CLAIMS + 1 ≤ portions.old.room }
    ensures sent { result ≡ true → HaveSentTheirLists (length senders.old) (division_by tis.now registry.now) usage.now (drawer_of drawer.new).drawn (map M.sender senders.new) }
    ensures ended { result ≡ true → HaveSentBlocksAndEnded false (division_by tis.now registry.now) usage.now (drawer_of drawer.new).drawn (map M.sender senders.old) (map M.sender senders.new) }
    ensures drawn { result ≡ true → (drawer_of drawer.new).is_done ≡ true }
    ensures drawer { IsSameDrawer (drawer_of drawer.old) (drawer_of drawer.new) }
{
    let inputs = Inputs {
        tis,
        registry,
        usage,
    };
    let mut signals = WorkerSignals::new(None, worker);
    work_on::<Separate<'_, M>, G, R>(
        rt,
        senders,
        inputs,
        drawer,
        worker,
        claims,
        portions,
        gate,
        stop,
        &mut signals,
    )
}

/// The same by the sender of a pool, whose mailboxes are those of the accounts. Its type has to fit into memory, as every
/// type does of which there is a value; the checker does not know it of a type parameter.
pub fn work_pool<P: Pool, G: Gate, R: Wait>(
    rt: &R,
    sender: &mut P::Sender,
    tis: &TisTable,
    registry: &Registry,
    usage: &Usage,
    drawer: &mut Drawer,
    worker: u64,
    claims: &mut Claims,
    portions: &mut Portions,
    gate: &G,
    stop: &AtomicBool,
) -> bool
    requires size { FitsInMemory P.Sender.row }
    requires accounts { (P.sender sender.old).mailboxes ≡ length registry.now.accounts }
    requires fresh { (account : ℕ) → account < length registry.now.accounts
        → ((P.sender sender.old).sent account ≡ []) × ((P.sender sender.old).is_ended account ≡ false) }
    requires left { 257 * length usage.now ≤ (P.sender sender.old).left }
    requires drawer { IsFresh (length usage.now) (drawer_of drawer.old) }
    requires claims { MOST_CLAIMS ≤ claims.old.room }
    requires portions { MOST_CLAIMS + 1 ≤ portions.old.room }
    ensures sent { result ≡ true → HasSentEachList (length registry.now.accounts) (division_by tis.now registry.now)
        usage.now (drawer_of drawer.new).drawn (P.sender sender.new) }
    ensures ended { result ≡ true → HasEndedEverywhere (P.sender sender.new) }
    ensures same { result ≡ true → IsSameSender (P.sender sender.old) (P.sender sender.new) }
    ensures drawn { result ≡ true → (drawer_of drawer.new).is_done ≡ true }
    ensures drawer { IsSameDrawer (drawer_of drawer.old) (drawer_of drawer.new) }
{
    let inputs = Inputs {
        tis,
        registry,
        usage,
    };
    prove!(registry.accounts() >= 1, "there is the residue's account");
    let mut signals = WorkerSignals::new(None, worker);
    let senders = from_mut(sender).as_mut_slice();
    work_on::<Pooled<'_, P>, G, R>(
        rt,
        senders,
        inputs,
        drawer,
        worker,
        claims,
        portions,
        gate,
        stop,
        &mut signals,
    )
}

/// What both do, over mailboxes of any kind: the readers are told of each posting, in a run.
pub(crate) fn work_on<B: Mailboxes, G: Gate, R: Wait>(
    rt: &R,
    senders: &mut [B::Sender],
    inputs: Inputs<'_>,
    drawer: &mut Drawer,
    worker: u64,
    claims: &mut Claims,
    portions: &mut Portions,
    gate: &G,
    stop: &AtomicBool,
    signals: &mut WorkerSignals<'_>,
) -> bool
    requires accounts { length (B.senders senders.old) ≡ account_count inputs }
    requires ready { AreReadyFor B.is_shared (B.senders senders.old) (line_count inputs) }
    requires drawer { IsFresh (line_count inputs) (drawer_of drawer.old) }
    requires claims { MOST_CLAIMS ≤ claims.old.room }
    requires portions { MOST_CLAIMS + 1 ≤ portions.old.room }
    ensures ended { result ≡ true
        → HaveSentBlocksAndEnded B.is_shared (division_in inputs.entry) (lines_in inputs.entry) (drawer_of drawer.new).drawn (B.senders senders.old) (B.senders senders.new) }
    ensures drawn { result ≡ true → (drawer_of drawer.new).is_done ≡ true }
    ensures drawer { IsSameDrawer (drawer_of drawer.old) (drawer_of drawer.new) }
{
    let accounts = inputs.registry.accounts();
    prove!(accounts >= 1, "there is the residue's account");
    for _ in rt.forever() {
        if stop.load(Ordering::SeqCst) {
            return false;
        }
        let Some(block) = drawer.draw() else {
            let sent = send_ends::<B, R>(rt, senders, accounts as usize, stop, signals);
            signals.end();
            return sent;
        };
        if !work_block::<B, G, R>(
            rt,
            senders,
            inputs,
            block as usize,
            worker,
            claims,
            portions,
            gate,
            stop,
            signals,
        ) {
            return false;
        }
    }
    unreachable!()
}

/// Divides and sends the lines of a block. False: the run was stopped.
fn work_block<B: Mailboxes, G: Gate, R: Wait>(
    rt: &R,
    senders: &mut [B::Sender],
    inputs: Inputs<'_>,
    block: usize,
    worker: u64,
    claims: &mut Claims,
    portions: &mut Portions,
    gate: &G,
    stop: &AtomicBool,
    signals: &mut WorkerSignals<'_>,
) -> bool
    requires accounts { length (B.senders senders.old) ≡ account_count inputs }
    requires sound { IsRegistered inputs.registry.now }
    requires block { 64 * block < line_count inputs }
    requires ready { AreReadyFor B.is_shared (B.senders senders.old) (lines_from (line_count inputs) block) }
    requires claims { MOST_CLAIMS ≤ claims.old.room }
    requires portions { MOST_CLAIMS + 1 ≤ portions.old.room }
    ensures sent { result ≡ true → HaveSentBlock B.is_shared (division_in inputs.entry) (lines_in inputs.entry) block (B.senders senders.old) (B.senders senders.new) }
    ensures spent { result ≡ true → HasSpent B.is_shared (B.senders senders.old) (B.senders senders.new) (257 * lines_within (line_count inputs.entry) block) }
    ensures rooms { (claims.new.room ≡ claims.old.room) × (portions.new.room ≡ portions.old.room) }
{
    let lines = inputs.usage.len();
    let first = block * LINES_IN_BLOCK;
    let end = lines.min(first + LINES_IN_BLOCK);
    let works = works_of(inputs.registry, inputs.usage, first, end);
    for place in first..end {
        let found = works[place - first];
        if !work_line::<B, G, R>(
            rt, senders, inputs, place, found, worker, claims, portions, gate, stop, signals,
        ) {
            return false;
        }
    }
    true
}

/// Divides a line, whose work has been looked up, and sends its portions. False: the run was stopped.
fn work_line<B: Mailboxes, G: Gate, R: Wait>(
    rt: &R,
    senders: &mut [B::Sender],
    inputs: Inputs<'_>,
    place: usize,
    found: Option<Work<'_>>,
    worker: u64,
    claims: &mut Claims,
    portions: &mut Portions,
    gate: &G,
    stop: &AtomicBool,
    signals: &mut WorkerSignals<'_>,
) -> bool
    requires accounts { length (B.senders senders.old) ≡ account_count inputs }
    requires sound { IsRegistered inputs.registry.now }
    requires place { place < line_count inputs }
    requires found { (line : UsageLine) → slice_get inputs.usage.now place ≡ Some line → IsLookUp inputs.registry.now line.work found }
    requires ready { AreReadyFor B.is_shared (B.senders senders.old) 1 }
    requires claims { MOST_CLAIMS ≤ claims.old.room }
    requires portions { MOST_CLAIMS + 1 ≤ portions.old.room }
    ensures sent { result ≡ true → HaveSentLine B.is_shared (division_in inputs.entry) (lines_in inputs.entry) place (B.senders senders.old) (B.senders senders.new) }
    ensures spent { result ≡ true → HasSpent B.is_shared (B.senders senders.old) (B.senders senders.new) 257 }
    ensures rooms { (claims.new.room ≡ claims.old.room) × (portions.new.room ≡ portions.old.room) }
{
    prove!(
        inputs.usage.len() as u64 <= MOST_LINES,
        "no table has more lines"
    );
    let line = inputs.usage.line(place);
    let _ = inputs.registry.claims_to(found, inputs.tis, &line, claims);
    prove!(
        claims.list().len() <= MOST_CLAIMS,
        "no line has more claims"
    );
    split(line.amount, claims, portions);
    gate.pass(worker, place as u64);
    send_line::<B, R>(rt, senders, place as u64, portions.list(), stop, signals)
}

/// The works of the lines from one place to another, at most a block of them. They lie far apart in memory, and look-ups
/// that follow one another do not wait for each other.
fn works_of<'a>(
    registry: &'a Registry,
    usage: &Usage,
    from: usize,
    end: usize,
) -> [Option<Work<'a>>; LINES_IN_BLOCK]
    requires within { end ≤ length usage.now }
    requires few { end ≤ from + 64 }
    ensures { (place : ℕ) (line : UsageLine) → from ≤ place → place < end → slice_get usage.now place ≡ Some line → IsLookUp registry.now line.work (slice_index_or result (place - from) None) }
{
    let mut works = [None; LINES_IN_BLOCK];
    for place in from..end {
        works[place - from] = registry.find(usage.line(place).work);
    }
    works
}

/// Sends an end mark to the mailbox of each account. False: the run was stopped before.
fn send_ends<B: Mailboxes, R: Wait>(
    rt: &R,
    senders: &mut [B::Sender],
    accounts: usize,
    stop: &AtomicBool,
    signals: &mut WorkerSignals<'_>,
) -> bool
    requires accounts { accounts ≡ length (B.senders senders.old) }
    requires ready { AreReadyFor B.is_shared (B.senders senders.old) 0 }
    ensures { result ≡ true → HaveEnded B.is_shared (B.senders senders.old) (B.senders senders.new) (λ account. []) }
{
    for account in 0..accounts {
        if !send_end::<B, R>(rt, senders, account, stop, signals) {
            return false;
        }
    }
    true
}
