//! Why usage lines have a residue.

ghost use Rattle.std.specs.Prelude.{◌≡◌, ◌+◌, ◌*◌, ◌<◌, ◌≤◌, All, IfOk, length, map};
ghost use Rattle.payee_book.specs.Text.{residue_rows};
ghost use Rattle.settle_run.specs.Reasons.{AreFound, AreReasonsFor, AreUnknown};
ghost use Rattle.settle_run.specs.Settled.{reason_of};

use cwr_share::Registry;
use line_split::{Reason, Usage};
use payee_book::Posting;
use std::alloc::{AllocError, Global};
use std::thread;
use std::thread::Threads;
use tis_tree::TisTable;

/// The fewest postings that are worth a thread.
const LEAST_FOR_THREAD: usize = 1024;

/// The reason of each usage line that has a posting of the residue; of the others it is never asked. At most so
/// many threads look for them.
pub(crate) fn reasons_of<R: Threads + Sync>(
    rt: &R,
    alloc: Global,
    tis: &TisTable,
    registry: &Registry,
    usage: &Usage,
    residue: &[Posting],
    threads: usize,
) -> Result<Vec<Reason>, AllocError>
    requires lines { All (λ posting. posting.0 < length usage.now) residue.now }
    requires threads { 0 < threads }
    ensures each { IfOk result (λ reasons. length reasons.items ≡ length usage.now) }
    ensures found { IfOk result (λ reasons. AreReasonsFor (map (reason_of tis.now registry.now) usage.now) residue.now
        reasons.items) }
    ensures rows { IfOk result (λ reasons. residue_rows usage.now reasons.items residue.now ≡ residue_rows usage.now (map (reason_of tis.now registry.now) usage.now) residue.now) }
{
    let mut found: Vec<Option<Reason>> = vec![in alloc; None; residue.len()]?;
    let size = part_size(residue.len(), threads);
    find_all(rt, alloc, tis, registry, usage, residue, size, &mut found);
    let mut reasons = vec![in alloc; Reason::Open; usage.len()]?;
    for place in 0..residue.len() {
        let Some(reason) = found[place] else {
            return Err(AllocError);
        };
        reasons[residue[place].0 as usize] = reason;
    }
    Ok(reasons)
}

/// How many of so many postings each thread looks at, which are at most so many threads.
fn part_size(postings: usize, threads: usize) -> usize
    requires { 0 < threads }
    ensures enough { postings ≤ result * threads }
    ensures worth { 1024 ≤ result }
{
    postings.div_ceil(threads).max(LEAST_FOR_THREAD)
}

/// Finds the reasons of postings, each thread those of so many. A thread that is refused memory finds none.
fn find_all<R: Threads + Sync>(
    rt: &R,
    alloc: Global,
    tis: &TisTable,
    registry: &Registry,
    usage: &Usage,
    residue: &[Posting],
    size: usize,
    found: &mut [Option<Reason>],
)
    requires lines { All (λ posting. posting.0 < length usage.now) residue.now }
    requires size { 0 < size }
    requires each { length found.old ≡ length residue.now }
    requires unknown { AreUnknown found.old }
    ensures found { AreFound (map (reason_of tis.now registry.now) usage.now) residue.now 0 found.new }
{
    thread::for_each_chunk_mut(
        rt,
        found,
        size,
        &|from: usize, part: &mut [Option<Reason>]|
            requires { All (λ posting. posting.0 < length usage.now) residue.now × (from + length part.now ≤ length residue.now) × AreUnknown part.now }
            ensures { AreFound (map (reason_of tis.entry.now registry.entry.now) usage.entry.now) residue.entry.now from part.exit.now }
        { find_from(alloc, tis, registry, usage, residue, from, part) },
    );
}

/// Finds the reasons of the postings from a place on, as many as there is room for.
fn find_from(
    alloc: Global,
    tis: &TisTable,
    registry: &Registry,
    usage: &Usage,
    residue: &[Posting],
    from: usize,
    part: &mut [Option<Reason>],
)
    requires lines { All (λ posting. posting.0 < length usage.now) residue.now }
    requires few { from + length part.old ≤ length residue.now }
    requires unknown { AreUnknown part.old }
    ensures found { AreFound (map (reason_of tis.now registry.now) usage.now) residue.now from part.new }
{
    let Ok(mut claims) = registry.scratch(alloc) else {
        return;
    };
    for place in 0..part.len() {
        let line = usage.line(residue[from + place].0 as usize);
        let reason = match registry.claims(tis, &line, &mut claims) {
            Some(reason) => reason,
            None => Reason::Open,
        };
        part[place] = Some(reason);
    }
}
