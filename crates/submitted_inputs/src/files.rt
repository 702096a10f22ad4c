//! The CWR files of submitters, read side by side.

ghost use Rattle.std.specs.Prelude.{◌≡◌, ◌⊎◌, ◌<◌, ℕ, List, Ok, Some, IfErr, IfNone, IfOk, IfSome, length, map};
ghost use Rattle.submitted_inputs.specs.Files.{AreFilesRead, IsFaultOfFile, IsFaultOfFiles, IsFileRead, IsTextRead};
ghost use Rattle.submitted_inputs.specs.Outcomes.{AreOutcomes, IsFirstRefused, IsOutcomeOf};
ghost use Rattle.submitted_inputs.specs.declared.fault.SubmittedFault.TheVariants.{Room};

use crate::SubmittedFault;
use cwr_share::{CwrFault, InForce};
use std::alloc::{AllocError, Global};
use std::thread;
use std::thread::Threads;

/// Where the CWR files of submitters are read, by the places of these among the names.
pub trait SubmitterFiles {
    // the file of a place holds these bytes
    ghost holds: { Self → ℕ → List ℕ → Type 0 };
    // the file of a place cannot be read
    ghost refuses: { Self → ℕ → Type 0 };
    // there is no memory for the file of a place
    ghost lacks: { Self → ℕ → Type 0 };

    /// The bytes of the file at a place. None: it cannot be read.
    fn read(&self, alloc: Global, place: usize) -> Result<Option<Vec<u8>>, AllocError>
        ensures bytes { IfOk result (λ found. IfSome found (λ bytes. holds self.now place bytes.items)) }
        ensures unreadable { IfOk result (λ found. IfNone found (refuses self.now place)) }
        ensures memory { IfErr result (λ _. lacks self.now place) };
}

/// The bytes of the file at a place, and its registrations in force.
pub fn read_with_text<F: SubmitterFiles>(
    alloc: Global,
    files: &F,
    place: usize,
) -> Result<(Vec<u8>, InForce), SubmittedFault>
    ensures read { IfOk result (λ read. IsTextRead (F.holds files.now) place read.0.items read.1) }
    ensures fault { IfErr result (λ fault. (fault ≡ Room)
        ⊎ IsFaultOfFile (F.holds files.now) (F.refuses files.now) place fault) }
{
    let Some(bytes) = files.read(alloc, place)? else {
        return Err(SubmittedFault::Unreadable(place));
    };
    match InForce::read(alloc, bytes.as_slice()) {
        Ok(in_force) => Ok((bytes, in_force)),
        Err(CwrFault::Memory) => Err(SubmittedFault::Room),
        Err(fault) => Err(SubmittedFault::Cwr(place, fault)),
    }
}

/// The registrations in force of the file at a place.
fn read_file<F: SubmitterFiles>(
    alloc: Global,
    files: &F,
    place: usize,
) -> Result<InForce, SubmittedFault>
    ensures read { IfOk result (IsFileRead (F.holds files.now) place) }
    ensures fault { IfErr result (λ fault. (fault ≡ Room)
        ⊎ IsFaultOfFile (F.holds files.now) (F.refuses files.now) place fault) }
{
    let (_, in_force) = read_with_text(alloc, files, place)?;
    Ok(in_force)
}

/// What became of a file: its registrations in force, or why there are none. Nothing, before it is read.
type Outcome = Option<Result<InForce, SubmittedFault>>;

/// The registrations in force of the files of `count` submitters, read side by side by up to `threads` threads. The fault
/// of the first that has one is the answer. A thread that the system refuses costs time alone.
pub(crate) fn read_files<R: Threads + Sync, F: SubmitterFiles + Sync>(
    rt: &R,
    alloc: Global,
    files: &F,
    count: usize,
    threads: usize,
) -> Result<Vec<InForce>, SubmittedFault>
    ensures read { IfOk result (λ read. AreFilesRead (F.holds files.now) count read.items) }
    ensures fault { IfErr result (λ fault. (fault ≡ Room)
        ⊎ IsFaultOfFiles (F.holds files.now) (F.refuses files.now) count fault) }
{
    let mut outcomes = none_yet(alloc, count)?;
    read_each(rt, alloc, files, outcomes.as_mut_slice(), threads.max(1));
    in_order(alloc, outcomes)
}

/// Reads the file of each place, by up to `threads` threads.
fn read_each<R: Threads + Sync, F: SubmitterFiles + Sync>(
    rt: &R,
    alloc: Global,
    files: &F,
    outcomes: &mut [Outcome],
    threads: usize,
)
    requires { 0 < threads }
    ensures { AreOutcomes (F.holds files.now) (F.refuses files.now) outcomes.new }
{
    thread::for_each_mut(
        rt,
        outcomes,
        threads,
        &|place: usize, outcome: &mut Outcome|
            ensures { IsOutcomeOf (F.holds files.entry.now) (F.refuses files.entry.now) place outcome.exit.now }
        { *outcome = Some(read_file(alloc, files, place)) },
    );
}

/// No outcome yet, for each of `count` files.
fn none_yet(alloc: Global, count: usize) -> Result<Vec<Outcome>, AllocError>
    ensures { IfOk result (λ outcomes. length outcomes.items ≡ count) }
{
    let mut outcomes: Vec<Outcome> = Vec::with_capacity(alloc, count)?;
    while outcomes.len() < count {
        outcomes.push(None)?;
    }
    Ok(outcomes)
}

/// What became of files, in order: all of them, or the first fault.
fn in_order(alloc: Global, outcomes: Vec<Outcome>) -> Result<Vec<InForce>, SubmittedFault>
    ensures read { IfOk result (λ read. outcomes.items ≡ map (λ in_force. Some (Ok in_force)) read.items) }
    ensures fault { IfErr result (λ fault. (fault ≡ Room) ⊎ IsFirstRefused outcomes.items fault) }
{
    let mut read = Vec::new(alloc);
    for outcome in outcomes {
        match outcome {
            Some(Ok(in_force)) => {
                if read.push(in_force).is_err() {
                    return Err(SubmittedFault::Room);
                }
            }
            Some(Err(fault)) => return Err(fault),
            None => return Err(SubmittedFault::Room),
        }
    }
    Ok(read)
}
