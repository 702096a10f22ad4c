//! A merge over files.

ghost use Rattle.std.specs.Io.KnownBytes.{Appends};
ghost use Rattle.std.specs.Prelude.{◌≡◌, ◌<◌, ◌≤◌, ◌+◌, ◌^◌, ℕ, List, Some, IfErr, IfNone, IfOk, IfSome, OnErr, OnOk};
ghost use Rattle.std.specs.Prelude.{map, string_bytes};
ghost use Rattle.std.specs.Option.{option_map};
ghost use Rattle.royalty_program.specs.MergeFiles.{AreOpened, AreSoundTexts, IsCountedText, IsMergeOver};
ghost use Rattle.royalty_program.specs.Status.{IsOfOne, IsOfOutput, IsOfPlace, IsOfRefusal, IsOfText, IsOfTexts};
ghost use Rattle.royalty_program.specs.Status.{IsRefusal, IsUnopened, status_of};
ghost use Rattle.royalty_program.specs.Targets.{IsLeftOrHas, IsPut};
ghost use Rattle.merge_statements.specs.declared.refusal.Refusal.TheVariants as Refusal;
ghost use Rattle.royalty_program.specs.declared.failure.Failure.TheVariants.{Many};

use crate::failure::Failure;
use crate::merge_command::MergeWords;
use crate::sources::{Texts, unread};
use crate::targets::{Target, finish, unkept};
use merge_statements::amount::MOST_COUNT;
use merge_statements::{Counts, Refusal, TextRefusal, check, merge};
use std::alloc::Global;
use std::io::{self, ErrorKind, Write};

/// Prints what the texts of statements in the files of these paths merge to, in their order. All
/// are read through before anything is printed.
pub fn merge_files<S: Texts, W: Write>(
    alloc: Global,
    files: &S,
    paths: &[String],
    out: &mut W,
) -> Result<io::Result<()>, Failure>
    ensures merged { IfOk result (λ printed. OnOk printed ((text : List ℕ)
        × Appends (W.contents out.old) (W.contents out.new) text
        × IsMergeOver (S.gives files.now) (map string_bytes paths.now) text)) }
    ensures failure { IfErr result IsRefusal }
    ensures files { IfErr result (IsOfTexts (S.gives files.now) (map string_bytes paths.now)) }
    ensures silent { IfErr result (λ failure. status_of failure ≤ 2 → out.new ≡ out.old) }
{
    check_all(alloc, files, paths)?;
    merge_opened(alloc, files, paths, out)
}

/// The same of texts that are read once, for an output that may have a beginning where one is
/// refused. Only then are they read through, to tell which is the first.
fn merge_once<S: Texts, W: Write>(
    alloc: Global,
    files: &S,
    paths: &[String],
    out: &mut W,
) -> Result<io::Result<()>, Failure>
    ensures merged { IfOk result (λ printed. OnOk printed ((text : List ℕ)
        × Appends (W.contents out.old) (W.contents out.new) text
        × IsMergeOver (S.gives files.now) (map string_bytes paths.now) text)) }
    ensures failure { IfErr result IsRefusal }
    ensures files { IfErr result (IsOfTexts (S.gives files.now) (map string_bytes paths.now)) }
{
    match merge_opened(alloc, files, paths, out) {
        Ok(printed) => Ok(printed),
        Err(failure) => {
            check_all(alloc, files, paths)?;
            Err(failure)
        }
    }
}

/// Prints what the texts merge to while they are read.
fn merge_opened<S: Texts, W: Write>(
    alloc: Global,
    files: &S,
    paths: &[String],
    out: &mut W,
) -> Result<io::Result<()>, Failure>
    ensures merged { IfOk result (λ printed. OnOk printed ((text : List ℕ)
        × Appends (W.contents out.old) (W.contents out.new) text
        × IsMergeOver (S.gives files.now) (map string_bytes paths.now) text)) }
    ensures failure { IfErr result IsRefusal }
    ensures one { IfErr result (IsOfOne (S.gives files.now) (map string_bytes paths.now)) }
{
    let readers = open_all(alloc, files, paths)?;
    match merge(alloc, readers, out) {
        Ok(()) => Ok(Ok(())),
        Err(TextRefusal { place, refusal }) => match refusal {
            Refusal::Write(error) => Ok(Err(error)),
            _ => Err(changed(alloc, paths, place, refusal)),
        },
    }
}

/// The same into the file of a path: whole, or that is as it was.
fn merge_kept<S: Texts, T: Target>(
    alloc: Global,
    files: &S,
    target: &mut T,
    paths: &[String],
    path: String,
) -> Result<(), Failure>
    ensures merged { IfOk result (λ _. (text : List ℕ) × T.keeps target.new (string_bytes path) (Some text)
        × IsMergeOver (S.gives files.now) (map string_bytes paths.now) text) }
    ensures failure { IfErr result IsRefusal }
    ensures files { IfErr result (IsOfOutput (Some path) (IsOfTexts (S.gives files.now) (map string_bytes paths.now))) }
    ensures left { OnErr result (IsLeftOrHas (T.keeps target.old (string_bytes path))
        (T.keeps target.new (string_bytes path))
        (IsMergeOver (S.gives files.now) (map string_bytes paths.now))) }
{
    let mut draft = match target.begin(alloc, path.as_str()) {
        Ok(draft) => draft,
        Err(error) => return Err(unkept(error.kind(), path)),
    };
    let written = merge_once(alloc, files, paths, &mut draft);
    finish(target, draft, path, written)
}

/// Prints the merged text, or keeps it in the file of a path, where there is one.
pub fn merge_out<S: Texts, T: Target, W: Write>(
    alloc: Global,
    files: &S,
    target: &mut T,
    asked: MergeWords,
    out: &mut W,
) -> Result<io::Result<()>, Failure>
    ensures merged { IfOk result (λ printed. OnOk printed ((text : List ℕ)
        × IsPut (option_map string_bytes asked.output) (T.keeps target.new) (W.contents out.old)
        (W.contents out.new) text
        × IsMergeOver (S.gives files.now) (map string_bytes asked.statements.items) text)) }
    ensures failure { IfErr result IsRefusal }
    ensures files { IfErr result (IsOfOutput asked.output (IsOfTexts (S.gives files.now)
        (map string_bytes asked.statements.items))) }
    ensures silent { IfErr result (λ failure. status_of failure ≤ 2 → out.new ≡ out.old) }
    ensures unprinted { IfSome asked.output (λ _. out.new ≡ out.old) }
    ensures left { IfSome asked.output (λ path. IsLeftOrHas (T.keeps target.old (string_bytes path))
        (T.keeps target.new (string_bytes path))
        (IsMergeOver (S.gives files.now) (map string_bytes asked.statements.items))) }
    ensures unused { IfNone asked.output (target.new ≡ target.old) }
{
    let MergeWords { output, statements } = asked;
    match output {
        None => merge_files(alloc, files, statements.as_slice(), out),
        Some(path) => {
            merge_kept(alloc, files, target, statements.as_slice(), path)?;
            Ok(Ok(()))
        }
    }
}

/// Reads the text of each path through.
fn check_all<S: Texts>(alloc: Global, files: &S, paths: &[String]) -> Result<(), Failure>
    ensures sound { OnOk result ((lines : ℕ) × AreSoundTexts (S.gives files.now) (map string_bytes paths.now) lines
        × (lines ≤ 10 ^ 18)) }
    ensures failure { IfErr result IsRefusal }
    ensures files { IfErr result (IsOfTexts (S.gives files.now) (map string_bytes paths.now)) }
{
    let mut lines = 0;
    for path in paths {
        let own = check_text(alloc, files, path.as_str())?;
        lines = more_lines(lines, own.lines)?;
    }
    Ok(())
}

/// Reads the text of a path through, and answers how many usage lines it is of, and how many rows it has.
pub(crate) fn check_text<S: Texts>(alloc: Global, files: &S, path: &str) -> Result<Counts, Failure>
    ensures sound { IfOk result (λ counts. IsCountedText (S.gives files.now) path.now counts.lines counts.rows) }
    ensures failure { IfErr result IsRefusal }
    ensures refused { IfErr result (IsOfText (S.gives files.now) path.now) }
{
    let reader = match files.open(path) {
        Ok(reader) => reader,
        Err(error) => return Err(unopened(alloc, error.kind(), path)),
    };
    match check(alloc, reader) {
        Ok(counts) => Ok(counts),
        Err(refusal) => Err(refused(alloc, refusal, path)),
    }
}

/// So many usage lines and more, as long as they are not too many.
fn more_lines(lines: u64, more: u64) -> Result<u64, Failure>
    ensures sum { IfOk result (λ all. all ≡ lines + more) }
    ensures few { IfOk result (λ all. all ≤ 10 ^ 18) }
    ensures failure { IfErr result (λ failure. failure ≡ Many) }
    ensures many { IfErr result (λ _. 10 ^ 18 < lines + more) }
{
    match lines.checked_add(more) {
        Some(all) if all <= MOST_COUNT => Ok(all),
        _ => Err(Failure::Many),
    }
}

/// Readers of the files of these paths, in their order.
fn open_all<S: Texts>(alloc: Global, files: &S, paths: &[String]) -> Result<Vec<S::Reader>, Failure>
    ensures opened { IfOk result (λ readers. AreOpened (S.gives files.now) (map string_bytes paths.now)
        (map S.Reader.remaining readers.items)) }
    ensures failure { IfErr result IsRefusal }
    ensures files { IfErr result (IsOfOne (S.gives files.now) (map string_bytes paths.now)) }
{
    let mut readers = Vec::new(alloc);
    for path in paths {
        let reader = match files.open(path.as_str()) {
            Ok(reader) => reader,
            Err(error) => return Err(unopened(alloc, error.kind(), path.as_str())),
        };
        match readers.push(reader) {
            Ok(()) => {}
            Err(_) => return Err(Failure::Room),
        }
    }
    Ok(readers)
}

/// Why there is no reader of a path, by the kind of the error.
pub(crate) fn unopened(alloc: Global, kind: ErrorKind, path: &str) -> Failure
    ensures failure { IsRefusal result }
    ensures file { IsUnopened path.now result }
{
    match String::from_str(alloc, path) {
        Ok(path) => unread(kind, path),
        Err(_) => Failure::Room,
    }
}

/// Why the text of a path is refused, which is never since it has too many portions.
fn refused(alloc: Global, refusal: Refusal, path: &str) -> Failure
    requires { ¬ (refusal ≡ Refusal.Many) }
    ensures failure { IsRefusal result }
    ensures refused { IsOfRefusal path.now refusal result }
{
    let Ok(path) = String::from_str(alloc, path) else {
        return Failure::Room;
    };
    match refusal {
        Refusal::Fault(fault) => Failure::Statement { fault, path },
        Refusal::Memory => Failure::Room,
        Refusal::Many => unreachable!(),
        Refusal::Read(error) | Refusal::Write(error) => unread(error.kind(), path),
    }
}

/// Why texts that were read through cannot be merged, where the one in a place is refused: it
/// changed, or cannot be read any more, or all are of too many portions or usage lines.
fn changed(alloc: Global, paths: &[String], place: u64, refusal: Refusal) -> Failure
    ensures failure { IsRefusal result }
    ensures one { IsOfPlace (map string_bytes paths.now) place refusal result }
    ensures status { 2 < status_of result }
{
    let Some(path) = paths.get(place as usize) else {
        return Failure::Room;
    };
    let Ok(path) = path.clone() else {
        return Failure::Room;
    };
    match refusal {
        Refusal::Memory => Failure::Room,
        Refusal::Fault(_) => Failure::Changed(path),
        Refusal::Many => Failure::ManyMerged,
        Refusal::Read(error) | Refusal::Write(error) => unread(error.kind(), path),
    }
}
