//! An adjustment over files.

ghost use Rattle.std.specs.Io.KnownBytes.{Appends};
ghost use Rattle.std.specs.Option.{option_map};
ghost use Rattle.std.specs.Prelude.{◌≡◌, ◌≢◌, ◌⊎◌, ◌<◌, ◌≤◌, ◌∷◌, ℕ, List, [], Some, IfErr, IfNone, IfOk, IfSome, OnErr};
ghost use Rattle.std.specs.Prelude.{OnOk};
ghost use Rattle.std.specs.Prelude.{String, false, string_bytes, true};
ghost use Rattle.std.specs.declared.alloc.Global.{Global};
ghost use Rattle.royalty_program.specs.AdjustFiles.{AreAlike, IsAdjustmentOver, IsNeither, IsOfBoth, IsOfReading};
ghost use Rattle.royalty_program.specs.AdjustFiles.{IsSaidChanged, IsSaidOther};
ghost use Rattle.royalty_program.specs.MergeFiles.{Gives};
ghost use Rattle.royalty_program.specs.Status.{IsOfPlace, IsOfRunOutput, IsRefusal, IsUnopened, status_of};
ghost use Rattle.royalty_program.specs.Targets.{IsLeft, IsLeftOrHas, IsPut};
ghost use Rattle.royalty_program.specs.declared.failure.Failure.TheVariants.{Replaces};

use crate::adjust_command::AdjustWords;
use crate::failure::Failure;
use crate::merge_files::{check_text, unopened};
use crate::sources::{Texts, unread};
use crate::targets::{Target, finish, unkept};
use adjust_statements::{AdjustRefusal, adjust};
use merge_statements::{Refusal, TextRefusal};
use std::alloc::Global;
use std::io::{self, Write};

/// Prints what the statements in two files differ by: those that were paid, and those that are
/// right. Both are read through before anything is printed.
pub fn adjust_files<S: Texts, W: Write>(
    alloc: Global,
    files: &S,
    paid: &str,
    right: &str,
    out: &mut W,
) -> Result<io::Result<()>, Failure>
    ensures adjusted { IfOk result (λ printed. OnOk printed ((text : List ℕ)
        × Appends (W.contents out.old) (W.contents out.new) text
        × IsAdjustmentOver (S.gives files.now) paid.now right.now text)) }
    ensures failure { IfErr result IsRefusal }
    ensures files { IfErr result (IsOfBoth (S.gives files.now) paid.now right.now) }
    ensures silent { IfErr result (λ failure. status_of failure ≤ 2 → out.new ≡ out.old) }
{
    check_both(alloc, files, paid, right)?;
    adjust_opened(alloc, files, paid, right, out)
}

/// The same of texts that are read once, for an output that may have a beginning where one is
/// refused. Only then are they read through, to tell which is the first.
fn adjust_once<S: Texts, W: Write>(
    alloc: Global,
    files: &S,
    paid: &str,
    right: &str,
    out: &mut W,
) -> Result<io::Result<()>, Failure>
    ensures adjusted { IfOk result (λ printed. OnOk printed ((text : List ℕ)
        × Appends (W.contents out.old) (W.contents out.new) text
        × IsAdjustmentOver (S.gives files.now) paid.now right.now text)) }
    ensures failure { IfErr result IsRefusal }
    ensures files { IfErr result (IsOfBoth (S.gives files.now) paid.now right.now) }
{
    match adjust_opened(alloc, files, paid, right, out) {
        Ok(printed) => Ok(printed),
        Err(failure) => {
            check_both(alloc, files, paid, right)?;
            Err(failure)
        }
    }
}

/// Prints what the texts differ by while they are read.
fn adjust_opened<S: Texts, W: Write>(
    alloc: Global,
    files: &S,
    paid: &str,
    right: &str,
    out: &mut W,
) -> Result<io::Result<()>, Failure>
    ensures adjusted { IfOk result (λ printed. OnOk printed ((text : List ℕ)
        × Appends (W.contents out.old) (W.contents out.new) text
        × IsAdjustmentOver (S.gives files.now) paid.now right.now text)) }
    ensures failure { IfErr result IsRefusal }
    ensures reading { IfErr result (IsOfReading (S.gives files.now) paid.now right.now) }
{
    let before = open_text(alloc, files, paid)?;
    let after = open_text(alloc, files, right)?;
    match adjust(alloc, before, after, out) {
        Ok(()) => Ok(Ok(())),
        Err(AdjustRefusal::Lines(_)) => Err(changed_lines(alloc, right)),
        Err(AdjustRefusal::Text(TextRefusal { place, refusal })) => match refusal {
            Refusal::Write(error) => Ok(Err(error)),
            _ => Err(changed_text(alloc, paid, right, place, refusal)),
        },
    }
}

/// The same into the file of a path: whole, or that is as it was. A path that is one of the two is
/// refused before anything is read.
fn adjust_kept<S: Texts, T: Target>(
    alloc: Global,
    files: &S,
    target: &mut T,
    paid: &str,
    right: &str,
    path: String,
) -> Result<(), Failure>
    ensures adjusted { IfOk result (λ _. (text : List ℕ) × T.keeps target.new (string_bytes path) (Some text)
        × IsAdjustmentOver (S.gives files.now) paid.now right.now text) }
    ensures apart { IfOk result (λ _. IsNeither paid.now right.now (string_bytes path)) }
    ensures replaces { IfErr result (λ failure. (at : String Global) → failure ≡ Replaces at
        → T.one_file target.old (string_bytes at) paid.now ⊎ T.one_file target.old (string_bytes at) right.now) }
    ensures others { (other : List ℕ) → other ≢ string_bytes path
        → IsLeft (T.keeps target.old other) (T.keeps target.new other) }
    ensures failure { IfErr result IsRefusal }
    ensures files { IfErr result (IsOfRunOutput (Some path) (IsOfBoth (S.gives files.now) paid.now right.now)) }
    ensures left { OnErr result (IsLeftOrHas (T.keeps target.old (string_bytes path))
        (T.keeps target.new (string_bytes path)) (IsAdjustmentOver (S.gives files.now) paid.now right.now)) }
{
    match is_one_of_both(target, paid, right, path.as_str()) {
        Ok(false) => {}
        Ok(true) => return Err(Failure::Replaces(path)),
        Err(error) => return Err(unkept(error.kind(), path)),
    }
    let mut draft = match target.begin(alloc, path.as_str()) {
        Ok(draft) => draft,
        Err(error) => return Err(unkept(error.kind(), path)),
    };
    let written = adjust_once(alloc, files, paid, right, &mut draft);
    finish(target, draft, path, written)
}

/// Prints the difference, or keeps it in the file of a path, where there is one.
pub fn adjust_out<S: Texts, T: Target, W: Write>(
    alloc: Global,
    files: &S,
    target: &mut T,
    asked: AdjustWords,
    out: &mut W,
) -> Result<io::Result<()>, Failure>
    ensures adjusted { IfOk result (λ printed. OnOk printed ((text : List ℕ)
        × IsPut (option_map string_bytes asked.output) (T.keeps target.new) (W.contents out.old)
        (W.contents out.new) text
        × IsAdjustmentOver (S.gives files.now) (string_bytes asked.paid) (string_bytes asked.right) text)) }
    ensures apart { IfOk result (λ _. IfSome (option_map string_bytes asked.output)
        (IsNeither (string_bytes asked.paid) (string_bytes asked.right))) }
    ensures failure { IfErr result IsRefusal }
    ensures files { IfErr result (IsOfRunOutput asked.output
        (IsOfBoth (S.gives files.now) (string_bytes asked.paid) (string_bytes asked.right))) }
    ensures replaces { IfErr result (λ failure. (at : String Global) → failure ≡ Replaces at
        → T.one_file target.old (string_bytes at) (string_bytes asked.paid)
        ⊎ T.one_file target.old (string_bytes at) (string_bytes asked.right)) }
    ensures silent { IfErr result (λ failure. status_of failure ≤ 2 → out.new ≡ out.old) }
    ensures unprinted { IfSome asked.output (λ _. out.new ≡ out.old) }
    ensures left { IfSome asked.output (λ path. IsLeftOrHas (T.keeps target.old (string_bytes path))
        (T.keeps target.new (string_bytes path))
        (IsAdjustmentOver (S.gives files.now) (string_bytes asked.paid) (string_bytes asked.right))) }
    ensures others { (other : List ℕ) → IfSome asked.output (λ path. other ≢ string_bytes path)
        → IsLeft (T.keeps target.old other) (T.keeps target.new other) }
    ensures unused { IfNone asked.output (target.new ≡ target.old) }
{
    let AdjustWords {
        output,
        paid,
        right,
    } = asked;
    match output {
        None => adjust_files(alloc, files, paid.as_str(), right.as_str(), out),
        Some(path) => {
            adjust_kept(alloc, files, target, paid.as_str(), right.as_str(), path)?;
            Ok(Ok(()))
        }
    }
}

/// Whether a path names the file of one of the two texts.
fn is_one_of_both<T: Target>(target: &T, paid: &str, right: &str, path: &str) -> io::Result<bool>
    ensures none { IfOk result (λ is_one. is_one ≡ false → IsNeither paid.now right.now path.now) }
    ensures some { IfOk result (λ is_one. is_one ≡ true
        → T.one_file target.now path.now paid.now ⊎ T.one_file target.now path.now right.now) }
{
    Ok(target.is_one_file(path, paid)? || target.is_one_file(path, right)?)
}

/// Reads both texts through. They have to be of as many usage lines.
fn check_both<S: Texts>(alloc: Global, files: &S, paid: &str, right: &str) -> Result<(), Failure>
    ensures alike { OnOk result (AreAlike (S.gives files.now) paid.now right.now) }
    ensures failure { IfErr result IsRefusal }
    ensures files { IfErr result (IsOfBoth (S.gives files.now) paid.now right.now) }
{
    let before = check_text(alloc, files, paid)?;
    let after = check_text(alloc, files, right)?;
    if before.lines != after.lines {
        return Err(other_lines(alloc, after.rows, right));
    }
    Ok(())
}

/// A reader of the file of a path.
fn open_text<S: Texts>(alloc: Global, files: &S, path: &str) -> Result<S::Reader, Failure>
    ensures opened { IfOk result (λ reader. Gives (S.gives files.now path.now) (S.Reader.remaining reader)) }
    ensures failure { IfErr result IsRefusal }
    ensures unopened { IfErr result (IsUnopened path.now) }
{
    match files.open(path) {
        Ok(reader) => Ok(reader),
        Err(error) => Err(unopened(alloc, error.kind(), path)),
    }
}

/// Why a text is refused that is of another number of usage lines than the one before. It says so in
/// the last of its rows.
fn other_lines(alloc: Global, row: u64, path: &str) -> Failure
    ensures failure { IsRefusal result }
    ensures other { IsSaidOther row path.now result }
{
    match String::from_str(alloc, path) {
        Ok(path) => Failure::OtherLines { row, path },
        Err(_) => Failure::Room,
    }
}

/// Why there is no difference where texts that were alike are of other numbers of usage lines.
fn changed_lines(alloc: Global, path: &str) -> Failure
    ensures failure { IsRefusal result }
    ensures changed { IsSaidChanged path.now result }
    ensures status { 2 < status_of result }
{
    match String::from_str(alloc, path) {
        Ok(path) => Failure::Changed(path),
        Err(_) => Failure::Room,
    }
}

/// Why there is none where of texts that were read through the one in a place is refused, from 0: it
/// changed, or cannot be read any more, or both have too many portions.
fn changed_text(alloc: Global, paid: &str, right: &str, place: u64, refusal: Refusal) -> Failure
    ensures failure { IsRefusal result }
    ensures one { IsOfPlace (paid.now ∷ right.now ∷ []) place refusal result }
    ensures status { 2 < status_of result }
{
    let path = match place {
        0 => paid,
        1 => right,
        _ => return Failure::Room,
    };
    let Ok(path) = String::from_str(alloc, path) else {
        return Failure::Room;
    };
    match refusal {
        Refusal::Memory => Failure::Room,
        Refusal::Fault(_) => Failure::Changed(path),
        Refusal::Many => Failure::ManyMerged,
        Refusal::Read(error) | Refusal::Write(error) => unread(error.kind(), path),
    }
}
