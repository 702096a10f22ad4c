//! What the program does with its words, and the status that it answers.

ghost use Rattle.std.specs.Prelude.{◌≡◌, ◌≢◌, ◌≤◌, ◌⊎◌, ℕ, List, None, Some, true, false, IfOk, IfErr, IsOk, OnErr};
ghost use Rattle.std.specs.Prelude.{OnOk, codes, drop, if◌then◌else◌, map, string_bytes};
ghost use Rattle.std.specs.Io.KnownBytes.{Appends, Keeps};
ghost use Rattle.royalty_program.specs.Asked.{AreRun, IsDivision, run_output};
ghost use Rattle.royalty_program.specs.Answered.{IsAnswered, IsDelivered, NameOutput};
ghost use Rattle.royalty_program.specs.Targets.{IsLeftOrHas};
ghost use Rattle.royalty_program.specs.StartingCommand.{starting_name};
ghost use Rattle.starting_files.specs.declared.making.StartingTable.{StartingTable};
ghost use Rattle.royalty_program.specs.DocumentsAnswered.{AreDocumentsAnswered, AskForDocuments, IsOfStatements};
ghost use Rattle.royalty_program.specs.DocumentsAnswered.{folder_given};
ghost use Rattle.royalty_program.specs.AdjustAnswered.{IsOfAdjustment};
ghost use Rattle.royalty_program.specs.Fails.{FailFor};
ghost use Rattle.royalty_program.specs.Folders.{IsLeftOrHasFolder};
ghost use Rattle.royalty_program.specs.ImportAnswered.{AskForImport, IsImportPrinted, IsLeftByImport, IsOfImport};
ghost use Rattle.royalty_program.specs.ImportAnswered.{NameImport};
ghost use Rattle.distribution_documents.specs.Documents.{File};
ghost use Rattle.royalty_program.specs.Status.{IsOfCheck, IsOfDivision, IsOfExplanation, IsOfMerge, IsOfRejects};
ghost use Rattle.royalty_program.specs.Status.{IsOfRun, IsOfTable, IsRefusal, IsReportOfFault, IsStatusOfSilence};
ghost use Rattle.royalty_program.specs.Status.{MayHaveBegun, failure_of_kind, status_of};
ghost use Rattle.royalty_program.specs.declared.failure.Failure.{Failure};
ghost use Rattle.royalty_program.specs.declared.failure.Failure.TheVariants.{Output, Room};
ghost use Rattle.pair_split.specs.Pair.{word_at};
ghost use Rattle.std.specs.IoError.{error_kind};
ghost use Rattle.std.specs.Vec.Iter.{into_iter_items};

use crate::adjust_files::adjust_out;
use crate::commands::{Asked, read_words};
use crate::document_files::document_out;
use crate::failure::Failure;
use crate::files::{check_files, explain_files, settle_out};
use crate::folders::Folders;
use crate::import_files::import_out;
use crate::merge_files::merge_out;
use crate::sources::{Source, Texts};
use crate::submitted_files::starting_table;
use crate::targets::Target;
use clap::error::ErrorKind;
use pair_split::split_words;
use std::alloc::Global;
use std::env::Args;
use std::io::{self, Write};
use std::sync::Wait;
use std::thread::Threads;

/// The words of the command line in one list, the first of which is the program's own name, or why
/// there are none.
pub fn words_of(alloc: Global, words: io::Result<Args<Global>>) -> Result<Vec<String>, Failure>
    ensures all { IfOk words (λ given. IfOk result (λ all. all.items ≡ into_iter_items given)) }
    ensures memory { OnOk words (IfErr result (λ failure. failure ≡ Room)) }
    ensures no_words { IfErr words (λ error. IfErr result (λ failure. failure ≡ failure_of_kind (error_kind error))) }
{
    match words {
        Ok(words) => words.collect(alloc).map_err(|_| Failure::Room),
        Err(error) => Err(no_words(error.kind())),
    }
}

/// Why the words cannot be had, by the kind of the error.
fn no_words(kind: io::ErrorKind) -> Failure
    ensures { result ≡ failure_of_kind kind }
{
    match kind {
        io::ErrorKind::InvalidData => Failure::NotText,
        _ => Failure::Room,
    }
}

/// Does what the words ask for, of which the first is the program's own name. Files are read from
/// `files`. The answer goes to `out`, or into the file of `target` that the words name, and what went
/// wrong to `err`. The status is 0 where the answer was printed or kept, or help was asked for, 1
/// where an input file is refused for what is in it or a report tells of a fault, 2 where the words
/// are refused, 3 where memory or a thread was, and 4 where a file cannot be read or written, or
/// `out` refused a write.
pub fn program<
    R: Threads + Wait + Sync,
    S: Source + Texts + Sync,
    T: Target + Folders,
    W: Write,
    E: Write,
>(
    rt: &R,
    alloc: Global,
    files: &S,
    target: &mut T,
    words: &[String],
    out: &mut W,
    err: &mut E,
) -> u8
    ensures known { result ≤ 4 }
    ensures printed { result ≡ 0 → (text : List ℕ)
        × IsDelivered (T.keeps target.new) (map string_bytes words.now) (W.contents out.old) (W.contents out.new) text
        × IsAnswered (S.holds files.now) (S.gives files.now) (map string_bytes words.now) true text }
    ensures reported { result ≡ 1 → word_at (map string_bytes words.now) 1 ≡ codes "check" → (text : List ℕ)
        × Appends (W.contents out.old) (W.contents out.new) text
        × IsAnswered (S.holds files.now) (S.gives files.now) (map string_bytes words.now) false text }
    ensures quiet { (result ≡ 0) ⊎ IsReportOfFault result (map string_bytes words.now) → err.new ≡ err.old }
    ensures silent { IsStatusOfSilence result (map string_bytes words.now) → out.new ≡ out.old }
    ensures accepted { AreRun (map string_bytes words.now) → run_output (drop 1 (map string_bytes words.now)) ≡ None
        → result ≢ 2 }
    ensures failed { result ≢ 0 → ¬ IsReportOfFault result (map string_bytes words.now)
        → ¬ IsOfRejects result (map string_bytes words.now) → (failure : Failure) × (result ≡ status_of failure)
        × ((failure ≡ Output) ⊎ FailFor (S.holds files.now) (S.gives files.now) (S.refuses files.now)
        (map string_bytes words.now) failure) }
    ensures left { (path : List ℕ) → NameOutput (map string_bytes words.now) path
        → IsLeftOrHas (T.keeps target.old path) (T.keeps target.new path)
        (IsAnswered (S.holds files.now) (S.gives files.now) (map string_bytes words.now) true) }
    ensures documents { result ≡ 0 → AskForDocuments (map string_bytes words.now) → (documents : List File)
        × T.keeps_folder target.new (folder_given (drop 1 (map string_bytes words.now))) (Some documents)
        × AreDocumentsAnswered (S.holds files.now) (drop 1 (map string_bytes words.now)) documents }
    ensures left_folder { word_at (map string_bytes words.now) 1 ≡ codes "statements" → IsLeftOrHasFolder
        (T.keeps_folder target.old (folder_given (drop 1 (map string_bytes words.now))))
        (T.keeps_folder target.new (folder_given (drop 1 (map string_bytes words.now))))
        (AreDocumentsAnswered (S.holds files.now) (drop 1 (map string_bytes words.now))) }
    ensures imported { result ≡ 0 → AskForImport (map string_bytes words.now) → IsImportPrinted (T.keeps target.new)
        (S.holds files.now) (S.gives files.now) (map string_bytes words.now) true (W.contents out.old)
        (W.contents out.new) }
    ensures rejected { result ≡ 1 → NameImport (map string_bytes words.now)
        → (IsImportPrinted (T.keeps target.new) (S.holds files.now) (S.gives files.now)
        (map string_bytes words.now) false
        (W.contents out.old) (W.contents out.new) × (err.new ≡ err.old))
        ⊎ ((failure : Failure) × (status_of failure ≡ 1) × (out.new ≡ out.old) × IsOfImport (S.holds files.now)
        (S.gives files.now) (S.refuses files.now) (drop 1 (map string_bytes words.now)) failure) }
    ensures left_by_import { NameImport (map string_bytes words.now) → IsLeftByImport (T.keeps target.old)
        (T.keeps target.new) (S.gives files.now) (map string_bytes words.now) }
    ensures unused { ((path : List ℕ) → ¬ NameOutput (map string_bytes words.now) path)
        → ¬ (word_at (map string_bytes words.now) 1 ≡ codes "statements") → ¬ NameImport (map string_bytes words.now)
        → target.new ≡ target.old }
{
    let printed = answer(rt, alloc, files, target, words, out);
    end(printed, out, err)
}

/// Sees an answer through to the output, or says what failed, and answers the status.
fn end<W: Write, E: Write>(
    answer: Result<(io::Result<()>, bool), Failure>,
    out: &mut W,
    err: &mut E,
) -> u8
    ensures failed { IfErr answer (λ failure. result ≡ status_of failure) }
    ensures silent { OnErr answer (out.new ≡ out.old) }
    ensures answered { IfOk answer (λ done. (result ≡ 4) ⊎ ((result ≡ (if done.1 then 0 else 1)) × IsOk done.0
        × Keeps (W.contents out.old) (W.contents out.new))) }
    ensures quiet { IfOk answer (λ _. result ≢ 4 → err.new ≡ err.old) }
{
    match answer {
        Ok((printed, is_sound)) => match flush_after(printed, out) {
            Ok(()) if is_sound => 0,
            Ok(()) => 1,
            Err(_) => Failure::Output.report(err),
        },
        Err(failure) => failure.report(err),
    }
}

/// Does what the words ask for, and says what failed: `program` is this with a status in the end.
///
/// It prints the rows of a division, the statements of a run, merged statements, the explanation of
/// a usage line or a report, or help; or keeps statements in the file that the words name. Answers
/// whether no report tells of a fault.
pub fn answer<R: Threads + Wait + Sync, S: Source + Texts + Sync, T: Target + Folders, W: Write>(
    rt: &R,
    alloc: Global,
    files: &S,
    target: &mut T,
    words: &[String],
    out: &mut W,
) -> Result<(io::Result<()>, bool), Failure>
    ensures answered { IfOk result (λ done. OnOk done.0 ((text : List ℕ)
        × IsDelivered (T.keeps target.new) (map string_bytes words.now) (W.contents out.old) (W.contents out.new) text
        × IsAnswered (S.holds files.now) (S.gives files.now) (map string_bytes words.now) done.1 text)) }
    ensures others { IfOk result (λ done. ¬ (word_at (map string_bytes words.now) 1 ≡ codes "check")
        → ¬ NameImport (map string_bytes words.now) → done.1 ≡ true) }
    ensures failure { IfErr result IsRefusal }
    ensures run { word_at (map string_bytes words.now) 1 ≡ codes "run"
        → IfErr result (IsOfRun (S.holds files.now) (S.refuses files.now) (drop 1 (map string_bytes words.now))) }
    ensures explanation { word_at (map string_bytes words.now) 1 ≡ codes "explain"
        → IfErr result (IsOfExplanation (S.holds files.now) (S.refuses files.now) (drop 1
        (map string_bytes words.now))) }
    ensures checked { word_at (map string_bytes words.now) 1 ≡ codes "check"
        → IfErr result (IsOfCheck (S.holds files.now) (S.refuses files.now) (drop 1 (map string_bytes words.now))) }
    ensures pairs { IsDivision (map string_bytes words.now) → IfErr result (IsOfDivision (map string_bytes words.now)) }
    ensures merge { word_at (map string_bytes words.now) 1 ≡ codes "merge"
        → IfErr result (IsOfMerge (S.gives files.now) (drop 1 (map string_bytes words.now))) }
    ensures adjustment { word_at (map string_bytes words.now) 1 ≡ codes "adjust"
        → IfErr result (IsOfAdjustment (S.gives files.now) (drop 1 (map string_bytes words.now))) }
    ensures table { (table : StartingTable) → word_at (map string_bytes words.now) 1 ≡ starting_name table
        → IfErr result (IsOfTable (S.holds files.now) (S.refuses files.now) table (drop 1
        (map string_bytes words.now))) }
    ensures silent { IfErr result (λ failure. (status_of failure ≤ 2) ⊎ (¬ MayHaveBegun
        (map string_bytes words.now)) → out.new ≡ out.old) }
    ensures left { (path : List ℕ) → NameOutput (map string_bytes words.now) path
        → IsLeftOrHas (T.keeps target.old path) (T.keeps target.new path)
        (IsAnswered (S.holds files.now) (S.gives files.now) (map string_bytes words.now) true) }
    ensures documents { IfOk result (λ done. AskForDocuments (map string_bytes words.now) → (documents : List File)
        × T.keeps_folder target.new (folder_given (drop 1 (map string_bytes words.now))) (Some documents)
        × AreDocumentsAnswered (S.holds files.now) (drop 1 (map string_bytes words.now)) documents) }
    ensures undocumented { word_at (map string_bytes words.now) 1 ≡ codes "statements"
        → IfErr result (IsOfStatements (S.holds files.now) (S.refuses files.now) (drop 1
        (map string_bytes words.now))) }
    ensures left_folder { word_at (map string_bytes words.now) 1 ≡ codes "statements" → IsLeftOrHasFolder
        (T.keeps_folder target.old (folder_given (drop 1 (map string_bytes words.now))))
        (T.keeps_folder target.new (folder_given (drop 1 (map string_bytes words.now))))
        (AreDocumentsAnswered (S.holds files.now) (drop 1 (map string_bytes words.now))) }
    ensures imported { NameImport (map string_bytes words.now) → IfOk result (λ done.
        AskForImport (map string_bytes words.now) ⊎ (done.1 ≡ false) → OnOk done.0 (IsImportPrinted (T.keeps target.new)
        (S.holds files.now) (S.gives files.now) (map string_bytes words.now) done.1 (W.contents out.old)
        (W.contents out.new))) }
    ensures unimported { NameImport (map string_bytes words.now) → IfErr result (IsOfImport (S.holds files.now)
        (S.gives files.now) (S.refuses files.now) (drop 1 (map string_bytes words.now))) }
    ensures left_by_import { NameImport (map string_bytes words.now) → IsLeftByImport (T.keeps target.old)
        (T.keeps target.new) (S.gives files.now) (map string_bytes words.now) }
    ensures unused { ((path : List ℕ) → ¬ NameOutput (map string_bytes words.now) path)
        → ¬ (word_at (map string_bytes words.now) 1 ≡ codes "statements") → ¬ NameImport (map string_bytes words.now)
        → target.new ≡ target.old }
{
    match read_words(alloc, words) {
        Ok(Asked::Division(asked)) => {
            match split_words(alloc, asked.amount, asked.pairs.as_slice()) {
                Ok(text) => Ok((out.write_all(text.as_slice()), true)),
                Err(fault) => Err(Failure::from(fault)),
            }
        }
        Ok(Asked::Run(asked)) => Ok((settle_out(rt, alloc, files, target, asked, out)?, true)),
        Ok(Asked::Statements(asked)) => {
            document_out(rt, alloc, files, target, asked)?;
            Ok((Ok(()), true))
        }
        Ok(Asked::Explanation(asked)) => {
            let text = explain_files(alloc, files, asked)?;
            Ok((out.write_all(text.as_slice()), true))
        }
        Ok(Asked::Check(inputs)) => {
            let checked = check_files(alloc, files, inputs)?;
            Ok((out.write_all(checked.text.as_slice()), checked.is_sound))
        }
        Ok(Asked::Starting(asked)) => {
            let text = starting_table(alloc, files, asked)?;
            Ok((out.write_all(text.as_slice()), true))
        }
        Ok(Asked::Import(asked)) => {
            let imported = import_out(alloc, files, target, asked)?;
            Ok((out.write_all(imported.text.as_slice()), imported.is_whole))
        }
        Ok(Asked::Merge(asked)) => Ok((merge_out(alloc, files, target, asked, out)?, true)),
        Ok(Asked::Adjustment(asked)) => Ok((adjust_out(alloc, files, target, asked, out)?, true)),
        Err(error) if error.kind() == ErrorKind::OutOfMemory => Err(Failure::Room),
        Err(error) if error.use_stderr() => Err(Failure::Words(error)),
        Err(help) => match format!(in alloc; "{help}") {
            Ok(text) => Ok((out.write_all(text.as_bytes()), true)),
            Err(_) => Err(Failure::Room),
        },
    }
}

/// Sees what was printed through to the output, where nothing was refused.
fn flush_after<W: Write>(printed: io::Result<()>, out: &mut W) -> io::Result<()>
    ensures printed { IsOk result → IsOk printed }
    ensures kept { Keeps (W.contents out.old) (W.contents out.new) }
{
    printed?;
    out.flush()
}
