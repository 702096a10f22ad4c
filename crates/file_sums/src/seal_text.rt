//! A text of sums, read.

ghost use Rattle.std.specs.Prelude.{◌≡◌, ◌+◌, ◌-◌, ◌^◌, ◌<◌, ◌++◌, ◌∷◌, [], ℕ, List, IfErr, IfNone, IfOk, IfSome};
ghost use Rattle.std.specs.Prelude.{false, length, true};
ghost use Rattle.file_sums.specs.Shown.{IsRefusedFor, seal_shown};
ghost use Rattle.file_sums.specs.Stuck.{IsStuck, TakesComment, TakesSum};
ghost use Rattle.file_sums.specs.Sums.{FitsInComment, IsSeal, IsSum, Sum, comment_line, line_of, lines_in};
ghost use Rattle.file_sums.specs.Sums.{text_of_seal};

use crate::SealFault;
use crate::lines::{comment_of, first_line, sum_of};
use std::alloc::{AllocError, Global};

/// The SHA-256 of a file, and the path that a text names it by.
#[derive(Drop)]
pub struct FileSum {
    pub digest: [u8; 32],
    pub path: Vec<u8>,
}

/// Comments, and below them the sums of files.
#[derive(Drop)]
pub struct SealText {
    pub comments: Vec<Vec<u8>>,
    pub sums: Vec<FileSum>,
}

/// Reads a text of comments and sums, each in a line of its own, comments first. Nothing is a text of no lines.
pub fn read_seal(alloc: Global, text: &[u8]) -> Result<SealText, SealFault>
    ensures sound { IfOk result (λ seal. IsSeal (seal_shown seal)) }
    ensures text { IfOk result (λ seal. text.now ≡ text_of_seal (seal_shown seal)) }
    ensures refused { IfErr result (IsRefusedFor text.now) }
{
    let mut seal = SealText {
        comments: Vec::new(alloc),
        sums: Vec::new(alloc),
    };
    let mut rest = text;
    'lines: while !rest.is_empty() {
        let Some(behind) = seal.take_line(alloc, rest)? else {
            return Err(SealFault::Line(seal.lines() + 1));
        };
        rest = behind;
    }
    Ok(seal)
}

impl SealText {
    /// How many lines there are.
    pub fn lines(&self) -> u64
        ensures lines { result ≡ lines_in (seal_shown self.now) }
        ensures few { result < 2 ^ 64 - 1 }
    {
        (self.comments.len() + self.sums.len()) as u64
    }

    /// Takes the first line of a text, and answers what stands behind it. None: it cannot stand here.
    fn take_line<'a>(
        &mut self,
        alloc: Global,
        text: &'a [u8],
    ) -> Result<Option<&'a [u8]>, AllocError>
        requires { IsSeal (seal_shown self.old) }
        ensures sound { IfOk result (λ found. IfSome found (λ _. IsSeal (seal_shown self.new))) }
        ensures text { IfOk result (λ found. IfSome found (λ behind. text_of_seal (seal_shown self.new) ++ behind.now
            ≡ text_of_seal (seal_shown self.old) ++ text.now)) }
        ensures shorter { IfOk result (λ found. IfSome found (λ behind. length behind.now < length text.now)) }
        ensures stuck { IfOk result (λ found. IfNone found (IsStuck (seal_shown self.old).sums text.now)) }
        ensures same { IfOk result (λ found. IfNone found (seal_shown self.new ≡ seal_shown self.old)) }
    {
        let Some((line, behind)) = first_line(text) else {
            return Ok(None);
        };
        if self.take_comment(alloc, line)? {
            return Ok(Some(behind));
        }
        if self.take_sum(alloc, line)? {
            return Ok(Some(behind));
        }
        Ok(None)
    }

    /// Takes a line that is a comment, and answers whether it is one that can stand here.
    fn take_comment(&mut self, alloc: Global, line: &[u8]) -> Result<bool, AllocError>
        ensures taken { IfOk result (λ is_taken. is_taken ≡ true → TakesComment (seal_shown self.old)
            (seal_shown self.new) line.now) }
        ensures none { IfOk result (λ is_taken. is_taken ≡ false → (comment : List ℕ) → FitsInComment comment
            → (seal_shown self.old).sums ≡ [] → ¬ (comment_line comment ≡ line.now ++ 10 ∷ [])) }
        ensures same { IfOk result (λ is_taken. is_taken ≡ false → seal_shown self.new ≡ seal_shown self.old) }
    {
        if !self.sums.is_empty() {
            return Ok(false);
        }
        let Some(comment) = comment_of(line) else {
            return Ok(false);
        };
        self.comments.push(Vec::from_slice(alloc, comment)?)?;
        Ok(true)
    }

    /// Takes a line that is of a sum, and answers whether it is.
    fn take_sum(&mut self, alloc: Global, line: &[u8]) -> Result<bool, AllocError>
        ensures taken { IfOk result (λ is_taken. is_taken ≡ true → TakesSum (seal_shown self.old)
            (seal_shown self.new) line.now) }
        ensures none { IfOk result (λ is_taken. is_taken ≡ false → (sum : Sum) → IsSum sum
            → ¬ (line_of sum ≡ line.now ++ 10 ∷ [])) }
        ensures same { IfOk result (λ is_taken. is_taken ≡ false → seal_shown self.new ≡ seal_shown self.old) }
    {
        let Some(found) = sum_of(line) else {
            return Ok(false);
        };
        let digest = found.0;
        let path = Vec::from_slice(alloc, found.1)?;
        self.sums.push(FileSum { digest, path })?;
        Ok(true)
    }
}
