//! The merged text on its way to an output, by the page.

ghost use Rattle.std.specs.Io.KnownBytes.{Appends};
ghost use Rattle.std.specs.Prelude.{◌≡◌, [], IfErr, IfOk, OnOk};
ghost use Rattle.csv_table.specs.Written.{text_of_row};
ghost use Rattle.merge_statements.specs.Refused.{IsOfSystem};
ghost use Rattle.merge_statements.specs.SoFar.{output};
ghost use Rattle.merge_statements.specs.Statements.{total_row};

use crate::refusal::Refusal;
use csv_table::RowWriter;
use itoa::Buffer;
use std::alloc::{AllocError, Global};
use std::io::Write;
use std::marker::Model;

/// How long a page becomes, in bytes, before it goes on.
const PAGE_BYTES: usize = 131_072;

/// What is written and has not gone on to the output yet.
#[derive(Drop)]
pub struct Page {
    alloc: Global,
    text: Vec<u8>,
}

impl Model for Page {
    ghost use Rattle.std.specs.Prelude.{ℕ, List};

    ghost Value = { List ℕ };

    ghost view = { λ page. page.text.items };
}

impl Page {
    /// Nothing yet.
    pub fn new(alloc: Global) -> Page
        ensures { result ≡ [] }
    {
        Page {
            alloc,
            text: Vec::new(alloc),
        }
    }

    /// Adds a text.
    pub fn push<W: Write>(&mut self, out: &mut W, text: &[u8]) -> Result<(), Refusal>
        ensures pushed { OnOk result (Appends (output W.contents out.old self.old)
            (output W.contents out.new self.new) text.now) }
        ensures refused { IfErr result IsOfSystem }
    {
        if self.text.len() >= PAGE_BYTES {
            self.pass_on(out)?;
        }
        self.text.extend_from_slice(text)?;
        Ok(())
    }

    /// Passes on what there is.
    pub fn pass_on<W: Write>(&mut self, out: &mut W) -> Result<(), Refusal>
        ensures empty { OnOk result (self.new ≡ []) }
        ensures passed { OnOk result (Appends (output W.contents out.old self.old) (W.contents out.new) []) }
        ensures refused { IfErr result IsOfSystem }
    {
        match out.write_all(self.text.as_slice()) {
            Ok(()) => {
                self.text.clear();
                Ok(())
            }
            Err(error) => Err(Refusal::Write(error)),
        }
    }

    /// Adds a row of so many portions or lines, and what they come to.
    pub fn push_total<W: Write>(
        &mut self,
        out: &mut W,
        kind: &str,
        payee: &[u8],
        count: u64,
        total: i128,
    ) -> Result<(), Refusal>
        ensures pushed { OnOk result (Appends (output W.contents out.old self.old)
            (output W.contents out.new self.new) (text_of_row (total_row kind.now payee.now count total))) }
        ensures refused { IfErr result IsOfSystem }
    {
        let text = total_text(self.alloc, kind, payee, count, total)?;
        self.push(out, text.as_slice())
    }
}
/// The text of a row of so many portions or lines, and what they come to.
fn total_text(
    alloc: Global,
    kind: &str,
    payee: &[u8],
    count: u64,
    total: i128,
) -> Result<Vec<u8>, AllocError>
    ensures { IfOk result (λ text. text.items ≡ text_of_row (total_row kind.now payee.now count total)) }
{
    let mut digits = Buffer::new();
    let mut sum = Buffer::new();
    let mut rows = RowWriter::new(alloc);
    rows.row(&[
        kind.as_bytes(),
        payee,
        digits.format(count).as_bytes(),
        sum.format(total).as_bytes(),
    ])?;
    rows.into_text()
}
