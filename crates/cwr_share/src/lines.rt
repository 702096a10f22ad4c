//! The lines of a CWR file, one after another.

ghost use Rattle.std.specs.Prelude.{◌≡◌, ◌∷◌, [], IfSome, IfNone};
ghost use Rattle.cwr_share.specs.Lines.{without_return, lines_of};

use csv_table::first_piece;
use std::marker::Model;

/// The lines of a text that are to come, without their ends: LF or CR LF. A last line need not have an end.
#[derive(Drop)]
pub struct Lines<'a> {
    rest: &'a [u8],
}

impl<'a> Model for Lines<'a> {
    ghost use Rattle.std.specs.Prelude.{ℕ, List};
    ghost use Rattle.cwr_share.specs.Lines.{lines_of};

    ghost Value = { List (List ℕ) };

    ghost view = { λ lines. lines_of lines.rest.now };
}

impl<'a> Lines<'a> {
    /// The lines of a text, before the first.
    pub fn of(text: &'a [u8]) -> Lines<'a>
        ensures { result ≡ lines_of text.now }
    {
        Lines { rest: text }
    }

    /// The text of the lines that are to come.
    pub fn rest(&self) -> &'a [u8]
        ensures { lines_of result.now ≡ self.now }
    {
        self.rest
    }

    /// The next line, where there is one.
    pub fn next(&mut self) -> Option<&'a [u8]>
        ensures some { IfSome result (λ line. self.old ≡ line.now ∷ self.new) }
        ensures none { IfNone result ((self.old ≡ []) × (self.new ≡ [])) }
    {
        if self.rest.is_empty() {
            return None;
        }
        let (line, rest) = first_piece(self.rest, b'\n');
        self.rest = rest;
        Some(before_return(line))
    }
}

/// A line without the carriage return at its end.
fn before_return(line: &[u8]) -> &[u8]
    ensures { result.now ≡ without_return line.now }
{
    match line.last() {
        Some(b'\r') => &line[..line.len() - 1],
        _ => line,
    }
}
