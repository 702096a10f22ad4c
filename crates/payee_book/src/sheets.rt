//! The statements as CSV, where several threads write the payees' rows at once.

ghost use Rattle.std.specs.Io.KnownBytes.{Appends};
ghost use Rattle.std.specs.Thread.{IsSync};
ghost use Rattle.std.specs.Prelude.{unsigned_abs, ◌≡◌, ◌+◌, ◌≤◌, ◌<◌, ◌++◌, ℕ, List, All, IfOk, OnOk, length, map, true, vec_len};
ghost use Rattle.csv_table.specs.Written.{empty_page, text_of};
ghost use Rattle.line_split.specs.declared.TheConstants.{MOST_AMOUNT};
ghost use Rattle.line_split.specs.UsageLine.{UsageLine};
ghost use Rattle.payee_book.specs.Text.{payee_rows, payees_rows, rows_of_book};
ghost use Rattle.payee_book.specs.Waves.{AreBlank, ArePayees, AreReady, AreReadyTwice, AreWhole, IsSharedOut, between, rows_of_wave, share_of, start_of, text_on};
ghost use Rattle.payee_book.specs.declared.sheets.TheConstants.{MOST_ON_SHEET, ROW_BOUND};

use crate::rows::{LOOKED_UP_AT_ONCE, write_postings, write_residue, write_run, write_total};
use crate::{Book, Posting};
use csv_table::RowWriter;
use line_split::{RESIDUE, Reason, Usage};
use std::alloc::{AllocError, Global};
use std::io::{self, Write};
use std::thread::Threads;
use std::{mem, thread};

/// The fewest rows of a wave, for each sheet, that are worth threads.
const LEAST_FOR_THREADS: u128 = 1024;

/// The most rows on a sheet.
const MOST_ON_SHEET: u128 = 16_384;

/// The pages of room for so many rows, of which each has 285 bytes at most (`laws`).
const PAGES_OF_SHEET: u16 = 36;

/// More rows than there can be, of 65,535 statements that each fit into memory.
const ROW_BOUND: u128 = 1 << 80;

/// What one thread writes rows on, before they are passed on.
#[derive(Drop)]
pub struct Sheet {
    rows: RowWriter,
    /// Whether all that was to be written was.
    is_whole: bool,
}

/// Sheets for so many threads, twice: while the threads write on the ones, what is on the others is passed on.
#[derive(Drop)]
pub struct Sheets {
    blank: Vec<Sheet>,
    written: Vec<Sheet>,
}

impl Sheets {
    /// Sheets for 1 to 64 threads, with nothing on them. Each has room for what a thread writes on it.
    pub fn blank(alloc: Global, threads: usize) -> Result<Sheets, AllocError>
        requires { (0 < threads) × (threads ≤ 64) }
        ensures { IfOk result AreReadyTwice }
    {
        Ok(Sheets {
            blank: blank_sheets(alloc, threads)?,
            written: blank_sheets(alloc, threads)?,
        })
    }
}

/// So many sheets with nothing on them.
fn blank_sheets(alloc: Global, count: usize) -> Result<Vec<Sheet>, AllocError>
    ensures count { IfOk result (λ sheets. vec_len sheets ≡ count) }
    ensures blank { IfOk result (λ sheets. AreBlank sheets.items) }
{
    let mut sheets = Vec::with_capacity(alloc, count)?;
    for _ in 0..count {
        sheets.push(Sheet {
            rows: RowWriter::with_room(alloc, PAGES_OF_SHEET)?,
            is_whole: true,
        })?;
    }
    Ok(sheets)
}

impl Book {
    /// Prints the same as `text` to an output, by the sheet: the rows of payees are written by as many threads as
    /// there are sheets for, while this one passes on what they wrote before. No memory is asked for.
    pub fn print<R: Threads + Sync, W: Write>(
        &self,
        rt: &R,
        sheets: Sheets,
        usage: &Usage,
        parties: &[Vec<u8>],
        reasons: &[Reason],
        out: &mut W,
    ) -> io::Result<()>
        requires sheets { AreReadyTwice sheets }
        requires parties { length parties.now ≡ length self.now }
        requires reasons { length reasons.now ≡ length usage.now }
        requires lines { All (All (λ posting. posting.0 < length usage.now)) self.now }
        ensures { OnOk result (Appends (W.contents out.old) (W.contents out.new) (text_of (rows_of_book self.now usage.now (map (λ party. party.items) parties.now) reasons.now))) }
    {
        let mut blank = write_payees(rt, sheets, self, usage, parties, out)?;
        let rows = &mut blank[0].rows;
        write_residue(rows, usage, reasons, self.lines(RESIDUE), out)?;
        write_run(rows, usage)?;
        rows.write_to(out)
    }
}

/// The statements of all payees, and blank sheets when all of them have been passed on.
fn write_payees<R: Threads + Sync, W: Write>(
    rt: &R,
    sheets: Sheets,
    book: &Book,
    usage: &Usage,
    parties: &[Vec<u8>],
    out: &mut W,
) -> io::Result<Vec<Sheet>>
    requires sheets { AreReadyTwice sheets }
    requires payees { ArePayees book.now usage.now (map (λ party. party.items) parties.now) }
    ensures some { 0 < length book.now }
    ensures ready { IfOk result (λ sheets. AreReady sheets.items) }
    ensures written { OnOk result (Appends (W.contents out.old) (W.contents out.new) (text_of (payees_rows book.now usage.now (map (λ party. party.items) parties.now)))) }
{
    let count = payees_row_count(book);
    let Sheets {
        mut blank,
        mut written,
    } = sheets;
    let mut from = 0;
    while from < count {
        let threads = blank.len();
        let size = ((count - from) / threads as u128 + 1).min(MOST_ON_SHEET);
        let wave = Wave {
            book,
            usage,
            parties,
            count,
            from,
            size,
        };
        write_and_pass_on(rt, &mut blank, wave, &mut written, out)?;
        from = wave.start_of(threads);
        mem::swap(&mut blank, &mut written);
    }
    pass_on(written.as_mut_slice(), out)?;
    Ok(written)
}

/// Writes a wave on blank sheets, while what is on the others is passed on.
fn write_and_pass_on<R: Threads + Sync, W: Write>(
    rt: &R,
    blank: &mut Vec<Sheet>,
    wave: Wave<'_>,
    written: &mut Vec<Sheet>,
    out: &mut W,
) -> io::Result<()>
    requires sheets { AreReady blank.old.items }
    requires shares { IsSharedOut wave }
    ensures blank_count { vec_len blank.new ≡ vec_len blank.old }
    ensures written_count { vec_len written.new ≡ vec_len written.old }
    ensures wave { AreWhole blank.new.items → text_on blank.new.items ≡ text_of (rows_of_wave wave.entry (vec_len blank.old)) }
    ensures whole { OnOk result (AreWhole written.old.items) }
    ensures blank { OnOk result (AreBlank written.new.items) }
    ensures passed { OnOk result (Appends (W.contents out.old) (W.contents out.new) (text_on written.old.items)) }
{
    let ((), passed) = thread::join_mut(
        rt,
        &mut ||
            requires { IsSync R.row × AreReady blank.now.items × IsSharedOut wave }
            ensures count { vec_len blank.exit.now ≡ vec_len blank.entry.now }
            ensures written { AreWhole blank.exit.now.items → text_on blank.exit.now.items ≡ text_of (rows_of_wave wave.entry (vec_len blank.entry.now)) }
        { write_wave(rt, blank.as_mut_slice(), wave) },
        &mut || -> io::Result<()>
            ensures count { vec_len written.exit.now ≡ vec_len written.entry.now }
            ensures whole { OnOk result (AreWhole written.entry.now.items) }
            ensures blank { OnOk result (AreBlank written.exit.now.items) }
            ensures passed { OnOk result (Appends (W.contents out.entry.now) (W.contents out.exit.now) (text_on written.entry.now.items)) }
        { pass_on(written.as_mut_slice(), out) },
    );
    passed
}

/// Some of the payees' rows, for several threads: each has so many, one thread's after another's, from a row on.
#[derive(Clone, Copy)]
struct Wave<'a> {
    book: &'a Book,
    usage: &'a Usage,
    parties: &'a [Vec<u8>],
    /// How many rows the payees have.
    count: u128,
    from: u128,
    size: u128,
}

impl Wave<'_> {
    /// The number of the first row of the thread with a number, or of all rows, whichever is less.
    fn start_of(self, place: usize) -> u128
        requires place { place ≤ 64 }
        requires small { (self.from ≤ self.count) × (self.size ≤ MOST_ON_SHEET) × (self.count ≤ ROW_BOUND) }
        ensures { result ≡ start_of self.entry place }
    {
        self.count.min(self.from + place as u128 * self.size)
    }
}

/// How many rows the statements of all payees have.
fn payees_row_count(book: &Book) -> u128
    ensures count { (usage : List UsageLine) (parties : List (List ℕ)) → length parties ≡ length book.now → result ≡ length (payees_rows book.now usage parties) }
    ensures some { 0 < length book.now }
    ensures bound { result ≤ ROW_BOUND }
{
    let mut count = 0;
    for account in 1..book.accounts() {
        count += row_count(book.lines(account));
    }
    count
}

/// How many rows the statement of a payee has.
fn row_count(statement: &[Posting]) -> u128
    ensures count { (usage : List UsageLine) (party : List ℕ) → result ≡ length (payee_rows usage party statement.now) }
    ensures bound { result ≤ length statement.now + 1 }
{
    if statement.is_empty() {
        0
    } else {
        statement.len() as u128 + 1
    }
}

/// Writes the rows of a wave, each thread its own on its sheet. Few rows are written by one thread.
fn write_wave<R: Threads + Sync>(rt: &R, sheets: &mut [Sheet], wave: Wave<'_>)
    requires sheets { AreReady sheets.old }
    requires shares { IsSharedOut wave }
    ensures count { length sheets.new ≡ length sheets.old }
    ensures written { AreWhole sheets.new → text_on sheets.new ≡ text_of (rows_of_wave wave.entry (length sheets.old)) }
{
    let threads = if wave.size < LEAST_FOR_THREADS {
        1
    } else {
        sheets.len()
    };
    thread::for_each_mut(
        rt,
        sheets,
        threads,
        &|place: usize, sheet: &mut Sheet|
            requires { (place < 64) × (sheet.now.rows ≡ empty_page) × IsSharedOut wave }
            ensures { sheet.exit.now.is_whole ≡ true → sheet.exit.now.rows.text ≡ text_of (share_of wave.entry place) }
        { write_on(sheet, wave, place) },
    );
}

/// What the thread with a number writes of a wave.
fn write_on(sheet: &mut Sheet, wave: Wave<'_>, place: usize)
    requires place { place < 64 }
    requires blank { sheet.old.rows ≡ empty_page }
    requires shares { IsSharedOut wave }
    ensures { sheet.new.is_whole ≡ true → sheet.new.rows.text ≡ text_of (share_of wave.entry place) }
{
    let from = wave.start_of(place);
    let end = wave.start_of(place + 1);
    let rows = &mut sheet.rows;
    let written = write_rows(rows, wave.book, wave.usage, wave.parties, from, end);
    sheet.is_whole = written.is_ok();
}

/// The payees' rows from the one with a number to another.
fn write_rows(
    rows: &mut RowWriter,
    book: &Book,
    usage: &Usage,
    parties: &[Vec<u8>],
    from: u128,
    end: u128,
) -> Result<(), AllocError>
    requires order { from ≤ end }
    requires within { end ≤ length (payees_rows book.now usage.now (map (λ party. party.items) parties.now)) }
    requires payees { ArePayees book.now usage.now (map (λ party. party.items) parties.now) }
    ensures { OnOk result (rows.new.text ≡ rows.old.text ++ text_of (between from end (payees_rows book.now usage.now (map (λ party. party.items) parties.now)))) }
{
    // the rows of the accounts before
    let mut before = 0;
    for account in 1..book.accounts() {
        let party = parties[account as usize].as_slice();
        let statement = book.lines(account);
        let after = before + row_count(statement);
        let first = from.max(before).min(after) - before;
        let last = end.max(before).min(after) - before;
        write_part(rows, usage, party, statement, first as usize, last as usize)?;
        before = after;
    }
    Ok(())
}

/// The rows of a payee from the one with a number to another: postings, and after the last of them what they come to.
fn write_part(
    rows: &mut RowWriter,
    usage: &Usage,
    party: &[u8],
    statement: &[Posting],
    first: usize,
    last: usize,
) -> Result<(), AllocError>
    requires within { last ≤ length (payee_rows usage.now party.now statement.now) }
    requires lines { All (λ posting. posting.0 < length usage.now) statement.now }
    requires small { All (λ posting. unsigned_abs posting.1 ≤ MOST_AMOUNT) statement.now }
    ensures { OnOk result (rows.new.text ≡ rows.old.text ++ text_of (between first last (payee_rows usage.now party.now statement.now))) }
{
    let end = statement.len().min(last);
    let mut written = first;
    while written < end {
        let next = end.min(written + LOOKED_UP_AT_ONCE);
        write_postings(rows, usage, party, &statement[written..next])?;
        written = next;
    }
    if first < last && end < last {
        write_total(rows, "S", party, statement)?;
    }
    Ok(())
}

/// Passes on what is on sheets, one after another, if it is all that was to be.
fn pass_on<W: Write>(sheets: &mut [Sheet], out: &mut W) -> io::Result<()>
    ensures count { length sheets.new ≡ length sheets.old }
    ensures whole { OnOk result (AreWhole sheets.old) }
    ensures blank { OnOk result (AreBlank sheets.new) }
    ensures passed { OnOk result (Appends (W.contents out.old) (W.contents out.new) (text_on sheets.old)) }
{
    for place in 0..sheets.len() {
        pass_sheet_on(&mut sheets[place], out)?;
    }
    Ok(())
}

/// Passes on what is on a sheet, if it is all that was to be.
fn pass_sheet_on<W: Write>(sheet: &mut Sheet, out: &mut W) -> io::Result<()>
    ensures whole { OnOk result (sheet.old.is_whole ≡ true) }
    ensures blank { OnOk result (sheet.new.rows ≡ empty_page) }
    ensures passed { OnOk result (Appends (W.contents out.old) (W.contents out.new) sheet.old.rows.text) }
{
    if !sheet.is_whole {
        return Err(AllocError.into());
    }
    sheet.rows.write_to(out)
}
