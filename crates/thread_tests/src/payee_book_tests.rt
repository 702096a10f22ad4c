//! A book of two accounts, one of three as text, and a journal that becomes a book.

ghost use Rattle.std.specs.Prelude.{◌<◌, ◌≡◌, All, length};
ghost use Rattle.payee_book.specs.Statement.{AreApart};

use crate::shared::repeated;
use line_split::{Account, MOST_AMOUNT, Reason, Usage};
use payee_book::{Book, Journal};
use small_run::{NO_USES, STATEMENTS_TAKEN_BACK, USES, USES_TAKEN_BACK};
use std::alloc::Global;
use std::process::Abort;
use std::test::Fail;
use std::thread::Threads;

/// Asserts that the postings of a book are of the first so many lines.
fn assert_lines(rt: &impl Abort, book: &Book, lines: usize)
    ensures { All (All (λ posting. posting.0 < lines)) book.now }
{
    for account in 0..book.accounts() {
        assert!(rt;
            book.lines(account)
                .iter()
                .all(|posting| posting.0 < lines as u64)
        );
    }
}

/// Asserts that no account has postings in both books.
fn assert_apart(rt: &impl Abort, one: &Book, other: &Book)
    requires { length other.now ≡ length one.now }
    ensures { AreApart one.now other.now }
{
    for account in 0..one.accounts() {
        assert!(rt; one.lines(account).is_empty() || other.lines(account).is_empty());
    }
}

/// A book of so many accounts with these postings, each an account, a line and an amount.
fn book_with(
    rt: &impl Abort,
    alloc: Global,
    accounts: u16,
    postings: &[(Account, u64, i64)],
) -> Result<Book, Fail>
    requires { 0 < accounts }
{
    let mut book = Book::open(alloc, accounts)?;
    for posting in postings {
        assert!(rt; posting.0 < book.accounts() && posting.2.unsigned_abs() <= MOST_AMOUNT);
        book.post(posting.0, posting.1, posting.2)?;
    }
    Ok(book)
}

/// Asserts the postings of an account and what they come to.
fn assert_statement(
    rt: &impl Abort,
    book: &Book,
    account: Account,
    postings: &[(u64, i64)],
    total: i128,
) {
    assert!(rt; account < book.accounts());
    assert_eq!(rt; book.lines(account), postings);
    assert_eq!(rt; book.total(account), total);
}

/// The parties of these names.
fn parties_of(alloc: Global, names: &[&str]) -> Result<Vec<Vec<u8>>, Fail> {
    let mut parties = Vec::new(alloc);
    for name in names {
        parties.push(Vec::from_slice(alloc, name.as_bytes())?)?;
    }
    Ok(parties)
}

/// The text of a book over usage lines, with these parties and reasons.
fn text_of<R: Threads + Sync + Abort>(
    rt: &R,
    alloc: Global,
    book: &Book,
    usage: &Usage,
    parties: &[Vec<u8>],
    reasons: &[Reason],
) -> Result<Vec<u8>, Fail> {
    assert_lines(rt, book, usage.len());
    assert!(rt; parties.len() == book.accounts() as usize && reasons.len() == usage.len());
    Ok(book.text(rt, alloc, usage, parties, reasons)?)
}

/// Asserts the text of a book over usage lines, with parties of these names and these reasons.
fn assert_text<R: Threads + Sync + Abort>(
    rt: &R,
    alloc: Global,
    book: &Book,
    usage: &str,
    names: &[&str],
    reasons: &[Reason],
    want: &str,
) -> Result<(), Fail> {
    let usage = Usage::read(alloc, usage.as_bytes())?;
    let parties = parties_of(alloc, names)?;
    let text = text_of(rt, alloc, book, &usage, parties.as_slice(), reasons)?;
    assert_eq!(rt; text.as_slice(), want.as_bytes());
    Ok(())
}

#[test]
fn keeps_postings_in_order(rt: HostRuntime) -> Result<(), Fail> {
    let book = book_with(&rt, rt.alloc(), 2, &[(1, 7, 5), (1, 2, 3)])?;
    assert_statement(&rt, &book, 1, &[(2, 3), (7, 5)], 8);
    assert_statement(&rt, &book, 0, &[], 0);
    Ok(())
}

#[test]
fn keeps_postings_of_one_line_by_amount(rt: HostRuntime) -> Result<(), Fail> {
    let postings = [
        (0, 7, 5),
        (0, 999_999, -1_000_000_000_000),
        (0, 7, -9),
        (0, 7, 5),
        (0, 7, 0),
        (0, 0, 1),
    ];
    let book = book_with(&rt, rt.alloc(), 1, &postings)?;
    let sorted = [
        (0, 1),
        (7, -9),
        (7, 0),
        (7, 5),
        (7, 5),
        (999_999, -1_000_000_000_000),
    ];
    assert_statement(&rt, &book, 0, &sorted, -999_999_999_998);
    Ok(())
}

#[test]
fn writes_the_statements(rt: HostRuntime) -> Result<(), Fail> {
    let postings = [(1, 0, 60), (2, 0, 40), (2, 1, 20), (0, 1, 30), (0, 2, 7)];
    let book = book_with(&rt, rt.alloc(), 3, &postings)?;
    let names = ["", "A,B", "say \"B\""];
    let reasons = [Reason::Open, Reason::Open, Reason::Work];
    let want = "L,\"A,B\",u1,60\n\
                S,\"A,B\",1,60\n\
                L,\"say \"\"B\"\"\",u1,40\n\
                L,\"say \"\"B\"\"\",u2,20\n\
                S,\"say \"\"B\"\"\",2,60\n\
                M,OPEN,u2,30\n\
                M,WORK,u3,7\n\
                T,,2,37\n\
                R,,3,157\n";
    assert_text(&rt, rt.alloc(), &book, USES, &names, &reasons, want)
}

#[test]
fn writes_what_is_taken_back(rt: HostRuntime) -> Result<(), Fail> {
    let postings = [
        (1, 0, 60),
        (1, 2, -60),
        (2, 0, 40),
        (2, 1, -20),
        (2, 2, -40),
        (0, 1, -30),
        (0, 3, -7),
    ];
    let book = book_with(&rt, rt.alloc(), 3, &postings)?;
    assert_text(
        &rt,
        rt.alloc(),
        &book,
        USES_TAKEN_BACK,
        &["", "A", "B"],
        &[Reason::Open, Reason::Open, Reason::Open, Reason::Work],
        STATEMENTS_TAKEN_BACK,
    )
}

#[test]
fn takes_the_most_accounts(rt: HostRuntime) -> Result<(), Fail> {
    let book = book_with(&rt, rt.alloc(), 65_535, &[(65_534, 3, 0)])?;
    assert_eq!(rt; book.accounts(), 65_535);
    assert_statement(&rt, &book, 65_534, &[(3, 0)], 0);
    Ok(())
}

/// Postings of 2 of the first so many lines to the residue.
fn residue_of_lines(alloc: Global, lines: u64) -> Result<Vec<(Account, u64, i64)>, Fail> {
    let mut postings = Vec::new(alloc);
    for line in 0..lines {
        postings.push((0, line, 2))?;
    }
    Ok(postings)
}

/// Asserts the text of the book of these postings, where each is the residue of a line for these reasons.
fn assert_many_lines<R: Threads + Sync + Abort>(
    rt: &R,
    alloc: Global,
    postings: &[(Account, u64, i64)],
    reasons: &[Reason],
) -> Result<(), Fail> {
    let book = book_with(rt, alloc, 1, postings)?;
    let usage = repeated(alloc, NO_USES, "u,W,1,P,2\n", 1200, "")?;
    let sums = "T,,1200,2400\nR,,1200,2400\n";
    let want = repeated(alloc, "", "M,OVER,u,2\n", 1200, sums)?;
    assert_text(
        rt,
        alloc,
        &book,
        usage.as_str(),
        &[""],
        reasons,
        want.as_str(),
    )
}

#[test]
fn writes_many_lines(rt: HostRuntime) -> Result<(), Fail> {
    let postings = residue_of_lines(rt.alloc(), 1200)?;
    let reasons = vec![in rt.alloc(); Reason::Over; 1200]?;
    assert_many_lines(&rt, rt.alloc(), postings.as_slice(), reasons.as_slice())
}

/// A book with what two books have.
fn joined(rt: &impl Abort, one: Book, other: Book) -> Book {
    assert!(rt; one.accounts() == other.accounts());
    assert_apart(rt, &one, &other);
    let mut both = one;
    both.join(other);
    both
}

#[test]
fn joins_what_two_books_have(rt: HostRuntime) -> Result<(), Fail> {
    let first = book_with(&rt, rt.alloc(), 2, &[(1, 7, 5), (1, 2, 3)])?;
    let second = book_with(&rt, rt.alloc(), 2, &[(0, 9, 4)])?;
    let both = joined(&rt, first, second);
    assert_statement(&rt, &both, 0, &[(9, 4)], 4);
    assert_statement(&rt, &both, 1, &[(2, 3), (7, 5)], 8);
    Ok(())
}

/// A journal of two accounts with these postings of the second, each a line and an amount.
fn journal_with(rt: &impl Abort, alloc: Global, postings: &[(u64, i64)]) -> Result<Journal, Fail> {
    let mut journal = Journal::open(alloc, 2)?;
    for posting in postings {
        assert!(rt; journal.accounts() == 2 && posting.1.unsigned_abs() <= MOST_AMOUNT);
        journal.record(1, posting.0, posting.1)?;
    }
    Ok(journal)
}

#[test]
fn a_journal_has_its_postings_in_order_once_it_is_a_book(rt: HostRuntime) -> Result<(), Fail> {
    let postings = [(7, 5), (999_999, -1), (2, 3), (7, -3), (7, 5)];
    let book = journal_with(&rt, rt.alloc(), &postings)?.into_book();
    let sorted = [(2, 3), (7, -3), (7, 5), (7, 5), (999_999, -1)];
    assert_statement(&rt, &book, 1, &sorted, 9);
    assert_statement(&rt, &book, 0, &[], 0);
    Ok(())
}
