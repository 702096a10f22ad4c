//! Tables of usage lines that are read in parts, side by side: what is read, and what is refused, is what one thread reads.

use csv_table::FileFault;
use line_split::{LineFault, MOST_LINES, Usage};
use std::alloc::Global;
use std::test::Fail;
use std::thread::Threads;

/// How many rows a table of the tests has below its header.
const ROWS: u64 = 23;

/// What a row is, where it is none of the others.
#[derive(Clone, Copy)]
enum Odd {
    Short,
    LongText,
    NoTerritory,
    NoRight,
    NoAmount,
    Empty,
    Quoted,
    TwoQuotes,
    QuoteWithin,
    LineFeedInQuotes,
    RowsInQuotes,
    OpenQuote,
    CarriageReturn,
    Marked,
}

const ALL_ODD: [Odd; 14] = [
    Odd::Short,
    Odd::LongText,
    Odd::NoTerritory,
    Odd::NoRight,
    Odd::NoAmount,
    Odd::Empty,
    Odd::Quoted,
    Odd::TwoQuotes,
    Odd::QuoteWithin,
    Odd::LineFeedInQuotes,
    Odd::RowsInQuotes,
    Odd::OpenQuote,
    Odd::CarriageReturn,
    Odd::Marked,
];

/// The text of a row and its end.
fn odd_row(odd: Odd) -> &'static str {
    match odd {
        Odd::Short => "u,w,1,P\n",
        Odd::LongText =>
            "u,wwwwwwwwwwwwwwwwwwwwwwwwwwwwwwwwwwwwwwwwwwwwwwwwwwwwwwwwwwwwwwwww,1,P,1\n",
        Odd::NoTerritory => "u,w,0,P,1\n",
        Odd::NoRight => "u,w,1,p,1\n",
        Odd::NoAmount => "u,w,1,P,+1\n",
        Odd::Empty => "\n\r\n\n",
        Odd::Quoted => "\"u\",\"w,w\",1,P,1\n",
        Odd::TwoQuotes => "\"\"\"u\"\"\",w,1,P,1\n",
        Odd::QuoteWithin => "u\",w,1,P,1\n",
        Odd::LineFeedInQuotes => "u,\"w\nw\",1,P,1\n",
        Odd::RowsInQuotes =>
            "u,\"w\nu,w,1,P,1\nu,w,1,P,1\nu,w,1,P,1\nu,w,1,P,1\nu,w,1,P,1\nu,w,1,P,1\n\",1,P,1\n",
        Odd::OpenQuote => "u,w,1,P,\"1\n",
        Odd::CarriageReturn => "u,w,1,P,1\r\n",
        Odd::Marked => "\u{FEFF}u,w,1,P,1\n",
    }
}

/// A table with its header, in which the row with this number, from 0, is odd. Before the header there are empty lines.
fn table_with(alloc: Global, odd: Odd, at: u64, empty: u64) -> Result<String, Fail> {
    let mut table = String::new(alloc);
    for _ in 0..empty {
        table.push_str("\n")?;
    }
    table.push_str("usage,work,territory,right,amount\n")?;
    for row in 0..ROWS {
        if row == at {
            table.push_str(odd_row(odd))?;
        } else {
            table.push_str(format!(in alloc; "use {row},work,276,M,{row}\n")?.as_str())?;
        }
    }
    Ok(table)
}

/// What was read, or the number of the fault and of its row.
fn told(alloc: Global, read: Result<Usage, LineFault>) -> Result<String, Fail> {
    let usage = match read {
        Ok(usage) => usage,
        Err(fault) => return Ok(format!(in alloc; "{} {:?}", fault.number(), fault.place())?),
    };
    let mut told = format!(in alloc; "{} lines", usage.len())?;
    for place in 0..usage.len() {
        let line = usage.line(place);
        let (name, work) = (line.usage, line.work);
        told.push_str(format!(in alloc;
            " {name:?} {work:?} {} {:?} {}",
            line.territory, line.right, line.amount
        )?
        .as_str())?;
    }
    Ok(told)
}

/// Whether a table is read alike by one thread and in parts, however often it is cut.
fn are_alike<R: Threads + Sync>(rt: &R, alloc: Global, table: &str) -> Result<bool, Fail> {
    let bytes = table.as_bytes();
    let one = told(alloc, Usage::read(alloc, bytes))?;
    for halvings in 0..5 {
        let parts = told(alloc, Usage::read_in_parts(rt, alloc, bytes, halvings))?;
        if parts.as_str() != one.as_str() {
            return Ok(false);
        }
    }
    Ok(true)
}

#[test]
fn parts_have_the_lines_and_the_faults_of_the_whole(rt: HostRuntime) -> Result<(), Fail> {
    let alloc = rt.alloc();
    for odd in ALL_ODD {
        for at in 0..ROWS {
            let table = table_with(alloc, odd, at, 0)?;
            assert!(rt; are_alike(&rt, alloc, table.as_str())?);
        }
    }
    Ok(())
}

#[test]
fn a_header_in_another_part_than_the_first_is_found(rt: HostRuntime) -> Result<(), Fail> {
    let alloc = rt.alloc();
    let fault = "1 Some(0)";
    for empty in [1, 10, 300, 2000] {
        let table = table_with(alloc, Odd::NoRight, 20, empty)?;
        assert!(rt; are_alike(&rt, alloc, table.as_str())?);
        assert_eq!(rt;
            told(alloc, Usage::read_in_parts(&rt, alloc, table.as_bytes(), 3))?.as_str(),
            "4 Some(21)"
        );
    }
    for none in [
        "",
        "\n\n\n\n",
        "usage,work\nu,w,1,P,1\n",
        "u,w,1,P,1\nu,w,1,P,1\nu,w,1,P,1\n",
    ] {
        assert!(rt; are_alike(&rt, alloc, none)?);
        assert_eq!(rt;
            told(alloc, Usage::read_in_parts(&rt, alloc, none.as_bytes(), 2))?.as_str(),
            fault
        );
    }
    Ok(())
}

/// What is read in parts of a table whose row with this number, from 0, is odd.
fn told_in_parts<R: Threads + Sync>(
    rt: &R,
    alloc: Global,
    odd: Odd,
    at: u64,
) -> Result<String, Fail> {
    let table = table_with(alloc, odd, at, 0)?;
    told(alloc, Usage::read_in_parts(rt, alloc, table.as_bytes(), 3))
}

#[test]
fn a_cut_within_quotes_makes_no_fault_and_hides_none(rt: HostRuntime) -> Result<(), Fail> {
    let alloc = rt.alloc();
    for at in 0..ROWS {
        let row = at + 1;
        let work = format!(in alloc; "2 Some({row})")?;
        for odd in [Odd::LineFeedInQuotes, Odd::RowsInQuotes] {
            assert_eq!(rt; told_in_parts(&rt, alloc, odd, at)?.as_str(), work.as_str());
        }
        let amount = format!(in alloc; "5 Some({row})")?;
        assert_eq!(rt;
            told_in_parts(&rt, alloc, Odd::OpenQuote, at)?.as_str(),
            amount.as_str()
        );
    }
    Ok(())
}

/// The first of two faults, each by its row.
fn first_fault<R: Threads + Sync>(
    rt: &R,
    alloc: Global,
    early: u64,
    late: u64,
) -> Result<String, Fail> {
    let mut table = String::new(alloc);
    table.push_str("usage,work,territory,right,amount\n")?;
    for row in 0..ROWS {
        table.push_str(if row == early || row == late {
            "u,w,1,p,1\n"
        } else {
            "u,w,1,P,1\n"
        })?;
    }
    told(alloc, Usage::read_in_parts(rt, alloc, table.as_bytes(), 3))
}

#[test]
fn the_first_fault_of_several_parts_is_the_answer(rt: HostRuntime) -> Result<(), Fail> {
    let alloc = rt.alloc();
    for early in 0..ROWS {
        for late in early..ROWS {
            let want = format!(in alloc; "4 Some({})", early + 1)?;
            assert_eq!(rt;
                first_fault(&rt, alloc, early, late)?.as_str(),
                want.as_str()
            );
        }
    }
    Ok(())
}

/// What is read of so many such rows, or refused: how many lines, or the fault's number and its row's.
fn counted<R: Threads + Sync>(
    rt: &R,
    alloc: Global,
    row: &str,
    rows: u64,
    halvings: u32,
) -> Result<String, Fail> {
    let mut table = String::new(alloc);
    table.push_str("usage,work,territory,right,amount\n")?;
    for _ in 0..rows {
        table.push_str(row)?;
    }
    match Usage::read_in_parts(rt, alloc, table.as_bytes(), halvings) {
        Ok(usage) => Ok(format!(in alloc; "{}", usage.len())?),
        Err(fault) => Ok(format!(in alloc; "{} {:?}", fault.number(), fault.place())?),
    }
}

#[test]
fn parts_have_a_million_lines_and_no_more(rt: HostRuntime) -> Result<(), Fail> {
    let alloc = rt.alloc();
    let row = "u,w,1,P,1\n";
    assert_eq!(rt;
        counted(&rt, alloc, row, MOST_LINES, 3)?.as_str(),
        "1000000"
    );
    assert_eq!(rt;
        counted(&rt, alloc, row, MOST_LINES + 1, 3)?.as_str(),
        "6 None"
    );
    Ok(())
}

#[test]
fn each_row_may_have_quotes(rt: HostRuntime) -> Result<(), Fail> {
    let alloc = rt.alloc();
    for odd in [Odd::Quoted, Odd::TwoQuotes, Odd::QuoteWithin] {
        for halvings in 0..5 {
            assert_eq!(rt;
                counted(&rt, alloc, odd_row(odd), 1000, halvings)?.as_str(),
                "1000"
            );
        }
    }
    Ok(())
}
