//! A run that prints its statements to an output which refuses a write.

use crate::shared::plan_of;
use settle_run::{Fault, Inputs, settle, settle_to};
use small_run::{NO_USES, TERRITORIES, TWO_PARTIES};
use split_run::Plan;
use std::alloc::Global;
use std::io::{self, Write};
use std::process::Abort;
use std::sync::Wait;
use std::test::Fail;
use std::thread::Threads;

/// What a run over these usage lines that prints its statements to this output comes to.
fn print_to<W: Write, R: Threads + Wait + Sync>(
    rt: &R,
    alloc: Global,
    usage: &str,
    plan: Plan,
    out: &mut W,
) -> Result<Result<io::Result<()>, Fault>, Fail> {
    let inputs = Inputs {
        territories: Vec::from_slice(alloc, TERRITORIES.as_bytes())?,
        payees: None,
        registrations: Vec::from_slice(alloc, TWO_PARTIES.as_bytes())?,
        usage: Vec::from_slice(alloc, usage.as_bytes())?,
    };
    Ok(settle_to(rt, alloc, inputs, plan, out))
}

/// An output that takes so many bytes, which it keeps, and then refuses. It counts what is written to it.
#[derive(Drop)]
struct Narrow {
    room: usize,
    kept: Vec<u8>,
    writes: u64,
    longest: usize,
}

impl Write for Narrow {
    fn write(&mut self, buf: &[u8]) -> io::Result<usize> {
        if self.room == 0 {
            return Err(io::Error::from(io::ErrorKind::BrokenPipe));
        }
        let taken = buf.len().min(self.room);
        self.kept.extend_from_slice(&buf[..taken])?;
        self.room -= taken;
        self.writes = self.writes.saturating_add(1);
        self.longest = self.longest.max(buf.len());
        Ok(taken)
    }

    fn flush(&mut self) -> io::Result<()> {
        Ok(())
    }
}

/// So many usage lines, each of another use.
fn uses(alloc: Global, lines: u64) -> Result<String, Fail> {
    let mut uses = String::new(alloc);
    uses.push_str(NO_USES)?;
    for line in 0..lines {
        let row = format!(in alloc; "use {line},W1,276,P,100\n")?;
        uses.push_str(row.as_str())?;
    }
    Ok(uses)
}

/// Asserts what an output of so many bytes has kept of this text, that it was written to by the sheet, and that only
/// the whole text is printed with no error.
fn assert_kept(rt: &impl Abort, out: &Narrow, room: usize, text: &[u8], is_printed: bool) {
    assert_eq!(rt; is_printed, room == text.len());
    assert_eq!(rt; out.kept.len(), room);
    assert!(rt; text.starts_with(out.kept.as_slice()));
    assert!(rt; out.longest < 200_000);
    assert!(rt; !is_printed || out.writes == 3);
}

/// Asserts what a run prints to an output that takes so many bytes: the first of its text.
fn assert_prints<R: Abort + Threads + Wait + Sync>(
    rt: &R,
    alloc: Global,
    usage: &str,
    plan: Plan,
    text: &[u8],
    room: usize,
) -> Result<(), Fail> {
    let mut out = Narrow {
        room,
        kept: Vec::new(alloc),
        writes: 0,
        longest: 0,
    };
    let Ok(printed) = print_to(rt, alloc, usage, plan, &mut out)? else {
        return Err(Fail::new("a run is refused for its output"));
    };
    assert_kept(rt, &out, room, text, printed.is_ok());
    Ok(())
}

/// Asserts what a run prints to outputs that take some of its text or all of it.
fn assert_prints_to_any<R: Abort + Threads + Wait + Sync>(
    rt: &R,
    alloc: Global,
    usage: &str,
    plan: Plan,
    text: &[u8],
) -> Result<(), Fail> {
    assert!(rt; text.len() > 300_000);
    for room in [0, 1, 131_072, text.len() - 1, text.len()] {
        assert_prints(rt, alloc, usage, plan, text, room)?;
    }
    Ok(())
}

/// Of 24,002 rows of payees two sheets are written, and what is below them.
#[test]
fn prints_by_the_sheet(rt: HostRuntime) -> Result<(), Fail> {
    let (alloc, plan) = (rt.alloc(), plan_of((1, 1, 1))?);
    let uses = uses(alloc, 12_000)?;
    let (tis, cwr) = (TERRITORIES.as_bytes(), TWO_PARTIES.as_bytes());
    let text = settle(&rt, alloc, tis, cwr, uses.as_bytes(), plan)?;
    assert_prints_to_any(&rt, alloc, uses.as_str(), plan, text.as_slice())
}
