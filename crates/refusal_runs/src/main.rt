//! Makes calls on small inputs and prints what they answer, so that each of their allocations can be refused in turn.
//!
//! Each line of the input says what to do: `calls`, each call that takes memory, a line each; `links` or `lanes`, open a mailbox of that kind
//! and make its calls; `pool`, the same of a pool by itself; `linked sequence`, one sequence of the calls of `LinkMail`; `counted`, a run
//! whose gate and mailboxes count; `counted pool`, one whose gate and pool count.
#![tactic(auto)]

mod calls;
mod counted;
mod mailboxes;
mod pools;
mod sequence;

use calls::make_calls;
use counted::{run_counted, run_counted_pool};
use mail_box::{LaneMail, LinkMail};
use mailboxes::exchange;
use pool_box::PoolMail;
use pools::exchange_in_pool;
use sequence::linked_sequence;
use std::io;
use std::process::ExitCode;

fn main(rt: HostRuntime) -> io::Result<ExitCode> {
    let alloc = rt.alloc();
    let mut out = rt.stdout();
    // the whole input first, so that reading it takes no memory once a mailbox is open
    let input = io::read_to_string(alloc, rt.reader())?;
    for line in input.lines() {
        match line {
            "calls" => make_calls(&rt, alloc, &mut out)?,
            "links" => exchange(&rt, alloc, &LinkMail, &mut out)?,
            "lanes" => exchange(&rt, alloc, &LaneMail, &mut out)?,
            "pool" => exchange_in_pool(alloc, &PoolMail, &mut out)?,
            "linked sequence" => linked_sequence(alloc, &mut out)?,
            "counted" => run_counted(&rt, alloc, &mut out)?,
            "counted pool" => run_counted_pool(&rt, alloc, &mut out)?,
            _ => return Ok(ExitCode::FAILURE),
        }
    }
    Ok(ExitCode::SUCCESS)
}
