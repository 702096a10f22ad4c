//! The distribution run's command line.
#![tactic(auto)]

use royalty_program::{Disk, program, words_of};
use std::env;
use std::io::IsTerminal;
use std::process::ExitCode;

fn main(rt: HostRuntime) -> ExitCode {
    let mut err = rt.stderr();
    let terminal = rt.stderr();
    let watched = terminal.is_terminal().then_some(&terminal);
    let status = match words_of(rt.alloc(), env::args(&rt)) {
        Ok(words) => program(
            &rt,
            rt.alloc(),
            &Disk { rt: &rt, watched },
            &mut Disk { rt: &rt, watched },
            words.as_slice(),
            &mut rt.stdout(),
            &mut err,
        ),
        Err(failure) => failure.report(&mut err),
    };
    ExitCode::from(status)
}
