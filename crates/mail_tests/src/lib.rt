//! Tests of mailboxes and of pools between threads, with made-up calls, and with what counts takes, over the public calls
//! of the libraries. What a mailbox or a pool answers in one thread stands in tables, which `mail_rows` asks.
//!
//! They stand apart from `thread_tests`, which has runs over them, so that two processors can prove the two side by side.
#![tactic(auto)]

#[cfg(test)]
mod link_threads_tests;
#[cfg(test)]
mod pool_calls_tests;
#[cfg(test)]
mod pool_count_tests;
#[cfg(test)]
mod pool_threads_tests;
#[cfg(test)]
mod posters;
#[cfg(test)]
mod relay_tests;
