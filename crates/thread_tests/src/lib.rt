//! Tests of draws, of books and of workers that are called by themselves, over the public calls of the libraries, one file for
//! each. Whole runs are rows of `thread_rows`.
#![tactic(auto)]

#[cfg(test)]
mod block_draw_tests;
#[cfg(test)]
mod payee_book_tests;
#[cfg(test)]
mod pool_run_tests;
#[cfg(test)]
mod settle_run_tests;
#[cfg(test)]
mod shared;
#[cfg(test)]
mod split_run_tests;
#[cfg(test)]
mod usage_parts_tests;
