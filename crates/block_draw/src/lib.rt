//! Blocks of work that several threads draw, each block once.
//!
//! A counter has the number of the next block. A drawer adds one to it and has the block whose number it found, until it finds
//! that none is left. Who drew which blocks is known once the drawers are gathered: each block was drawn by one of them.
#![tactic(auto)]

mod draw;
pub mod laws;
mod seats;
mod steps;

pub use draw::{Draw, Drawer};

/// The most blocks of a draw.
pub const MOST_BLOCKS: u64 = 15_625;

/// The most drawers of a draw.
pub const MOST_DRAWERS: u64 = 8;
