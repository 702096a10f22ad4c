//! What is known at the counter of a draw, seat by seat.

use std::collections::LinkedList;

/// What a counter is told when it is made: how many blocks there are, and how many drawers draw them.
#[derive(Clone, Copy, Debug, PartialEq, Eq)]
pub struct Shape {
    pub blocks: u64,
    pub drawers: u64,
}

/// What a drawer knows: its number, the blocks that it drew, in order, and whether it found that none was left. No value
/// of it is made.
pub struct DrawerSeat {
    pub shape: Shape,
    pub number: u64,
    pub drawn: LinkedList<u64>,
    pub is_done: bool,
}

/// What the draw's own seat knows, which gathers the drawers: how many were dealt a seat, and those that were gathered. No
/// value of it is made.
pub struct GathererSeat {
    pub shape: Shape,
    pub dealt: u64,
    pub gathered: LinkedList<DrawerSeat>,
}

/// What a seat knows.
pub enum Known {
    Gathers(GathererSeat),
    Draws(DrawerSeat),
    /// The seat of a drawer that was gathered.
    Gone,
}
