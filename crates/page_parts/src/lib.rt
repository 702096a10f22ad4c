//! The parts that all pages of a distribution have: pieces of text and figures, tables with bars, the frame of a
//! page, and its style.
#![tactic(auto)]

mod bars;
mod cells;
mod facts;
mod frame;
pub mod laws;
mod parts;
mod piece;
mod shortened;
mod style;
mod tags;

pub use bars::{BarRow, BarTable, Others, add_bars};
pub use cells::{WorkRow, add_line_cells, add_work_row, right_name};
pub use facts::{Distribution, add_fact, begin_figure, end_figure};
pub use frame::{begin_page, end_page};
pub use parts::part_of;
pub use piece::{Piece, add};
pub use shortened::shorten;
pub use tags::{row_tag, work_tag};
