//! The atomic steps of a draw. Its table has one word, the counter. Each kind of step is a type with one thin function
//! that makes it; its contract says what the seat knows then.
ghost use Rattle.std.specs.Prelude.{◌≡◌, ◌<◌, [], All, false, true};
ghost use Rattle.block_draw.specs.declared.seats.Known.TheVariants.{Draws, Gone};
ghost use Rattle.block_draw.specs.Rule.{KeepsDraw, draw_opened};
ghost use Rattle.block_draw.specs.Steps.{AreAllDrawn, IsDealing, IsDrawing, IsGathering, after_deal, after_draw, dealt, drawer_in, gathered_with, gatherer_in, tells_draw, tells_look};

use crate::seats::{Known, Shape};
use atomic_table::{Join, Play, Seat, Split, Table, TableRule};
use std::alloc::Global;

/// The rule of the table.
pub struct Drawing;

impl TableRule<(), Known, Shape> for Drawing {
    ghost holds = { KeepsDraw };

    ghost first = { draw_opened };
}

/// A drawer gets its seat.
struct DealSeat;

impl Split<Known> for DealSeat {
    ghost left = { after_deal };

    ghost right = { dealt };
}

/// A drawer that was gathered gives up its seat.
struct TakeIn;

impl Join<Known> for TakeIn {
    ghost both = { gathered_with };

    ghost spent = { Gone };
}

/// A drawer adds one to the counter.
struct AddOne;

impl Play<(), Known> for AddOne {
    ghost then = { tells_draw };
}

/// The draw looks at the counter.
struct Look;

impl Play<(), Known> for Look {
    ghost then = { tells_look };
}

pub type Counter = Table<(), Known, Shape, Drawing, Global>;

pub type CounterSeat = Seat<(), Known>;

/// Gives the next drawer its seat.
pub fn deal_seat(counter: &Counter, gatherer: &mut CounterSeat) -> CounterSeat
    requires seat { gatherer.old.table_id ≡ counter.now.shared.table_id }
    requires words { counter.now.shared.table_id.words ≡ 1 }
    requires at { IsDealing gatherer.old.me }
    ensures same { (gatherer.new.table_id ≡ gatherer.old.table_id) × (result.table_id ≡ gatherer.old.table_id) }
    ensures dealt { (gatherer.new.me ≡ (after_deal gatherer.old.me.0, [])) × (result.me ≡ (dealt gatherer.old.me.0, [])) }
{
    counter.shared.split_seat::<DealSeat>(gatherer)
}

/// A drawer adds one to the counter. The number that it found there.
pub fn add_one(counter: &Counter, drawer: &mut CounterSeat) -> u64
    requires seat { drawer.old.table_id ≡ counter.now.shared.table_id }
    requires words { counter.now.shared.table_id.words ≡ 1 }
    requires at { IsDrawing drawer.old.me false }
    ensures same { drawer.new.table_id ≡ drawer.old.table_id }
    ensures drawn { drawer.new.me ≡ (Draws (after_draw result (drawer_in drawer.old.me.0)), []) }
    ensures above { All (λ block. block < result) (drawer_in drawer.old.me.0).drawn }
{
    counter.shared.fetch_add::<AddOne>(drawer, 0, 1)
}

/// Takes in a drawer that found no block left.
pub fn take_in(counter: &Counter, gatherer: &mut CounterSeat, drawer: CounterSeat)
    requires seat { (gatherer.old.table_id ≡ counter.now.shared.table_id) × (drawer.table_id ≡ counter.now.shared.table_id) }
    requires words { counter.now.shared.table_id.words ≡ 1 }
    requires at { IsGathering gatherer.old.me × IsDrawing drawer.me true }
    ensures same { gatherer.new.table_id ≡ gatherer.old.table_id }
    ensures taken { gatherer.new.me ≡ (gathered_with gatherer.old.me.0 drawer.me.0, []) }
{
    counter.shared.join_seat::<TakeIn>(gatherer, drawer);
}

/// Looks at the counter: once all drawers were gathered, each block was drawn.
pub fn look_again(counter: &Counter, gatherer: &mut CounterSeat)
    requires seat { gatherer.old.table_id ≡ counter.now.shared.table_id }
    requires words { counter.now.shared.table_id.words ≡ 1 }
    requires at { IsGathering gatherer.old.me }
    ensures same { gatherer.new.table_id ≡ gatherer.old.table_id }
    ensures told { (gatherer.new.me ≡ gatherer.old.me) × AreAllDrawn (gatherer_in gatherer.old.me.0) }
{
    counter.shared.load::<Look>(gatherer, 0);
}
