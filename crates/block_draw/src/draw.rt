//! A draw of blocks, and those who draw.
ghost use Rattle.std.specs.Prelude.{◌≡◌, ◌<◌, ◌≤◌, [], ℕ, All, HoldsAt, IfOk, MatchOption, None, true, ⊤, vec_items, vec_len};
ghost use Rattle.std.specs.Arc.{arc_value};
ghost use Rattle.block_draw.specs.declared.TheConstants.{MOST_BLOCKS, MOST_DRAWERS};
ghost use Rattle.block_draw.specs.declared.seats.Known.TheVariants.{Gathers};
ghost use Rattle.block_draw.specs.Drawn.{AreDrawnOnce};
ghost use Rattle.block_draw.specs.Rule.{draw_opened, opened_gatherer};
ghost use Rattle.block_draw.specs.Seats.{IsSmall};
ghost use Rattle.block_draw.specs.Steps.{IsDrawing, IsGathering, drawer_in, gatherer_in};

use crate::seats::Shape;
use crate::steps;
use crate::steps::{Counter, CounterSeat};
use std::alloc::{AllocError, Global};
use std::sync::Arc;

/// A draw of blocks, which are numbered from 0.
#[derive(Drop)]
pub struct Draw {
    counter: Arc<Counter>,
    seat: CounterSeat,
    shape: Shape,
    ghost table: { (arc_value counter).shared.table_id.words ≡ 1 },
    ghost seated: { seat.table_id ≡ (arc_value counter).shared.table_id },
    ghost me: { IsGathering seat.me × ((gatherer_in seat.me.0).shape ≡ shape) },
}

/// One who draws blocks of a `Draw`, from a thread of its own.
#[derive(Drop)]
pub struct Drawer {
    counter: Arc<Counter>,
    seat: CounterSeat,
    shape: Shape,
    is_done: bool,
    ghost table: { (arc_value counter).shared.table_id.words ≡ 1 },
    ghost seated: { seat.table_id ≡ (arc_value counter).shared.table_id },
    ghost me: { IsDrawing seat.me is_done × ((drawer_in seat.me.0).shape ≡ shape) },
}

impl Draw {
    ghost use Rattle.block_draw.specs.Views.{draw_of, drawer_of, opened_draw, opened_drawer, with_drawer};

    /// A draw of so many blocks, at most 15,625, and 1 to 8 drawers, by number.
    pub fn open(alloc: Global, blocks: u64, drawers: u64) -> Result<(Draw, Vec<Drawer>), AllocError>
        requires blocks { blocks ≤ MOST_BLOCKS }
        requires drawers { (0 < drawers) × (drawers ≤ MOST_DRAWERS) }
        ensures draw { IfOk result (λ r. draw_of r.0 ≡ opened_draw (draw_of r.0).draw blocks drawers) }
        ensures count { IfOk result (λ r. vec_len r.1 ≡ drawers) }
        ensures drawers { IfOk result (λ r. (number : ℕ) → number < drawers → HoldsAt (λ d. drawer_of d ≡ opened_drawer (draw_of r.0).draw blocks number) (vec_items r.1) number) }
    {
        let shape = Shape { blocks, drawers };
        let (counter, mut seat) = Counter::of_words(alloc, &[0], &shape)?;
        let counter = Arc::new(alloc, counter)?;
        let drawers = Drawer::deal_all(alloc, &counter, &mut seat, shape)?;
        Ok((
            Draw {
                counter,
                seat,
                shape,
            },
            drawers,
        ))
    }

    /// Takes in a drawer that has answered None. Once all drawers were gathered, it is known what each of them drew: every
    /// block was drawn once, and none was left out.
    pub fn gather(&mut self, drawer: Drawer)
        requires draw { (drawer_of drawer).draw ≡ (draw_of self.old).draw }
        requires done { (drawer_of drawer).is_done ≡ true }
        ensures gathered { draw_of self.new ≡ with_drawer (draw_of self.old) (drawer_of drawer) }
        ensures whole { (draw_of self.new).gathered ≡ (draw_of self.new).drawers → AreDrawnOnce (draw_of self.new).drawers (draw_of self.new).drawn (draw_of self.new).blocks }
    {
        steps::take_in(&self.counter, &mut self.seat, drawer.seat);
        steps::look_again(&self.counter, &mut self.seat);
    }
}

impl Drawer {
    ghost use Rattle.block_draw.specs.Views.{AreNewDrawers, drawer_of, finished, with_block};

    /// A drawer for each number.
    fn deal_all(
        alloc: Global,
        counter: &Arc<Counter>,
        gatherer: &mut CounterSeat,
        shape: Shape,
    ) -> Result<Vec<Drawer>, AllocError>
        requires table { (arc_value counter.now).shared.table_id.words ≡ 1 }
        requires seated { gatherer.old.table_id ≡ (arc_value counter.now).shared.table_id }
        requires range { IsSmall shape }
        requires me { gatherer.old.me ≡ (draw_opened shape, []) }
        ensures same { gatherer.new.table_id ≡ gatherer.old.table_id }
        ensures me { IfOk result (λ _. gatherer.new.me ≡ (Gathers (opened_gatherer shape shape.drawers), [])) }
        ensures count { IfOk result (λ drawers. vec_len drawers ≡ shape.drawers) }
        ensures opened { IfOk result (λ drawers. AreNewDrawers gatherer.old.table_id shape (vec_items drawers)) }
    {
        let mut drawers = Vec::with_capacity(alloc, shape.drawers as usize)?;
        for _ in 0..shape.drawers {
            drawers.push(Drawer {
                counter: Arc::try_clone(counter)?,
                seat: steps::deal_seat(counter, gatherer),
                shape,
                is_done: false,
            })?;
        }
        Ok(drawers)
    }

    /// Draws the next block. Its number is above those of all blocks that this drawer drew before. None: every block has been
    /// drawn; from then on the answer stays None.
    pub fn draw(&mut self) -> Option<u64>
        ensures drawn { MatchOption result (drawer_of self.new ≡ finished (drawer_of self.old)) (λ block. drawer_of self.new ≡ with_block (drawer_of self.old) block) }
        ensures above { MatchOption result ⊤ (λ block. (block < (drawer_of self.old).blocks) × All (λ earlier. earlier < block) (drawer_of self.old).drawn) }
        ensures ended { (drawer_of self.old).is_done ≡ true → result ≡ None }
    {
        if self.is_done {
            return None;
        }
        let block = steps::add_one(&self.counter, &mut self.seat);
        if block < self.shape.blocks {
            return Some(block);
        }
        self.is_done = true;
        None
    }
}
