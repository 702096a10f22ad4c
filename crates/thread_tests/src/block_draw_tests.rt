//! Blocks that are drawn in every order, and by threads.
ghost use Rattle.std.specs.Prelude.{◌≡◌, ◌<◌, ◌≤◌, IfOk};
ghost use Rattle.block_draw.specs.Views.{draw_of, drawer_of};

use block_draw::{Draw, Drawer, MOST_BLOCKS};
use std::alloc::{AllocError, Global};
use std::process::Abort;
use std::test::Fail;
use std::thread::map_vec;

/// Gathers a drawer that finds no block left.
fn gather_done(rt: &impl Abort, draw: &mut Draw, mut drawer: Drawer)
    requires { (drawer_of drawer).draw ≡ (draw_of draw.old).draw }
    ensures { (draw_of draw.new).draw ≡ (draw_of draw.old).draw }
{
    assert!(rt; drawer.draw().is_none());
    draw.gather(drawer);
}

/// Asserts what a drawer draws.
fn assert_draws(rt: &impl Abort, drawer: &mut Drawer, block: Option<u64>)
    ensures { (drawer_of drawer.new).draw ≡ (drawer_of drawer.old).draw }
{
    assert_eq!(rt; drawer.draw(), block);
}

/// Two blocks, and three drawers for them.
fn open_three(alloc: Global) -> Result<(Draw, Drawer, Drawer, Drawer), AllocError>
    ensures first { IfOk result (λ r. (drawer_of r.1).draw ≡ (draw_of r.0).draw) }
    ensures second { IfOk result (λ r. (drawer_of r.2).draw ≡ (draw_of r.0).draw) }
    ensures third { IfOk result (λ r. (drawer_of r.3).draw ≡ (draw_of r.0).draw) }
{
    let (draw, mut drawers) = Draw::open(alloc, 2, 3)?;
    let third = drawers.swap_remove(2);
    let second = drawers.swap_remove(1);
    let first = drawers.swap_remove(0);
    Ok((draw, first, second, third))
}

#[test]
fn draws_each_block_once(rt: HostRuntime) -> Result<(), Fail> {
    let (mut draw, mut first, mut second, mut third) = open_three(rt.alloc())?;
    assert_draws(&rt, &mut first, Some(0));
    assert_draws(&rt, &mut third, Some(1));
    assert_draws(&rt, &mut second, None);
    assert_draws(&rt, &mut first, None);
    assert_draws(&rt, &mut third, None);
    assert_draws(&rt, &mut first, None);
    gather_done(&rt, &mut draw, first);
    gather_done(&rt, &mut draw, second);
    gather_done(&rt, &mut draw, third);
    Ok(())
}

#[test]
fn finds_nothing_where_there_is_no_block(rt: HostRuntime) -> Result<(), Fail> {
    let (mut draw, mut drawers) = Draw::open(rt.alloc(), 0, 1)?;
    gather_done(&rt, &mut draw, drawers.swap_remove(0));
    Ok(())
}

/// Asserts what two drawers draw of so many blocks, in an order whose bits say whose turn it is.
fn assert_turns(rt: &impl Abort, first: &mut Drawer, second: &mut Drawer, blocks: u64, order: u64) {
    for turn in 0..10u64 {
        let drawn = if (order >> turn) % 2 == 0 {
            first.draw()
        } else {
            second.draw()
        };
        let next = if turn < blocks { Some(turn) } else { None };
        assert_eq!(rt; drawn, next);
    }
}

/// The same of two drawers that are opened for it.
fn assert_drawn(rt: &impl Abort, alloc: Global, blocks: u64, order: u64) -> Result<(), Fail>
    requires { blocks ≤ 15625 }
{
    let (_draw, mut drawers) = Draw::open(alloc, blocks, 2)?;
    let (mut second, mut first) = (drawers.swap_remove(1), drawers.swap_remove(0));
    assert_turns(rt, &mut first, &mut second, blocks, order);
    Ok(())
}

#[test]
fn two_drawers_draw_in_any_order(rt: HostRuntime) -> Result<(), Fail> {
    for blocks in 0..8 {
        for order in 0..1024 {
            assert_drawn(&rt, rt.alloc(), blocks, order)?;
        }
    }
    Ok(())
}

/// Asserts that each of so many drawers draws the next of so many blocks.
fn assert_next_blocks(rt: &impl Abort, alloc: Global, blocks: u64, count: u64) -> Result<(), Fail>
    requires { (blocks ≤ 15625) × (0 < count) × (count ≤ 8) }
{
    let (_draw, drawers) = Draw::open(alloc, blocks, count)?;
    let mut turn = 0u64;
    for mut drawer in drawers {
        let next = if turn < blocks { Some(turn) } else { None };
        assert_eq!(rt; drawer.draw(), next);
        turn = turn.wrapping_add(1);
    }
    Ok(())
}

#[test]
fn each_of_any_number_of_drawers_draws_the_next_block(rt: HostRuntime) -> Result<(), Fail> {
    for drawers in 1..9 {
        for blocks in 0..9 {
            assert_next_blocks(&rt, rt.alloc(), blocks, drawers)?;
        }
    }
    Ok(())
}

/// The blocks that a drawer draws until none is left.
fn draw_all(alloc: Global, mut drawer: Drawer) -> Result<Vec<u64>, AllocError> {
    let mut drawn = Vec::new(alloc);
    for _ in 0..MOST_BLOCKS {
        let Some(block) = drawer.draw() else {
            break;
        };
        drawn.push(block)?;
    }
    Ok(drawn)
}

/// Asserts that a list of blocks rises, and that nobody has drawn one of them before.
fn assert_new(rt: &impl Abort, drawn: &[u64], seen: &mut [bool]) -> Result<(), Fail> {
    let mut last = None;
    for block in drawn {
        assert!(rt; last < Some(*block), "blocks rise");
        last = Some(*block);
        let Some(place) = seen.get_mut(*block as usize) else {
            return Err(Fail::new("there is no such block"));
        };
        assert!(rt; !*place, "each block is drawn once");
        *place = true;
    }
    Ok(())
}

/// Asserts that lists of blocks rise, and that they have each block once.
fn assert_each_once(
    rt: &impl Abort,
    lists: Vec<Result<Vec<u64>, AllocError>>,
    seen: &mut [bool],
) -> Result<(), Fail> {
    for list in lists {
        assert_new(rt, list?.as_slice(), seen)?;
    }
    assert!(rt;
        seen.iter().all(|is_drawn| *is_drawn),
        "no block is left out"
    );
    Ok(())
}

#[test]
fn eight_threads_draw_each_block_once(rt: HostRuntime) -> Result<(), Fail> {
    let alloc = rt.alloc();
    let mut seen = vec![in alloc; false; 15_625]?;
    let (_draw, drawers) = Draw::open(alloc, MOST_BLOCKS, 8)?;
    let lists = map_vec(&rt, drawers, &|drawer| draw_all(alloc, drawer))?;
    assert_each_once(&rt, lists, seen.as_mut_slice())
}
