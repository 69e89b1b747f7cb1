ghost use Rattle.std.specs.Prelude.{◌-◌, ◌≤◌, ◌^◌, length, IfOk};
ghost use Rattle.std.specs.Thread.{IsSync};
ghost use Rattle.ray_tree.specs.NodeBoxes.{HasActivity};
ghost use Rattle.ray_climb.specs.Refits.{IsRefit};
ghost use Rattle.ray_climb.specs.Seats.{HasTodo, HasDone};

use crate::climb::Climb;
use crate::seat::ClimbSeat;
use ray_geom::Box3;
use ray_tree::Tree;
use std::alloc::{AllocError as NoMemory, Global};
use std::thread::{self, Threads};

// From so many items on, four seats climb.
const MANY: usize = 1024;

/// The tree that refitting gives: from 1,024 items on by four seats on threads of their own, and
/// below by one. Where a thread can't be started, the caller does its work.
///
/// # Errors
///
/// For want of memory alone; the tree is gone then.
pub fn climb_all<R: Threads + Sync>(
    rt: &R,
    alloc: Global,
    tree: Tree,
    items: Vec<Option<Box3>>,
) -> Result<Tree, NoMemory>
    requires few { length items.items ≤ 2 ^ 20 }
    requires activity { HasActivity tree items.items }
    ensures { IfOk result (IsRefit tree items.items) }
{
    let leaves = tree.leaves();
    let by_four_seats = items.len() >= MANY;
    match Climb::of_items(alloc, tree, items) {
        Ok((climb, seat)) => {
            let seat = climb_by(rt, &climb, seat, leaves, by_four_seats);
            climb.close(alloc, seat)
        }
        Err(_tree) => Err(NoMemory),
    }
}

/// Climbs from all leaves, by four seats on threads of their own or by this one alone. Where a
/// thread can't be started, the caller does its work.
pub fn climb_by<R: Threads + Sync>(
    rt: &R,
    climb: &Climb,
    seat: ClimbSeat,
    leaves: u32,
    by_four_seats: bool,
) -> ClimbSeat
    requires { HasTodo climb.now.id 0 leaves seat }
    ensures { HasDone climb.now.id 0 leaves result }
{
    if by_four_seats {
        by_four(rt, climb, seat, leaves)
    } else {
        by_one(climb, seat, 0, leaves)
    }
}

// The leaves of a seat.
#[inline(never)]
fn by_one(climb: &Climb, mut seat: ClimbSeat, from: u32, to: u32) -> ClimbSeat
    requires ordered { from ≤ to }
    requires todo { HasTodo climb.now.id from to seat }
    ensures { HasDone climb.now.id from to result }
{
    climb.climb_range(&mut seat, from, to);
    seat
}

// The same by two seats.
fn by_two<R: Threads + Sync>(
    rt: &R,
    climb: &Climb,
    mut seat: ClimbSeat,
    from: u32,
    to: u32,
) -> ClimbSeat
    requires ordered { from ≤ to }
    requires todo { HasTodo climb.now.id from to seat }
    ensures { HasDone climb.now.id from to result }
{
    let middle = from + (to - from) / 2;
    let other = cut(climb, &mut seat, from, middle, to);
    let (first, second) = thread::join(
        rt,
        move || by_one(climb, seat, from, middle),
        move || by_one(climb, other, middle, to),
    );
    together(climb, first, second, from, middle, to)
}

// The same by three seats.
fn by_three<R: Threads + Sync>(
    rt: &R,
    climb: &Climb,
    mut seat: ClimbSeat,
    from: u32,
    to: u32,
) -> ClimbSeat
    requires ordered { from ≤ to }
    requires todo { HasTodo climb.now.id from to seat }
    ensures { HasDone climb.now.id from to result }
{
    let middle = from + (to - from) / 3;
    let other = cut(climb, &mut seat, from, middle, to);
    let (first, last) = thread::join(
        rt,
        move || by_one(climb, seat, from, middle),
        move || -> ClimbSeat
            requires { IsSync R.row × (middle ≤ to) × HasTodo climb.now.id middle to other }
            ensures { HasDone climb.entry.now.id middle to result }
        { by_two(rt, climb, other, middle, to) },
    );
    together(climb, first, last, from, middle, to)
}

// All leaves, by four seats. This thread starts the others one after the other: where threads
// start threads at the same time, a system may put two of them on one processor.
fn by_four<R: Threads + Sync>(rt: &R, climb: &Climb, mut seat: ClimbSeat, leaves: u32) -> ClimbSeat
    requires { HasTodo climb.now.id 0 leaves seat }
    ensures { HasDone climb.now.id 0 leaves result }
{
    let middle = leaves / 4;
    let other = cut(climb, &mut seat, 0, middle, leaves);
    let (first, last) = thread::join(
        rt,
        move || by_one(climb, seat, 0, middle),
        move || -> ClimbSeat
            requires { IsSync R.row × (middle ≤ leaves)
                × HasTodo climb.now.id middle leaves other }
            ensures { HasDone climb.entry.now.id middle leaves result }
        { by_three(rt, climb, other, middle, leaves) },
    );
    together(climb, first, last, 0, middle, leaves)
}

// A seat of its own for the last of a seat's leaves.
fn cut(climb: &Climb, seat: &mut ClimbSeat, from: u32, middle: u32, to: u32) -> ClimbSeat
    requires ordered { (from ≤ middle) × (middle ≤ to) }
    requires todo { HasTodo climb.now.id from to seat.old }
    ensures first { HasTodo climb.now.id from middle seat.new }
    ensures last { HasTodo climb.now.id middle to result }
{
    climb.split(seat, to - middle).unwrap()
}

// Two seats as one.
fn together(
    climb: &Climb,
    mut first: ClimbSeat,
    second: ClimbSeat,
    from: u32,
    middle: u32,
    to: u32,
) -> ClimbSeat
    requires ordered { (from ≤ middle) × (middle ≤ to) }
    requires first { HasDone climb.now.id from middle first }
    requires second { HasDone climb.now.id middle to second }
    ensures { HasDone climb.now.id from to result }
{
    let _ = climb.join(&mut first, second);
    first
}
