//! The program `ray_bench_builds`: builds structures and trees over a made-up field a given number
//! of times, by its words, so that it can be timed from outside. `ray_bench_builds bottom 10`
//! builds ten times a bottom structure of 524,288 triangles with 32-bit indices, `ray_bench_builds
//! update 10` updates it as often, each time the structure that the update before made,
//! `ray_bench_builds tree 10` builds as often a tree over their cells' boxes, and
//! `ray_bench_builds top 10` a top structure of 65,536 instances; `fast` builds trees by keys over
//! the same boxes, and `wide` makes a wide tree of one; `climb` refits one by a seat,
//! `climb-by-four` by four, and `climb-by-none` only makes what they share. Each prints how often
//! it built, of how many, and how many of them are active, or how many leaves or nodes there are.
//! `median-random` and `stated-random` build trees by halves and stated trees over as many boxes at
//! random, `median-equal` and `stated-equal` over boxes that are all the same; `carried-random` and
//! `carried-equal` read trees from what is stored of stated ones, and `hostile` reads three
//! spellings that carry none. `ray_bench_builds open 10` serializes a bottom structure of 1,048,576
//! triangles, opens the form ten times, and prints of how many bytes it is and how often it opened.
//! Without words it does a little of each. Other words give the line `bad-words` and status 3.
//!
//! What is timed are the public calls of ray_bottom, ray_top, ray_tree, ray_stated, ray_morton,
//! ray_climb, ray_wide and ray_serial; what these do is their contracts' to say. It stands on them
//! and on nothing of the program.
#![tactic(auto)]

mod bench_error;
mod field;
mod size;
mod stated;
mod structures;

use crate::bench_error::BenchError;
use crate::field::Field;
use crate::size::Size;
use crate::stated::{Order, Spread, carried, hostile, ordered_tree, spread_boxes};
use crate::structures::{
    bottom, boxes, climbs, fast_tree, instances, opens, top, tree, updated, wide,
};
use ray_serial::serialize;
use std::env;
use std::process::ExitCode;
use std::rt::Env;
use std::thread::Threads;

fn main(rt: HostRuntime) -> ExitCode {
    match run(&rt) {
        Ok(()) => ExitCode::SUCCESS,
        Err(error) => {
            // The status tells of a failed write, too.
            let _ = println!(rt; "{error}");
            ExitCode::from(error.status())
        }
    }
}

// What the words ask for.
fn run<R: Env + AllocGlobal + Print + Threads + Sync>(rt: &R) -> Result<(), BenchError> {
    let words: Vec<String> = env::args(rt)?.skip(1).collect(rt.alloc())?;
    match words.as_slice() {
        [] => {
            report_bottoms(rt, Size::Little, 1)?;
            report_updates(rt, Size::Little, 1)?;
            report_tops(rt, Size::Little, 1)?;
            report_trees(rt, Size::Little, 1)?;
            report_fast_trees(rt, Size::Little, 1)?;
            report_wide_trees(rt, Size::Little, 1)?;
            report_climbs(rt, Size::Little, 1, 1)?;
            report_climbs(rt, Size::Little, 1, 4)?;
            report_orders(rt, Size::Little, Spread::Random, Order::Median, 1)?;
            report_orders(rt, Size::Little, Spread::Random, Order::Stated, 1)?;
            report_orders(rt, Size::Little, Spread::Equal, Order::Stated, 1)?;
            report_carried(rt, Size::Little, Spread::Random, 1)?;
            report_hostile(rt, Size::Little, 1)?;
            report_opens(rt, Size::Little, 1)
        }
        [work, times] => {
            let Ok(times) = times.as_str().parse::<u32>() else {
                return Err(BenchError::BadWords);
            };
            match work.as_str() {
                "bottom" => report_bottoms(rt, Size::Large, times),
                "update" => report_updates(rt, Size::Large, times),
                "top" => report_tops(rt, Size::Large, times),
                "tree" => report_trees(rt, Size::Large, times),
                "fast" => report_fast_trees(rt, Size::Large, times),
                "wide" => report_wide_trees(rt, Size::Large, times),
                "climb" => report_climbs(rt, Size::Large, times, 1),
                "climb-by-four" => report_climbs(rt, Size::Large, times, 4),
                "climb-by-none" => report_climbs(rt, Size::Large, times, 0),
                "open" => report_opens(rt, Size::Greatest, times),
                "hostile" => report_hostile(rt, Size::Large, times),
                work => spread(rt, work, times),
            }
        }
        _ => Err(BenchError::BadWords),
    }
}

// What a word of trees over spread boxes asks for.
fn spread<R: AllocGlobal + Print>(rt: &R, work: &str, times: u32) -> Result<(), BenchError> {
    let large = Size::Large;
    match work {
        "median-random" => report_orders(rt, large, Spread::Random, Order::Median, times),
        "median-equal" => report_orders(rt, large, Spread::Equal, Order::Median, times),
        "stated-random" => report_orders(rt, large, Spread::Random, Order::Stated, times),
        "stated-equal" => report_orders(rt, large, Spread::Equal, Order::Stated, times),
        "carried-random" => report_carried(rt, large, Spread::Random, times),
        "carried-equal" => report_carried(rt, large, Spread::Equal, times),
        _ => Err(BenchError::BadWords),
    }
}

// Builds bottom structures, and prints of how many triangles the last is, and how many are active.
fn report_bottoms<R: AllocGlobal + Print + Threads + Sync>(
    rt: &R,
    size: Size,
    times: u32,
) -> Result<(), BenchError> {
    let field = Field::new(rt.alloc(), size)?;
    let mut total = 0;
    let mut active = 0;
    for _ in 0..times {
        let built = bottom(rt, &field)?;
        total = built.total();
        active = built.active();
    }
    println!(rt; "bottom {times} triangles {total} active {active}")?;
    Ok(())
}

// Builds a bottom structure and updates it, and prints the same of the last update.
fn report_updates<R: AllocGlobal + Print + Threads + Sync>(
    rt: &R,
    size: Size,
    times: u32,
) -> Result<(), BenchError> {
    let field = Field::new(rt.alloc(), size)?;
    let mut built = bottom(rt, &field)?;
    for _ in 0..times {
        built = updated(rt, &field, &built)?;
    }
    println!(rt;
        "update {times} triangles {} active {}",
        built.total(),
        built.active()
    )?;
    Ok(())
}

// Builds top structures, and prints of how many instances the last is, and how many are active.
fn report_tops<R: AllocGlobal + Print + Threads + Sync>(
    rt: &R,
    size: Size,
    times: u32,
) -> Result<(), BenchError> {
    let records = instances(rt.alloc(), size)?;
    let mut total = 0;
    let mut active = 0;
    for _ in 0..times {
        let built = top(rt, size, records.as_slice())?;
        total = built.len();
        active = built.active();
    }
    println!(rt; "top {times} instances {total} active {active}")?;
    Ok(())
}

// Builds trees, and prints over how many items the last is, and how many leaves it has.
fn report_trees<R: AllocGlobal + Print>(rt: &R, size: Size, times: u32) -> Result<(), BenchError> {
    let items = boxes(rt.alloc(), size)?;
    let mut leaves = 0;
    for _ in 0..times {
        leaves = tree(rt.alloc(), items.as_slice())?.leaves();
    }
    println!(rt; "tree {times} items {} leaves {leaves}", items.len())?;
    Ok(())
}

// Builds trees by keys, and prints the same of them.
fn report_fast_trees<R: AllocGlobal + Print + Threads + Sync>(
    rt: &R,
    size: Size,
    times: u32,
) -> Result<(), BenchError> {
    let items = boxes(rt.alloc(), size)?;
    let mut leaves = 0;
    for _ in 0..times {
        leaves = fast_tree(rt, items.as_slice())?.leaves();
    }
    println!(rt; "fast {times} items {} leaves {leaves}", items.len())?;
    Ok(())
}

// Makes wide trees of a tree, and prints of how many leaves it is, and how many nodes the last has.
fn report_wide_trees<R: AllocGlobal + Print>(
    rt: &R,
    size: Size,
    times: u32,
) -> Result<(), BenchError> {
    let items = boxes(rt.alloc(), size)?;
    let binary = tree(rt.alloc(), items.as_slice())?;
    let mut nodes = 0;
    for _ in 0..times {
        nodes = wide(rt.alloc(), &binary)?.nodes();
    }
    println!(rt; "wide {times} leaves {} nodes {nodes}", binary.leaves())?;
    Ok(())
}

// Refits a tree by so many seats, and prints how many leaves it has. What no seat does is made
// alone.
fn report_climbs<R: AllocGlobal + Print + Threads + Sync>(
    rt: &R,
    size: Size,
    times: u32,
    seats: u32,
) -> Result<(), BenchError> {
    let items = boxes(rt.alloc(), size)?;
    let leaves = climbs(rt, items.as_slice(), times, seats)?;
    println!(rt; "climb {times} leaves {leaves} seats {seats}")?;
    Ok(())
}

// Builds trees over spread boxes, and prints how, over how many items the last is, and how many
// leaves it has.
fn report_orders<R: AllocGlobal + Print>(
    rt: &R,
    size: Size,
    spread: Spread,
    order: Order,
    times: u32,
) -> Result<(), BenchError> {
    let items = spread_boxes(rt.alloc(), size, spread)?;
    let mut leaves = 0;
    for _ in 0..times {
        leaves = ordered_tree(rt.alloc(), order, items.as_slice())?.leaves();
    }
    let word = match order {
        Order::Median => "median",
        Order::Stated => "stated",
    };
    println!(rt; "{word} {times} items {} leaves {leaves}", items.len())?;
    Ok(())
}

// Reads trees from what is stored of the stated one, and prints the same of them.
fn report_carried<R: AllocGlobal + Print>(
    rt: &R,
    size: Size,
    spread: Spread,
    times: u32,
) -> Result<(), BenchError> {
    let items = spread_boxes(rt.alloc(), size, spread)?;
    let leaves = carried(rt.alloc(), items.as_slice(), times)?;
    println!(rt; "carried {times} items {} leaves {leaves}", items.len())?;
    Ok(())
}

// Reads what carries no tree, in three spellings each time, and prints over how many items, and how
// often it was refused.
fn report_hostile<R: AllocGlobal + Print>(
    rt: &R,
    size: Size,
    times: u32,
) -> Result<(), BenchError> {
    let items = spread_boxes(rt.alloc(), size, Spread::Random)?;
    let refused = hostile(rt.alloc(), items.as_slice(), times)?;
    println!(rt; "hostile {times} items {} refused {refused}", items.len())?;
    Ok(())
}

// Opens the form of a bottom structure, each time with another last index, so that no open stands
// for the next, and prints how many bytes it has, and how often it opened.
fn report_opens<R: AllocGlobal + Print + Threads + Sync>(
    rt: &R,
    size: Size,
    times: u32,
) -> Result<(), BenchError> {
    let field = Field::new(rt.alloc(), size)?;
    let mut form = serialize(rt.alloc(), &bottom(rt, &field)?)?;
    let mut opened: u32 = 0;
    for _ in 0..times {
        if let Some(last) = form.as_mut_slice().last_mut() {
            *last ^= 1;
        }
        if opens(form.as_slice()) {
            opened = opened.saturating_add(1);
        }
    }
    println!(rt; "open {times} bytes {} opened {opened}", form.len())?;
    Ok(())
}
