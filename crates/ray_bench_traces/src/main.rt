//! The program `ray_bench_traces`: traces rays through made-up scenes, by its words, so that
//! traces can be timed from outside, and so that the two programs of one definition can be seen
//! to answer alike. `ray_bench_traces traces 10` builds the field of 131,072 triangles of `gen
//! 256 1` with one instance of it, traces 16,384 rays of `gen` ten times by a walk through the
//! trees, and prints how many of them hit. `ray_bench_traces both` traces 64 of these rays by the
//! walk and by the plain trace, which tests every primitive, and prints how many have the same
//! answer by both. `ray_bench_traces random 1000 1` does so with 8 rays in each of 1,000 random
//! scenes, those of the seeds from 1 on, and prints a line for each ray that is answered
//! otherwise; `random 1 SEED` traces the scene of one seed again. Without words it does a little
//! of each. Other words give the line `bad-words` and status 3.
//!
//! What is called are ray_walk's `trace_ray` and `trace_plain`, which have one clause: so that
//! they answer alike is proved, and what is compared shows that it is so of what is built. A
//! random scene has triangles and boxes of small coordinates, many of them flat, in one plane or
//! with shared edges, some inactive; instances that mirror, scale and shear; and a client whose
//! decision depends on the candidate.
#![tactic(auto)]

mod bench_error;
mod bytes;
mod chooser;
mod field;
mod instances;
mod numbers;
mod random;
mod scene;
mod sending;
mod shapes;
mod size;
mod tally;

use crate::bench_error::BenchError;
use crate::chooser::Unasked;
use crate::random::compare;
use crate::scene::Scene;
use crate::size::Size;
use crate::tally::Tally;
use ray_walk::Turns;
use std::env;
use std::process::ExitCode;
use std::rt::Env;
use std::thread::Threads;

fn main(rt: HostRuntime) -> ExitCode {
    match run(&rt) {
        Ok(()) => ExitCode::SUCCESS,
        Err(error) => {
            // The status tells of a failed write, too.
            let _ = println!(rt; "{error}");
            ExitCode::from(error.status())
        }
    }
}

// What the words ask for.
fn run<R: Env + AllocGlobal + Print + Threads + Sync>(rt: &R) -> Result<(), BenchError> {
    let words: Vec<String> = env::args(rt)?.skip(1).collect(rt.alloc())?;
    match words.as_slice() {
        [] => {
            report_traces(rt, Size::Little, 1)?;
            report_both(rt, Size::Little)?;
            report_random(rt, 16, 1)
        }
        [work] => match work.as_str() {
            "both" => report_both(rt, Size::Large),
            _ => Err(BenchError::BadWords),
        },
        [work, times] => {
            let Ok(times) = times.as_str().parse::<u32>() else {
                return Err(BenchError::BadWords);
            };
            match work.as_str() {
                "traces" => report_traces(rt, Size::Large, times),
                _ => Err(BenchError::BadWords),
            }
        }
        [work, scenes, seed] => {
            let (Ok(scenes), Ok(seed)) = (
                scenes.as_str().parse::<u32>(),
                seed.as_str().parse::<u32>(),
            ) else {
                return Err(BenchError::BadWords);
            };
            match work.as_str() {
                "random" => report_random(rt, scenes, seed),
                _ => Err(BenchError::BadWords),
            }
        }
        _ => Err(BenchError::BadWords),
    }
}

// Traces the rays of a made-up scene, and prints how many there are, and how many hit.
fn report_traces<R: AllocGlobal + Print + Threads + Sync>(
    rt: &R,
    size: Size,
    times: u32,
) -> Result<(), BenchError> {
    let scene = field::scene(rt, size)?;
    let mut turns = Turns::new(rt.alloc());
    trace_in(rt, &scene, &mut turns, size, times)
}

// Traces the rays of a size through a scene, and prints the same.
fn trace_in<R: AllocGlobal + Print>(
    rt: &R,
    scene: &Scene,
    turns: &mut Turns,
    size: Size,
    times: u32,
) -> Result<(), BenchError> {
    let mut hits: u32 = 0;
    for _ in 0..times {
        hits = 0;
        for r in 0..size.rays() {
            if let Some(sent) = field::sent(size, r)
                && scene.walked(&sent, &Unasked {}, turns)?.is_some()
            {
                hits = hits.saturating_add(1);
            }
        }
    }
    println!(rt; "traces {times} rays {} hits {hits}", size.rays())?;
    Ok(())
}

// Traces the first rays of a made-up scene by both traces, and prints how many there are, and how
// many have the same answer by both.
fn report_both<R: AllocGlobal + Print + Threads + Sync>(
    rt: &R,
    size: Size,
) -> Result<(), BenchError> {
    let scene = field::scene(rt, size)?;
    let mut turns = Turns::new(rt.alloc());
    both_in(rt, &scene, &mut turns, size)
}

// Traces the first rays of a size through a scene by both traces, and prints the same.
fn both_in<R: AllocGlobal + Print>(
    rt: &R,
    scene: &Scene,
    turns: &mut Turns,
    size: Size,
) -> Result<(), BenchError> {
    let mut tally = Tally::new();
    for r in 0..64 {
        if let Some(sent) = field::sent(size, r) {
            let walked = scene.walked(&sent, &Unasked {}, turns)?;
            let plain = scene.plainly(rt.alloc(), &sent, &Unasked {})?;
            tally.add(walked == plain, plain.is_some());
        }
    }
    println!(rt;
        "both rays {} equal {} hits {}",
        tally.rays, tally.equal, tally.hits
    )?;
    Ok(())
}

// Traces rays through random scenes, each of the next seed, by both traces, and prints the same.
fn report_random<R: AllocGlobal + Print + Threads + Sync>(
    rt: &R,
    scenes: u32,
    seed: u32,
) -> Result<(), BenchError> {
    let mut turns = Turns::new(rt.alloc());
    let mut tally = Tally::new();
    for n in 0..scenes {
        compare(rt, u64::from(seed) + u64::from(n), &mut turns, &mut tally)?;
    }
    let (rays, equal, hits) = (tally.rays, tally.equal, tally.hits);
    println!(rt; "random {scenes} scenes {rays} rays {equal} equal {hits} hits")?;
    Ok(())
}
