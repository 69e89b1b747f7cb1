//! The program `ray_bench`: does a named piece of work a given number of times, by its words, so
//! that it can be timed from outside. `ray_bench pairs 20000000` tests that many pairs of a ray and
//! a triangle, of which few are hits, `ray_bench hits 20000000` that many that are all hits, and
//! `ray_bench box-spans 20000000` that many pairs of a ray and a box, of which half are met, and
//! `ray_bench box-reaches 20000000` the same without a greatest common divisor. Each prints the
//! number of pairs and of hits. Without words it does a little of each.
//!
//! `ray_bench draws 4 20000000` draws that many numbers of one shared word by four threads, or by
//! one where the digit is 1, and prints how many were drawn.
//!
//! Words that are none of its own give the line `bad-words` and status 3.
//!
//! The contract that `main` uses is that of `count_hits`: the count is that of `AreHits` of
//! `specs/Tested`, exactly the pairs that are hits by `hit_of` of ray_geom, or the boxes that are
//! met by its `IsInside`, on which it stands.
#![tactic(auto)]

mod bench_error;
mod drawing;
mod field;
mod job;
mod pair;
mod rays;
mod spot;
mod testing;
mod work;

use crate::bench_error::BenchError;
use crate::drawing::{Drawers, count_drawn};
use crate::job::Job;
use crate::testing::count_hits;
use std::env;
use std::process::ExitCode;
use std::rt::Env;
use std::thread::Threads;

/// The word that asks for draws.
const DRAWS: &str = "draws";

fn main(rt: HostRuntime) -> ExitCode {
    match run(&rt) {
        Ok(()) => ExitCode::SUCCESS,
        Err(error) => {
            // The status tells of a failed write, too.
            let _ = println!(rt; "{error}");
            ExitCode::from(error.status())
        }
    }
}

// What the words ask for.
fn run<R: Env + AllocGlobal + Print + Threads + Sync>(rt: &R) -> Result<(), BenchError> {
    let words: Vec<String> = env::args(rt)?.skip(1).collect(rt.alloc())?;
    match words.as_slice() {
        [] => {
            report(rt, Job::LITTLE_PAIRS)?;
            report(rt, Job::LITTLE_HITS)?;
            report(rt, Job::LITTLE_BOX_SPANS)?;
            report(rt, Job::LITTLE_BOX_REACHES)?;
            draw(rt, "1", "300")?;
            draw(rt, "4", "300")
        }
        [work, number] => report(rt, Job::parse(work.as_str(), number.as_str())?),
        [word, threads, number] if word.as_str() == DRAWS => {
            draw(rt, threads.as_str(), number.as_str())
        }
        _ => Err(BenchError::BadWords),
    }
}

// Draws the numbers below a number, by so many threads, and prints how many were drawn.
fn draw<R: AllocGlobal + Print + Threads + Sync>(
    rt: &R,
    threads: &str,
    number: &str,
) -> Result<(), BenchError> {
    let drawers = Drawers::named(threads).ok_or(BenchError::BadWords)?;
    let Ok(number) = number.parse::<u32>() else {
        return Err(BenchError::BadWords);
    };
    let count = count_drawn(rt, rt.alloc(), drawers, number)?;
    println!(rt; "draws {count}")?;
    Ok(())
}

// Does the job and prints its line.
fn report<R: AllocGlobal + Print>(rt: &R, job: Job) -> Result<(), BenchError> {
    let hits = count_hits(rt.alloc(), job)?;
    println!(rt; "{} {} hits {hits}", job.work, job.number)?;
    Ok(())
}
