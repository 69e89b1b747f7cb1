use crate::bench_error::BenchError;
use crate::chooser::Chooser;
use crate::instances::records;
use crate::numbers::Numbers;
use crate::scene::Scene;
use crate::sending::sent;
use crate::shapes::{bottom, build_flags};
use crate::tally::Tally;
use ray_geom::Frac;
use ray_primitives::BuildFault;
use ray_walk::Turns;
use std::thread::Threads;

// How many rays are sent through a scene.
const RAYS: u32 = 8;

/// Sends rays through the random scene of a seed, by both traces, and counts them. Of each that is
/// answered otherwise by one than by the other it prints a line.
pub(crate) fn compare<R: AllocGlobal + Print + Threads + Sync>(
    rt: &R,
    seed: u64,
    turns: &mut Turns,
    tally: &mut Tally,
) -> Result<(), BenchError> {
    let mut numbers = Numbers::new(seed);
    let scene = scene(rt, &mut numbers)?;
    let client = chooser(&mut numbers);
    compare_in(rt, seed, &scene, &client, &mut numbers, turns, tally)
}

// Sends random rays through a scene, and does the same.
fn compare_in<R: AllocGlobal + Print>(
    rt: &R,
    seed: u64,
    scene: &Scene,
    client: &Chooser,
    numbers: &mut Numbers,
    turns: &mut Turns,
    tally: &mut Tally,
) -> Result<(), BenchError> {
    for r in 0..RAYS {
        let Some(sent) = sent(numbers) else {
            continue;
        };
        let walked = scene.walked(&sent, client, turns)?;
        let plain = scene.plainly(rt.alloc(), &sent, client)?;
        tally.add(walked == plain, plain.is_some());
        if walked != plain {
            println!(rt; "seed {seed} ray {r}: {walked:?} by the walk, {plain:?} plainly")?;
        }
    }
    Ok(())
}

// A random scene of 1 to 12 instances.
fn scene<R: AllocGlobal + Threads + Sync>(
    rt: &R,
    numbers: &mut Numbers,
) -> Result<Scene, BuildFault> {
    let first = bottom(rt, numbers)?;
    let second = bottom(rt, numbers)?;
    let third = bottom(rt, numbers)?;
    let count = 1 + numbers.below(12);
    let records = records(rt.alloc(), numbers, count)?;
    let flags = build_flags(numbers);
    Scene::of_three(rt, first, second, third, flags, records.as_slice(), count)
}

// A client that chooses in a random way.
fn chooser(numbers: &mut Numbers) -> Chooser {
    let at = Frac::part(u64::from(numbers.below(24)) * 32768);
    Chooser {
        way: numbers.below(8),
        at,
    }
}
