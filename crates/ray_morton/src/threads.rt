//! How many threads go over a list.
ghost use Rattle.std.specs.Prelude.{◌<◌};

use rayon::current_num_threads;
use std::thread::Threads;

// A list of fewer things isn't worth a thread.
const FEW: usize = 4096;

// There are no more threads.
const MOST: usize = 32;

// How many threads go over a list of so many things.
pub(crate) fn threads_for<R: Threads>(rt: &R, many: usize) -> usize
    ensures { 0 < result }
{
    if many < FEW {
        return 1;
    }
    current_num_threads(rt).min(MOST)
}
