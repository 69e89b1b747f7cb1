ghost use Rattle.std.specs.Prelude.{◌≡◌, ◌<◌, IfOk, Some};
ghost use Rattle.ray_submits.specs.Counts.{AreCounts};
ghost use Rattle.ray_submits.specs.Submits.{count_after};

use ray_cmd::{Command, Recording};
use std::alloc::{AllocError as NoMemory, Global};

// How many `submit`s come before each command, and how many there are.
#[derive(Drop)]
pub(crate) struct Counts {
    pub(crate) below: Vec<u32>,
    pub(crate) all: u32,
}

// Those of a recording.
pub(crate) fn counts_of(alloc: Global, recording: &Recording) -> Result<Counts, NoMemory>
    ensures { IfOk result (λ counts. AreCounts recording.now counts) }
{
    let mut below = Vec::new(alloc);
    let mut all = 0;
    for i in 0..recording.len() {
        below.push(all)?;
        all = count_after(recording.command(i), all);
    }
    Ok(Counts { below, all })
}

// How many there are once a command is counted.
fn count_after(command: &Command, count: u32) -> u32
    requires { count < 4294967295 }
    ensures { result ≡ count_after (Some command.now) count }
{
    match command {
        Command::Submit => count + 1,
        _ => count,
    }
}
