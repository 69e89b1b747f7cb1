ghost use Rattle.std.specs.Prelude.{◌≡◌, ℕ, IfOk};
ghost use Rattle.std.specs.Option.{option_map};
ghost use Rattle.ray_queues.specs.Keeping.{IsHere, IsKeeping};
ghost use Rattle.ray_rules.specs.Status.{status_at};
ghost use Rattle.ray_submits.specs.Submits.{QueueCommands};
ghost use Rattle.ray_queue_check.specs.Arriving.{IsPassed};
ghost use Rattle.ray_queue_check.specs.Passing.{IsBarrierHere};

use ray_chains::MemoryBarrier;
use ray_cmd::{Command, Listed};
use ray_hazards::makers_of;
use ray_queues::{Keeping, PerQueue, Submission, queue_in};
use ray_status::Status;
use ray_sync::barrier_of;
use std::alloc::{AllocError as NoMemory, Global};

/// What a command is to coverage.
#[derive(Drop)]
pub(crate) enum Passed {
    // A barrier of a queue.
    Barrier(u32, MemoryBarrier),
    // One that is limited to the buffers of these makers.
    Limited(u32, MemoryBarrier, Vec<u32>),
    // The begin of a submission to a queue, and the numbers that are carried by what meets its
    // waits.
    Begin(u32, PerQueue),
    // A `wait` of the host.
    Wait,
    // A command that hands nothing to any queue.
    Other,
}

// What command number `n` of a submission is to coverage, where a status stands before it.
pub(crate) fn passed_by(
    alloc: Global,
    command: &Command,
    submission: Option<&Submission>,
    keeping: &Keeping,
    status: &Status,
) -> Result<Passed, NoMemory>
    ensures { IfOk result (λ passed. (q : QueueCommands) (n : ℕ)
        → IsHere q n command.now (option_map (λ s. s.now) submission.entry)
        → status.now ≡ status_at q.commands n
        → IsKeeping q n keeping.now → IsPassed q n passed) }
{
    match command {
        Command::Barrier {
            src_stages,
            src_access,
            dst_stages,
            dst_access,
            buffers,
        } => {
            let barrier = barrier_of(*src_stages, *src_access, *dst_stages, *dst_access);
            passed_barrier(alloc, queue_in(submission), barrier, buffers, status)
        }
        Command::Begin => Ok(Passed::Begin(queue_in(submission), keeping.met(submission))),
        Command::Wait => Ok(Passed::Wait),
        _ => Ok(Passed::Other),
    }
}

// What a barrier of a queue is to it.
fn passed_barrier(
    alloc: Global,
    queue: u32,
    barrier: MemoryBarrier,
    buffers: &Option<Listed<u32>>,
    status: &Status,
) -> Result<Passed, NoMemory>
    ensures { IfOk result (λ passed. (q : QueueCommands) (n : ℕ)
        → IsBarrierHere q n status.now queue barrier buffers.now → IsPassed q n passed) }
{
    match buffers {
        Some(ids) => {
            let makers = makers_of(alloc, status, ids.as_slice())?;
            Ok(Passed::Limited(queue, barrier, makers))
        }
        None => Ok(Passed::Barrier(queue, barrier)),
    }
}
