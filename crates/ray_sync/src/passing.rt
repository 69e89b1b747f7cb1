ghost use Rattle.std.specs.Prelude.{◌≡◌, List, OnOk, Some, slice_get, suc};
ghost use Rattle.ray_cmd.specs.declared.command.Command.{Command as ACommand};
ghost use Rattle.ray_hazards.specs.Carrying.{AreCarried};
ghost use Rattle.ray_rules.specs.Status.{status_at};
ghost use Rattle.ray_sync.specs.OneQueue.{IsBarrierAt, one_queue};

use crate::events::barrier_of;
use ray_chains::MemoryBarrier;
use ray_cmd::{Command, Listed};
use ray_hazards::{Coverage, makers_of};
use ray_status::Status;
use std::alloc::{AllocError as NoMemory, Global};

// Coverage goes on past command number `n`, before which a status stands.
pub(crate) fn pass(
    alloc: Global,
    coverage: &mut Coverage,
    n: u32,
    command: &Command,
    status: &Status,
) -> Result<(), NoMemory>
    ensures { OnOk result ((rec : List ACommand) → slice_get rec n ≡ Some command.now
        → status.now ≡ status_at rec n → AreCarried (one_queue rec) 0 n coverage.old
        → AreCarried (one_queue rec) 0 (suc n) coverage.new) }
{
    match command {
        Command::Barrier {
            src_stages,
            src_access,
            dst_stages,
            dst_access,
            buffers,
        } => {
            let barrier = barrier_of(*src_stages, *src_access, *dst_stages, *dst_access);
            pass_barrier(alloc, coverage, n, &barrier, buffers, status)
        }
        Command::Wait => {
            coverage.wait(n);
            Ok(())
        }
        _ => Ok(()),
    }
}

// The same past a barrier, command number `n`.
fn pass_barrier(
    alloc: Global,
    coverage: &mut Coverage,
    n: u32,
    barrier: &MemoryBarrier,
    buffers: &Option<Listed<u32>>,
    status: &Status,
) -> Result<(), NoMemory>
    ensures { OnOk result ((rec : List ACommand)
        → IsBarrierAt rec n status.now barrier.now buffers.now
        → AreCarried (one_queue rec) 0 n coverage.old
        → AreCarried (one_queue rec) 0 (suc n) coverage.new) }
{
    match buffers {
        Some(ids) => {
            let makers = makers_of(alloc, status, ids.as_slice())?;
            coverage.limit_to(alloc, n, barrier, makers.as_slice())
        }
        None => {
            coverage.hand_on(n, barrier);
            Ok(())
        }
    }
}
