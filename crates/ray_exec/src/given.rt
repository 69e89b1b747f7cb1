ghost use Rattle.std.specs.Prelude.{IfOk};
ghost use Rattle.ray_action.specs.Pieces.{command_at};
ghost use Rattle.ray_action.specs.Readiness.{IsReady};
ghost use Rattle.ray_device.specs.Pieces.{piece_action};
ghost use Rattle.ray_memory.specs.State.{memory_of};
ghost use Rattle.ray_exec.specs.Given.{IsGivenBy};
ghost use Rattle.ray_exec.specs.Waves.{IsPart};

use crate::fetcher::Fetcher;
use crate::host::is_host;
use crate::run_fault::refusal_of;
use ray_cmd::{Recording, Refusal};
use ray_device::{FetchFault, Piece, PieceOut};
use ray_memory::State;
use std::alloc::{AllocError as NoMemory, Global};
use std::thread::Threads;

// What a piece of a wave gives. (Own.)
#[derive(Drop)]
pub(crate) enum Given {
    // Its output.
    Out(PieceOut),
    // It breaks a data rule.
    Broken(Refusal),
    // Nothing yet: the host does this command where the wave is stored.
    ByHost(u32),
}

// What a piece gives of the memory as it is. Only want of memory fails.
pub(crate) fn given_now<R: Threads + Sync, F: Fetcher>(
    rt: &R,
    alloc: Global,
    state: &State,
    rec: &Recording,
    piece: Piece,
    fetcher: &F,
) -> Result<Given, NoMemory>
    requires part { IsPart rec.now piece }
    requires can { F.can_fetch fetcher.now (command_at rec.now piece.command) }
    requires ready { IsReady (piece_action rec.now piece) (memory_of state.now) }
    ensures { IfOk result (IsGivenBy rec.now (F.clients fetcher.now rec.now) (memory_of state.now)
        piece) }
{
    if is_host(rec.command(piece.command)) {
        return Ok(Given::ByHost(piece.command));
    }
    match fetcher.fetch(rt, alloc, state, rec, piece) {
        Ok(out) => Ok(Given::Out(out)),
        Err(FetchFault::Data(rule, place)) => {
            Ok(Given::Broken(refusal_of(piece.command, rule, place)))
        }
        Err(FetchFault::NoMemory) => Err(NoMemory),
    }
}
