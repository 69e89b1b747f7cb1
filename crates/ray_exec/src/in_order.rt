ghost use Rattle.std.specs.Prelude.{◌≡◌, ◌≤◌, ◌<◌, ◌+◌, Err, IfErr, OnOk, false, length, not};
ghost use Rattle.ray_action.specs.Memory.{Location, nothing_live};
ghost use Rattle.ray_action.specs.Pieces.{command_at};
ghost use Rattle.ray_action.specs.Readiness.{IsReady};
ghost use Rattle.ray_device.specs.Pieces.{IsPiece, is_device, piece_action};
ghost use Rattle.ray_memory.specs.State.{memory_of};
ghost use Rattle.ray_permitted.specs.Along.{memory_below, run_below};
ghost use Rattle.ray_permitted.specs.Job.{on_one_queue};
ghost use Rattle.ray_ready.specs.Accepted.{IsAccepted, KeepStaticRules};
ghost use Rattle.ray_exec.specs.Runs.{IsRun, IsRunTo};
ghost use Rattle.ray_exec.specs.Steps.{CanEach, IsStored, Stops, piece_outcome};

use crate::fetcher::Fetcher;
use crate::host::{act, is_host};
use crate::run_fault::RunFault;
use ray_cmd::Recording;
use ray_device::{Piece, pieces, store};
use ray_memory::State;
use ray_ready::kept_are_accepted;
use std::alloc::Global;
use std::thread::Threads;

/// Runs the commands below `until` in recording order, on the calling thread: each piece is stored
/// before the next is fetched. They keep the rules V1 to V24 and V28 to V31; no order is read.
/// Gives their text, or the refusal of the first that breaks a data rule. After a text the state
/// holds the memory that the run leaves; after a fault what some of the commands wrote. (Own.)
pub fn run_in_order<R: Threads + Sync, F: Fetcher>(
    rt: &R,
    alloc: Global,
    state: &mut State,
    rec: &Recording,
    until: u32,
    fetcher: &F,
) -> Result<Vec<u8>, RunFault>
    requires new { (l : Location) → memory_of state.old l ≡ nothing_live l }
    requires within { until ≤ length rec.now }
    requires rules { KeepStaticRules rec.now until }
    requires can { CanEach (F.can_fetch fetcher.now) rec.now until }
    ensures run { IsRun (run_below (on_one_queue rec.now (F.clients fetcher.now rec.now)) until)
        result }
    ensures left { OnOk result ((l : Location) → memory_of state.new l
        ≡ memory_below (on_one_queue rec.now (F.clients fetcher.now rec.now)) until l) }
{
    let mut text = Vec::new(alloc);
    for command in 0..until {
        if let Err(fault) = run_command(rt, alloc, state, rec, command, fetcher, &mut text) {
            return Err(fault);
        }
    }
    Ok(text)
}

/// Runs one command more in recording order: those before it were run and came to a text, and they
/// and it keep the rules V1 to V24 and V28 to V31. What it shows is put behind the text. The
/// refusal comes exactly where it breaks a data rule; want of memory aside, so it does of any more
/// commands that are run. After a fault the state holds what some of its pieces wrote. (Own.)
pub fn run_command<R: Threads + Sync, F: Fetcher>(
    rt: &R,
    alloc: Global,
    state: &mut State,
    rec: &Recording,
    command: u32,
    fetcher: &F,
    text: &mut Vec<u8>,
) -> Result<(), RunFault>
    requires within { command < length rec.now }
    requires rules { KeepStaticRules rec.now (command + 1) }
    requires can { F.can_fetch fetcher.now (command_at rec.now command) }
    requires before { IsRunTo (on_one_queue rec.now (F.clients fetcher.now rec.now)) command
        (memory_of state.old) text.old.items }
    ensures ok { OnOk result (IsRunTo (on_one_queue rec.now (F.clients fetcher.now rec.now))
        (command + 1) (memory_of state.new) text.new.items) }
    ensures err { IfErr result (λ fault. IsRun
        (run_below (on_one_queue rec.now (F.clients fetcher.now rec.now)) (command + 1))
        (Err fault)) }
{
    kept_are_accepted(rec);
    if is_host(rec.command(command)) {
        match act(state, rec, command, text) {
            Ok(()) => Ok(()),
            Err(_) => Err(RunFault::NoMemory),
        }
    } else {
        run_pieces(rt, alloc, state, rec, command, fetcher, text)
    }
}

// Runs the pieces of a device command. They show nothing.
fn run_pieces<R: Threads + Sync, F: Fetcher>(
    rt: &R,
    alloc: Global,
    state: &mut State,
    rec: &Recording,
    command: u32,
    fetcher: &F,
    text: &[u8],
) -> Result<(), RunFault>
    requires within { command < length rec.now }
    requires accepted { IsAccepted rec.now (command + 1) }
    requires device { not (is_device (command_at rec.now command)) ≡ false }
    requires can { F.can_fetch fetcher.now (command_at rec.now command) }
    requires before { IsRunTo (on_one_queue rec.now (F.clients fetcher.now rec.now)) command
        (memory_of state.old) text.now }
    ensures ok { OnOk result (IsRunTo (on_one_queue rec.now (F.clients fetcher.now rec.now))
        (command + 1) (memory_of state.new) text.now) }
    ensures err { IfErr result (λ fault. IsRun
        (run_below (on_one_queue rec.now (F.clients fetcher.now rec.now)) (command + 1))
        (Err fault)) }
{
    for part in 0..pieces(rec, command) {
        let piece = Piece { command, part };
        if let Err(fault) = run_piece(rt, alloc, state, rec, piece, fetcher) {
            return Err(fault);
        }
    }
    Ok(())
}

// Fetches a piece and stores what it gives.
#[tactic(auto, using(crate::proofs::Hosting::can_be_stored, crate::proofs::Hosting::is_that_piece))]
fn run_piece<R: Threads + Sync, F: Fetcher>(
    rt: &R,
    alloc: Global,
    state: &mut State,
    rec: &Recording,
    piece: Piece,
    fetcher: &F,
) -> Result<(), RunFault>
    requires piece { IsPiece rec.now piece }
    requires can { F.can_fetch fetcher.now (command_at rec.now piece.command) }
    requires ready { IsReady (piece_action rec.now piece) (memory_of state.old) }
    ensures ok { OnOk result (IsStored (F.clients fetcher.now rec.now piece.command)
        (piece_action rec.now piece) (memory_of state.old) (memory_of state.new)) }
    ensures err { IfErr result (Stops piece.command (piece_outcome rec.now
        (F.clients fetcher.now rec.now) piece (memory_of state.old))) }
{
    match fetcher.fetch(rt, alloc, state, rec, piece) {
        Ok(out) => {
            store(state, rec, out);
            Ok(())
        }
        Err(fault) => Err(RunFault::of_fetch(piece.command, fault)),
    }
}
