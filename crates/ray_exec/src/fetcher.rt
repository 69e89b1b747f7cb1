use ray_cmd::Recording;
use ray_device::{FetchFault, Piece, PieceOut};
use ray_memory::State;
use std::alloc::Global;
use std::thread::Threads;

/// Who fetches the pieces of a recording's commands, and so decides on the candidates of its traces.
/// (Own; after the shaders of a pipeline.)
pub trait Fetcher {
    ghost use Rattle.std.specs.Prelude.{List};
    ghost use Rattle.std.specs.Thread.{IsSync};
    ghost use Rattle.ray_cmd.specs.declared.command.Command.{Command};
    ghost use Rattle.ray_action.specs.Clients.{Clients};
    ghost use Rattle.ray_action.specs.Outcomes.{outcome_of};
    ghost use Rattle.ray_action.specs.Pieces.{command_at};
    ghost use Rattle.ray_action.specs.Readiness.{IsReady};
    ghost use Rattle.ray_device.specs.Fetching.{IsPieceFetched};
    ghost use Rattle.ray_device.specs.Pieces.{IsPiece, piece_action};
    ghost use Rattle.ray_memory.specs.State.{memory_of};

    /// What decides: the clients of a recording's traces, by the numbers of their commands.
    ghost clients: { Self → List Command → Clients };

    /// What a command has to be so that its pieces can be fetched.
    ghost can_fetch: { Self → Command → Type 0 };

    /// What a piece gives of the memory as it is, or the first data rule that it breaks.
    fn fetch<R: Threads + Sync>(
        &self,
        rt: &R,
        alloc: Global,
        state: &State,
        rec: &Recording,
        piece: Piece,
    ) -> Result<PieceOut, FetchFault>
        requires threads { IsSync R.row }
        requires piece { IsPiece rec.now piece }
        requires can { can_fetch self.now (command_at rec.now piece.command) }
        requires ready { IsReady (piece_action rec.now piece) (memory_of state.now) }
        ensures { IsPieceFetched piece (outcome_of (clients self.now rec.now piece.command)
            (piece_action rec.now piece) (memory_of state.now)) result };
}
