use ray_cmd::Recording;
use ray_device::{FetchFault, Piece, PieceOut, fetch_with};
use ray_exec::{Fetcher, Gate};
use ray_geom::Steps;
use ray_memory::State;
use ray_pipe::Tables;
use std::alloc::Global;
use std::marker::Brand;
use std::thread::Threads;

/// Fetches pieces by the tables of hit groups of the traces. A gate is told before and after each.
/// (Own.)
#[derive(Drop)]
pub(crate) struct ByTables<'t, G: Gate> {
    pub(crate) tables: &'t Tables,
    pub(crate) gate: &'t G,
}

impl<'t, G: Gate> Fetcher for ByTables<'t, G> {
    ghost use Rattle.ray_pipe.specs.Tables.{clients};

    ghost clients = { λ fetcher _. clients fetcher.tables.now };

    ghost can_fetch = { λ _ _. Unit {0} };

    // It counts its steps for itself.
    fn fetch<R: Threads + Sync>(
        &self,
        rt: &R,
        alloc: Global,
        state: &State,
        rec: &Recording,
        piece: Piece,
    ) -> Result<PieceOut, FetchFault> {
        let mut steps = Steps::<Brand>::zero();
        let client = self.tables.of_command(piece.command);
        self.gate.begin(piece);
        let fetched = fetch_with(rt, alloc, state, rec, piece, client, &mut steps);
        self.gate.end(piece);
        fetched
    }
}
