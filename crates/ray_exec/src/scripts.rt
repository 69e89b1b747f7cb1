use crate::fetcher::Fetcher;
use crate::gate::Gate;
use ray_cmd::Recording;
use ray_device::{FetchFault, Piece, PieceOut, fetch};
use ray_geom::Steps;
use ray_memory::State;
use std::alloc::Global;
use std::marker::Brand;
use std::thread::Threads;

/// Fetches pieces by the scripts of the traces. A gate is told before and after each. (Own.)
#[derive(Drop)]
pub struct Scripts<'g, G: Gate> {
    gate: &'g G,
}

impl<'g, G: Gate> Scripts<'g, G> {
    /// The scripts of a recording, with a gate round each fetch.
    pub fn new(gate: &'g G) -> Scripts<'g, G> {
        Scripts { gate }
    }
}

impl<'g, G: Gate> Fetcher for Scripts<'g, G> {
    ghost use Rattle.ray_action.specs.Clients.{HasScript, scripts};

    ghost clients = { λ _ rec. scripts rec };

    ghost can_fetch = { λ _ command. HasScript command };

    // It counts its steps for itself.
    fn fetch<R: Threads + Sync>(
        &self,
        rt: &R,
        alloc: Global,
        state: &State,
        rec: &Recording,
        piece: Piece,
    ) -> Result<PieceOut, FetchFault> {
        let mut steps = Steps::<Brand>::zero();
        self.gate.begin(piece);
        let fetched = fetch(rt, alloc, state, rec, piece, &mut steps);
        self.gate.end(piece);
        fetched
    }
}
