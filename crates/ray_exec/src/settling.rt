ghost use Rattle.std.specs.Prelude.{IfOk, Some, None};
ghost use Rattle.ray_memory.specs.State.{memory_of};
ghost use Rattle.ray_exec.specs.Given.{AreGiven, AreReady};
ghost use Rattle.ray_exec.specs.Settled.{settled, AreApart, IsLeftBy};

use crate::fetcher::Fetcher;
use crate::given::Given;
use crate::host::act;
use ray_cmd::{Recording, Refusal};
use ray_device::{Piece, store};
use ray_memory::State;
use std::alloc::AllocError as NoMemory;

// Stores what the pieces of a wave gave, one after the other, up to the first that breaks a data
// rule, and gives its refusal. What the host does is done at its place. `pieces` are those that gave
// it, and `fetcher` fetched them. Only want of memory for what the host makes or tells fails.
pub(crate) fn settle<F: Fetcher>(
    state: &mut State,
    rec: &Recording,
    fetcher: &F,
    pieces: &[Piece],
    outs: Vec<Given>,
    text: &mut Vec<u8>,
) -> Result<Option<Refusal>, NoMemory>
    requires ready { AreReady (F.can_fetch fetcher.now) rec.now (memory_of state.old) pieces.now }
    requires apart { AreApart rec.now pieces.now }
    requires given { AreGiven rec.now (F.clients fetcher.now rec.now) (memory_of state.old)
        pieces.now outs.items }
    ensures { IfOk result (λ stop. IsLeftBy (settled rec.now (F.clients fetcher.now rec.now)
        (memory_of state.old) pieces.now (memory_of state.old) text.old.items) (memory_of state.new) text.new.items stop) }
{
    for given in outs {
        match given {
            Given::Out(out) => store(state, rec, out),
            Given::Broken(refusal) => return Ok(Some(refusal)),
            Given::ByHost(command) => act(state, rec, command, text)?,
        }
    }
    Ok(None)
}
