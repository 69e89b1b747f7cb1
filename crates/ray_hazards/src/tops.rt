ghost use Rattle.std.specs.Prelude.{◌≡◌, ℕ, IfOk, List, OnOk, false};
ghost use Rattle.ray_access.specs.Lists.{structures_traced};
ghost use Rattle.ray_cmd.specs.declared.command.Command.{Command as ACommand};
ghost use Rattle.ray_rules.specs.Status.{Status as AStatus, after};
ghost use Rattle.ray_hazards.specs.Reaching.{AreReached, AreTops, KeepsStructures};

use crate::cells::Cells;
use crate::merging::merged;
use ray_access::{Touched, structures_traced};
use ray_cmd::{Command, Recording};
use ray_status::Status;
use std::alloc::{AllocError as NoMemory, Global};
use std::collections::BTreeMap;

/// What traces read of structures, by the id of the top that is traced, as few touches as go: kept
/// as long as the structures stay as they are. Own.
#[derive(Drop)]
pub struct Tops {
    pub(crate) reads: BTreeMap<u32, Vec<Touched>>,
}

impl Tops {
    /// Nothing is kept.
    pub fn none(alloc: Global) -> Tops
        ensures { (rec : List ACommand) (starts : List ℕ) (z : AStatus) → AreTops rec starts z result }
    {
        Tops {
            reads: BTreeMap::new(alloc),
        }
    }

    // What a trace of the top of an id reads of structures where a status stands: listed where it
    // isn't kept, and then kept.
    pub(crate) fn structures_of(
        &mut self,
        alloc: Global,
        rec: &Recording,
        status: &Status,
        top: u32,
        cells: &Cells,
    ) -> Result<Vec<Touched>, NoMemory>
        ensures reads { IfOk result (λ list. AreTops rec.now cells.now status.now self.old
            → AreReached status.now cells.now (structures_traced rec.now status.now top) list.items) }
        ensures kept { OnOk result (AreTops rec.now cells.now status.now self.old
            → AreTops rec.now cells.now status.now self.new) }
    {
        if let Some(known) = self.reads.get(&top) {
            let copy = copy_of(alloc, known.as_slice())?;
            return Ok(copy);
        }
        let list = structures_traced(alloc, rec, status, top)?;
        let few = merged(alloc, list, cells)?;
        let copy = copy_of(alloc, few.as_slice())?;
        self.reads.insert(top, few)?;
        Ok(copy)
    }

    /// Goes on past a command: nothing is kept where structures may change.
    pub fn pass(&mut self, alloc: Global, command: &Command)
        ensures { (rec : List ACommand) (starts : List ℕ) (z : AStatus) (n : ℕ)
            → AreTops rec starts z self.old → AreTops rec starts (after n command.now z) self.new }
    {
        if may_change_structures(command) {
            *self = Tops::none(alloc);
        }
    }
}

// A list of the same touches.
fn copy_of(alloc: Global, touches: &[Touched]) -> Result<Vec<Touched>, NoMemory>
    ensures { IfOk result (λ copy. copy.items ≡ touches.now) }
{
    let mut copy = Vec::with_capacity(alloc, touches.len())?;
    copy.extend_from_slice(touches)?;
    Ok(copy)
}

// Whether a command may make, build or destroy a structure. No other one changes any.
#[tactic(auto, unfolding(ray_rules::specs::Status::after))]
pub(crate) fn may_change_structures(command: &Command) -> bool
    ensures { result ≡ false → KeepsStructures command.now }
{
    match command {
        Command::Structure { .. } => true,
        Command::Destroy { .. } => true,
        Command::Build { .. } => true,
        Command::CopyStructure { .. } => true,
        Command::Deserialize { .. } => true,
        _ => false,
    }
}
