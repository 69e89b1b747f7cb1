ghost use Rattle.std.specs.Prelude.{◌≡◌, ℕ, IfOk, OnOk, Some, slice_get};
ghost use Rattle.ray_rules.specs.Access.{stage_of};
ghost use Rattle.ray_rules.specs.Hazards.{status_at};
ghost use Rattle.ray_hazards.specs.Checks.{AreWithStructures, IsDoing};
ghost use Rattle.ray_hazards.specs.Reaching.{AreTops};

use crate::cells::Cells;
use crate::tops::Tops;
use ray_access::{Touched, Touches, host_touches_of, rays_traced, touches_of};
use ray_cmd::{Command, Recording};
use ray_rules::{Kind, Stage, kind_of};
use ray_status::Status;
use std::alloc::{AllocError as NoMemory, Global};

/// What a command does: its stage, what it reads and writes there, and what it reads on the host.
#[derive(Drop)]
pub struct Doing {
    /// Its stage, where it is done by the device.
    pub stage: Option<Stage>,
    /// What it reads and writes there.
    pub touches: Touches,
    /// What it reads on the host.
    pub host: Vec<Touched>,
}

/// What a command does where a status stands before it. Of the structures that a trace reads it
/// has a list that reaches the same cells, made once for each top as long as structures stay as
/// they are: `tops` has those so far, and has this one then, too.
///
/// # Errors
///
/// For want of memory alone.
pub fn doing_of(
    alloc: Global,
    rec: &Recording,
    status: &Status,
    command: &Command,
    tops: &mut Tops,
    cells: &Cells,
) -> Result<Doing, NoMemory>
    ensures doing { IfOk result (λ doing. (n : ℕ) → slice_get rec.now n ≡ Some command.now
        → status.now ≡ status_at rec.now n → AreTops rec.now cells.now status.now tops.old
        → IsDoing rec.now cells.now n doing) }
    ensures tops { OnOk result (AreTops rec.now cells.now status.now tops.old
        → AreTops rec.now cells.now status.now tops.new) }
{
    let stage = stage_of(command);
    match command {
        Command::Trace {
            top,
            rays,
            count,
            hits,
            ..
        } => {
            let structures = tops.structures_of(alloc, rec, status, *top, cells)?;
            let others = rays_traced(alloc, status, *rays, *count, *hits)?;
            let touches = with_structures(structures, others)?;
            Ok(Doing {
                stage,
                touches,
                host: Vec::new(alloc),
            })
        }
        _ => {
            let touches = touches_of(alloc, rec, status, command)?;
            let host = host_touches_of(alloc, status, command)?;
            Ok(Doing {
                stage,
                touches,
                host,
            })
        }
    }
}

// Reads of structures, and then what else is touched.
fn with_structures(mut structures: Vec<Touched>, others: Touches) -> Result<Touches, NoMemory>
    ensures { IfOk result (λ touches. AreWithStructures structures.items others touches) }
{
    let Touches { reads, writes } = others;
    structures.extend_from_slice(reads.as_slice())?;
    Ok(Touches {
        reads: structures,
        writes,
    })
}

// The stage of a device command.
#[tactic(auto, unfolding(ray_rules::specs::Access::stage_of))]
fn stage_of(command: &Command) -> Option<Stage>
    ensures { result ≡ stage_of command.now }
{
    match kind_of(command) {
        Kind::Device(stage) => Some(stage),
        Kind::Barrier | Kind::HostCommand => None,
    }
}
