ghost use Rattle.std.specs.Prelude.{◌≡◌, IfOk, length};
ghost use Rattle.ray_rules.specs.Order.{barriers};
ghost use Rattle.ray_sync.specs.Hazards.{hazards_below};
ghost use Rattle.ray_refusals.specs.Every.{going_below, statics_of};

use crate::statics::{Statics, statics_of};
use ray_cmd::{Recording, Refusal};
use ray_sync::{all_hazards, order_of};
use std::alloc::{AllocError as NoMemory, Global};

/// All refusals of a recording. (Own.)
#[derive(Debug, Drop)]
pub struct Every {
    /// Of each command that breaks a static rule, V1 to V24 or V28 to V31, the refusal by the
    /// least; and that of the end.
    pub statics: Vec<Refusal>,
    /// Of each of the first commands that breaks a rule on hazards, V25 to V27 or V32, the refusal
    /// by the least.
    pub hazards: Vec<Refusal>,
    /// How many of the first commands are looked at for hazards: those before one that names what
    /// isn't live, has sizes too small or makes a structure over another, and so leaves no status.
    pub going: u32,
    /// How many commands the recording has.
    pub commands: u32,
}

/// All refusals of a recording, in rising order of commands, where each command is taken as it is:
/// one that leaves no status is passed by as though it did nothing. (Own.)
///
/// # Errors
///
/// For want of memory alone.
pub fn every_refusal(alloc: Global, rec: &Recording) -> Result<Every, NoMemory>
    ensures statics { IfOk result (λ every. every.statics.items ≡ statics_of rec.now) }
    ensures going { IfOk result (λ every. every.going ≡ going_below rec.now (length rec.now)) }
    ensures hazards { IfOk result (λ every. every.hazards.items
        ≡ hazards_below (barriers rec.now) rec.now every.going) }
    ensures commands { IfOk result (λ every. every.commands ≡ length rec.now) }
{
    let Statics { refusals, going } = statics_of(alloc, rec)?;
    let hazards = hazards_of(alloc, rec, going)?;
    Ok(Every {
        statics: refusals,
        hazards,
        going,
        commands: rec.len(),
    })
}

// The refusals of the commands below a number by rules on hazards.
fn hazards_of(alloc: Global, rec: &Recording, going: u32) -> Result<Vec<Refusal>, NoMemory>
    requires { going ≡ going_below rec.now (length rec.now) }
    ensures { IfOk result (λ hazards. hazards.items
        ≡ hazards_below (barriers rec.now) rec.now going) }
{
    let order = order_of(alloc, rec, going)?;
    all_hazards(alloc, rec, &order, going as usize)
}
