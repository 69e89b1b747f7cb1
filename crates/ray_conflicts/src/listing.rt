ghost use Rattle.std.specs.Prelude.{IfSome};
ghost use Rattle.ray_conflicts.specs.Conflicts.{ArePartsOf, IsConflict};

use crate::conflict::Conflict;
use crate::infos::earlier_info;
use crate::regions::{hits_conflict, other_region};
use ray_cmd::{Command, Place, Refusal, Rule};

// Which parts of the command of a refusal conflict, where its rule says.
pub(crate) fn first_conflict(command: &Command, refusal: Refusal) -> Option<Conflict>
    ensures { IfSome result (λ conflict. IsConflict command.now refusal.rule conflict) }
{
    match refusal.rule {
        Rule::V(16) => parts_at(command, refusal.place),
        _ => None,
    }
}

// The same at a place.
fn parts_at(command: &Command, place: Place) -> Option<Conflict>
    ensures { IfSome result (λ conflict. ArePartsOf command.now conflict) }
{
    match place {
        Place::Part(part) => parts_of(command, part),
        Place::Whole => of_trace(command),
        _ => None,
    }
}

// The same of a part.
fn parts_of(command: &Command, part: u32) -> Option<Conflict>
    ensures { IfSome result (λ conflict. ArePartsOf command.now conflict) }
{
    match command {
        Command::Copy { regions, .. } => other_region(command, part, regions.as_slice().len()),
        _ => earlier_info(command, part),
    }
}

// The same of a trace.
fn of_trace(command: &Command) -> Option<Conflict>
    ensures { IfSome result (λ conflict. ArePartsOf command.now conflict) }
{
    if hits_conflict(command) {
        Some(Conflict::Hits)
    } else {
        None
    }
}
