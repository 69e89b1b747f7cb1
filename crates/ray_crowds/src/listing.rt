ghost use Rattle.std.specs.Prelude.{IfSome};
ghost use Rattle.ray_cmd.specs.declared.rule.Rule.TheVariants.{V};
ghost use Rattle.ray_crowds.specs.Crowds.{IsCrowd};

use crate::crowd::Crowd;
use crate::rules::wrong_script;
use crate::spot::Spot;
use crate::testing::{crowd_at, crowd_beside};
use ray_causes::{Member, Name};
use ray_cmd::{Command, Place, Refusal, Rule};
use ray_status::Status;

// The lists of a command itself, in the order in which they are told.
const OWN: &[Spot] = &[
    Spot::Counts,
    Spot::Member(Member::Own(Name::Uses)),
    Spot::Member(Member::Own(Name::Structures)),
    Spot::Member(Member::Own(Name::Buffers)),
];

// Of what the command of a refusal has too much, where its rule says.
pub(crate) fn first_crowd(status: &Status, command: &Command, refusal: Refusal) -> Option<Crowd>
    ensures { IfSome result (λ crowd. IsCrowd status.now command.now refusal.rule crowd) }
{
    match refusal.rule {
        Rule::V(10) => of_rule(status, command, refusal.place),
        Rule::V(23) => match wrong_script(command, refusal.place) {
            Some(wrong) => Some(Crowd::OfScript(wrong)),
            None => None,
        },
        _ => None,
    }
}

// The same of V10.
fn of_rule(status: &Status, command: &Command, place: Place) -> Option<Crowd>
    ensures { IfSome result (λ crowd. IsCrowd status.now command.now (V 10) crowd) }
{
    match of_own(status, command, OWN) {
        Some(crowd) => Some(crowd),
        None => match crowd_beside(status, command) {
            Some(crowd) => Some(crowd),
            None => of_part(status, command, place),
        },
    }
}

// The same of lists of the command itself.
fn of_own(status: &Status, command: &Command, spots: &[Spot]) -> Option<Crowd>
    ensures { IfSome result (λ crowd. IsCrowd status.now command.now (V 10) crowd) }
{
    for spot in spots {
        if let Some(crowd) = crowd_at(status, command, *spot) {
            return Some(crowd);
        }
    }
    None
}

// The same of the info of the place, and of the infos.
fn of_part(status: &Status, command: &Command, place: Place) -> Option<Crowd>
    ensures { IfSome result (λ crowd. IsCrowd status.now command.now (V 10) crowd) }
{
    match place {
        Place::Part(info) => of_info(status, command, info),
        _ => None,
    }
}

// The same of an info, and of the infos.
fn of_info(status: &Status, command: &Command, info: u32) -> Option<Crowd>
    ensures { IfSome result (λ crowd. IsCrowd status.now command.now (V 10) crowd) }
{
    match crowd_at(status, command, Spot::Geometries(info)) {
        Some(crowd) => Some(crowd),
        None => match crowd_at(
            status,
            command,
            Spot::Member(Member::Info(info, Name::Uses)),
        ) {
            Some(crowd) => Some(crowd),
            None => crowd_at(status, command, Spot::Infos),
        },
    }
}
