ghost use Rattle.std.specs.Prelude.{IfSome};
ghost use Rattle.ray_cmd.specs.declared.rule.Rule.TheVariants.{V};
ghost use Rattle.ray_crowds.specs.Crowds.{IsCrowd};

use crate::counting::{primitives_at, rays_of, structures_with, too_many};
use crate::crowd::Crowd;
use crate::entries::entries_at;
use crate::spot::Spot;
use ray_cmd::Command;
use ray_status::Status;

// Of what there is too much at a spot of a command.
pub(crate) fn crowd_at(status: &Status, command: &Command, spot: Spot) -> Option<Crowd>
    ensures { IfSome result (λ crowd. IsCrowd status.now command.now (V 10) crowd) }
{
    match too_many(entries_at(command, spot)) {
        Some(count) => Some(Crowd::Entries(spot, count)),
        None => match too_many(primitives_at(status, command, spot)) {
            Some(count) => Some(Crowd::Primitives(spot, count)),
            None => None,
        },
    }
}

// The same of structures and of rays.
pub(crate) fn crowd_beside(status: &Status, command: &Command) -> Option<Crowd>
    ensures { IfSome result (λ crowd. IsCrowd status.now command.now (V 10) crowd) }
{
    match too_many(structures_with(status, command)) {
        Some(count) => Some(Crowd::Structures(count)),
        None => match too_many(rays_of(command)) {
            Some(count) => Some(Crowd::Rays(count)),
            None => None,
        },
    }
}
