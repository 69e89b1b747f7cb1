ghost use Rattle.std.specs.Prelude.{◌≡◌};
ghost use Rattle.ray_valid.specs.Going.{goes_on};

use crate::buffers::v2;
use crate::names::v1;
use crate::structures::v6;
use ray_cmd::Command;
use ray_status::Status;

/// Whether a command keeps V1, V2 and V6 where this status stands, so that the status can go on
/// past it. (Own.)
pub fn goes_on(status: &Status, command: &Command) -> bool
    ensures { result ≡ goes_on status.now command.now }
{
    v1(status, command).is_none() && v2(status, command).is_none() && v6(status, command).is_none()
}
