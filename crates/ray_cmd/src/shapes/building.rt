ghost use Rattle.serde_json.specs.View.{view};
ghost use Rattle.ray_json.specs.Outcome.{Gives};
ghost use Rattle.ray_cmd.specs.Building.{build_of};

use crate::command::Command;
use crate::fields::at;
use ray_json::{ReadFault, only_members};
use serde_json::Value;
use std::alloc::Global;

// The command `build`: builds and updates.
#[tactic(auto, unfolding(crate::specs::Building::build_of))]
pub(crate) fn build(alloc: Global, value: &Value) -> Result<Command, ReadFault>
    ensures { Gives result (build_of (view value.now)) }
{
    only_members(value, &["op", "infos"])?;
    Ok(Command::Build {
        infos: at(alloc, value, "infos")?,
    })
}
