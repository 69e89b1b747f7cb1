ghost use Rattle.serde_json.specs.View.{view};
ghost use Rattle.ray_json.specs.Outcome.{Gives};
ghost use Rattle.ray_cmd.specs.Tracing.{trace_of};

use crate::command::Command;
use crate::fields::at;
use ray_json::{ReadFault, only_members};
use serde_json::Value;
use std::alloc::Global;

// The command `trace`: rays that are traced.
#[tactic(auto, unfolding(crate::specs::Tracing::trace_of))]
pub(crate) fn trace(alloc: Global, value: &Value) -> Result<Command, ReadFault>
    ensures { Gives result (trace_of (view value.now)) }
{
    only_members(
        value,
        &[
            "op", "top", "rays", "count", "hits", "flags", "mask", "script",
        ],
    )?;
    Ok(Command::Trace {
        top: at(alloc, value, "top")?,
        rays: at(alloc, value, "rays")?,
        count: at(alloc, value, "count")?,
        hits: at(alloc, value, "hits")?,
        flags: at(alloc, value, "flags")?,
        mask: at(alloc, value, "mask")?,
        script: at(alloc, value, "script")?,
    })
}
