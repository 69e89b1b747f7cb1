ghost use Rattle.serde_json.specs.View.{view};
ghost use Rattle.ray_json.specs.Outcome.{Gives};
ghost use Rattle.ray_cmd.specs.Copies.{copy_structure_of, serialize_of, deserialize_of, property_of};

use crate::command::Command;
use crate::fields::{at, listed_at, optional_at};
use crate::forms::is_form;
use ray_json::{ReadFault, only_members};
use serde_json::Value;
use std::alloc::Global;

// The command `copy_structure`: a copy of a structure.
#[tactic(auto, unfolding(crate::specs::Copies::copy_structure_of))]
pub(crate) fn copy_structure(alloc: Global, value: &Value) -> Result<Command, ReadFault>
    ensures { Gives result (copy_structure_of (view value.now)) }
{
    only_members(value, &["op", "mode", "src", "dst"])?;
    Ok(Command::CopyStructure {
        mode: at(alloc, value, "mode")?,
        src: at(alloc, value, "src")?,
        dst: at(alloc, value, "dst")?,
    })
}

// The command `serialize`: a structure that is serialized.
#[tactic(auto, unfolding(crate::specs::Copies::serialize_of))]
pub(crate) fn serialize(alloc: Global, value: &Value) -> Result<Command, ReadFault>
    ensures { Gives result (serialize_of (view value.now)) }
{
    only_members(value, &["op", "src", "dst", "form"])?;
    let src = at(alloc, value, "src")?;
    let dst = at(alloc, value, "dst")?;
    let form = optional_at(alloc, value, "form")?;
    if !is_form(form) {
        return Err(ReadFault::Shape);
    }
    Ok(Command::Serialize { src, dst, form })
}

// The command `deserialize`: a structure that is read from its serialized form.
#[tactic(auto, unfolding(crate::specs::Copies::deserialize_of))]
pub(crate) fn deserialize(alloc: Global, value: &Value) -> Result<Command, ReadFault>
    ensures { Gives result (deserialize_of (view value.now)) }
{
    only_members(value, &["op", "src", "dst", "uses"])?;
    Ok(Command::Deserialize {
        src: at(alloc, value, "src")?,
        dst: at(alloc, value, "dst")?,
        uses: listed_at(alloc, value, "uses")?,
    })
}

// The command `property`: numbers of structures.
#[tactic(auto, unfolding(crate::specs::Copies::property_of))]
pub(crate) fn property(alloc: Global, value: &Value) -> Result<Command, ReadFault>
    ensures { Gives result (property_of (view value.now)) }
{
    only_members(value, &["op", "what", "structures", "dst"])?;
    Ok(Command::Property {
        what: at(alloc, value, "what")?,
        structures: at(alloc, value, "structures")?,
        dst: at(alloc, value, "dst")?,
    })
}
