ghost use Rattle.serde_json.specs.View.{view};
ghost use Rattle.ray_json.specs.Outcome.{Gives};
ghost use Rattle.ray_cmd.specs.Host.{buffer_of, structure_of, destroy_of, sizes_of, begin_of, end_of, submit_of, wait_of, read_of};

use crate::command::Command;
use crate::fields::{at, optional_at};
use ray_json::{ReadFault, only_members};
use serde_json::Value;
use std::alloc::Global;

// The command `buffer`: a new buffer.
#[tactic(auto, unfolding(crate::specs::Host::buffer_of))]
pub(crate) fn buffer(alloc: Global, value: &Value) -> Result<Command, ReadFault>
    ensures { Gives result (buffer_of (view value.now)) }
{
    only_members(value, &["op", "id", "size", "usage", "data"])?;
    Ok(Command::Buffer {
        id: at(alloc, value, "id")?,
        size: at(alloc, value, "size")?,
        usage: at(alloc, value, "usage")?,
        content: optional_at(alloc, value, "data")?,
    })
}

// The command `structure`: a new structure.
#[tactic(auto, unfolding(crate::specs::Host::structure_of))]
pub(crate) fn structure(alloc: Global, value: &Value) -> Result<Command, ReadFault>
    ensures { Gives result (structure_of (view value.now)) }
{
    only_members(value, &["op", "id", "kind", "buffer", "offset", "size"])?;
    Ok(Command::Structure {
        id: at(alloc, value, "id")?,
        kind: at(alloc, value, "kind")?,
        buffer: at(alloc, value, "buffer")?,
        offset: at(alloc, value, "offset")?,
        size: at(alloc, value, "size")?,
    })
}

// The command `destroy`: the end of a buffer or a structure.
#[tactic(auto, unfolding(crate::specs::Host::destroy_of))]
pub(crate) fn destroy(alloc: Global, value: &Value) -> Result<Command, ReadFault>
    ensures { Gives result (destroy_of (view value.now)) }
{
    only_members(value, &["op", "what", "id"])?;
    Ok(Command::Destroy {
        what: at(alloc, value, "what")?,
        id: at(alloc, value, "id")?,
    })
}

// The command `sizes`: the sizes of a structure.
#[tactic(auto, unfolding(crate::specs::Host::sizes_of))]
pub(crate) fn sizes(alloc: Global, value: &Value) -> Result<Command, ReadFault>
    ensures { Gives result (sizes_of (view value.now)) }
{
    only_members(value, &["op", "kind", "counts"])?;
    Ok(Command::Sizes {
        kind: at(alloc, value, "kind")?,
        counts: at(alloc, value, "counts")?,
    })
}

// The command `begin`: the beginning of the command buffer.
#[tactic(auto, unfolding(crate::specs::Host::begin_of))]
pub(crate) fn begin(value: &Value) -> Result<Command, ReadFault>
    ensures { Gives result (begin_of (view value.now)) }
{
    only_members(value, &["op"])?;
    Ok(Command::Begin)
}

// The command `end`: the end of the command buffer.
#[tactic(auto, unfolding(crate::specs::Host::end_of))]
pub(crate) fn end(value: &Value) -> Result<Command, ReadFault>
    ensures { Gives result (end_of (view value.now)) }
{
    only_members(value, &["op"])?;
    Ok(Command::End)
}

// The command `submit`: the submission of the command buffer.
#[tactic(auto, unfolding(crate::specs::Host::submit_of))]
pub(crate) fn submit(value: &Value) -> Result<Command, ReadFault>
    ensures { Gives result (submit_of (view value.now)) }
{
    only_members(value, &["op"])?;
    Ok(Command::Submit)
}

// The command `wait`: a wait for all that was submitted.
#[tactic(auto, unfolding(crate::specs::Host::wait_of))]
pub(crate) fn wait(value: &Value) -> Result<Command, ReadFault>
    ensures { Gives result (wait_of (view value.now)) }
{
    only_members(value, &["op"])?;
    Ok(Command::Wait)
}

// The command `read`: bytes that are shown.
#[tactic(auto, unfolding(crate::specs::Host::read_of))]
pub(crate) fn read(alloc: Global, value: &Value) -> Result<Command, ReadFault>
    ensures { Gives result (read_of (view value.now)) }
{
    only_members(value, &["op", "buffer", "offset", "size", "form"])?;
    Ok(Command::Read {
        buffer: at(alloc, value, "buffer")?,
        offset: at(alloc, value, "offset")?,
        size: at(alloc, value, "size")?,
        form: at(alloc, value, "form")?,
    })
}
