ghost use Rattle.serde_json.specs.View.{view};
ghost use Rattle.ray_json.specs.Outcome.{Gives};
ghost use Rattle.ray_cmd.specs.Transfer.{update_of, fill_of, copy_of, barrier_of};

use crate::command::Command;
use crate::fields::{at, optional_at};
use ray_json::{ReadFault, only_members};
use serde_json::Value;
use std::alloc::Global;

// The command `update`: bytes that are written.
#[tactic(auto, unfolding(crate::specs::Transfer::update_of))]
pub(crate) fn update(alloc: Global, value: &Value) -> Result<Command, ReadFault>
    ensures { Gives result (update_of (view value.now)) }
{
    only_members(value, &["op", "buffer", "offset", "data"])?;
    Ok(Command::Update {
        buffer: at(alloc, value, "buffer")?,
        offset: at(alloc, value, "offset")?,
        content: at(alloc, value, "data")?,
    })
}

// The command `fill`: a value that is written again and again.
#[tactic(auto, unfolding(crate::specs::Transfer::fill_of))]
pub(crate) fn fill(alloc: Global, value: &Value) -> Result<Command, ReadFault>
    ensures { Gives result (fill_of (view value.now)) }
{
    only_members(value, &["op", "buffer", "offset", "size", "value"])?;
    Ok(Command::Fill {
        buffer: at(alloc, value, "buffer")?,
        offset: at(alloc, value, "offset")?,
        size: at(alloc, value, "size")?,
        value: at(alloc, value, "value")?,
    })
}

// The command `copy`: regions that are copied.
#[tactic(auto, unfolding(crate::specs::Transfer::copy_of))]
pub(crate) fn copy(alloc: Global, value: &Value) -> Result<Command, ReadFault>
    ensures { Gives result (copy_of (view value.now)) }
{
    only_members(value, &["op", "src", "dst", "regions"])?;
    Ok(Command::Copy {
        src: at(alloc, value, "src")?,
        dst: at(alloc, value, "dst")?,
        regions: at(alloc, value, "regions")?,
    })
}

// The command `barrier`: a barrier.
#[tactic(auto, unfolding(crate::specs::Transfer::barrier_of))]
pub(crate) fn barrier(alloc: Global, value: &Value) -> Result<Command, ReadFault>
    ensures { Gives result (barrier_of (view value.now)) }
{
    only_members(
        value,
        &[
            "op",
            "src_stages",
            "src_access",
            "dst_stages",
            "dst_access",
            "buffers",
        ],
    )?;
    Ok(Command::Barrier {
        src_stages: at(alloc, value, "src_stages")?,
        src_access: at(alloc, value, "src_access")?,
        dst_stages: at(alloc, value, "dst_stages")?,
        dst_access: at(alloc, value, "dst_access")?,
        buffers: optional_at(alloc, value, "buffers")?,
    })
}
