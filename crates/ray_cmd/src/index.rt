ghost use Rattle.serde_json.specs.View.{view};
ghost use Rattle.ray_json.specs.Outcome.{Gives};
ghost use Rattle.ray_cmd.specs.Places.{index_size_of};

use crate::fields::{FromJson, at};
use ray_json::{ReadFault, member, only_members, read_word};
use serde_json::Value;
use std::alloc::Global;

/// The indices of triangles. (Vulkan: `indexType` and `indexData` of
/// VkAccelerationStructureGeometryTrianglesDataKHR.)
#[derive(Clone, Copy, Debug, PartialEq, Eq)]
pub struct Index {
    /// The bytes of an index: 2 for `u16`, 4 for `u32`.
    pub index_size: u8,
    /// The id of the buffer in which they stand.
    pub buffer: u32,
    /// Where the first stands in the buffer, in bytes.
    pub offset: u64,
}

impl FromJson for Index {
    ghost use Rattle.ray_cmd.specs.Places.{index_of};

    ghost spells = { index_of };

    #[tactic(auto, unfolding(crate::specs::Places::index_of))]
    fn from_json(alloc: Global, value: &Value) -> Result<Self, ReadFault> {
        only_members(value, &["type", "buffer", "offset"])?;
        Ok(Index {
            index_size: index_size(value)?,
            buffer: at(alloc, value, "buffer")?,
            offset: at(alloc, value, "offset")?,
        })
    }
}

// The bytes of an index, by the word of the member `type`.
fn index_size(index: &Value) -> Result<u8, ReadFault>
    ensures { Gives result (index_size_of (view index.now)) }
{
    read_word(&[("u16", 2), ("u32", 4)], member(index, "type")?)
}
