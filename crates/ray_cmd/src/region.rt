use crate::fields::{FromJson, at};
use ray_json::{ReadFault, only_members};
use serde_json::Value;
use std::alloc::Global;

/// What is copied from one buffer to another. (Vulkan: VkBufferCopy.)
#[derive(Clone, Copy, Debug, PartialEq, Eq)]
pub struct Region {
    /// Where it stands in the source, in bytes.
    pub src_offset: u64,
    /// Where it goes in the destination, in bytes.
    pub dst_offset: u64,
    /// How many bytes.
    pub size: u64,
}

impl FromJson for Region {
    ghost use Rattle.ray_cmd.specs.Places.{region_of};

    ghost spells = { region_of };

    #[tactic(auto, unfolding(crate::specs::Places::region_of))]
    fn from_json(alloc: Global, value: &Value) -> Result<Self, ReadFault> {
        only_members(value, &["src_offset", "dst_offset", "size"])?;
        Ok(Region {
            src_offset: at(alloc, value, "src_offset")?,
            dst_offset: at(alloc, value, "dst_offset")?,
            size: at(alloc, value, "size")?,
        })
    }
}
