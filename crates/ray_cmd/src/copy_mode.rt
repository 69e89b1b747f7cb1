use crate::fields::FromJson;
use ray_json::{ReadFault, read_word};
use serde_json::Value;
use std::alloc::Global;

/// How a structure is copied. (Vulkan: VkCopyAccelerationStructureModeKHR.)
#[derive(Clone, Copy, Debug, PartialEq, Eq)]
pub enum CopyMode {
    /// All that it holds, at the same size.
    Clone,
    /// All that it holds, into a structure that may be smaller.
    Compact,
}

impl FromJson for CopyMode {
    ghost use Rattle.ray_cmd.specs.Words.{copy_mode_of};

    ghost spells = { copy_mode_of };

    fn from_json(_alloc: Global, value: &Value) -> Result<Self, ReadFault> {
        read_word(
            &[("clone", CopyMode::Clone), ("compact", CopyMode::Compact)],
            value,
        )
    }
}
