use crate::fields::FromJson;
use ray_json::{ReadFault, read_word};
use serde_json::Value;
use std::alloc::Global;

/// How a structure is built. (Vulkan: VkBuildAccelerationStructureModeKHR.)
#[derive(Clone, Copy, Debug, PartialEq, Eq)]
pub enum BuildMode {
    /// Anew.
    Build,
    /// From another structure, whose geometry may have moved.
    Update,
}

impl FromJson for BuildMode {
    ghost use Rattle.ray_cmd.specs.Words.{build_mode_of};

    ghost spells = { build_mode_of };

    fn from_json(_alloc: Global, value: &Value) -> Result<Self, ReadFault> {
        read_word(
            &[("build", BuildMode::Build), ("update", BuildMode::Update)],
            value,
        )
    }
}
