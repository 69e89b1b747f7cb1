use crate::fields::FromJson;
use ray_json::{ReadFault, read_word};
use serde_json::Value;
use std::alloc::Global;

/// The kind of an acceleration structure. (Vulkan: VkAccelerationStructureTypeKHR.)
#[derive(Clone, Copy, Debug, PartialEq, Eq)]
pub enum StructureKind {
    /// It holds geometry.
    Bottom,
    /// It holds instances of bottom structures.
    Top,
}

impl FromJson for StructureKind {
    ghost use Rattle.ray_cmd.specs.Words.{structure_kind_of};

    ghost spells = { structure_kind_of };

    fn from_json(_alloc: Global, value: &Value) -> Result<Self, ReadFault> {
        read_word(
            &[
                ("bottom", StructureKind::Bottom),
                ("top", StructureKind::Top),
            ],
            value,
        )
    }
}
