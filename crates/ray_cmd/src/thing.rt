use crate::fields::FromJson;
use ray_json::{ReadFault, read_word};
use serde_json::Value;
use std::alloc::Global;

/// What a command destroys. Own.
#[derive(Clone, Copy, Debug, PartialEq, Eq)]
pub enum Thing {
    /// A buffer (vkDestroyBuffer).
    Buffer,
    /// An acceleration structure (vkDestroyAccelerationStructureKHR).
    Structure,
}

impl FromJson for Thing {
    ghost use Rattle.ray_cmd.specs.Words.{thing_of};

    ghost spells = { thing_of };

    fn from_json(_alloc: Global, value: &Value) -> Result<Self, ReadFault> {
        read_word(
            &[("buffer", Thing::Buffer), ("structure", Thing::Structure)],
            value,
        )
    }
}
