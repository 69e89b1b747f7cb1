use crate::fields::FromJson;
use ray_json::{ReadFault, read_word};
use serde_json::Value;
use std::alloc::Global;

/// Which number of a structure is asked. (Vulkan: the query types of
/// vkCmdWriteAccelerationStructuresPropertiesKHR.)
#[derive(Clone, Copy, Debug, PartialEq, Eq)]
pub enum Asked {
    /// The size of a compact copy, in bytes.
    Compacted,
    /// The size of the serialized form, in bytes.
    Serialized,
    /// The size of the serialized form 2 of a bottom structure, in bytes. (Own.)
    SerializedForm2,
    /// The number of handles in the serialized form.
    Handles,
    /// The size with which the structure was made, in bytes.
    Size,
}

impl FromJson for Asked {
    ghost use Rattle.ray_cmd.specs.Words.{asked_of};

    ghost spells = { asked_of };

    fn from_json(_alloc: Global, value: &Value) -> Result<Self, ReadFault> {
        read_word(
            &[
                ("compacted", Asked::Compacted),
                ("serialized", Asked::Serialized),
                ("serialized_form_2", Asked::SerializedForm2),
                ("handles", Asked::Handles),
                ("size", Asked::Size),
            ],
            value,
        )
    }
}
