use crate::fields::{FromJson, at};
use ray_json::{ReadFault, only_members};
use serde_json::Value;
use std::alloc::Global;

/// A span of bytes of a buffer. Own.
#[derive(Clone, Copy, Debug, PartialEq, Eq)]
pub struct Stretch {
    /// The buffer's id.
    pub buffer: u32,
    /// The number of the first byte within the buffer, from 0.
    pub offset: u64,
    /// How many bytes.
    pub size: u64,
}

impl FromJson for Stretch {
    ghost use Rattle.ray_cmd.specs.Places.{stretch_of};

    ghost spells = { stretch_of };

    #[tactic(auto, unfolding(crate::specs::Places::stretch_of))]
    fn from_json(alloc: Global, value: &Value) -> Result<Self, ReadFault> {
        only_members(value, &["buffer", "offset", "size"])?;
        Ok(Stretch {
            buffer: at(alloc, value, "buffer")?,
            offset: at(alloc, value, "offset")?,
            size: at(alloc, value, "size")?,
        })
    }
}
