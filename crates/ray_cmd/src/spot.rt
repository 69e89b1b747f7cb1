use crate::fields::{FromJson, at};
use ray_json::{ReadFault, only_members};
use serde_json::Value;
use std::alloc::Global;

/// A place in a buffer. Own.
#[derive(Clone, Copy, Debug, PartialEq, Eq)]
pub struct Spot {
    /// The buffer's id.
    pub buffer: u32,
    /// The byte's number within the buffer, from 0.
    pub offset: u64,
}

impl FromJson for Spot {
    ghost use Rattle.ray_cmd.specs.Places.{spot_of};

    ghost spells = { spot_of };

    #[tactic(auto, unfolding(crate::specs::Places::spot_of))]
    fn from_json(alloc: Global, value: &Value) -> Result<Self, ReadFault> {
        only_members(value, &["buffer", "offset"])?;
        Ok(Spot {
            buffer: at(alloc, value, "buffer")?,
            offset: at(alloc, value, "offset")?,
        })
    }
}
