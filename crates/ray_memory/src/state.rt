ghost use Rattle.std.specs.Prelude.{◌≡◌};
ghost use Rattle.ray_action.specs.Memory.{Location, nothing_live};
ghost use Rattle.ray_memory.specs.State.{memory_of};

use crate::buffer::Buffer;
use crate::structure::Structure;
use ray_bottom::Bottoms;
use std::alloc::Global;
use std::collections::BTreeMap;
use std::marker::Model;

/// The device's memory at one moment: the live buffers with their bytes, and the live structures
/// with what they hold. (Own; after VkBuffer and VkAccelerationStructureKHR in Vulkan.)
#[derive(Drop)]
pub struct State {
    pub(crate) alloc: Global,
    pub(crate) buffers: BTreeMap<u32, Buffer>,
    pub(crate) structures: BTreeMap<u32, Structure>,
    pub(crate) bottoms: Bottoms,
}

impl Model for State {
    ghost use Rattle.ray_memory.specs.State.{StateValue, IsRoomy};

    ghost Value = { StateValue };

    ghost view = { λ s. record {
      buffers = s.buffers.entries;
      structures = s.structures.entries;
      bottoms = s.bottoms;
    } };

    ghost invariant = { λ s. IsRoomy s.structures.entries s.bottoms };
}

impl State {
    /// A state with nothing live. It keeps the allocator for what is made later.
    pub fn new(alloc: Global) -> State
        ensures { (l : Location) → memory_of result l ≡ nothing_live l }
    {
        State {
            alloc,
            buffers: BTreeMap::new(alloc),
            structures: BTreeMap::new(alloc),
            bottoms: Bottoms::new(alloc),
        }
    }
}
