ghost use Rattle.std.specs.Prelude.{◌≡◌, ◌+◌, ◌<◌, ◌≤◌, false, None, OnOk, length};
ghost use Rattle.ray_cmd.specs.declared.thing.Thing.TheVariants.{Buffer};
ghost use Rattle.ray_rules.specs.Buffers.{holds_structure};
ghost use Rattle.ray_rules.specs.Hazards.{maker_of_buffer, maker_of_structure};
ghost use Rattle.ray_rules.specs.Ids.{look};
ghost use Rattle.ray_rules.specs.Ranges.{is_outside, size_at};
ghost use Rattle.ray_rules.specs.Status.{at_first, built_at, fill_in, in_phase, live_bytes, submitted, waited, with_buffer, with_structure, without_thing};
ghost use Rattle.ray_rules.specs.Structures.{overlaps_structure, structure_range};

use crate::structures::Structures;
use ray_cmd::Thing;
use ray_rules::{Built, ByteRange, LiveBuffer, LiveStructure, Phase};
use std::alloc::{AllocError as NoMemory, Global};
use std::collections::BTreeMap;
use std::marker::Model;

/// What the commands before a command leave, as far as rules speak of it. Own.
#[derive(Drop)]
pub struct Status {
    buffers: BTreeMap<u32, LiveBuffer>,
    structures: Structures,
    live_bytes: u64,
    phase: Phase,
    pending: bool,
}

impl Model for Status {
    ghost use Rattle.std.specs.Prelude.{◌≡◌};
    ghost use Rattle.std.specs.List.{sum_by};
    ghost use Rattle.std.specs.Map.{values_of};
    ghost use Rattle.ray_rules.specs.declared.live_buffer.LiveBuffer.{LiveBuffer as ALiveBuffer};
    ghost use Rattle.ray_rules.specs.Status.{Status as StatusValue};

    ghost Value = { StatusValue };

    ghost view = { λ s. record {
      buffers = s.buffers.entries;
      structures = s.structures;
      phase = s.phase;
      pending = s.pending;
    } };

    ghost invariant = { λ s. s.live_bytes ≡ sum_by (λ (b : ALiveBuffer). b.size) (values_of s.buffers.entries) };
}

impl Status {
    /// What stands where a recording begins: nothing is live.
    pub fn new(alloc: Global) -> Status
        ensures { result ≡ at_first }
    {
        Status {
            buffers: BTreeMap::new(alloc),
            structures: Structures::new(alloc),
            live_bytes: 0,
            phase: Phase::Idle,
            pending: false,
        }
    }

    /// The live buffer of an id.
    pub fn buffer(&self, id: u32) -> Option<LiveBuffer>
        ensures { result ≡ look self.now.buffers id }
    {
        self.buffers.get(&id).copied()
    }

    /// The number of the command that made the buffer of an id, where it is live.
    pub fn maker_of_buffer(&self, id: u32) -> Option<u32>
        ensures { result ≡ maker_of_buffer self.now id }
    {
        match self.buffer(id) {
            Some(buffer) => Some(buffer.made),
            None => None,
        }
    }

    /// The number of the command that made the structure of an id, where it is live.
    pub fn maker_of_structure(&self, id: u32) -> Option<u32>
        ensures { result ≡ maker_of_structure self.now id }
    {
        match self.structure(id) {
            Some(structure) => Some(structure.made),
            None => None,
        }
    }

    /// Whether a range isn't whole within its buffer. A buffer that isn't live has no bytes.
    pub fn is_outside(&self, range: ByteRange) -> bool
        ensures { result ≡ is_outside self.now.buffers range }
    {
        let size = self.size_of_buffer(range.buffer);
        size < range.size || size - range.size < range.from
    }

    // How many bytes a buffer has: none where it isn't live.
    pub(crate) fn size_of_buffer(&self, id: u32) -> u128
        ensures { result ≡ size_at self.now.buffers id }
    {
        match self.buffer(id) {
            Some(buffer) => u128::from(buffer.size),
            None => 0,
        }
    }

    /// The live structure of an id.
    pub fn structure(&self, id: u32) -> Option<LiveStructure>
        ensures { result ≡ look self.now.structures id }
    {
        self.structures.get(id)
    }

    /// What the structure of an id was built by, where it is live and built.
    pub fn built(&self, id: u32) -> Option<Built>
        ensures { result ≡ built_at self.now id }
    {
        match self.structure(id) {
            Some(structure) => structure.built,
            None => None,
        }
    }

    /// The sizes of all live buffers together, in bytes.
    pub fn live_bytes(&self) -> u64
        ensures { result ≡ live_bytes self.now }
    {
        self.live_bytes
    }

    /// How many structures are live.
    pub fn structure_count(&self) -> usize
        ensures { result ≡ length self.now.structures }
    {
        self.structures.len()
    }

    /// The state of the command buffer.
    pub fn phase(&self) -> Phase
        ensures { result ≡ self.now.phase }
    {
        self.phase
    }

    /// Whether a `submit` stands after the last `wait`.
    pub fn pending(&self) -> bool
        ensures { result ≡ self.now.pending }
    {
        self.pending
    }

    /// Whether bytes share one with a live structure.
    pub fn overlaps_structure(&self, range: ByteRange) -> bool
        ensures { result ≡ overlaps_structure self.now range }
    {
        self.structures.overlaps(range)
    }

    /// Whether a buffer holds a live structure.
    pub fn holds_structure(&self, buffer: u32) -> bool
        ensures { result ≡ holds_structure self.now buffer }
    {
        self.structures.stands_in(buffer)
    }

    // A buffer is live. Its id is that of no live buffer, and the sizes of all are at most 2^28.
    pub(crate) fn make_buffer(&mut self, id: u32, made: LiveBuffer) -> Result<(), NoMemory>
        requires free { look self.old.buffers id ≡ None }
        requires few { live_bytes self.old + made.size ≤ 268435456 }
        ensures { OnOk result (self.new ≡ with_buffer id made self.old) }
    {
        self.buffers.insert(id, made)?;
        self.live_bytes += made.size;
        Ok(())
    }

    // A structure is live. Its id is that of no live structure, it has a byte, and it overlaps none.
    pub(crate) fn make_structure(&mut self, id: u32, made: LiveStructure) -> Result<(), NoMemory>
        requires free { look self.old.structures id ≡ None }
        requires some { 0 < made.size }
        requires apart { overlaps_structure self.old (structure_range made) ≡ false }
        ensures { OnOk result (self.new ≡ with_structure id made self.old) }
    {
        self.structures.insert(id, made)
    }

    // A buffer or a structure is live no more.
    pub(crate) fn destroy(&mut self, what: Thing, id: u32)
        ensures { self.new ≡ without_thing what id self.old }
    {
        match what {
            Thing::Buffer => self.destroy_buffer(id),
            Thing::Structure => self.structures.remove(id),
        }
    }

    // A buffer is live no more.
    fn destroy_buffer(&mut self, id: u32)
        ensures { self.new ≡ without_thing Buffer id self.old }
    {
        if let Some(buffer) = self.buffers.remove(&id) {
            self.live_bytes -= buffer.size;
        }
    }

    // The structure of an id, where it is live, is built by this.
    pub(crate) fn fill_in(&mut self, id: u32, built: Option<Built>) -> Result<(), NoMemory>
        ensures { OnOk result (self.new ≡ fill_in id built self.old) }
    {
        if let Some(structure) = self.structure(id) {
            self.structures
                .replace(id, LiveStructure { built, ..structure })?;
        }
        Ok(())
    }

    // The command buffer is in this state.
    pub(crate) fn enter(&mut self, phase: Phase)
        ensures { self.new ≡ in_phase phase self.old }
    {
        self.phase = phase;
    }

    // The command buffer is submitted.
    pub(crate) fn submit(&mut self)
        ensures { self.new ≡ submitted self.old }
    {
        self.phase = Phase::Idle;
        self.pending = true;
    }

    // All that was submitted is done.
    pub(crate) fn wait(&mut self)
        ensures { self.new ≡ waited self.old }
    {
        self.pending = false;
    }
}
