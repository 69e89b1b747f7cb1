ghost use Rattle.std.specs.Prelude.{◌≡◌, Option, option_copied, option_map, option_and_then};
ghost use Rattle.ray_bottom.specs.Slots.{contents_at, structure_at};
ghost use Rattle.ray_bottom.specs.Trees as bottom_trees;
ghost use Rattle.ray_top.specs.Trees as top_trees;
ghost use Rattle.ray_action.specs.Memory.{BufferAt, StructureAt, ContentsAt, as_bottom, as_top, bytes_at};
ghost use Rattle.ray_memory.specs.Bytes.{part_in};
ghost use Rattle.ray_memory.specs.State.{memory_of, top_at, top_in};

use crate::buffer::Buffer;
use crate::state::State;
use crate::structure::Structure;
use ray_action::Form;
use ray_bottom::{Bottom, Bottoms};
use ray_cmd::StructureKind;
use ray_rules::ByteRange;
use ray_top::Top;

impl State {
    ghost use Rattle.std.specs.Prelude.{ℕ};

    /// How many bytes a buffer has. None exactly where it isn't live.
    pub fn size(&self, buffer: u32) -> Option<u64>
        ensures { result ≡ memory_of self.now (BufferAt buffer) }
    {
        Some(self.buffers.get(&buffer)?.size())
    }

    /// The bytes of a range. None exactly where one of them isn't there; an empty range is there.
    pub fn bytes(&self, range: ByteRange) -> Option<&[u8]>
        ensures { option_copied result ≡ bytes_at (memory_of self.now) range }
    {
        if range.size == 0 {
            Some(&[])
        } else {
            part_in(self.buffers.get(&range.buffer), range.from, range.size)
        }
    }

    /// What a structure is. None exactly where it isn't live.
    pub fn form(&self, structure: u32) -> Option<Form>
        ensures { result ≡ memory_of self.now (StructureAt structure) }
    {
        Some(self.structures.get(&structure)?.form)
    }

    /// The bottom structure of an id. None exactly where the id holds none.
    pub fn bottom(&self, structure: u32) -> Option<&Bottom>
        ensures value { option_map bottom_trees.without_tree (option_copied result)
            ≡ option_and_then as_bottom (memory_of self.now (ContentsAt structure)) }
        ensures own { option_copied result ≡ structure_at structure self.now.bottoms }
    {
        self.bottoms.get(structure)
    }

    /// The bottom structures of all ids, as a trace looks them up.
    pub fn bottoms(&self) -> &Bottoms
        ensures value { (id : ℕ) → contents_at id result.now
            ≡ option_and_then as_bottom (memory_of self.now (ContentsAt id)) }
        ensures own { result.now ≡ self.now.bottoms }
    {
        &self.bottoms
    }

    /// The top structure of an id. None exactly where the id holds none.
    pub fn top(&self, structure: u32) -> Option<&Top>
        ensures value { option_map top_trees.without_tree (option_copied result)
            ≡ option_and_then as_top (memory_of self.now (ContentsAt structure)) }
        ensures own { option_copied result ≡ top_at structure self.now }
    {
        top_of(self.structures.get(&structure)?)
    }
}

// So many bytes of a buffer from a place on, where it is live and all of them are there.
fn part_in(buffer: Option<&Buffer>, from: u128, size: u128) -> Option<&[u8]>
    ensures { option_copied result ≡ part_in (option_copied buffer.entry) from size }
{
    match buffer {
        Some(buffer) => buffer.part(from, size),
        None => None,
    }
}

// The top structure that a structure holds.
fn top_of(structure: &Structure) -> Option<&Top>
    ensures { option_copied result ≡ top_in structure.now }
{
    match structure.form.kind {
        StructureKind::Bottom => None,
        StructureKind::Top => structure.top.as_ref(),
    }
}
