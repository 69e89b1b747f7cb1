ghost use Rattle.std.specs.Prelude.{◌≡◌, if◌then◌else◌, slice_get};
ghost use Rattle.ray_bottom.specs.Trees as bottom_trees;
ghost use Rattle.ray_cmd.specs.declared.structure_kind.StructureKind.TheVariants as kinds;
ghost use Rattle.ray_top.specs.Trees as top_trees;
ghost use Rattle.ray_action.specs.Areas.{is_in_range, is_contents_of};
ghost use Rattle.ray_action.specs.Memory.{Location, StructureAt, Bottom as HoldsBottom, Top as HoldsTop};
ghost use Rattle.ray_action.specs.Readiness.{IsMade};
ghost use Rattle.ray_action.specs.Storing.{stored, filled, holding};
ghost use Rattle.ray_memory.specs.State.{memory_of, WritesIn, HoldsIn};
ghost use Rattle.ray_memory.specs.Bytes.{byte_of_word};

use crate::buffer::Buffer;
use crate::state::State;
use crate::structure::Structure;
use ray_bottom::Bottom;
use ray_rules::ByteRange;
use ray_top::Top;
use std::collections::BTreeMap;

impl State {
    /// Writes the bytes over those of a range, as far as both go and the range is there.
    pub fn write(&mut self, to: ByteRange, bytes: &[u8])
        ensures { (l : Location) → memory_of self.new l
            ≡ (if is_in_range to l then stored to.from bytes.now l (memory_of self.old l)
            else memory_of self.old l) }
    {
        overwrite_in(&mut self.buffers, to, bytes);
    }

    /// Writes a word again and again over the bytes of a range, little-endian, as far as the range
    /// is there.
    pub fn fill(&mut self, to: ByteRange, value: u32)
        ensures { (l : Location) → memory_of self.new l
            ≡ (if is_in_range to l then filled to.from value l (memory_of self.old l)
            else memory_of self.old l) }
    {
        refill_in(&mut self.buffers, to, value);
    }

    /// Gives a live bottom structure its contents.
    pub fn hold_bottom(&mut self, structure: u32, bottom: Bottom)
        requires { IsMade kinds.Bottom (memory_of self.old (StructureAt structure)) }
        ensures { (l : Location) → memory_of self.new l
            ≡ (if is_contents_of structure l then holding (HoldsBottom (bottom_trees.without_tree bottom)) l
            (memory_of self.old l)
            else memory_of self.old l) }
    {
        self.bottoms.put(structure, bottom);
    }

    /// Gives a live top structure its contents.
    pub fn hold_top(&mut self, structure: u32, top: Top)
        requires { IsMade kinds.Top (memory_of self.old (StructureAt structure)) }
        ensures { (l : Location) → memory_of self.new l
            ≡ (if is_contents_of structure l then holding (HoldsTop (top_trees.without_tree top)) l
            (memory_of self.old l)
            else memory_of self.old l) }
    {
        hold_in(&mut self.structures, structure, top);
    }
}

// Writes the bytes over those of a range of its buffer, if that is live.
fn overwrite_in(buffers: &mut BTreeMap<u32, Buffer>, to: ByteRange, bytes: &[u8])
    ensures { WritesIn to (slice_get bytes.now) buffers.old.entries buffers.new.entries }
{
    if let Some(buffer) = buffers.get_mut(&to.buffer) {
        buffer.overwrite(to, bytes);
    }
}

// Writes a word again and again over the bytes of a range of its buffer, if that is live.
fn refill_in(buffers: &mut BTreeMap<u32, Buffer>, to: ByteRange, value: u32)
    ensures { WritesIn to (byte_of_word value) buffers.old.entries buffers.new.entries }
{
    if let Some(buffer) = buffers.get_mut(&to.buffer) {
        buffer.refill(to, value);
    }
}

// Gives a structure the top structure that it holds, if it is live.
fn hold_in(structures: &mut BTreeMap<u32, Structure>, id: u32, top: Top)
    ensures { HoldsIn id top structures.old.entries structures.new.entries }
{
    if let Some(structure) = structures.get_mut(&id) {
        structure.top = Some(top);
    }
}
