ghost use Rattle.std.specs.Prelude.{◌≡◌, [], OnOk, OnErr, Some, None, true, option_copied};
ghost use Rattle.ray_bottom.specs.Slots.{AreSound, structure_at, has_room, Changes};

use crate::bottom::Bottom;
use std::alloc::{AllocError as NoMemory, Global};
use std::collections::BTreeMap;
use std::marker::Model;

/// Bottom structures by their ids. Room is made for an id first, and stays until the id is dropped:
/// so a structure is put where room was made without taking memory. Contracts see it as the list of
/// ids with room, each with what stands there. (Own.)
#[derive(Drop)]
pub struct Bottoms {
    slots: BTreeMap<u32, Option<Bottom>>,
}

impl Model for Bottoms {
    ghost use Rattle.ray_bottom.specs.Slots.{AreSound, Slots};

    ghost Value = { Slots };

    ghost view = { λ b. b.slots.entries };

    ghost invariant = { λ b. AreSound b.slots.entries };
}

impl Bottoms {
    /// No ids.
    pub fn new(alloc: Global) -> Bottoms
        ensures { result ≡ [] }
    {
        Bottoms {
            slots: BTreeMap::new(alloc),
        }
    }

    /// The structure of an id. None exactly where nothing stands under the id.
    pub fn get(&self, id: u32) -> Option<&Bottom>
        ensures { option_copied result ≡ structure_at id self.now }
    {
        self.slots.get(&id)?.as_ref()
    }

    /// Says that each structure that stands there is within the limits, with a tree over its
    /// primitives; it does nothing.
    pub fn sound(&self)
        ensures { AreSound self.now }
    {
        let _len = self.slots.len();
    }

    /// Makes room for an id, where there is none yet. What stands there stays. Without memory all
    /// is as before.
    pub fn make_room(&mut self, id: u32) -> Result<(), NoMemory>
        ensures ok { OnOk result (Changes id (Some (structure_at id self.old)) self.old self.new) }
        ensures err { OnErr result (self.new ≡ self.old) }
    {
        make_slot(&mut self.slots, id)
    }

    /// Puts a structure under an id for which room was made, in place of what stands there.
    pub fn put(&mut self, id: u32, bottom: Bottom)
        requires { has_room id self.old ≡ true }
        ensures { Changes id (Some (Some bottom)) self.old self.new }
    {
        bottom.sound();
        fill_slot(&mut self.slots, id, bottom);
    }

    /// Drops an id with its room and what stands there.
    pub fn drop_id(&mut self, id: u32)
        ensures { Changes id None self.old self.new }
    {
        drop_slot(&mut self.slots, id);
    }
}

// Makes room for an id, where there is none yet.
fn make_slot(slots: &mut BTreeMap<u32, Option<Bottom>>, id: u32) -> Result<(), NoMemory>
    ensures ok { OnOk result (Changes id (Some (structure_at id slots.old.entries))
        slots.old.entries slots.new.entries) }
    ensures err { OnErr result (slots.new.entries ≡ slots.old.entries) }
{
    if !slots.contains_key(&id) {
        slots.insert(id, None)?;
    }
    Ok(())
}

// Puts a structure under an id for which there is room.
fn fill_slot(slots: &mut BTreeMap<u32, Option<Bottom>>, id: u32, bottom: Bottom)
    requires { has_room id slots.old.entries ≡ true }
    ensures { Changes id (Some (Some bottom)) slots.old.entries slots.new.entries }
{
    if let Some(slot) = slots.get_mut(&id) {
        *slot = Some(bottom);
    }
}

// Drops the room of an id.
fn drop_slot(slots: &mut BTreeMap<u32, Option<Bottom>>, id: u32)
    ensures { Changes id None slots.old.entries slots.new.entries }
{
    slots.remove(&id);
}
