ghost use Rattle.std.specs.Prelude.{◌≡◌, ◌<◌, [], false, length, None, Some, OnOk};
ghost use Rattle.std.specs.List.{list_any};
ghost use Rattle.std.specs.Map.{values_of};
ghost use Rattle.std.specs.Option.{option_map};
ghost use Rattle.ray_rules.specs.Buffers.{stands_in};
ghost use Rattle.ray_rules.specs.Ids.{look, with_id, without_id};
ghost use Rattle.ray_rules.specs.Ranges.{meets};
ghost use Rattle.ray_rules.specs.Structures.{structure_range};
ghost use Rattle.ray_status.specs.Parts.{overlaps_one, structure_place};

use crate::ranges::{meets, place_of, structure_place, structure_range};
use ray_ranges::Placed;
use ray_rules::{ByteRange, LiveStructure};
use std::alloc::{AllocError as NoMemory, Global};
use std::collections::BTreeMap;
use std::marker::Model;

/// The live structures by id, and beside them the places in which they stand, so that a question on
/// bytes takes log n steps. Contracts see it as the structures. Own.
#[derive(Drop)]
pub(crate) struct Structures {
    named: BTreeMap<u32, LiveStructure>,
    places: Placed,
}

impl Model for Structures {
    ghost use Rattle.std.specs.Prelude.{◌≡◌};
    ghost use Rattle.ray_rules.specs.declared.live_structure.LiveStructure.{LiveStructure as ALiveStructure};
    ghost use Rattle.ray_rules.specs.Ids.{Ids};
    ghost use Rattle.ray_status.specs.Parts.{places_of};

    ghost Value = { Ids ALiveStructure };

    ghost view = { λ s. s.named.entries };

    ghost invariant = { λ s. s.places ≡ places_of s.named.entries };
}

impl Structures {
    /// No structure is live.
    pub(crate) fn new(alloc: Global) -> Structures
        ensures { result ≡ [] }
    {
        Structures {
            named: BTreeMap::new(alloc),
            places: Placed::new(alloc),
        }
    }

    /// The structure of an id.
    pub(crate) fn get(&self, id: u32) -> Option<LiveStructure>
        ensures { result ≡ look self.now id }
    {
        self.named.get(&id).copied()
    }

    /// How many structures are live.
    pub(crate) fn len(&self) -> usize
        ensures { result ≡ length self.now }
    {
        self.named.len()
    }

    /// Whether bytes share one with a structure. It takes log n steps where 64 bits have their
    /// numbers.
    pub(crate) fn overlaps(&self, range: ByteRange) -> bool
        ensures { result ≡ overlaps_one self.now range }
    {
        match place_of(range) {
            Some(place) => self.places.overlaps(place),
            None => self.overlaps_far(range),
        }
    }

    // The same of any bytes, in n steps.
    fn overlaps_far(&self, range: ByteRange) -> bool
        ensures { result ≡ overlaps_one self.now range }
    {
        self.named
            .values()
            .any(|structure| meets(range, structure_range(structure)))
    }

    /// Whether a buffer holds a structure.
    pub(crate) fn stands_in(&self, buffer: u32) -> bool
        ensures { result ≡ list_any (stands_in buffer) (values_of self.now) }
    {
        self.places.holds_any(buffer)
    }

    /// Makes a structure live. Its id is that of none, it has a byte, and it overlaps none.
    pub(crate) fn insert(&mut self, id: u32, made: LiveStructure) -> Result<(), NoMemory>
        requires fresh { look self.old id ≡ None }
        requires some { 0 < made.size }
        requires apart { overlaps_one self.old (structure_range made) ≡ false }
        ensures { OnOk result (self.new ≡ with_id id made self.old) }
    {
        self.places.insert(id, structure_place(&made))?;
        match self.named.insert(id, made) {
            Ok(_) => Ok(()),
            Err(error) => {
                self.places.remove(id);
                Err(error.into())
            }
        }
    }

    /// Puts a structure under the id of one that stands in the same bytes.
    pub(crate) fn replace(&mut self, id: u32, other: LiveStructure) -> Result<(), NoMemory>
        requires { option_map structure_place (look self.old id) ≡ Some (structure_place other) }
        ensures { OnOk result (self.new ≡ with_id id other self.old) }
    {
        self.named.insert(id, other)?;
        Ok(())
    }

    /// The structure of an id is live no more.
    pub(crate) fn remove(&mut self, id: u32)
        ensures { self.new ≡ without_id id self.old }
    {
        self.named.remove(&id);
        self.places.remove(id);
    }
}
