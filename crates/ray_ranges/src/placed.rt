ghost use Rattle.std.specs.Prelude.{◌≡◌, ◌<◌, ◌==◌, [], false, length};
ghost use Rattle.std.specs.Prelude.{None, OnOk, OnErr};
ghost use Rattle.ray_ranges.specs.Places.{place_at, with_place, without_place};
ghost use Rattle.ray_ranges.specs.Places.{overlaps_any, holds_any};

use crate::addresses::{addresses, whole};
use crate::disjoint_ranges::DisjointRanges;
use crate::place::Place;
use std::alloc::{AllocError as NoMemory, Global};
use std::collections::BTreeMap;
use std::marker::Model;

/// What is placed, by ids: each has a place that isn't empty, and no two share a byte. Contracts
/// see it as the list of ids in order, each with its place. A question takes log n steps.
#[derive(Drop)]
pub struct Placed {
    places: BTreeMap<u32, Place>,
    taken: DisjointRanges,
}

impl Model for Placed {
    ghost use Rattle.std.specs.Map.{values_of};
    ghost use Rattle.ray_ranges.specs.Places.{Placements};
    ghost use Rattle.ray_ranges.specs.Addresses.{AreTaken};

    ghost Value = { Placements };

    ghost view = { λ p. p.places.entries };

    ghost invariant = { λ p. AreTaken (values_of p.places.entries) p.taken };
}

impl Placed {
    /// Nothing is placed.
    pub fn new(alloc: Global) -> Placed
        ensures { result ≡ [] }
    {
        Placed {
            places: BTreeMap::new(alloc),
            taken: DisjointRanges::new(alloc),
        }
    }

    /// How many ids have a place.
    pub fn len(&self) -> usize
        ensures { result ≡ length self.now }
    {
        self.places.len()
    }

    /// Whether no id has a place.
    pub fn is_empty(&self) -> bool
        ensures { result ≡ (length self.now == 0) }
    {
        self.places.is_empty()
    }

    /// The place of an id.
    pub fn get(&self, id: u32) -> Option<Place>
        ensures { result ≡ place_at id self.now }
    {
        self.places.get(&id).copied()
    }

    /// Whether the place shares a byte with that of some id.
    pub fn overlaps(&self, place: Place) -> bool
        ensures { result ≡ overlaps_any self.now place }
    {
        self.taken.meets(addresses(place))
    }

    /// Whether some id has a place in this space.
    pub fn holds_any(&self, space: u32) -> bool
        ensures { result ≡ holds_any self.now space }
    {
        self.taken.meets(whole(space))
    }

    /// Gives an id that has none a place that isn't empty and shares no byte with another. After an
    /// error all is as before.
    pub fn insert(&mut self, id: u32, place: Place) -> Result<(), NoMemory>
        requires fresh { place_at id self.old ≡ None }
        requires some { 0 < place.size }
        requires free { overlaps_any self.old place ≡ false }
        ensures ok { OnOk result (self.new ≡ with_place id place self.old) }
        ensures err { OnErr result (self.new ≡ self.old) }
    {
        self.places.insert(id, place)?;
        match self.taken.add(addresses(place)) {
            Ok(()) => Ok(()),
            Err(error) => {
                self.places.remove(&id);
                Err(error)
            }
        }
    }

    /// Takes the place of an id away, if it has one.
    pub fn remove(&mut self, id: u32) -> Option<Place>
        ensures removed { result ≡ place_at id self.old }
        ensures left { self.new ≡ without_place id self.old }
    {
        let place = self.places.remove(&id)?;
        self.taken.remove(addresses(place).from);
        Some(place)
    }
}
