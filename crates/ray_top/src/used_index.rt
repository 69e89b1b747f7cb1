ghost use Rattle.std.specs.Prelude.{◌≡◌, ℕ, IfOk, OnOk};
ghost use Rattle.ray_top.specs.InstanceReading.{bounds_in, noted};
ghost use Rattle.ray_top.specs.Keeping.{IsIndex, bounds_at};

use crate::used::Used;
use ray_geom::Box3;
use std::alloc::{AllocError as NoMemory, Global};
use std::collections::BTreeMap;
use std::marker::Model;

// The structures in use, by their ids, so that an instance's structure is found without a search
// of the whole list. Contracts see it as the list.
#[derive(Drop)]
pub(crate) struct UsedIndex<'a> {
    used: &'a [Used],
    bounds: BTreeMap<u32, Option<Box3>>,
}

impl<'a> Model for UsedIndex<'a> {
    ghost use Rattle.std.specs.Prelude.{List};
    ghost use Rattle.ray_top.specs.declared.used.Used.{Used};
    ghost use Rattle.ray_top.specs.Keeping.{IsIndex};

    ghost Value = { List Used };

    ghost view = { λ i. i.used.now };

    ghost invariant = { λ i. IsIndex i.used.now i.bounds.entries };
}

impl<'a> UsedIndex<'a> {
    // The index of a list.
    pub(crate) fn new(alloc: Global, used: &'a [Used]) -> Result<UsedIndex<'a>, NoMemory>
        ensures { IfOk result (λ index. index ≡ used.now) }
    {
        let bounds = noted(alloc, used)?;
        Ok(UsedIndex { used, bounds })
    }

    // The bounds that stand beside an id. None exactly where the id isn't in use.
    pub(crate) fn get(&self, id: u32) -> Option<Option<Box3>>
        ensures { result ≡ bounds_in self.now id }
    {
        match self.bounds.get(&id) {
            Some(bounds) => Some(*bounds),
            None => None,
        }
    }
}

// The map of a list.
fn noted(alloc: Global, used: &[Used]) -> Result<BTreeMap<u32, Option<Box3>>, NoMemory>
    ensures { IfOk result (λ map. IsIndex used.now map.entries) }
{
    let mut bounds = BTreeMap::new(alloc);
    for u in used {
        note(&mut bounds, u)?;
    }
    Ok(bounds)
}

// One entry more, in place of what stood under its id.
fn note(bounds: &mut BTreeMap<u32, Option<Box3>>, used: &Used) -> Result<(), NoMemory>
    ensures { OnOk result ((id : ℕ) →
        bounds_at id bounds.new.entries ≡ noted id (bounds_at id bounds.old.entries) used.now) }
{
    bounds.insert(used.id, used.bounds)?;
    Ok(())
}
