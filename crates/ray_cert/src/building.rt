//! The stated trees of the structures that a top structure's active instances name.
ghost use Rattle.std.specs.Prelude.{◌≤◌, IfOk, OnOk, option_copied, option_map};
ghost use Rattle.ray_top.specs.Instances.{instance_value};
ghost use Rattle.ray_cert.specs.Parts.{AreRight, AreStatedFor, GrowsFor, PutsTree, tree_of};

use crate::stated::Stated;
use ray_bottom::{Bottom, Bottoms};
use ray_geom::Steps;
use ray_top::{Instance, Top};
use std::alloc::{AllocError as NoMemory, Global};
use std::sync::ledger::Ledger;

// Puts the stated tree of a structure under its id.
fn put_structure<L: Ledger>(
    alloc: Global,
    trees: &mut Stated,
    id: u32,
    bottom: &Bottom,
    steps: &mut Steps<L>,
) -> Result<(), NoMemory>
    ensures put { OnOk result (PutsTree id (tree_of bottom.now) trees.old trees.new) }
    ensures rising { steps.old ≤ steps.new }
{
    let items = bottom.item_boxes(alloc, steps)?;
    trees.put(alloc, id, &items)
}

// Puts the stated tree of an instance's structure under its id, if it is active, and it isn't there
// yet.
fn add_structure<L: Ledger>(
    alloc: Global,
    trees: &mut Stated,
    bottoms: &Bottoms,
    instance: Option<&Instance>,
    steps: &mut Steps<L>,
) -> Result<(), NoMemory>
    requires { AreRight bottoms.now trees.old }
    ensures grown { OnOk result (GrowsFor bottoms.now
        (option_map instance_value (option_copied instance.entry)) trees.old trees.new) }
    ensures rising { steps.old ≤ steps.new }
{
    match instance {
        None => Ok(()),
        Some(instance) => match trees.tree(instance.id) {
            Some(_there) => Ok(()),
            None => match bottoms.get(instance.id) {
                None => Ok(()),
                Some(bottom) => put_structure(alloc, trees, instance.id, bottom, steps),
            },
        },
    }
}

impl Stated {
    /// The stated trees of the structures that the active instances of a top structure name, each
    /// once.
    ///
    /// # Errors
    ///
    /// For want of memory alone.
    pub fn of<L: Ledger>(
        alloc: Global,
        top: &Top,
        bottoms: &Bottoms,
        steps: &mut Steps<L>,
    ) -> Result<Stated, NoMemory>
        ensures stated { IfOk result (AreStatedFor top.now.contents bottoms.now) }
        ensures rising { steps.old ≤ steps.new }
    {
        let mut trees = Stated::new(alloc);
        for number in 0..top.len() {
            let instance = top.active_instance(number);
            add_structure(alloc, &mut trees, bottoms, instance, steps)?;
        }
        Ok(trees)
    }
}
