ghost use Rattle.std.specs.Prelude.{◌≡◌, ◌≤◌, ◌^◌, [], OnErr, OnOk, length, option_copied};
ghost use Rattle.ray_stated.specs.Stated.{stated_tree};
ghost use Rattle.ray_cert.specs.Parts.{PutsTree, tree_at};

use ray_bottom::Bottoms;
use ray_geom::Box3;
use ray_stated::build_stated;
use ray_tree::Tree;
use std::alloc::{AllocError as NoMemory, Global};
use std::collections::BTreeMap;
use std::marker::Model;

/// The stated trees of structures, by the structures' ids. Contracts see them as a list of ids,
/// each with its tree. (Own.)
#[derive(Drop)]
pub struct Stated {
    trees: BTreeMap<u32, Tree>,
}

impl Model for Stated {
    ghost use Rattle.ray_cert.specs.Parts.{Trees};

    ghost Value = { Trees };

    ghost view = { λ s. s.trees.entries };
}

impl Stated {
    /// No trees.
    pub fn new(alloc: Global) -> Stated
        ensures { result ≡ [] }
    {
        Stated {
            trees: BTreeMap::new(alloc),
        }
    }

    /// The tree of the structure of an id. None exactly where there is none.
    pub fn tree(&self, id: u32) -> Option<&Tree>
        ensures { option_copied result ≡ tree_at id self.now }
    {
        self.trees.get(&id)
    }

    /// Puts the stated tree over these items, at most 2^20, under an id, in place of what stands
    /// there. The other ids keep their trees. Without memory all is as before.
    ///
    /// # Errors
    ///
    /// For want of memory alone.
    pub fn put(&mut self, alloc: Global, id: u32, items: &[Option<Box3>]) -> Result<(), NoMemory>
        requires { length items.now ≤ 2 ^ 20 }
        ensures ok { OnOk result (PutsTree id (stated_tree items.now) self.old self.new) }
        ensures err { OnErr result (self.new ≡ self.old) }
    {
        let tree = build_stated(alloc, items)?;
        put_tree(&mut self.trees, id, tree)
    }
}

/// Bottom structures, with the stated trees of those that are asked about. (Own.)
#[derive(Clone, Copy)]
pub struct StatedBottoms<'a> {
    /// The structures, by their ids.
    pub bottoms: &'a Bottoms,

    /// Their stated trees, by the same ids.
    pub trees: &'a Stated,
}

// Puts a tree under an id.
fn put_tree(trees: &mut BTreeMap<u32, Tree>, id: u32, tree: Tree) -> Result<(), NoMemory>
    ensures ok { OnOk result (PutsTree id tree trees.old.entries trees.new.entries) }
    ensures err { OnErr result (trees.new.entries ≡ trees.old.entries) }
{
    trees.insert(id, tree)?;
    Ok(())
}
