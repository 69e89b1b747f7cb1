ghost use Rattle.std.specs.Prelude.{◌≡◌, ◌≤◌, ◌^◌, IfOk, length};
ghost use Rattle.ray_tree.specs.Trees.{active_of};
ghost use Rattle.ray_wide.specs.Wides.{IsSameButLanes, WideOver};
ghost use Rattle.ray_tree.specs.NodeBoxes.{HasActivity};
ghost use Rattle.ray_climb.specs.Refits.{IsRefit};
ghost use Rattle.ray_hierarchy.specs.Hierarchies.{IsBuilt, IsUpdated, hierarchy_value};

use crate::activity::has_activity;
use bitflags::Flags;
use ray_climb::climb_all;
use ray_flags::BuildFlags;
use ray_geom::Box3;
use ray_morton::build_fast;
use ray_tree::{Tree, build_median};
use ray_wide::{Wide, collapse};
use std::alloc::{AllocError as NoMemory, Global};
use std::marker::Model;
use std::thread::Threads;

/// A binary tree over the boxes of items, with a wide tree over its leaves. Contracts see it as
/// both. (Own.)
#[derive(Drop)]
pub struct Hierarchy {
    tree: Tree,
    wide: Wide,
}

impl Model for Hierarchy {
    ghost use Rattle.ray_wide.specs.Wides.{WideOver};
    ghost use Rattle.ray_hierarchy.specs.Hierarchies.{HierarchyValue, hierarchy_value};

    ghost Value = { HierarchyValue };

    ghost view = { λ h. hierarchy_value h.tree h.wide };

    ghost invariant = { λ h. WideOver h.wide h.tree };
}

impl Hierarchy {
    /// The trees over items, which are at most 2^20: by keys where the flags prefer fast builds,
    /// and else by halves. `rt` lends the threads to sort keys. (Own; the flag is
    /// VK_BUILD_ACCELERATION_STRUCTURE_PREFER_FAST_BUILD_BIT_KHR.)
    ///
    /// # Errors
    ///
    /// For want of memory alone.
    pub fn build<R: Threads + Sync>(
        rt: &R,
        alloc: Global,
        flags: BuildFlags,
        items: &[Option<Box3>],
    ) -> Result<Hierarchy, NoMemory>
        requires { length items.now ≤ 2 ^ 20 }
        ensures { IfOk result (λ h. IsBuilt flags items.now h.tree) }
    {
        let tree = built(rt, alloc, flags, items)?;
        let wide = collapse(alloc, &tree)?;
        Ok(Hierarchy { tree, wide })
    }

    /// The trees of a binary tree that is given: itself, and the wide tree that it collapses to.
    /// (Own; for a tree that was read from serialized bytes.)
    ///
    /// # Errors
    ///
    /// For want of memory alone.
    pub fn of_tree(alloc: Global, tree: Tree) -> Result<Hierarchy, NoMemory>
        ensures { IfOk result (λ h. h.tree ≡ tree) }
    {
        let wide = collapse(alloc, &tree)?;
        Ok(Hierarchy { tree, wide })
    }

    /// The trees of an update: where the items, which are at most 2^20, have the activity of this
    /// tree's, these trees refit to them, and else those of a build with the flags. `active` is how
    /// many of them are active.
    /// (VK_BUILD_ACCELERATION_STRUCTURE_MODE_UPDATE_KHR)
    ///
    /// # Errors
    ///
    /// For want of memory alone.
    pub fn updated<R: Threads + Sync>(
        &self,
        rt: &R,
        alloc: Global,
        flags: BuildFlags,
        items: Vec<Option<Box3>>,
        active: usize,
    ) -> Result<Hierarchy, NoMemory>
        requires few { length items.items ≤ 2 ^ 20 }
        requires active { active ≡ active_of items.items }
        ensures { IfOk result (λ h. IsUpdated flags self.now.tree items.items h.tree) }
    {
        if has_activity(&self.tree, &items, active) {
            self.refitted(rt, alloc, items)
        } else {
            Hierarchy::build(rt, alloc, flags, &items)
        }
    }

    // These trees refit to other items, which are at most 2^20 and have the activity of this
    // tree's: the same nodes and the same order, and as each node's box the least box of the items
    // below it. From 1,024 items on four seats do it, on threads that `rt` lends. The wide tree is
    // this one's but for its lanes.
    fn refitted<R: Threads + Sync>(
        &self,
        rt: &R,
        alloc: Global,
        items: Vec<Option<Box3>>,
    ) -> Result<Hierarchy, NoMemory>
        requires few { length items.items ≤ 2 ^ 20 }
        requires activity { HasActivity self.now.tree items.items }
        ensures tree { IfOk result (λ h. IsRefit self.now.tree items.items h.tree) }
        ensures wide { IfOk result (λ h. IsSameButLanes self.now.wide h.wide) }
    {
        let tree = climb_all(rt, alloc, self.tree.copy()?, items)?;
        let mut wide = self.wide.copy()?;
        wide.refit(&tree);
        Ok(Hierarchy { tree, wide })
    }

    /// The same trees once more.
    ///
    /// # Errors
    ///
    /// For want of memory alone.
    pub fn copy(&self, _alloc: Global) -> Result<Hierarchy, NoMemory>
        ensures { IfOk result (λ h. h ≡ self.now) }
    {
        let tree = self.tree.copy()?;
        let wide = self.wide.copy()?;
        Ok(Hierarchy { tree, wide })
    }

    /// The binary tree.
    pub fn tree(&self) -> &Tree
        ensures { result.now ≡ self.now.tree }
    {
        &self.tree
    }

    /// The wide tree over its leaves.
    pub fn wide(&self) -> &Wide
        ensures value { result.now ≡ self.now.wide }
        ensures over { WideOver self.now.wide self.now.tree }
    {
        &self.wide
    }

    /// The numbers of the items in the order of their places, which the leaves name.
    pub fn order(&self) -> &[u32]
        ensures { result.now ≡ self.now.tree.order }
    {
        self.tree.order()
    }
}

// The binary tree of the builder that the flags name.
fn built<R: Threads + Sync>(
    rt: &R,
    alloc: Global,
    flags: BuildFlags,
    items: &[Option<Box3>],
) -> Result<Tree, NoMemory>
    requires { length items.now ≤ 2 ^ 20 }
    ensures { IfOk result (IsBuilt flags items.now) }
{
    if flags.contains(BuildFlags::PREFER_FAST_BUILD) {
        build_fast(rt, alloc, items)
    } else {
        build_median(alloc, items)
    }
}
