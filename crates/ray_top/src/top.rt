ghost use Rattle.std.specs.Prelude.{◌≡◌, ◌≤◌, ◌<◌, ◌^◌, IfOk, IfSome, false, true, Some, None};
ghost use Rattle.std.specs.Prelude.{length, option_map, option_copied, slice_get};
ghost use Rattle.ray_top.specs.Instances.{active_at, instance_value, told_instance};
ghost use Rattle.ray_top.specs.InstanceReading.{instances_read};
ghost use Rattle.ray_top.specs.Contents.{top_value, top_with, top_built, top_updated};
ghost use Rattle.ray_top.specs.Contents.{active_of, has_both_fast, IsTop};
ghost use Rattle.ray_top.specs.Trees.{GivesTop, IsTreeBuilt, instances_below, items_of};
ghost use Rattle.ray_top.specs.Trees.{with_tree, without_tree};
ghost use Rattle.ray_tree.specs.Trees.{TreeOver};
ghost use Rattle.ray_wide.specs.Wides.{WideOver};

use crate::instance::Instance;
use crate::items::items_of;
use crate::lists::{active, copy_instances, copy_used};
use crate::placed::{Placed, told};
use crate::reading::read_instances;
use crate::used::Used;
use crate::used_index::UsedIndex;
use ray_bytes::InstanceView;
use ray_contents::Elements;
use ray_flags::BuildFlags;
use ray_hierarchy::Hierarchy;
use ray_primitives::BuildFault;
use ray_tree::{Node, Tree};
use ray_wide::Wide;
use std::alloc::{AllocError as NoMemory, Global};
use std::marker::Model;
use std::thread::Threads;

/// A top structure that is built. Contracts see it as its contents, beside them the structures that
/// were in use when it was built or last updated, each with the bounds that it had then, and its
/// box tree.
/// (VkAccelerationStructureKHR of the type VK_ACCELERATION_STRUCTURE_TYPE_TOP_LEVEL_KHR)
#[derive(Drop)]
pub struct Top {
    flags: BuildFlags,
    used: Elements<Used>,
    instances: Elements<Option<Placed>>,
    active: u32,
    hierarchy: Hierarchy,
}

impl Model for Top {
    ghost use Rattle.ray_top.specs.Contents.{top_value};
    ghost use Rattle.ray_top.specs.Trees.{IsCountedOver, TopWithTree, with_tree};

    ghost Value = { TopWithTree };

    ghost view = { λ t. with_tree (top_value t.flags t.used t.instances) t.hierarchy };

    ghost invariant = { λ t. IsCountedOver
        (with_tree (top_value t.flags t.used t.instances) t.hierarchy) t.active };
}

impl Top {
    /// The structure of the first `count` instances of the view, at most 2^16. `flags` doesn't ask
    /// both for fast traces and for fast builds. Data comes exactly where one of X5 to X8 is
    /// broken, and is the first: by instance, and for one instance the least. Its tree is over the
    /// least world boxes of the images of the corners of their structures' bounds, by keys where
    /// the flags prefer fast builds, else by halves (`IsBuilt`); `rt` lends the threads for it.
    /// (VK_BUILD_ACCELERATION_STRUCTURE_MODE_BUILD_KHR)
    pub fn build<R: Threads + Sync>(
        rt: &R,
        alloc: Global,
        flags: BuildFlags,
        view: InstanceView<'_>,
        count: u32,
        used: &[Used],
    ) -> Result<Top, BuildFault>
        requires speed { has_both_fast flags ≡ false }
        requires count { count ≤ 2 ^ 16 }
        ensures value { GivesTop (top_built flags used.now view.entry count) result }
        ensures count { IfOk result (λ t. length t.contents.instances ≡ count) }
        ensures tree { IfOk result IsTreeBuilt }
    {
        read_top(rt, alloc, flags, &view, count, used, None)
    }

    /// An update of this structure: one of its flags, with the instances that the view holds, which
    /// are as many, and are compared with the old ones by X9. Data comes exactly where one of X5 to
    /// X9 is broken, and is the first. Its tree is built anew.
    /// (VK_BUILD_ACCELERATION_STRUCTURE_MODE_UPDATE_KHR)
    pub fn update<R: Threads + Sync>(
        &self,
        rt: &R,
        alloc: Global,
        view: InstanceView<'_>,
        count: u32,
        used: &[Used],
    ) -> Result<Top, BuildFault>
        requires { count ≡ length self.now.contents.instances }
        ensures value { GivesTop (top_updated (without_tree self.now) used.now view.entry count)
            result }
        ensures count { IfOk result (λ t. length t.contents.instances ≡ count) }
        ensures tree { IfOk result IsTreeBuilt }
    {
        let olds = self.instances.as_slice();
        read_top(rt, alloc, self.flags, &view, count, used, Some(olds))
    }

    /// A structure with the same contents, the same structures in use beside them, and the same
    /// tree.
    /// (VK_COPY_ACCELERATION_STRUCTURE_MODE_CLONE_KHR)
    pub fn copy(&self, alloc: Global) -> Result<Top, NoMemory>
        ensures { IfOk result (λ copy. copy ≡ self.now) }
    {
        let used = copy_used(alloc, self.used.as_slice())?;
        let instances = copy_instances(alloc, self.instances.as_slice())?;
        let hierarchy = self.hierarchy.copy(alloc)?;
        Ok(Top {
            flags: self.flags,
            used,
            instances,
            active: self.active,
            hierarchy,
        })
    }

    /// How many instances it has, inactive ones among them: at most 2^16.
    pub fn len(&self) -> u32
        ensures value { result ≡ length self.now.contents.instances }
        ensures limits { IsTop (without_tree self.now) }
    {
        self.instances.as_slice().len() as u32
    }

    /// An instance by its number. None exactly where the number is at least `len`.
    pub fn instance(&self, i: u32) -> Option<Instance>
        ensures { result ≡ option_map told_instance (slice_get self.now.contents.instances i) }
    {
        match self.instances.as_slice().get(i as usize) {
            Some(instance) => Some(told(instance)),
            None => None,
        }
    }

    /// An active instance by its number, where it stands. None exactly where the number is at least
    /// `len`, or the instance is inactive.
    pub fn active_instance(&self, i: u32) -> Option<&Instance>
        ensures value { option_map instance_value (option_copied result)
            ≡ active_at self.now.contents.instances i }
        ensures active { IfSome (option_copied result) (λ i. i.active ≡ true) }
    {
        match self.instances.as_slice().get(i as usize) {
            Some(Some(placed)) => Some(placed.told()),
            _ => None,
        }
    }

    /// The binary tree over the boxes of its instances in the world, by their numbers. An instance
    /// that is inactive, or whose structure has no bounds, has none.
    pub fn tree(&self) -> &Tree
        ensures value { result.now ≡ self.now.tree }
        ensures over { TreeOver self.now.tree (items_of (without_tree self.now)) }
    {
        self.hierarchy.tree()
    }

    /// The wide tree over its leaves, which names each by its node in the binary tree.
    pub fn wide(&self) -> &Wide
        ensures value { result.now ≡ self.now.wide }
        ensures over { WideOver self.now.wide self.now.tree }
    {
        self.hierarchy.wide()
    }

    /// The numbers of the instances of a leaf, by its node in the binary tree; none for another
    /// node.
    pub fn items_of(&self, leaf: u32) -> &[u32]
        requires { leaf < length self.now.tree.nodes }
        ensures { result.now ≡ instances_below self.now leaf }
    {
        match self.tree().node(leaf) {
            Node::Leaf { first, count } => {
                let first = first as usize;
                &self.hierarchy.order()[first..first + count as usize]
            }
            Node::Inner { .. } => &[],
        }
    }

    /// The flags of its build.
    pub fn flags(&self) -> BuildFlags
        ensures { result ≡ self.now.contents.flags }
    {
        self.flags
    }

    /// How many of its instances are active.
    pub fn active(&self) -> u32
        ensures { result ≡ active_of self.now.contents.instances }
    {
        self.active
    }
}

// The structure of the first instances of a view, as an update of old ones where there are some.
fn read_top<R: Threads + Sync>(
    rt: &R,
    alloc: Global,
    flags: BuildFlags,
    view: &InstanceView<'_>,
    count: u32,
    used: &[Used],
    olds: Option<&[Option<Placed>]>,
) -> Result<Top, BuildFault>
    requires speed { has_both_fast flags ≡ false }
    requires count { count ≤ 2 ^ 16 }
    ensures value { GivesTop (top_with flags used.now (instances_read used.now view.now
        (option_copied olds.entry) count)) result }
    ensures count { IfOk result (λ t. length t.contents.instances ≡ count) }
    ensures tree { IfOk result IsTreeBuilt }
{
    let index = UsedIndex::new(alloc, used)?;
    let instances = read_instances(alloc, &index, view, olds, count)?;
    let items = items_of(alloc, &index, instances.as_slice())?;
    let used = copy_used(alloc, used)?;
    let hierarchy = Hierarchy::build(rt, alloc, flags, &items)?;
    Ok(counted(flags, used, instances, hierarchy))
}

// The structure of these parts.
fn counted(
    flags: BuildFlags,
    used: Elements<Used>,
    instances: Elements<Option<Placed>>,
    hierarchy: Hierarchy,
) -> Top
    requires limits { IsTop (top_value flags used instances) }
    requires over { TreeOver hierarchy.tree (items_of (top_value flags used instances)) }
    requires wide { WideOver hierarchy.wide hierarchy.tree }
    ensures { result ≡ with_tree (top_value flags used instances) hierarchy }
{
    let active = active(instances.as_slice());
    Top {
        flags,
        used,
        instances,
        active,
        hierarchy,
    }
}
