ghost use Rattle.std.specs.Prelude.{◌≡◌, ◌↔◌, ◌+◌, ◌<◌, ◌≤◌, ◌^◌, All, IfOk, OnOk, IfSome, [], None, Some, length, map, slice_get, option_map};
ghost use Rattle.ray_geom.specs.LeastBoxes.{HoldsBoxes, IsLeast};
ghost use Rattle.ray_bytes.specs.StructureSizes.{compacted_size};
ghost use Rattle.ray_geometries.specs.Contents.{bounds_of, total_of, active_of, active_boxes};
ghost use Rattle.ray_geometries.specs.Contents.{kind_of, count_of, IsContents};
ghost use Rattle.ray_geometries.specs.Storing.{payload_of};
ghost use Rattle.ray_leaves.specs.LeafItems.{IsItemOf, place_of_item};
ghost use Rattle.ray_bottom.specs.Leaves.{items_below};
ghost use Rattle.ray_leaves.specs.Lists.{part_of};
ghost use Rattle.ray_bottom.specs.Slots.{IsSound};
ghost use Rattle.ray_bottom.specs.Trees.{without_tree, items_of, places_below};
ghost use Rattle.ray_tree.specs.Trees.{TreeOver};
ghost use Rattle.ray_wide.specs.Subtrees.{IsWideLeaf};
ghost use Rattle.ray_wide.specs.Wides.{WideOver};

use crate::items::items_of;
use ray_bytes::compacted_of;
use ray_flags::{BuildFlags, Kind};
use ray_geom::{Box3, Steps};
use ray_geometries::{Contents, Geometry};
use ray_hierarchy::Hierarchy;
use ray_leaves::{LeafList, LeafPart, PrimPlace};
use ray_tree::{Node, Tree};
use ray_wide::{Wide, WideLeaf};
use std::alloc::{AllocError as NoMemory, Global};
use std::marker::Model;
use std::sync::ledger::Ledger;

/// A bottom structure that is built. Contracts see it as its contents with its box tree.
/// (VkAccelerationStructureKHR of the type VK_ACCELERATION_STRUCTURE_TYPE_BOTTOM_LEVEL_KHR)
#[derive(Drop)]
pub struct Bottom {
    pub(crate) contents: Contents,
    pub(crate) hierarchy: Hierarchy,
    pub(crate) places: Vec<PrimPlace>,
    pub(crate) leaf_items: LeafList,
}

impl Model for Bottom {
    ghost use Rattle.ray_bottom.specs.Trees.{BottomWithTree, bottom_value};
    ghost use Rattle.ray_bottom.specs.Indexed.{IsIndexed};

    ghost Value = { BottomWithTree };

    ghost view = { λ b. bottom_value b.contents b.hierarchy };

    ghost invariant = { λ b. IsIndexed (bottom_value b.contents b.hierarchy) b.places.items
        b.leaf_items };
}

impl Bottom {
    /// A structure with the same contents and the same tree.
    /// (VK_COPY_ACCELERATION_STRUCTURE_MODE_CLONE_KHR)
    pub fn copy(&self, alloc: Global) -> Result<Bottom, NoMemory>
        ensures { IfOk result (λ copy. copy ≡ self.now) }
    {
        let contents = self.contents.copy(alloc)?;
        let hierarchy = self.hierarchy.copy(alloc)?;
        let places = self.places.clone()?;
        let leaf_items = self.leaf_items.copy()?;
        Ok(Bottom {
            contents,
            hierarchy,
            places,
            leaf_items,
        })
    }

    /// A structure with the same contents, inactive primitives among them, and the same tree.
    /// (VK_COPY_ACCELERATION_STRUCTURE_MODE_COMPACT_KHR)
    pub fn compact(&self, alloc: Global) -> Result<Bottom, NoMemory>
        ensures { IfOk result (λ copy. copy ≡ self.now) }
    {
        self.copy(alloc)
    }

    /// The least box of the active primitives. None exactly where there is none.
    pub fn bounds(&self) -> Option<Box3>
        ensures value { result ≡ bounds_of self.now.geometries }
        ensures least { IfSome result (IsLeast (HoldsBoxes (active_boxes self.now.geometries))) }
        ensures none { (result ≡ None) ↔ (active_boxes self.now.geometries ≡ []) }
    {
        self.contents.bounds()
    }

    /// The binary tree over the boxes of its primitives, which are numbered through all geometries
    /// in order.
    pub fn tree(&self) -> &Tree
        ensures value { result.now ≡ self.now.tree }
        ensures over { TreeOver self.now.tree (items_of self.now.geometries) }
    {
        self.hierarchy.tree()
    }

    /// The wide tree over its leaves, which names each by its node in the binary tree.
    pub fn wide(&self) -> &Wide
        ensures value { result.now ≡ self.now.wide }
        ensures over { WideOver self.now.wide self.now.tree }
    {
        self.hierarchy.wide()
    }

    /// The places of the primitives of a leaf, by its node in the binary tree; none for another
    /// node.
    pub fn items_of(&self, leaf: u32) -> &[PrimPlace]
        requires { leaf < length self.now.tree.nodes }
        ensures { result.now ≡ places_below self.now leaf }
    {
        match self.tree().node(leaf) {
            Node::Leaf { first, count } => {
                let first = first as usize;
                &self.places[first..first + count as usize]
            }
            Node::Inner { .. } => &[],
        }
    }

    /// The primitives of a leaf, by its node in the binary tree, with copies of their points that
    /// stand beside each other; none for another node. It takes one step for each of them.
    pub fn leaf_items<L: Ledger>(&self, leaf: u32, steps: &mut Steps<L>) -> LeafPart<'_>
        requires { leaf < length self.now.tree.nodes }
        ensures places { map place_of_item (part_of result) ≡ places_below self.now leaf }
        ensures held { All (IsItemOf self.now.geometries) (part_of result) }
        ensures cost { steps.new ≡ steps.old + length (part_of result) }
    {
        let items = self.items_below(leaf);
        count_each(items.len(), steps);
        items
    }

    /// The same, of a leaf as the wide tree names it: the binary tree isn't asked.
    pub fn items_of_leaf<L: Ledger>(&self, leaf: WideLeaf, steps: &mut Steps<L>) -> LeafPart<'_>
        requires { IsWideLeaf self.now.tree.nodes leaf }
        ensures places { map place_of_item (part_of result) ≡ places_below self.now leaf.node }
        ensures held { All (IsItemOf self.now.geometries) (part_of result) }
        ensures cost { steps.new ≡ steps.old + length (part_of result) }
    {
        let part = self.items_between(leaf);
        count_each(part.len(), steps);
        part
    }

    // The same, as it is kept.
    fn items_between(&self, leaf: WideLeaf) -> LeafPart<'_>
        requires { IsWideLeaf self.now.tree.nodes leaf }
        ensures { part_of result ≡ items_below self.now leaf.node }
    {
        self.fits(leaf);
        self.leaf_items
            .part(leaf.first as usize, leaf.count as usize)
    }

    // The places of a leaf are among those of the tree.
    fn fits(&self, _leaf: WideLeaf)
        requires { IsWideLeaf self.now.tree.nodes _leaf }
        ensures { _leaf.first + _leaf.count ≤ length self.now.tree.order }
    {
        self.tree().shape();
    }

    // The same, as it is kept.
    fn items_below(&self, leaf: u32) -> LeafPart<'_>
        requires { leaf < length self.now.tree.nodes }
        ensures { part_of result ≡ items_below self.now leaf }
    {
        match self.tree().node(leaf) {
            Node::Leaf { first, count } => self.leaf_items.part(first as usize, count as usize),
            Node::Inner { .. } => LeafPart::empty(),
        }
    }

    /// Says that it is within the limits, with a tree over its primitives; it does nothing.
    pub fn sound(&self)
        ensures { IsSound self.now }
    {
        let _limits = self.geometries();
        let _tree = self.tree();
        let _wide = self.wide();
    }

    /// The flags of its build.
    pub fn flags(&self) -> BuildFlags
        ensures { result ≡ self.now.flags }
    {
        self.contents.flags()
    }

    /// How many geometries it has: at most 256.
    pub fn geometries(&self) -> u32
        ensures value { result ≡ length self.now.geometries }
        ensures limits { IsContents (without_tree self.now) }
    {
        self.contents.geometries()
    }

    /// How many primitives its geometries have together, inactive ones among them: at most 2^20.
    pub fn total(&self) -> u32
        ensures value { result ≡ total_of self.now.geometries }
        ensures limits { IsContents (without_tree self.now) }
    {
        let _geometries = self.contents.geometries();
        self.contents.total()
    }

    /// How many of its primitives are active.
    pub fn active(&self) -> u32
        ensures { result ≡ active_of self.now.geometries }
    {
        self.contents.active()
    }

    /// How many bytes it takes once it is compacted.
    /// (VK_QUERY_TYPE_ACCELERATION_STRUCTURE_COMPACTED_SIZE_KHR; the number is our own.)
    pub fn compacted_size(&self) -> u64
        ensures { let gs = self.now.geometries in
            result ≡ compacted_size (length gs) (total_of gs) (active_of gs) }
    {
        compacted_of(self.geometries(), self.total(), self.active())
    }

    /// The contents as they are stored, with one step for each primitive. (Own: the layout; for
    /// vkCmdCopyAccelerationStructureToMemoryKHR.)
    pub fn payload<L: Ledger>(
        &self,
        alloc: Global,
        steps: &mut Steps<L>,
    ) -> Result<Vec<u8>, NoMemory>
        ensures value { IfOk result (λ bytes. bytes.items ≡ payload_of (without_tree self.now)) }
        ensures cost { OnOk result (steps.new ≡ steps.old + total_of self.now.geometries) }
        ensures rising { steps.old ≤ steps.new }
    {
        self.contents.payload(alloc, steps)
    }

    /// The box of each primitive, through all geometries in order; an inactive one has none. They
    /// are the items of its tree. It takes one step for each of them.
    pub fn item_boxes<L: Ledger>(
        &self,
        alloc: Global,
        steps: &mut Steps<L>,
    ) -> Result<Vec<Option<Box3>>, NoMemory>
        ensures value { IfOk result (λ v. v.items ≡ items_of self.now.geometries) }
        ensures few { IfOk result (λ v. length v.items ≤ 2 ^ 20) }
        ensures cost { OnOk result (steps.new ≡ steps.old + total_of self.now.geometries) }
        ensures rising { steps.old ≤ steps.new }
    {
        let total = self.total();
        count_each(total as usize, steps);
        items_of(alloc, self.contents.as_slice(), total)
    }

    /// Whether a geometry is opaque.
    pub fn opaque(&self, geometry: u32) -> bool
        requires { geometry < length self.now.geometries }
        ensures { option_map (λ g. g.opaque) (slice_get self.now.geometries geometry)
            ≡ Some result }
    {
        self.geometry(geometry).opaque
    }

    /// The kind of a geometry's primitives.
    pub fn kind(&self, geometry: u32) -> Kind
        requires { geometry < length self.now.geometries }
        ensures { option_map kind_of (slice_get self.now.geometries geometry) ≡ Some result }
    {
        self.geometry(geometry).kind()
    }

    /// How many primitives a geometry has, inactive ones among them.
    pub fn count(&self, geometry: u32) -> u32
        requires { geometry < length self.now.geometries }
        ensures { option_map count_of (slice_get self.now.geometries geometry) ≡ Some result }
    {
        let _limits = self.total();
        self.geometry(geometry).count() as u32
    }

    // The geometry of a number.
    fn geometry(&self, geometry: u32) -> &Geometry
        requires { geometry < length self.now.geometries }
        ensures { slice_get self.now.geometries geometry ≡ Some result.now }
    {
        self.contents.geometry(geometry).unwrap()
    }
}

// Counts one step for each of so many primitives. Steps hold no bytes, so nothing is left of it
// when it runs.
fn count_each<L: Ledger>(many: usize, steps: &mut Steps<L>)
    ensures { steps.new ≡ steps.old + many }
{
    for k in 0..many {
        steps.tick();
    }
}
