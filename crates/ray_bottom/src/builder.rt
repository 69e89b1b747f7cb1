ghost use Rattle.std.specs.Prelude.{◌≡◌, ◌≤◌, ◌^◌, None, Some, [], IfOk, IfSome, IsSome, option_copied, option_and_then, option_map};
ghost use Rattle.std.specs.Prelude.{length, slice_get, false};
ghost use Rattle.ray_flags.specs.declared.kind.Kind.TheVariants.{Triangle, Aabb};
ghost use Rattle.ray_geometries.specs.Contents.{has_both_fast, HasRoom};
ghost use Rattle.ray_bottom.specs.Builders.{bare, with_triangles, with_boxes, IsAdded};
ghost use Rattle.ray_bottom.specs.Builders.{IsNew, size_of_indices};
ghost use Rattle.ray_bottom.specs.Builders.{triangles_in, boxes_in, IsRestored};
ghost use Rattle.ray_geometries.specs.Storing.{stored_shapes};
ghost use Rattle.ray_bottom.specs.Trees.{items_of, without_tree};
ghost use Rattle.ray_hierarchy.specs.Hierarchies.{IsTreeOf};
ghost use Rattle.ray_bottom.specs.Updating.{IsUpdateOf};
ghost use Rattle.ray_tree.specs.Shapes.{levels};
ghost use Rattle.ray_tree.specs.Trees.{TreeOver, active_of, shape_at};
ghost use Rattle.ray_climb.specs.Refits.{IsRefit};

use crate::bottom::Bottom;
use crate::items::{items_of, places_of};
use ray_bytes::{BoxView, IndexView, TransformView, VertexView};
use ray_flags::BuildFlags;
use ray_geom::Box3;
use ray_geometries::{Contents, Geometry, Shapes, Stored};
use ray_hierarchy::Hierarchy;
use ray_leaves::leaf_items_of;
use ray_primitives::{
    BoxInfo, BuildFault, KeptBox, KeptTriangle, TriangleInfo, read_boxes, read_triangles,
};
use ray_tree::Tree;
use std::alloc::{AllocError as NoMemory, Global};
use std::marker::Model;
use std::thread::Threads;

/// Builds a bottom structure, geometry by geometry. Contracts see it as the contents so far, with
/// those of the structure that is updated. (vkCmdBuildAccelerationStructuresKHR)
#[derive(Drop)]
pub struct Builder<'a> {
    alloc: Global,
    contents: Contents,
    replaced: Option<&'a Bottom>,
}

impl<'a> Model for Builder<'a> {
    ghost use Rattle.std.specs.Prelude.{option_copied};
    ghost use Rattle.ray_bottom.specs.Builders.{BuilderWithTree, builder_value};
    ghost use Rattle.ray_bottom.specs.Updating.{IsUnderWay};

    ghost Value = { BuilderWithTree };

    ghost view = { λ b. builder_value b.contents (option_copied b.replaced) };

    ghost invariant = { λ b. IsUnderWay (builder_value b.contents (option_copied b.replaced)) };
}

impl<'a> Builder<'a> {
    /// A builder of a new structure. `flags` doesn't ask both for fast traces and for fast builds.
    /// (VK_BUILD_ACCELERATION_STRUCTURE_MODE_BUILD_KHR)
    pub fn new(alloc: Global, flags: BuildFlags) -> Builder<'a>
        requires { has_both_fast flags ≡ false }
        ensures { result ≡ record {
          contents = record { flags = flags; geometries = [] };
          replaced = None;
        } }
    {
        Builder {
            alloc,
            contents: Contents::new(alloc, flags),
            replaced: None,
        }
    }

    /// A builder of an update of a structure, with its flags. Of what is updated the tree alone is
    /// kept: the contents are those that are read, which are compared with the old ones by X9 and
    /// X10.
    /// (VK_BUILD_ACCELERATION_STRUCTURE_MODE_UPDATE_KHR)
    pub fn for_update(alloc: Global, replaced: &'a Bottom) -> Builder<'a>
        ensures { result ≡ record {
          contents = record { flags = replaced.now.flags; geometries = [] };
          replaced = Some replaced.now;
        } }
    {
        let _limits = replaced.geometries();
        let _tree = replaced.tree();
        Builder {
            alloc,
            contents: Contents::new(alloc, replaced.flags()),
            replaced: Some(replaced),
        }
    }

    /// Adds a geometry of triangles. With it there are at most 256 geometries, all of triangles,
    /// with at most 2^20 primitives together; the index size is that of the index view, and 0
    /// without one. Data comes exactly where one of X1, X2, X3, X9 and X10 is broken, and is the
    /// first. After a fault the builder is as before.
    /// (VkAccelerationStructureGeometryTrianglesDataKHR)
    #[tactic(auto, unfolding(crate::specs::Builders::with_triangles))]
    pub fn triangles(
        &mut self,
        info: &TriangleInfo,
        vertices: VertexView<'_>,
        indices: Option<IndexView<'_>>,
        transform: Option<TransformView<'_>>,
    ) -> Result<(), BuildFault>
        requires room { HasRoom Triangle info.now.count self.old.contents.geometries }
        requires size { info.now.index_size ≡ size_of_indices indices }
        ensures added { IsAdded (bare self.old) (with_triangles (bare self.old) info.now
            vertices.entry indices.entry transform.entry) (bare self.new) result }
        ensures kept { self.new.replaced ≡ self.old.replaced }
    {
        let geometry = self.contents.geometries();
        let olds = old_triangles(self.replaced, geometry);
        let triangles = read_triangles(
            self.alloc, info, vertices, indices, transform, olds, geometry,
        )?;
        self.contents.push(Geometry {
            opaque: info.opaque,
            shapes: Shapes::Triangles {
                format: info.format,
                index_size: info.index_size,
                triangles,
            },
        })?;
        Ok(())
    }

    /// Adds a geometry of boxes. With it there are at most 256 geometries, all of boxes, with at
    /// most 2^20 primitives together. Data comes exactly where one of X2, X4 and X9 is broken, and
    /// is the first. After a fault the builder is as before.
    /// (VkAccelerationStructureGeometryAabbsDataKHR)
    #[tactic(auto, unfolding(crate::specs::Builders::with_boxes))]
    pub fn boxes(&mut self, info: &BoxInfo, boxes: BoxView<'_>) -> Result<(), BuildFault>
        requires { HasRoom Aabb info.now.count self.old.contents.geometries }
        ensures added { IsAdded (bare self.old) (with_boxes (bare self.old) info.now boxes.entry)
            (bare self.new) result }
        ensures kept { self.new.replaced ≡ self.old.replaced }
    {
        let geometry = self.contents.geometries();
        let olds = old_boxes(self.replaced, geometry);
        let boxes = read_boxes(self.alloc, info, boxes, olds, geometry)?;
        self.contents.push(Geometry {
            opaque: info.opaque,
            shapes: Shapes::Boxes { boxes },
        })?;
        Ok(())
    }

    /// Adds a geometry as it is stored. The builder is of a new structure; with the geometry there
    /// are at most 256, all of one kind, with at most 2^20 primitives together; and it stands for a
    /// geometry, as [`Stored::is_sound`] says. Without memory the builder is as before.
    pub fn stored(&mut self, from: Stored<'_>) -> Result<(), NoMemory>
        requires anew { IsNew self.old }
        requires room { HasRoom from.kind from.count self.old.contents.geometries }
        requires sound { IsSome (stored_shapes from.kind from.format from.index_size from.count
            from.elements.now) }
        ensures kept { self.new.replaced ≡ self.old.replaced }
        ensures added { IsRestored (bare self.old) from.entry.opaque (stored_shapes from.entry.kind
            from.entry.format from.entry.index_size from.entry.count from.entry.elements.now)
            (bare self.new) result }
    {
        let shapes = from.shapes(self.alloc)?;
        self.contents.push(Geometry {
            opaque: from.opaque,
            shapes,
        })?;
        Ok(())
    }

    /// The structure with the contents. Its tree is that of its build (`IsBuilt`): by keys where
    /// the flags prefer fast builds, else by halves. An update refits the old tree to the boxes of
    /// the primitives that are read (`IsUpdated`): it has the same nodes and the same order, and as
    /// each node's box the least box of the primitives below it. So it is where the geometries are
    /// as many as the old ones, each of the old kind and with as many primitives (`IsUpdateOf`);
    /// where other primitives are active than in the old structure the tree is built anew. `rt`
    /// lends the threads for it.
    pub fn finish<R: Threads + Sync>(self, rt: &R) -> Result<Bottom, NoMemory>
        ensures contents { IfOk result (λ b. without_tree b ≡ self.entry.contents) }
        ensures tree { let c = self.entry.contents in
            let old = option_map (λ b. b.tree) self.entry.replaced in
            IfOk result (λ b. IsTreeOf old c.flags (items_of c.geometries) b.tree) }
        ensures refit { let gs = self.entry.contents.geometries in
            IfOk result (λ b. IfSome self.entry.replaced (λ old.
            IsUpdateOf old.geometries gs → IsRefit old.tree (items_of gs) b.tree)) }
    {
        let geometries = self.contents.as_slice();
        let total = self.contents.total();
        let _limits = self.contents.geometries();
        let items = items_of(self.alloc, geometries, total)?;
        let flags = self.contents.flags();
        let active = self.contents.active() as usize;
        let hierarchy = hierarchy_of(rt, self.alloc, self.replaced, flags, items, active)?;
        let places = places_of(self.alloc, geometries, total, hierarchy.order())?;
        let leaf_items = leaf_items_of(self.alloc, geometries, &places)?;
        Ok(Bottom {
            contents: self.contents,
            hierarchy,
            places,
            leaf_items,
        })
    }

    /// The box of each primitive that was added, through all geometries in order; an inactive one
    /// has none. They are the items over which a tree for [`Builder::finish_with`] stands.
    pub fn item_boxes(&self) -> Result<Vec<Option<Box3>>, NoMemory>
        ensures value { IfOk result (λ v. v.items ≡ items_of self.now.contents.geometries) }
        ensures few { IfOk result (λ v. length v.items ≤ 2 ^ 20) }
    {
        let _limits = self.contents.geometries();
        items_of(self.alloc, self.contents.as_slice(), self.contents.total())
    }

    /// The structure with the contents and with this tree, which is one over the boxes of its
    /// primitives, with at most 96 levels. The builder is of a new structure. (Own; for a structure
    /// whose tree was read from serialized bytes.)
    pub fn finish_with(self, tree: Tree) -> Result<Bottom, NoMemory>
        requires anew { IsNew self }
        requires over { TreeOver tree (items_of self.contents.geometries) }
        requires low { levels (shape_at tree 0) ≤ 96 }
        ensures contents { IfOk result (λ b. without_tree b ≡ self.entry.contents) }
        ensures tree { IfOk result (λ b. b.tree ≡ tree) }
    {
        let geometries = self.contents.as_slice();
        let total = self.contents.total();
        let _limits = self.contents.geometries();
        let hierarchy = Hierarchy::of_tree(self.alloc, tree)?;
        let places = places_of(self.alloc, geometries, total, hierarchy.order())?;
        let leaf_items = leaf_items_of(self.alloc, geometries, &places)?;
        Ok(Bottom {
            contents: self.contents,
            hierarchy,
            places,
            leaf_items,
        })
    }
}

// The trees over items, of which so many are active: of a build, or of an update where a structure
// is replaced.
fn hierarchy_of<R: Threads + Sync>(
    rt: &R,
    alloc: Global,
    replaced: Option<&Bottom>,
    flags: BuildFlags,
    items: Vec<Option<Box3>>,
    active: usize,
) -> Result<Hierarchy, NoMemory>
    requires few { length items.items ≤ 2 ^ 20 }
    requires active { active ≡ active_of items.items }
    ensures tree { let old = option_map (λ b. b.tree) (option_copied replaced.entry) in
        IfOk result (λ h. IsTreeOf old flags items.items h.tree) }
    ensures over { IfOk result (λ h. TreeOver h.tree items.items) }
{
    match replaced {
        Some(old) => old.hierarchy.updated(rt, alloc, flags, items, active),
        None => Hierarchy::build(rt, alloc, flags, &items),
    }
}

// The triangles of an old geometry.
fn old_triangles<'a>(replaced: Option<&'a Bottom>, geometry: u32) -> Option<&'a [KeptTriangle]>
    ensures { option_copied result ≡ option_and_then (λ g. triangles_in g.shapes)
        (option_and_then (λ old. slice_get old.geometries geometry)
        (option_copied replaced.entry)) }
{
    let old = replaced?.contents.geometry(geometry)?;
    match &old.shapes {
        Shapes::Triangles { triangles, .. } => Some(triangles.as_slice()),
        Shapes::Boxes { .. } => None,
    }
}

// The boxes of an old geometry.
fn old_boxes<'a>(replaced: Option<&'a Bottom>, geometry: u32) -> Option<&'a [KeptBox]>
    ensures { option_copied result ≡ option_and_then (λ g. boxes_in g.shapes)
        (option_and_then (λ old. slice_get old.geometries geometry)
        (option_copied replaced.entry)) }
{
    let old = replaced?.contents.geometry(geometry)?;
    match &old.shapes {
        Shapes::Triangles { .. } => None,
        Shapes::Boxes { boxes } => Some(boxes.as_slice()),
    }
}
