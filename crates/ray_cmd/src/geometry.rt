ghost use Rattle.serde_json.specs.View.{view};
ghost use Rattle.ray_json.specs.Outcome.{Gives};
ghost use Rattle.ray_cmd.specs.Geometries.{triangles_of, boxes_of, instances_of};

use crate::fields::{FromJson, at, optional_at};
use crate::geometry_kind::GeometryKind;
use crate::index::Index;
use crate::spot::Spot;
use ray_bytes::Format;
use ray_json::{ReadFault, only_members};
use serde_json::Value;
use std::alloc::Global;

/// A geometry of a build. (Vulkan: VkAccelerationStructureGeometryKHR with its
/// VkAccelerationStructureBuildRangeInfoKHR.)
#[derive(Clone, Copy, Debug, PartialEq, Eq)]
pub enum Geometry {
    /// Triangles (VkAccelerationStructureGeometryTrianglesDataKHR).
    Triangles {
        /// Whether they are opaque (VK_GEOMETRY_OPAQUE_BIT_KHR).
        opaque: bool,
        /// The vertices' format.
        format: Format,
        /// Where vertex 0 stands.
        vertex: Spot,
        /// The bytes from one vertex to the next.
        stride: u32,
        /// The greatest index value, before `first_vertex` is added.
        max_vertex: u32,
        /// The indices, where there are any.
        index: Option<Index>,
        /// The transform, where there is one.
        transform: Option<Spot>,
        /// How many triangles.
        count: u32,
        /// In bytes: from where the indices stand to the first that is read, or without indices
        /// from vertex 0.
        primitive_offset: u32,
        /// Is added to each index, or without indices counts the vertices that are skipped.
        first_vertex: u32,
        /// In bytes: from where the transform stands to the one that is read.
        transform_offset: u32,
    },
    /// Boxes (VkAccelerationStructureGeometryAabbsDataKHR).
    Boxes {
        /// Whether they are opaque (VK_GEOMETRY_OPAQUE_BIT_KHR).
        opaque: bool,
        /// Where they stand.
        content: Spot,
        /// The bytes from one box to the next.
        stride: u32,
        /// How many boxes.
        count: u32,
        /// In bytes: from where they stand to the first that is read.
        primitive_offset: u32,
    },
    /// Instances of bottom structures (VkAccelerationStructureGeometryInstancesDataKHR).
    Instances {
        /// Where they stand.
        content: Spot,
        /// How many instances.
        count: u32,
        /// In bytes: from where they stand to the first that is read.
        primitive_offset: u32,
    },
}

impl FromJson for Geometry {
    ghost use Rattle.ray_cmd.specs.Geometries.{geometry_of};

    ghost spells = { geometry_of };

    fn from_json(alloc: Global, value: &Value) -> Result<Self, ReadFault> {
        match at(alloc, value, "kind")? {
            GeometryKind::Triangles => triangles(alloc, value),
            GeometryKind::Boxes => boxes(alloc, value),
            GeometryKind::Instances => instances(alloc, value),
        }
    }
}

// The triangles that a value spells.
#[tactic(auto, unfolding(crate::specs::Geometries::triangles_of))]
fn triangles(alloc: Global, value: &Value) -> Result<Geometry, ReadFault>
    ensures { Gives result (triangles_of (view value.now)) }
{
    only_members(
        value,
        &[
            "kind",
            "opaque",
            "format",
            "vertex",
            "stride",
            "max_vertex",
            "index",
            "transform",
            "count",
            "primitive_offset",
            "first_vertex",
            "transform_offset",
        ],
    )?;
    Ok(Geometry::Triangles {
        opaque: at(alloc, value, "opaque")?,
        format: at(alloc, value, "format")?,
        vertex: at(alloc, value, "vertex")?,
        stride: at(alloc, value, "stride")?,
        max_vertex: at(alloc, value, "max_vertex")?,
        index: optional_at(alloc, value, "index")?,
        transform: optional_at(alloc, value, "transform")?,
        count: at(alloc, value, "count")?,
        primitive_offset: at(alloc, value, "primitive_offset")?,
        first_vertex: at(alloc, value, "first_vertex")?,
        transform_offset: at(alloc, value, "transform_offset")?,
    })
}

// The boxes that a value spells.
#[tactic(auto, unfolding(crate::specs::Geometries::boxes_of))]
fn boxes(alloc: Global, value: &Value) -> Result<Geometry, ReadFault>
    ensures { Gives result (boxes_of (view value.now)) }
{
    only_members(
        value,
        &[
            "kind",
            "opaque",
            "data",
            "stride",
            "count",
            "primitive_offset",
        ],
    )?;
    Ok(Geometry::Boxes {
        opaque: at(alloc, value, "opaque")?,
        content: at(alloc, value, "data")?,
        stride: at(alloc, value, "stride")?,
        count: at(alloc, value, "count")?,
        primitive_offset: at(alloc, value, "primitive_offset")?,
    })
}

// The instances that a value spells.
#[tactic(auto, unfolding(crate::specs::Geometries::instances_of))]
fn instances(alloc: Global, value: &Value) -> Result<Geometry, ReadFault>
    ensures { Gives result (instances_of (view value.now)) }
{
    only_members(value, &["kind", "data", "count", "primitive_offset"])?;
    Ok(Geometry::Instances {
        content: at(alloc, value, "data")?,
        count: at(alloc, value, "count")?,
        primitive_offset: at(alloc, value, "primitive_offset")?,
    })
}
