ghost use Rattle.std.specs.Prelude.{◌≡◌, IfOk, fold, length};
ghost use Rattle.std.specs.List.{filter_map};
ghost use Rattle.ray_geom.specs.LeastBoxes.{joined_of};
ghost use Rattle.ray_primitives.specs.Primitives.{box_of_triangle};
ghost use Rattle.ray_geometries.specs.Contents.{kind_of, count_of, boxes_of};
ghost use Rattle.ray_geometries.specs.Storing.{format_of, index_size_of};

use crate::shapes::Shapes;
use crate::tally::{Tally, one_if_some};
use ray_bytes::Format;
use ray_contents::{Elements, extended};
use ray_flags::Kind;
use ray_geom::Box3;
use ray_primitives::{KeptBox, KeptTriangle};
use std::alloc::{AllocError as NoMemory, Global};

/// A geometry of a structure: its opacity and its primitives. (Vulkan, "Acceleration Structures":
/// VkAccelerationStructureGeometryKHR)
#[derive(Drop)]
pub struct Geometry {
    /// Whether it is opaque.
    pub opaque: bool,
    /// Its primitives.
    pub shapes: Shapes,
}

impl Geometry {
    /// The kind of its primitives.
    pub fn kind(&self) -> Kind
        ensures { result ≡ kind_of self.now }
    {
        match &self.shapes {
            Shapes::Triangles { .. } => Kind::Triangle,
            Shapes::Boxes { .. } => Kind::Aabb,
        }
    }

    /// The format that its vertices had; that of boxes is the first one.
    pub fn format(&self) -> Format
        ensures { result ≡ format_of self.now.shapes }
    {
        match &self.shapes {
            Shapes::Triangles { format, .. } => *format,
            Shapes::Boxes { .. } => Format::S32x3,
        }
    }

    /// How many bytes an index had: 0 where there were none, as for boxes, else 2 or 4.
    pub fn index_size(&self) -> u8
        ensures { result ≡ index_size_of self.now.shapes }
    {
        match &self.shapes {
            Shapes::Triangles { index_size, .. } => *index_size,
            Shapes::Boxes { .. } => 0,
        }
    }

    /// How many primitives it has, inactive ones among them.
    pub fn count(&self) -> usize
        ensures { result ≡ count_of self.now }
    {
        match &self.shapes {
            Shapes::Triangles { triangles, .. } => triangles.as_slice().len(),
            Shapes::Boxes { boxes } => boxes.as_slice().len(),
        }
    }

    /// What is counted of its active primitives, with bounds that hold more.
    pub(crate) fn tally(&self, bounds: Option<Box3>) -> Tally
        ensures bounds { result.bounds ≡ fold joined_of bounds (boxes_of self.now) }
        ensures active { result.active ≡ length (boxes_of self.now) }
    {
        match &self.shapes {
            Shapes::Triangles { triangles, .. } => tally_triangles(triangles.as_slice(), bounds),
            Shapes::Boxes { boxes } => tally_boxes(boxes.as_slice(), bounds),
        }
    }

    /// The same geometry once more.
    pub fn copy(&self, alloc: Global) -> Result<Geometry, NoMemory>
        ensures { IfOk result (λ g. g ≡ self.now) }
    {
        let shapes = copy_shapes(alloc, &self.shapes)?;
        Ok(Geometry {
            opaque: self.opaque,
            shapes,
        })
    }
}

// What is counted of triangles.
fn tally_triangles(triangles: &[KeptTriangle], bounds: Option<Box3>) -> Tally
    ensures bounds { result.bounds
        ≡ fold joined_of bounds (filter_map box_of_triangle triangles.now) }
    ensures active { result.active ≡ length (filter_map box_of_triangle triangles.now) }
{
    let mut least = bounds;
    let mut active = 0;
    for t in triangles {
        let more = t.bounds();
        active += one_if_some(&more);
        least = extended(least, more);
    }
    Tally {
        bounds: least,
        active,
    }
}

// What is counted of boxes.
fn tally_boxes(boxes: &[KeptBox], bounds: Option<Box3>) -> Tally
    ensures bounds { result.bounds ≡ fold joined_of bounds (filter_map (λ box. box) boxes.now) }
    ensures active { result.active ≡ length (filter_map (λ box. box) boxes.now) }
{
    let mut least = bounds;
    let mut active = 0;
    for b in boxes {
        let more = b.bounds();
        active += one_if_some(&more);
        least = extended(least, more);
    }
    Tally {
        bounds: least,
        active,
    }
}

// The same primitives.
fn copy_shapes(alloc: Global, shapes: &Shapes) -> Result<Shapes, NoMemory>
    ensures { IfOk result (λ s. s ≡ shapes.now) }
{
    match shapes {
        Shapes::Triangles {
            format,
            index_size,
            triangles,
        } => {
            let triangles = copy_triangles(alloc, triangles.as_slice())?;
            Ok(Shapes::Triangles {
                format: *format,
                index_size: *index_size,
                triangles,
            })
        }
        Shapes::Boxes { boxes } => {
            let boxes = copy_boxes(alloc, boxes.as_slice())?;
            Ok(Shapes::Boxes { boxes })
        }
    }
}

// The same triangles.
fn copy_triangles(
    alloc: Global,
    triangles: &[KeptTriangle],
) -> Result<Elements<KeptTriangle>, NoMemory>
    ensures { IfOk result (λ copy. copy ≡ triangles.now) }
{
    let mut copy = Vec::with_capacity(alloc, triangles.len())?;
    for t in triangles {
        copy.push(t.copy())?;
    }
    Ok(Elements::new(copy))
}

// The same boxes.
fn copy_boxes(alloc: Global, boxes: &[KeptBox]) -> Result<Elements<KeptBox>, NoMemory>
    ensures { IfOk result (λ copy. copy ≡ boxes.now) }
{
    let mut copy = Vec::with_capacity(alloc, boxes.len())?;
    for b in boxes {
        copy.push(b.copy())?;
    }
    Ok(Elements::new(copy))
}
