ghost use Rattle.std.specs.Prelude.{◌≡◌, IfOk, IsSome, Some, is_some};
ghost use Rattle.ray_geometries.specs.Contents.{is_index_size};
ghost use Rattle.ray_geometries.specs.Storing.{triangles_of, boxes_of_elements, stored_shapes};
ghost use Rattle.ray_geometries.specs.Storing.{AreStored};

use crate::shapes::Shapes;
use ray_bytes::Format;
use ray_flags::Kind;
use ray_primitives::{are_boxes, are_triangles, boxes_of_bytes, triangles_of_bytes};
use std::alloc::{AllocError as NoMemory, Global};

/// A geometry as it is stored: the numbers of its head, and its elements. (Own: the layout.)
#[derive(Drop)]
pub struct Stored<'a> {
    /// The kind of its primitives.
    pub kind: Kind,
    /// Whether it is opaque.
    pub opaque: bool,
    /// The format that its vertices had.
    pub format: Format,
    /// How many bytes an index had: 0 where there were none, else 2 or 4.
    pub index_size: u8,
    /// How many primitives it has.
    pub count: u32,
    /// Its elements, 48 bytes for each triangle or 24 for each box.
    pub elements: &'a [u8],
}

impl<'a> Stored<'a> {
    /// Whether it stands for a geometry: the index size is 0, 2 or 4, and 0 for boxes; the elements
    /// fill the bytes; and each of them stands for a primitive. (Own.)
    pub fn is_sound(&self) -> bool
        ensures { let s = self.now in
            result ≡ is_some (stored_shapes s.kind s.format s.index_size s.count s.elements.now) }
    {
        match self.kind {
            Kind::Triangle => {
                are_sound_triangles(self.format, self.index_size, self.count, self.elements)
            }
            Kind::Aabb => are_sound_boxes(self.index_size, self.count, self.elements),
        }
    }

    /// Its primitives, where it stands for some.
    pub fn shapes(&self, alloc: Global) -> Result<Shapes, NoMemory>
        requires { let s = self.now in
            IsSome (stored_shapes s.kind s.format s.index_size s.count s.elements.now) }
        ensures value { let s = self.now in IfOk result (λ shapes.
            stored_shapes s.kind s.format s.index_size s.count s.elements.now ≡ Some shapes) }
        ensures limits { IfOk result (AreStored self.now.kind self.now.count) }
    {
        let shapes = self.read(alloc)?;
        Ok(shapes.unwrap())
    }

    // The same where it may stand for none.
    fn read(&self, alloc: Global) -> Result<Option<Shapes>, NoMemory>
        ensures { let s = self.now in IfOk result (λ read.
            read ≡ stored_shapes s.kind s.format s.index_size s.count s.elements.now) }
    {
        match self.kind {
            Kind::Triangle => read_triangles(
                alloc,
                self.format,
                self.index_size,
                self.count,
                self.elements,
            ),
            Kind::Aabb => read_boxes(alloc, self.index_size, self.count, self.elements),
        }
    }
}

// Triangles, where the bytes stand for some.
#[tactic(auto, unfolding(crate::specs::Storing::triangles_of))]
fn read_triangles(
    alloc: Global,
    format: Format,
    index_size: u8,
    count: u32,
    bytes: &[u8],
) -> Result<Option<Shapes>, NoMemory>
    ensures { IfOk result (λ read. read ≡ triangles_of format index_size count bytes.now) }
{
    if is_index_size(index_size) && bytes.len() == 48 * count as usize {
        match triangles_of_bytes(alloc, bytes, index_size, count)? {
            Some(triangles) => Ok(Some(Shapes::Triangles {
                format,
                index_size,
                triangles,
            })),
            None => Ok(None),
        }
    } else {
        Ok(None)
    }
}

// Boxes, where the bytes stand for some.
#[tactic(auto, unfolding(crate::specs::Storing::boxes_of_elements))]
fn read_boxes(
    alloc: Global,
    index_size: u8,
    count: u32,
    bytes: &[u8],
) -> Result<Option<Shapes>, NoMemory>
    ensures { IfOk result (λ read. read ≡ boxes_of_elements index_size count bytes.now) }
{
    if index_size == 0 && bytes.len() == 24 * count as usize {
        match boxes_of_bytes(alloc, bytes, count)? {
            Some(boxes) => Ok(Some(Shapes::Boxes { boxes })),
            None => Ok(None),
        }
    } else {
        Ok(None)
    }
}

// Whether bytes stand for triangles.
#[tactic(auto, unfolding(crate::specs::Storing::triangles_of))]
fn are_sound_triangles(_format: Format, index_size: u8, count: u32, bytes: &[u8]) -> bool
    ensures { result ≡ is_some (triangles_of _format index_size count bytes.now) }
{
    is_index_size(index_size)
        && bytes.len() == 48 * count as usize
        && are_triangles(bytes, index_size, count)
}

// Whether bytes stand for boxes.
#[tactic(auto, unfolding(crate::specs::Storing::boxes_of_elements))]
fn are_sound_boxes(index_size: u8, count: u32, bytes: &[u8]) -> bool
    ensures { result ≡ is_some (boxes_of_elements index_size count bytes.now) }
{
    index_size == 0 && bytes.len() == 24 * count as usize && are_boxes(bytes, count)
}

// Whether a number is an index size.
fn is_index_size(size: u8) -> bool
    ensures { result ≡ is_index_size size }
{
    size == 0 || size == 2 || size == 4
}
