ghost use Rattle.std.specs.Prelude.{◌≡◌, ◌≤◌, ◌+◌, ◌^◌, ◌++◌, [], ◌∷◌, IfOk, OnOk, length};
ghost use Rattle.std.specs.List.{flat_map};
ghost use Rattle.ray_primitives.specs.StoredPrimitives.{triangle_bytes, aabb_bytes};
ghost use Rattle.ray_geometries.specs.Contents.{total_of, count_of, count_of_shapes};
ghost use Rattle.ray_geometries.specs.Storing.{kind_number, opaque_number, format_number, index_number};
ghost use Rattle.ray_geometries.specs.Storing.{element_bytes, bytes_of_words};
ghost use Rattle.ray_geometries.specs.Storing.{geometry_words, geometry_bytes, payload_of, Appends};

use crate::contents::Contents;
use crate::geometry::Geometry;
use crate::shapes::Shapes;
use byteorder::{ByteOrder, LittleEndian};
use ray_bytes::Format;
use ray_flags::Kind;
use ray_geom::Steps;
use ray_primitives::{KeptBox, KeptTriangle};
use std::alloc::{AllocError as NoMemory, Global};
use std::sync::ledger::Ledger;

impl Contents {
    /// The contents as they are stored, with one step for each primitive. (Own: the layout; for
    /// vkCmdCopyAccelerationStructureToMemoryKHR.)
    pub fn payload<L: Ledger>(
        &self,
        alloc: Global,
        steps: &mut Steps<L>,
    ) -> Result<Vec<u8>, NoMemory>
        ensures value { IfOk result (λ bytes. bytes.items ≡ payload_of self.now) }
        ensures cost { OnOk result (steps.new ≡ steps.old + total_of self.now.geometries) }
        ensures rising { steps.old ≤ steps.new }
    {
        let _limits = self.geometries();
        let mut bytes = Vec::new(alloc);
        append_head(&mut bytes, self.flags().0, self.geometries())?;
        append_geometries(&mut bytes, self.as_slice(), steps)?;
        Ok(bytes)
    }
}

// The head of a structure.
#[tactic(auto, unfolding(crate::specs::Storing::bytes_of_words))]
fn append_head(bytes: &mut Vec<u8>, flags: u32, geometries: u32) -> Result<(), NoMemory>
    ensures { OnOk result (bytes.new.items
        ≡ bytes.old.items ++ bytes_of_words (0 ∷ flags ∷ geometries ∷ 0 ∷ [])) }
{
    let mut head = [0; 16];
    LittleEndian::write_u32_into(&[0, flags, geometries, 0], &mut head);
    bytes.extend_from_slice(&head)?;
    Ok(())
}

// All geometries.
fn append_geometries<L: Ledger>(
    bytes: &mut Vec<u8>,
    geometries: &[Geometry],
    steps: &mut Steps<L>,
) -> Result<(), NoMemory>
    requires { total_of geometries.now ≤ 2 ^ 20 }
    ensures { Appends (flat_map geometry_bytes geometries.now) (total_of geometries.now)
        bytes.old.items bytes.new.items steps.old steps.new result }
{
    for g in geometries {
        append_geometry(bytes, g, steps)?;
    }
    Ok(())
}

// A geometry: its head, and its elements.
fn append_geometry<L: Ledger>(
    bytes: &mut Vec<u8>,
    g: &Geometry,
    steps: &mut Steps<L>,
) -> Result<(), NoMemory>
    requires { count_of g.now ≤ 2 ^ 20 }
    ensures { Appends (geometry_bytes g.now) (count_of g.now) bytes.old.items bytes.new.items
        steps.old steps.new result }
{
    append_words(bytes, words_of(g))?;
    append_elements(bytes, &g.shapes, steps)
}

// The words of a geometry's head.
fn words_of(g: &Geometry) -> [u32; 8]
    requires { count_of g.now ≤ 2 ^ 20 }
    ensures { result ≡ geometry_words g.now }
{
    [
        kind_number(g.kind()),
        opaque_number(g.opaque),
        format_number(g.format()),
        index_number(g.index_size()),
        g.count() as u32,
        0,
        0,
        0,
    ]
}

// Eight words.
#[tactic(auto, unfolding(crate::specs::Storing::bytes_of_words))]
fn append_words(bytes: &mut Vec<u8>, words: [u32; 8]) -> Result<(), NoMemory>
    ensures { OnOk result (bytes.new.items ≡ bytes.old.items ++ bytes_of_words words) }
{
    let mut head = [0; 32];
    LittleEndian::write_u32_into(&words, &mut head);
    bytes.extend_from_slice(&head)?;
    Ok(())
}

// The elements of a geometry.
fn append_elements<L: Ledger>(
    bytes: &mut Vec<u8>,
    shapes: &Shapes,
    steps: &mut Steps<L>,
) -> Result<(), NoMemory>
    ensures { Appends (element_bytes shapes.now) (count_of_shapes shapes.now) bytes.old.items
        bytes.new.items steps.old steps.new result }
{
    match shapes {
        Shapes::Triangles { triangles, .. } => {
            append_triangles(bytes, triangles.as_slice(), steps)
        }
        Shapes::Boxes { boxes } => append_boxes(bytes, boxes.as_slice(), steps),
    }
}

// Triangles, one step each.
fn append_triangles<L: Ledger>(
    bytes: &mut Vec<u8>,
    triangles: &[KeptTriangle],
    steps: &mut Steps<L>,
) -> Result<(), NoMemory>
    ensures { Appends (flat_map triangle_bytes triangles.now) (length triangles.now)
        bytes.old.items bytes.new.items steps.old steps.new result }
{
    for t in triangles {
        steps.tick();
        bytes.extend_from_slice(&t.bytes())?;
    }
    Ok(())
}

// Boxes, one step each.
fn append_boxes<L: Ledger>(
    bytes: &mut Vec<u8>,
    boxes: &[KeptBox],
    steps: &mut Steps<L>,
) -> Result<(), NoMemory>
    ensures { Appends (flat_map aabb_bytes boxes.now) (length boxes.now) bytes.old.items
        bytes.new.items steps.old steps.new result }
{
    for b in boxes {
        steps.tick();
        bytes.extend_from_slice(&b.bytes())?;
    }
    Ok(())
}

// The number of a kind.
fn kind_number(kind: Kind) -> u32
    ensures { result ≡ kind_number kind }
{
    match kind {
        Kind::Triangle => 0,
        Kind::Aabb => 1,
    }
}

// The number of an opacity.
fn opaque_number(opaque: bool) -> u32
    ensures { result ≡ opaque_number opaque }
{
    if opaque { 1 } else { 0 }
}

// The number of a format.
fn format_number(format: Format) -> u32
    ensures { result ≡ format_number format }
{
    match format {
        Format::S32x3 => 0,
        Format::S32x2 => 1,
        Format::S16x3 => 2,
    }
}

// The number of an index size.
fn index_number(size: u8) -> u32
    ensures { result ≡ index_number size }
{
    if size == 0 {
        0
    } else if size == 2 {
        1
    } else {
        2
    }
}
