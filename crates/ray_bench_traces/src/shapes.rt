ghost use Rattle.std.specs.Prelude.{◌≡◌, ◌≤◌, [], OnOk, false};
ghost use Rattle.ray_flags.specs.declared.kind.Kind.TheVariants.{Triangle, Aabb};
ghost use Rattle.ray_geometries.specs.Contents.{HasRoom, has_both_fast};

use crate::bytes::{put, put_signed};
use crate::numbers::Numbers;
use ray_bottom::{Bottom, BoxInfo, Builder, TriangleInfo};
use ray_bytes::{BoxView, Format, INACTIVE_MARK, IndexView, VertexView};
use ray_flags::BuildFlags;
use ray_primitives::BuildFault;
use std::alloc::{AllocError, Global};
use std::thread::Threads;

// How many primitives a structure has at most.
const MOST: u32 = 40;

/// A random structure of one or two geometries, each of 1 to 40 triangles or boxes, some of them
/// inactive.
pub(crate) fn bottom<R: AllocGlobal + Threads + Sync>(
    rt: &R,
    numbers: &mut Numbers,
) -> Result<Bottom, BuildFault> {
    if numbers.is_one_of(3) {
        boxes(rt, numbers)
    } else {
        triangles(rt, numbers)
    }
}

/// The flags of a build, which sometimes prefer fast builds: then the tree is made by keys.
pub(crate) fn build_flags(numbers: &mut Numbers) -> BuildFlags
    ensures { has_both_fast result ≡ false }
{
    if numbers.is_one_of(3) {
        BuildFlags::PREFER_FAST_BUILD
    } else {
        BuildFlags(0)
    }
}

// A structure of triangles.
fn triangles<R: AllocGlobal + Threads + Sync>(
    rt: &R,
    numbers: &mut Numbers,
) -> Result<Bottom, BuildFault> {
    let mut builder = Builder::new(rt.alloc(), build_flags(numbers));
    add_triangles(&mut builder, rt.alloc(), numbers)?;
    if numbers.is_one_of(2) {
        add_triangles(&mut builder, rt.alloc(), numbers)?;
    }
    Ok(builder.finish(rt)?)
}

// A structure of boxes.
fn boxes<R: AllocGlobal + Threads + Sync>(
    rt: &R,
    numbers: &mut Numbers,
) -> Result<Bottom, BuildFault> {
    let mut builder = Builder::new(rt.alloc(), build_flags(numbers));
    add_boxes(&mut builder, rt.alloc(), numbers)?;
    if numbers.is_one_of(2) {
        add_boxes(&mut builder, rt.alloc(), numbers)?;
    }
    Ok(builder.finish(rt)?)
}

// Adds a geometry of triangles. After the first there is room for another.
fn add_triangles(
    builder: &mut Builder<'_>,
    alloc: Global,
    numbers: &mut Numbers,
) -> Result<(), BuildFault>
    requires { HasRoom Triangle 40 builder.old.contents.geometries }
    ensures { OnOk result (builder.old.contents.geometries ≡ []
        → HasRoom Triangle 40 builder.new.contents.geometries) }
{
    let count = 1 + numbers.below(MOST);
    let (vertices, indices) = mesh(alloc, numbers, count)?;
    let info = TriangleInfo {
        opaque: numbers.is_one_of(2),
        format: Format::S32x3,
        index_size: 4,
        count,
        first_vertex: 0,
        max_vertex: 100,
    };
    let vertices = VertexView::new(vertices.as_slice(), 0, 12, Format::S32x3);
    let indices = IndexView::new(indices.as_slice(), 0, true);
    builder.triangles(&info, vertices, Some(indices), None)
}

// Adds a geometry of boxes. After the first there is room for another.
fn add_boxes(
    builder: &mut Builder<'_>,
    alloc: Global,
    numbers: &mut Numbers,
) -> Result<(), BuildFault>
    requires { HasRoom Aabb 40 builder.old.contents.geometries }
    ensures { OnOk result (builder.old.contents.geometries ≡ []
        → HasRoom Aabb 40 builder.new.contents.geometries) }
{
    let count = 1 + numbers.below(MOST);
    let bytes = corners(alloc, numbers, count)?;
    let info = BoxInfo {
        opaque: numbers.is_one_of(2),
        count,
    };
    builder.boxes(&info, BoxView::new(bytes.as_slice(), 0, 24))
}

// The bytes of the vertices and of the indices of so many triangles: between any of a few vertices,
// or in a strip.
fn mesh(alloc: Global, numbers: &mut Numbers, count: u32) -> Result<(Vec<u8>, Vec<u8>), AllocError>
    requires { count ≤ 40 }
{
    if numbers.is_one_of(2) {
        let pool = 3 + numbers.below(12);
        let vertices = scattered(alloc, numbers, pool)?;
        Ok((vertices, between_any(alloc, numbers, count, pool)?))
    } else {
        let vertices = strip(alloc, numbers, count + 2)?;
        Ok((vertices, between_next(alloc, numbers, count)?))
    }
}

// How far from 0 the coordinates of a structure are.
fn reach(numbers: &mut Numbers) -> u16 {
    match numbers.below(4) {
        0 => 1,
        1 => 2,
        2 => 4,
        _ => 12,
    }
}

// The bytes of random boxes, many of them flat.
fn corners(alloc: Global, numbers: &mut Numbers, count: u32) -> Result<Vec<u8>, AllocError> {
    let mut bytes = Vec::new(alloc);
    let reach = reach(numbers);
    let most = 1 + numbers.below(4);
    for _ in 0..count {
        let (x, y, z) = point(numbers, reach, 3);
        let high = [
            longer(numbers, x, most),
            longer(numbers, y, most),
            longer(numbers, z, most),
        ];
        put_signed(&mut bytes, &[marked(numbers, x), y, z])?;
        put_signed(&mut bytes, &high)?;
    }
    Ok(bytes)
}

// A number that is at most so much greater.
fn longer(numbers: &mut Numbers, x: i32, most: u32) -> i32 {
    let more = numbers.below(most.saturating_add(1).max(1));
    x.saturating_add_unsigned(more)
}

// A coordinate, or now and then the mark of what is inactive.
fn marked(numbers: &mut Numbers, x: i32) -> i32 {
    if numbers.is_one_of(8) {
        INACTIVE_MARK
    } else {
        x
    }
}

// A random point, of whose coordinates the one of a number is 0.
fn point(numbers: &mut Numbers, reach: u16, flat: u32) -> (i32, i32, i32) {
    let (x, y, z) = (
        numbers.within(reach),
        numbers.within(reach),
        numbers.within(reach),
    );
    match flat {
        0 => (0, y, z),
        1 => (x, 0, z),
        2 => (x, y, 0),
        _ => (x, y, z),
    }
}

// The bytes of a vertex that makes its triangle inactive, and of so many anywhere. All may lie in
// one plane.
fn scattered(alloc: Global, numbers: &mut Numbers, pool: u32) -> Result<Vec<u8>, AllocError> {
    let mut bytes = Vec::new(alloc);
    let (reach, flat) = (reach(numbers), numbers.below(6));
    put_signed(&mut bytes, &[INACTIVE_MARK, 0, 0])?;
    for _ in 0..pool {
        let (x, y, z) = point(numbers, reach, flat);
        put_signed(&mut bytes, &[x, y, z])?;
    }
    Ok(bytes)
}

// The same, but each but the first of these is near to the one before.
fn strip(alloc: Global, numbers: &mut Numbers, pool: u32) -> Result<Vec<u8>, AllocError> {
    let mut bytes = Vec::new(alloc);
    let flat = numbers.below(6);
    let (mut x, mut y, mut z) = point(numbers, 8, flat);
    put_signed(&mut bytes, &[INACTIVE_MARK, 0, 0])?;
    for _ in 0..pool {
        let step = point(numbers, 2, flat);
        x = x.saturating_add(step.0);
        y = y.saturating_add(step.1);
        z = z.saturating_add(step.2);
        put_signed(&mut bytes, &[x, y, z])?;
    }
    Ok(bytes)
}

// The bytes of the indices of triangles between any of so many vertices.
fn between_any(
    alloc: Global,
    numbers: &mut Numbers,
    count: u32,
    pool: u32,
) -> Result<Vec<u8>, AllocError>
    requires { pool ≤ 100 }
{
    let mut bytes = Vec::new(alloc);
    let pool = pool.max(1);
    for _ in 0..count {
        let first = if numbers.is_one_of(8) {
            0
        } else {
            1 + numbers.below(pool)
        };
        let rest = [1 + numbers.below(pool), 1 + numbers.below(pool)];
        put(&mut bytes, &[first])?;
        put(&mut bytes, &rest)?;
    }
    Ok(bytes)
}

// Those of triangles between a vertex and the next two.
fn between_next(alloc: Global, numbers: &mut Numbers, count: u32) -> Result<Vec<u8>, AllocError>
    requires { count ≤ 40 }
{
    let mut bytes = Vec::new(alloc);
    for n in 0..count {
        let first = if numbers.is_one_of(8) { 0 } else { n + 1 };
        put(&mut bytes, &[first, n + 2, n + 3])?;
    }
    Ok(bytes)
}
