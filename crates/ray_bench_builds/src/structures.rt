ghost use Rattle.std.specs.Prelude.{◌≡◌, ◌≤◌, ◌^◌, [], length};
ghost use Rattle.ray_tree.specs.NodeBoxes.{HasActivity};

use crate::field::Field;
use crate::size::Size;
use ray_bottom::{Bottom, Builder, TriangleInfo};
use ray_bytes::{Format, IndexView, InstanceView, VertexView};
use ray_climb::{Climb, climb_by};
use ray_flags::BuildFlags;
use ray_geom::{Box3, Vec3};
use ray_morton::build_fast;
use ray_primitives::BuildFault;
use ray_serial::SerialView;
use ray_top::{Top, Used};
use ray_tree::{Tree, build_median};
use ray_wide::{Wide, collapse};
use std::alloc::{AllocError, Global};
use std::thread::Threads;

// How many items a tree has at most.
const MOST_ITEMS: usize = 1 << 20;

/// The bottom structure of a field.
#[inline(never)]
pub(crate) fn bottom<R: AllocGlobal + Threads + Sync>(
    rt: &R,
    field: &Field,
) -> Result<Bottom, BuildFault> {
    finished(rt, Builder::new(rt.alloc(), BuildFlags(0)), field)
}

/// An update of a bottom structure by a field.
#[inline(never)]
pub(crate) fn updated<R: AllocGlobal + Threads + Sync>(
    rt: &R,
    field: &Field,
    old: &Bottom,
) -> Result<Bottom, BuildFault> {
    finished(rt, Builder::for_update(rt.alloc(), old), field)
}

// What a builder without a geometry makes of a field.
fn finished<R: AllocGlobal + Threads + Sync>(
    rt: &R,
    mut builder: Builder<'_>,
    field: &Field,
) -> Result<Bottom, BuildFault>
    requires { builder.contents.geometries ≡ [] }
{
    let (columns, rows) = (field.size().columns(), field.size().rows());
    let info = TriangleInfo {
        opaque: true,
        format: Format::S32x3,
        index_size: 4,
        count: 2 * columns * rows,
        first_vertex: 0,
        max_vertex: (columns + 1) * (rows + 1) - 1,
    };
    let vertices = VertexView::new(field.vertices(), 0, 12, Format::S32x3);
    let indices = IndexView::new(field.indices(), 0, true);
    builder.triangles(&info, vertices, Some(indices), None)?;
    Ok(builder.finish(rt)?)
}

/// Whether bytes are a serialized form.
#[inline(never)]
pub(crate) fn opens(bytes: &[u8]) -> bool {
    SerialView::open(bytes).is_ok()
}

/// The records of as many instances of the structure 0 as a size has, with identity transforms.
pub(crate) fn instances(alloc: Global, size: Size) -> Result<Vec<u8>, AllocError> {
    let mut bytes = Vec::new(alloc);
    for _ in 0..size.instances() {
        for word in [1, 0, 0, 0, 0, 1, 0, 0, 0, 0, 1, 0, u32::MAX, 0, 256, 0] {
            bytes.extend_from_slice(&word.to_le_bytes())?;
        }
    }
    Ok(bytes)
}

/// The top structure of these records.
#[inline(never)]
pub(crate) fn top<R: AllocGlobal + Threads + Sync>(
    rt: &R,
    size: Size,
    records: &[u8],
) -> Result<Top, BuildFault> {
    let used = [Used {
        id: 0,
        bounds: Box3::new(Vec3 { x: 0, y: 0, z: 0 }, Vec3 { x: 8, y: 8, z: 6 }),
    }];
    let view = InstanceView::new(records, 0);
    Top::build(rt, rt.alloc(), BuildFlags(0), view, size.instances(), &used)
}

/// The boxes of the triangles of a field, two a cell.
pub(crate) fn boxes(alloc: Global, size: Size) -> Result<Vec<Option<Box3>>, AllocError> {
    let mut items = Vec::new(alloc);
    for j in 0..size.rows() {
        for i in 0..size.columns() {
            items.push(cell(i, j))?;
            items.push(cell(i, j))?;
        }
    }
    Ok(items)
}

// The box of a cell.
fn cell(i: u32, j: u32) -> Option<Box3> {
    let (x, y) = (8 * i64::from(i), 8 * i64::from(j));
    let lo = Vec3 { x, y, z: 0 };
    let hi = Vec3 {
        x: x + 8,
        y: y + 8,
        z: 6,
    };
    Box3::new(lo, hi)
}

/// The tree over the first boxes, of at most 2^20.
#[inline(never)]
pub(crate) fn tree(alloc: Global, items: &[Option<Box3>]) -> Result<Tree, AllocError> {
    build_median(alloc, &items[..items.len().min(MOST_ITEMS)])
}

/// The tree over the first boxes by keys, of at most 2^20.
#[inline(never)]
pub(crate) fn fast_tree<R: AllocGlobal + Threads + Sync>(
    rt: &R,
    items: &[Option<Box3>],
) -> Result<Tree, AllocError> {
    build_fast(rt, rt.alloc(), &items[..items.len().min(MOST_ITEMS)])
}

/// So many climbs of a tree over the first boxes, of at most 2^20, and how many leaves it has.
pub(crate) fn climbs<R: AllocGlobal + Threads + Sync>(
    rt: &R,
    items: &[Option<Box3>],
    times: u32,
    seats: u32,
) -> Result<u32, AllocError> {
    let items = &items[..items.len().min(MOST_ITEMS)];
    let tree = build_median(rt.alloc(), items)?;
    for _ in 0..times {
        climb(rt, &tree, items, seats)?;
    }
    Ok(tree.leaves())
}

// A climb of a copy of a tree to the items that it is over, by so many seats, 4 or 1, or by none:
// then it is only made.
#[inline(never)]
fn climb<R: AllocGlobal + Threads + Sync>(
    rt: &R,
    tree: &Tree,
    items: &[Option<Box3>],
    seats: u32,
) -> Result<(), AllocError>
    requires few { length items.now ≤ 2 ^ 20 }
    requires activity { HasActivity tree.now items.now }
{
    let Ok((climb, seat)) = Climb::new(rt.alloc(), tree.copy()?, items) else {
        return Err(AllocError);
    };
    if seats > 0 {
        let _seat = climb_by(rt, &climb, seat, tree.leaves(), seats == 4);
    }
    Ok(())
}

/// The wide tree of a tree.
#[inline(never)]
pub(crate) fn wide(alloc: Global, tree: &Tree) -> Result<Wide, AllocError> {
    collapse(alloc, tree)
}
