ghost use Rattle.std.specs.Prelude.{◌<◌, IfSome};
ghost use Rattle.ray_flags.specs.Admission.{AsksBoth};

use crate::bytes::put;
use crate::scene::{Scene, Sent};
use crate::size::Size;
use ray_bottom::{Bottom, Builder, TriangleInfo};
use ray_bytes::{Format, IndexView, VertexView};
use ray_flags::{BuildFlags, RayFlags};
use ray_geom::{Ray, Vec3};
use ray_primitives::BuildFault;
use std::alloc::{AllocError, Global};
use std::thread::Threads;

/// The scene of a made-up field: square cells of two opaque triangles each, 8 to a side, with
/// heights from 0 to 6, and one instance of them at its place.
pub(crate) fn scene<R: AllocGlobal + Threads + Sync>(
    rt: &R,
    size: Size,
) -> Result<Scene, BuildFault> {
    let mut records = Vec::new(rt.alloc());
    put(
        &mut records,
        &[1, 0, 0, 0, 0, 1, 0, 0, 0, 0, 1, 0, 255 << 24, 0, 256, 0],
    )?;
    Scene::alone(rt, bottom(rt, size)?, records.as_slice())
}

/// A ray by its number: from above the field straight down, to beyond it.
pub(crate) fn sent(size: Size, r: u32) -> Option<Sent>
    requires { r < 16384 }
    ensures { IfSome result (λ sent. ¬ AsksBoth sent.flags) }
{
    let width = 8 * size.side() + 8;
    let origin = Vec3 {
        x: i64::from((37 * r + 3) % width),
        y: i64::from((53 * r + 1) % width),
        z: 4096,
    };
    let ray = Ray::new(origin, Vec3 { x: 0, y: 0, z: -1 }, 0, 1 << 29)?;
    Some(Sent {
        ray,
        flags: RayFlags(0),
        mask: 255,
    })
}

// The bottom structure of the field.
fn bottom<R: AllocGlobal + Threads + Sync>(rt: &R, size: Size) -> Result<Bottom, BuildFault> {
    let side = size.side();
    let vertices = vertices(rt.alloc(), size)?;
    let indices = indices(rt.alloc(), size)?;
    let info = TriangleInfo {
        opaque: true,
        format: Format::S32x3,
        index_size: 4,
        count: 2 * side * side,
        first_vertex: 0,
        max_vertex: (side + 1) * (side + 1) - 1,
    };
    let vertices = VertexView::new(vertices.as_slice(), 0, 12, Format::S32x3);
    let indices = IndexView::new(indices.as_slice(), 0, true);
    let mut builder = Builder::new(rt.alloc(), BuildFlags(0));
    builder.triangles(&info, vertices, Some(indices), None)?;
    Ok(builder.finish(rt)?)
}

// The bytes of the vertices, row by row.
fn vertices(alloc: Global, size: Size) -> Result<Vec<u8>, AllocError> {
    let mut bytes = Vec::new(alloc);
    for j in 0..size.side() + 1 {
        for i in 0..size.side() + 1 {
            put(&mut bytes, &[8 * i, 8 * j, (5 * i + 3 * j) % 7])?;
        }
    }
    Ok(bytes)
}

// The bytes of the indices, cell by cell.
fn indices(alloc: Global, size: Size) -> Result<Vec<u8>, AllocError> {
    let mut bytes = Vec::new(alloc);
    let side = size.side();
    let row = side + 1;
    for j in 0..side {
        for i in 0..side {
            let first = row * j + i;
            let across = first + row + 1;
            put(
                &mut bytes,
                &[first, first + 1, across, first, across, first + row],
            )?;
        }
    }
    Ok(bytes)
}
