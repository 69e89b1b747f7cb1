ghost use Rattle.std.specs.Prelude.{◌≡◌, ◌<◌, ◌^◌};
ghost use Rattle.ray_primitives.specs.Primitives.{index_fits};
ghost use Rattle.ray_primitives.specs.TriangleReading.{vertex_at, index_at, corner_with};
ghost use Rattle.ray_primitives.specs.TriangleReading.{may_name, named_corner, corner_from};

use crate::corner::Corner;
use crate::triangle_info::TriangleInfo;
use ray_bytes::{IndexView, VertexView};
use ray_geom::Point32;

// Corner number k of a geometry. All of this is put in place for each of a triangle's three, so
// that what is read stays in registers.
#[inline(always)]
pub(crate) fn read_corner(
    info: &TriangleInfo,
    vertices: &VertexView<'_>,
    indices: &Option<IndexView<'_>>,
    k: u64,
) -> Option<Corner>
    requires { k < 2 ^ 34 }
    ensures { result ≡ corner_from info.now vertices.now indices.now k }
{
    match indices {
        Some(view) => named(info, vertices, index(view, k)),
        None => corner_at(0, vertex(vertices, u64::from(info.first_vertex) + k)),
    }
}

// The corner that an index value names.
#[inline(always)]
fn named(info: &TriangleInfo, vertices: &VertexView<'_>, index: Option<u32>) -> Option<Corner>
    ensures { result ≡ named_corner info.now vertices.now index }
{
    let index = index?;
    if may_name(info, index) {
        corner_at(
            index,
            vertex(vertices, u64::from(info.first_vertex) + u64::from(index)),
        )
    } else {
        None
    }
}

// The corner of a vertex, where this is whole.
#[inline(always)]
fn corner_at(index: u32, at: Option<Point32>) -> Option<Corner>
    ensures { result ≡ corner_with index at }
{
    match at {
        Some(at) => Some(Corner { index, at }),
        None => None,
    }
}

// A vertex of the buffer.
#[inline(always)]
#[tactic(auto, unfolding(crate::specs::TriangleReading::vertex_at))]
fn vertex(view: &VertexView<'_>, i: u64) -> Option<Point32>
    ensures { result ≡ vertex_at view.now i }
{
    let words = view.get(i)?;
    Some(Point32::from_words(words))
}

// An index value of the buffer.
#[inline(always)]
#[tactic(auto, unfolding(crate::specs::TriangleReading::index_at))]
fn index(view: &IndexView<'_>, k: u64) -> Option<u32>
    ensures { result ≡ index_at view.now k }
{
    view.get(k)
}

// Whether an index value may be used.
#[tactic(auto, unfolding(crate::specs::TriangleReading::may_name))]
fn may_name(info: &TriangleInfo, index: u32) -> bool
    ensures { result ≡ may_name info.now index }
{
    index <= info.max_vertex && index_fits(info.index_size, index)
}

// Whether an index value fits an index size.
#[tactic(auto, unfolding(crate::specs::Primitives::index_fits))]
pub(crate) fn index_fits(size: u8, index: u32) -> bool
    ensures { result ≡ index_fits size index }
{
    if size == 0 {
        index == 0
    } else if size == 2 {
        index <= 65535
    } else {
        true
    }
}
