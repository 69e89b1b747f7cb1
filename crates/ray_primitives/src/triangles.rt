ghost use Rattle.std.specs.Prelude.{◌≡◌, ◌<◌, ◌^◌, IfSome, IfOk, All, length, option_copied};
ghost use Rattle.ray_geom.specs.Vector.{IsShort};
ghost use Rattle.ray_contents.specs.Gathering.{gathered};
ghost use Rattle.ray_primitives.specs.Primitives.{IsTriangleOf};
ghost use Rattle.ray_primitives.specs.Outcomes.{Gives};
ghost use Rattle.ray_primitives.specs.Updates.{old_at, triangle_after};
ghost use Rattle.ray_primitives.specs.TriangleReading.{placed_of, limited, made_of, triangle_from};
ghost use Rattle.ray_primitives.specs.TriangleReading.{corner_of, triangle_of, updated_triangle};
ghost use Rattle.ray_primitives.specs.TriangleReading.{triangle_element, usable, transform_read};
ghost use Rattle.ray_primitives.specs.TriangleReading.{triangles_read};

use crate::build_fault::BuildFault;
use crate::corner::Corner;
use crate::corners::read_corner;
use crate::index_values::IndexValues;
use crate::kept_triangle::KeptTriangle;
use crate::triangle_info::TriangleInfo;
use crate::triangle_source::TriangleSource;
use ray_bytes::{DataFault, DataRule, IndexView, TransformView, VertexView, is_inactive_mark};
use ray_contents::{Elements, image_within, matrix_within, point_within};
use ray_geom::{Matrix, Vec3};
use std::alloc::Global;

/// The triangles of a geometry, as an update of those of an old one where there is one. Data comes
/// exactly where one of X1, X2, X3, X9 and X10 is broken, and is the first: that of the transform,
/// then by element, and for one element the least. (VkAccelerationStructureGeometryTrianglesDataKHR;
/// own: the rules.)
pub fn read_triangles(
    alloc: Global,
    info: &TriangleInfo,
    vertices: VertexView<'_>,
    indices: Option<IndexView<'_>>,
    transform: Option<TransformView<'_>>,
    olds: Option<&[KeptTriangle]>,
    geometry: u32,
) -> Result<Elements<KeptTriangle>, BuildFault>
    ensures value { Gives (triangles_read info.now vertices.entry indices.entry transform.entry
        (option_copied olds.entry) geometry) result }
    ensures count { IfOk result (λ triangles. length triangles ≡ info.now.count) }
    ensures limits { IfOk result (All (IsTriangleOf info.now.index_size)) }
{
    read(alloc, info, vertices, indices, transform, olds, geometry)
}

// The triangles of a geometry.
#[tactic(auto, unfolding(crate::specs::TriangleReading::triangles_read))]
fn read(
    alloc: Global,
    info: &TriangleInfo,
    vertices: VertexView<'_>,
    indices: Option<IndexView<'_>>,
    transform: Option<TransformView<'_>>,
    olds: Option<&[KeptTriangle]>,
    geometry: u32,
) -> Result<Elements<KeptTriangle>, BuildFault>
    ensures { Gives (triangles_read info.now vertices.entry indices.entry transform.entry
        (option_copied olds.entry) geometry) result }
{
    let matrix = matrix_of(geometry, info.count, &transform)?;
    let source = TriangleSource {
        info: *info,
        vertices,
        indices,
        matrix,
    };
    all(alloc, &source, olds, geometry)
}

// The transform of a geometry, which is looked at where the geometry has a triangle.
fn matrix_of(
    geometry: u32,
    count: u32,
    transform: &Option<TransformView<'_>>,
) -> Result<Option<Matrix>, DataFault>
    ensures { result ≡ transform_read geometry count transform.now }
{
    match transform {
        Some(view) => {
            if count == 0 {
                Ok(None)
            } else {
                usable_matrix(geometry, matrix_within(view.get()))
            }
        }
        None => Ok(None),
    }
}

// A transform within the limits.
fn usable_matrix(geometry: u32, matrix: Option<Matrix>) -> Result<Option<Matrix>, DataFault>
    ensures { result ≡ usable geometry matrix }
{
    match matrix {
        Some(matrix) => Ok(Some(matrix)),
        None => Err(DataFault {
            rule: DataRule::X3,
            geometry,
            element: None,
        }),
    }
}

// All triangles, or the first rule that is broken.
#[tactic(auto, using(ray_contents::proofs::Gathered::gathering))]
fn all(
    alloc: Global,
    source: &TriangleSource<'_>,
    olds: Option<&[KeptTriangle]>,
    geometry: u32,
) -> Result<Elements<KeptTriangle>, BuildFault>
    ensures { Gives (gathered (triangle_element source.now (option_copied olds.entry) geometry)
        source.now.info.count) result }
{
    let mut kept = Vec::with_capacity(alloc, source.info.count as usize)?;
    for i in 0..source.info.count {
        kept.push(element(source, olds, geometry, i)?)?;
    }
    Ok(Elements::new(kept))
}

// Triangle i, or the least rule that it breaks, with its place.
#[tactic(auto, unfolding(crate::specs::TriangleReading::triangle_element))]
fn element(
    source: &TriangleSource<'_>,
    olds: Option<&[KeptTriangle]>,
    geometry: u32,
    i: u32,
) -> Result<KeptTriangle, DataFault>
    ensures { result ≡ triangle_element source.now (option_copied olds.entry) geometry i }
{
    match updated(old(olds, i), triangle(source, i)) {
        Ok(t) => Ok(t),
        Err(rule) => Err(DataFault {
            rule,
            geometry,
            element: Some(i),
        }),
    }
}

// The old triangle of this number.
fn old<'a>(olds: Option<&'a [KeptTriangle]>, i: u32) -> Option<&'a KeptTriangle>
    ensures { option_copied result ≡ old_at (option_copied olds.entry) i }
{
    match olds {
        Some(olds) => olds.get(i as usize),
        None => None,
    }
}

// A triangle that is read, as an update of the old one.
fn updated(
    old: Option<&KeptTriangle>,
    read: Result<KeptTriangle, DataRule>,
) -> Result<KeptTriangle, DataRule>
    ensures { result ≡ updated_triangle (option_copied old.entry) read }
{
    match read {
        Ok(t) => after(old, t),
        Err(rule) => Err(rule),
    }
}

// A triangle, as an update of the old one.
fn after(old: Option<&KeptTriangle>, t: KeptTriangle) -> Result<KeptTriangle, DataRule>
    ensures { result ≡ triangle_after (option_copied old.entry) t }
{
    match old {
        Some(old) => {
            if old.is_active() == t.is_active() {
                if old.indices().is_same(t.indices()) {
                    Ok(t)
                } else {
                    Err(DataRule::X10)
                }
            } else {
                Err(DataRule::X9)
            }
        }
        None => Ok(t),
    }
}

// Triangle i of the buffer.
#[tactic(auto, unfolding(crate::specs::TriangleReading::triangle_of))]
fn triangle(source: &TriangleSource<'_>, i: u32) -> Result<KeptTriangle, DataRule>
    ensures { result ≡ triangle_of source.now i }
{
    let k = 3 * u64::from(i);
    made_from(
        &source.matrix,
        corner_in(source, k),
        corner_in(source, k + 1),
        corner_in(source, k + 2),
    )
}

// Corner number k.
#[inline(always)]
#[tactic(auto, unfolding(crate::specs::TriangleReading::corner_of))]
fn corner_in(source: &TriangleSource<'_>, k: u64) -> Option<Corner>
    requires { k < 2 ^ 34 }
    ensures { result ≡ corner_of source.now k }
{
    read_corner(&source.info, &source.vertices, &source.indices, k)
}

// The triangle of three corners, where each is named.
fn made_from(
    matrix: &Option<Matrix>,
    a: Option<Corner>,
    b: Option<Corner>,
    c: Option<Corner>,
) -> Result<KeptTriangle, DataRule>
    ensures { result ≡ triangle_from matrix.now a b c }
{
    if let (Some(a), Some(b), Some(c)) = (a, b, c) {
        made(matrix, a, b, c)
    } else {
        Err(DataRule::X1)
    }
}

// The triangle of three corners.
#[tactic(auto, unfolding(crate::specs::TriangleReading::made_of))]
fn made(matrix: &Option<Matrix>, a: Corner, b: Corner, c: Corner) -> Result<KeptTriangle, DataRule>
    ensures { result ≡ made_of matrix.now a b c }
{
    let indices = IndexValues {
        first: a.index,
        second: b.index,
        third: c.index,
    };
    if is_inactive_mark(a.at.x()) {
        Ok(KeptTriangle::inactive(indices))
    } else {
        active(
            placed(matrix, a.at.wide()),
            placed(matrix, b.at.wide()),
            placed(matrix, c.at.wide()),
            indices,
        )
    }
}

// A point and its image, where both are within the limits.
fn placed(matrix: &Option<Matrix>, v: Vec3) -> Option<Vec3>
    ensures value { result ≡ placed_of matrix.now v }
    ensures short { IfSome result (IsShort (2 ^ 19)) }
{
    let v = point_within(v)?;
    match matrix {
        Some(m) => image_within(m, v),
        None => Some(v),
    }
}

// The active triangle of three points.
fn active(
    a: Option<Vec3>,
    b: Option<Vec3>,
    c: Option<Vec3>,
    indices: IndexValues,
) -> Result<KeptTriangle, DataRule>
    requires a_short { IfSome a (IsShort (2 ^ 19)) }
    requires b_short { IfSome b (IsShort (2 ^ 19)) }
    requires c_short { IfSome c (IsShort (2 ^ 19)) }
    ensures { result ≡ limited a b c indices }
{
    if let (Some(a), Some(b), Some(c)) = (a, b, c) {
        Ok(KeptTriangle::active(a, b, c, indices))
    } else {
        Err(DataRule::X2)
    }
}
