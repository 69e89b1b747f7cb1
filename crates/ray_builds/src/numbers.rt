ghost use Rattle.std.specs.Prelude.{◌≡◌, ◌<◌, ◌≤◌, ◌^◌, IfSome, is_some, length, true};
ghost use Rattle.std.specs.List.{list_any, position};
ghost use Rattle.ray_builds.specs.Geometries.{has_at, is_of};

use crate::misbuilt::GeometryKind;
use ray_cmd::Geometry;

// The number of the first geometry of a kind.
pub(crate) fn first_of(kind: GeometryKind, geometries: &[Geometry]) -> Option<u32>
    requires few { length geometries.now ≤ 67108864 }
    ensures is { IfSome result (λ number. has_at kind number geometries.now ≡ true) }
    ensures told { is_some result ≡ list_any (is_of kind) geometries.now }
{
    match position_of(kind, geometries) {
        Some(number) => Some(number as u32),
        None => None,
    }
}

// The same among as many as a list may have.
fn position_of(kind: GeometryKind, geometries: &[Geometry]) -> Option<usize>
    requires few { length geometries.now ≤ 67108864 }
    ensures value { result ≡ position (is_of kind) geometries.now }
    ensures few { IfSome result (λ k. k < 2 ^ 32) }
{
    geometries.iter().position(|geometry| is_of(kind, geometry))
}

// Whether a geometry is of this kind.
fn is_of(kind: GeometryKind, geometry: &Geometry) -> bool
    ensures { result ≡ is_of kind geometry.now }
{
    match kind {
        GeometryKind::Triangles => matches!(geometry, Geometry::Triangles { .. }),
        GeometryKind::Boxes => matches!(geometry, Geometry::Boxes { .. }),
        GeometryKind::Instances => matches!(geometry, Geometry::Instances { .. }),
    }
}
