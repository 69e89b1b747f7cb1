ghost use Rattle.std.specs.Prelude.{◌≡◌, IfSome, false, is_some, length, not, true};
ghost use Rattle.ray_rules.specs.Shapes.{are_of_top, is_instances};
ghost use Rattle.ray_builds.specs.Geometries.{IsTopFlaw, is_of, is_other_first};

use crate::misbuilt::{GeometryKind, TopFlaw};
use ray_cmd::Geometry;

// What is wrong with geometries as those of a top.
pub(crate) fn top_flaw(geometries: &[Geometry]) -> Option<TopFlaw>
    ensures is { IfSome result (λ flaw. IsTopFlaw geometries.now flaw) }
    ensures told { is_some result ≡ not (are_of_top geometries.now) }
{
    let count = geometries.len();
    if count == 1 {
        flaw_of_one(geometries)
    } else {
        Some(TopFlaw::Count(count))
    }
}

// The same of one geometry.
fn flaw_of_one(geometries: &[Geometry]) -> Option<TopFlaw>
    requires one { length geometries.now ≡ 1 }
    ensures is { IfSome result (λ flaw. IsTopFlaw geometries.now flaw) }
    ensures told { is_some result ≡ is_other_first geometries.now }
{
    match geometries.get(0) {
        Some(geometry) => match other_kind(geometry) {
            Some(kind) => Some(TopFlaw::Of(kind)),
            None => None,
        },
        None => None,
    }
}

// The kind of a geometry that isn't of instances.
fn other_kind(geometry: &Geometry) -> Option<GeometryKind>
    ensures is { IfSome result (λ kind.
        (is_of kind geometry.now ≡ true) × (is_instances geometry.now ≡ false)) }
    ensures told { is_some result ≡ not (is_instances geometry.now) }
{
    match geometry {
        Geometry::Triangles { .. } => Some(GeometryKind::Triangles),
        Geometry::Boxes { .. } => Some(GeometryKind::Boxes),
        Geometry::Instances { .. } => None,
    }
}
