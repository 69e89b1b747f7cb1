ghost use Rattle.std.specs.Prelude.{◌≡◌, ◌≤◌, ◌&&◌, IfSome, is_some, length, not};
ghost use Rattle.std.specs.List.{list_any};
ghost use Rattle.ray_rules.specs.Shapes.{are_of_bottom, is_boxes, is_triangles};
ghost use Rattle.ray_builds.specs.Geometries.{IsBottomFlaw};

use crate::misbuilt::{BottomFlaw, GeometryKind, Two};
use crate::numbers::first_of;
use ray_cmd::Geometry;

// What is wrong with geometries as those of a bottom.
pub(crate) fn bottom_flaw(geometries: &[Geometry]) -> Option<BottomFlaw>
    requires few { length geometries.now ≤ 67108864 }
    ensures is { IfSome result (λ flaw. IsBottomFlaw geometries.now flaw) }
    ensures told { is_some result ≡ not (are_of_bottom geometries.now) }
{
    match first_of(GeometryKind::Instances, geometries) {
        Some(number) => Some(BottomFlaw::Instances(number)),
        None => both_kinds(geometries),
    }
}

// That some are of triangles and some of boxes.
fn both_kinds(geometries: &[Geometry]) -> Option<BottomFlaw>
    requires few { length geometries.now ≤ 67108864 }
    ensures is { IfSome result (λ flaw. IsBottomFlaw geometries.now flaw) }
    ensures told { is_some result
        ≡ (list_any is_triangles geometries.now && list_any is_boxes geometries.now) }
{
    match first_of(GeometryKind::Triangles, geometries) {
        Some(triangles) => match first_of(GeometryKind::Boxes, geometries) {
            Some(boxes) => Some(BottomFlaw::Both(Two { triangles, boxes })),
            None => None,
        },
        None => None,
    }
}
