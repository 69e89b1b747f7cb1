ghost use Rattle.std.specs.Prelude.{◌≡◌, ℕ, ◌<◌, IfSome, IfNone, option_map};
ghost use Rattle.ray_prune.specs.BoxSpan.{IsInside, IsSpan};
ghost use Rattle.ray_prune.specs.BoxReach.{span_of, span_value};

use crate::box_reach::reach_box;
use crate::span::Span;
use ray_geom::{Box3, ObjectRay};

/// From where to where the ray is inside the box, ends included: from the least to the greatest
/// distance of the ray's interval at which it is inside on all three axes. None exactly where there
/// is no such distance. It is [`reach_box`] with both ends in lowest terms, which takes two
/// greatest common divisors. (Own; for the intersection of rays with AABBs in "Ray Traversal" of
/// the Vulkan specification.)
pub fn span_box(ray: &ObjectRay, b: &Box3) -> Option<Span>
    ensures some { IfSome result (IsSpan ray.now b.now) }
    ensures none { IfNone result ((n d : ℕ) → 0 < d → ¬ IsInside ray.now b.now n d) }

    // There is one span of a ray and a box.
    ensures only { IfSome result (λ span.
        (other : Span) → IsSpan ray.now b.now other → other ≡ span) }

    // The same as one function of the ray and the box.
    ensures value { option_map span_value result ≡ span_of ray.now b.now }
{
    reduced(ray, b)
}

// The reach in lowest terms.
fn reduced(ray: &ObjectRay, b: &Box3) -> Option<Span>
    ensures some { IfSome result (IsSpan ray.now b.now) }
    ensures none { IfNone result ((n d : ℕ) → 0 < d → ¬ IsInside ray.now b.now n d) }
{
    match reach_box(ray, b) {
        Some(reach) => Some(reach.reduced()),
        None => None,
    }
}
