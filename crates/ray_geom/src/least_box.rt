ghost use Rattle.std.specs.Prelude.{◌≡◌, ◌^◌, ◌↔◌, IfSome, []};
ghost use Rattle.std.specs.List.{All};
ghost use Rattle.ray_geom.specs.Vector.{IsShort};
ghost use Rattle.ray_geom.specs.Boxes.{corners_of};
ghost use Rattle.ray_geom.specs.LeastBoxes.{point_box, union_of, joined_of, box_of_points, box_of_boxes, box_of_tri, HoldsPoints, HoldsBoxes, HoldsBoth, HoldsTri, IsLeast};

use crate::box3::Box3;
use crate::point32::Point32;
use crate::tri::Tri;
use crate::vec3::Vec3;

impl Box3 {
    /// The box of one point.
    pub fn of_point(v: Vec3) -> Box3
        requires { IsShort (2 ^ 19) v }
        ensures { result ≡ point_box v }
    {
        Box3::of_corners(v, v)
    }

    /// The least box of this one and a point.
    pub fn with_point(&self, v: Vec3) -> Box3
        requires { IsShort (2 ^ 19) v }
        ensures { result ≡ union_of self.now (point_box v) }
    {
        self.union(&Box3::of_point(v))
    }

    /// The least box of two boxes. (Own.)
    pub fn union(&self, other: &Box3) -> Box3
        ensures value { result ≡ union_of self.now other.now }
        ensures least { IsLeast (HoldsBoth self.now other.now) result }
    {
        Box3 {
            lo: Point32 {
                x: self.lo.x.min(other.lo.x),
                y: self.lo.y.min(other.lo.y),
                z: self.lo.z.min(other.lo.z),
            },
            hi: Point32 {
                x: self.hi.x.max(other.hi.x),
                y: self.hi.y.max(other.hi.y),
                z: self.hi.z.max(other.hi.z),
            },
        }
    }

    /// The least box of points. None exactly where there are none. (Own.)
    #[tactic(auto, using(std::proofs::lemmas::List::Sums::fold_more))]
    pub fn of_points(points: &[Vec3]) -> Option<Box3>
        requires { All (IsShort (2 ^ 19)) points.now }
        ensures value { result ≡ box_of_points points.now }
        ensures least { IfSome result (IsLeast (HoldsPoints points.now)) }
        ensures none { (result ≡ None) ↔ (points.now ≡ []) }
    {
        let mut least = None;
        for v in points {
            least = joined(least, Box3::of_point(*v));
        }
        least
    }

    /// The least box of boxes. None exactly where there are none. (Own.)
    #[tactic(auto, using(std::proofs::lemmas::List::Sums::fold_more))]
    pub fn of_boxes(boxes: &[Box3]) -> Option<Box3>
        ensures value { result ≡ box_of_boxes boxes.now }
        ensures least { IfSome result (IsLeast (HoldsBoxes boxes.now)) }
        ensures none { (result ≡ None) ↔ (boxes.now ≡ []) }
    {
        let mut least = None;
        for b in boxes {
            least = joined(least, *b);
        }
        least
    }

    /// The eight corners, z changing first. (Own.)
    pub fn corners(&self) -> [Vec3; 8]
        ensures value { result ≡ corners_of self.now }
        ensures short { All (IsShort (2 ^ 19)) result }
    {
        let (lo, hi) = (self.lo.wide(), self.hi.wide());
        [
            Vec3 {
                x: lo.x,
                y: lo.y,
                z: lo.z,
            },
            Vec3 {
                x: lo.x,
                y: lo.y,
                z: hi.z,
            },
            Vec3 {
                x: lo.x,
                y: hi.y,
                z: lo.z,
            },
            Vec3 {
                x: lo.x,
                y: hi.y,
                z: hi.z,
            },
            Vec3 {
                x: hi.x,
                y: lo.y,
                z: lo.z,
            },
            Vec3 {
                x: hi.x,
                y: lo.y,
                z: hi.z,
            },
            Vec3 {
                x: hi.x,
                y: hi.y,
                z: lo.z,
            },
            Vec3 {
                x: hi.x,
                y: hi.y,
                z: hi.z,
            },
        ]
    }
}

impl Tri {
    /// The least box that holds the triangle. (Own.)
    pub fn bounds(&self) -> Box3
        ensures value { result ≡ box_of_tri self.now }
        ensures least { IsLeast (HoldsTri self.now) result }
    {
        Box3::of_point(self.v0)
            .with_point(self.v1)
            .with_point(self.v2)
    }
}

// The union of what there is so far and one box more.
pub(crate) fn joined(so_far: Option<Box3>, more: Box3) -> Option<Box3>
    ensures { result ≡ joined_of so_far more }
{
    match so_far {
        None => Some(more),
        Some(b) => Some(b.union(&more)),
    }
}
