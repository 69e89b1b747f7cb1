ghost use Rattle.std.specs.Prelude.{◌≡◌, ◌≤ℤ◌, ◌^◌, ◌↔◌, IsTrue, SomeIff};
ghost use Rattle.ray_geom.specs.Vector.{IsShort};
ghost use Rattle.ray_geom.specs.Boxes.{IsBox, IsBelow, IsIn, IsPart, box_value};

use crate::point32::Point32;
use crate::vec3::{Vec3, is_short};
use std::marker::Model;

/// A box along the axes, within the limits, in 24 bytes. It may be without thickness.
/// (VkAabbPositionsKHR, in whole numbers; the limits are our own.)
#[derive(Clone, Copy, Debug)]
pub struct Box3 {
    pub(crate) lo: Point32,
    pub(crate) hi: Point32,
}

impl Model for Box3 {
    ghost use Rattle.ray_geom.specs.Boxes.{BoxValue, IsBox, box_value};

    ghost Value = { BoxValue };

    ghost view = { λ b. box_value b.lo b.hi };

    ghost invariant = { λ b. IsBox (box_value b.lo b.hi) };

    ghost inverse = { λ v. record { lo = v.lo; hi = v.hi } };
}

impl Box3 {
    /// The box with these corners. None exactly where a coordinate is above 2^19 in absolute value
    /// or `lo` is above `hi` on an axis.
    pub fn new(lo: Vec3, hi: Vec3) -> Option<Box3>
        ensures { let box = box_value lo hi in SomeIff result (IsBox box) box }
    {
        if is_short(lo, 1 << 19) && is_short(hi, 1 << 19) && is_ordered(lo, hi) {
            Some(Box3::of_corners(lo, hi))
        } else {
            None
        }
    }

    /// The box with these corners, which are known to be within the limits and in order: nothing is
    /// checked.
    pub fn of_corners(lo: Vec3, hi: Vec3) -> Box3
        requires { IsBox (box_value lo hi) }
        ensures { result ≡ box_value lo hi }
    {
        Box3 {
            lo: Point32::narrow(lo),
            hi: Point32::narrow(hi),
        }
    }

    /// The least corner, as `new` was given it.
    pub fn lo(&self) -> Vec3
        ensures value { result ≡ self.now.lo }
        ensures short { IsShort (2 ^ 19) result }
        ensures limits { IsBox self.now }
    {
        self.lo.wide()
    }

    /// Whether a point is in the box, faces included.
    pub fn contains(&self, v: Vec3) -> bool
        ensures { IsTrue result ↔ IsIn v self.now }
    {
        is_below(self.lo.wide(), v) && is_below(v, self.hi.wide())
    }

    /// Whether a box is in this one.
    pub fn holds(&self, inner: &Box3) -> bool
        ensures { IsTrue result ↔ IsPart inner.now self.now }
    {
        is_below(self.lo.wide(), inner.lo.wide()) && is_below(inner.hi.wide(), self.hi.wide())
    }

    /// The greatest corner, as `new` was given it.
    pub fn hi(&self) -> Vec3
        ensures value { result ≡ self.now.hi }
        ensures short { IsShort (2 ^ 19) result }
        ensures limits { IsBox self.now }
    {
        self.hi.wide()
    }
}

impl PartialEq for Box3 {
    ghost use Rattle.ray_geom.specs.Equality.{box_eq, box_eq-laws};

    ghost eq = { box_eq };

    ghost laws = { box_eq-laws };

    fn eq(&self, other: &Box3) -> bool {
        self.lo.wide() == other.lo.wide() && self.hi.wide() == other.hi.wide()
    }
}

impl Eq for Box3 {
    ghost use Rattle.ray_geom.specs.Equality.{box_eq-equivalence};

    ghost laws = { box_eq-equivalence };
}

// Whether no coordinate of lo is above that of hi.
fn is_ordered(lo: Vec3, hi: Vec3) -> bool
    ensures { IsTrue result ↔ ((lo.x ≤ℤ hi.x) × (lo.y ≤ℤ hi.y) × (lo.z ≤ℤ hi.z)) }
{
    lo.x <= hi.x && lo.y <= hi.y && lo.z <= hi.z
}

// Whether no coordinate of the first point is above that of the second.
fn is_below(a: Vec3, b: Vec3) -> bool
    ensures { IsTrue result ↔ IsBelow a b }
{
    is_ordered(a, b)
}
