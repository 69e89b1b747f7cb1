ghost use Rattle.std.specs.Prelude.{◌≡◌, ◌≤ℤ◌};
ghost use Rattle.std.specs.Int.{int_min, int_max};
ghost use Rattle.ray_slabs.specs.Axes.{beyond};
ghost use Rattle.ray_slabs.specs.Bounds.{planes_of, bound_of, bound_by, entry_key, exit_key};
ghost use Rattle.ray_slabs.specs.Bounds.{AreStored};

use crate::bound::Bound;
use crate::crossing::{far, near};
use crate::planes::Planes;
use crate::slabs::Slabs;
use ray_geom::Box3;

impl Slabs {
    /// The key at which the root's box is entered, from which those of boxes are counted.
    pub fn base(&self) -> u64
        ensures { result ≡ self.now.base }
    {
        self.base
    }

    /// How fine keys are: in 2^(shift - 38).
    pub fn shift(&self) -> u32
        ensures { result ≡ self.now.shift }
    {
        self.shift
    }

    /// The greatest key of a distance up to the limit of these slabs, counted from the base.
    pub fn last(&self) -> i32
        ensures { result ≡ self.now.last }
    {
        self.last
    }

    /// The slab test of one box, up to a limit, which is a key counted as those of the boxes.
    pub fn test(&self, b: &Box3, limit: i32) -> Option<Bound>
        ensures { result ≡ bound_of self.now limit (planes_of b.now) }
    {
        self.test_planes(Planes::of(b), limit)
    }

    /// The same of a box by its planes.
    pub fn test_planes(&self, planes: Planes, limit: i32) -> Option<Bound>
        requires { AreStored planes }
        ensures { result ≡ bound_of self.now limit planes }
    {
        let entry = self.entry(planes);
        let exit = self.exit(planes, limit);
        bound(self.exact, entry, exit)
    }

    // The key of a box.
    fn entry(&self, planes: Planes) -> i32
        requires { AreStored planes }
        ensures value { result ≡ entry_key self.now planes }
        ensures short { result ≤ℤ beyond }
    {
        let x = greater(0, near(self.x, planes.lo_x, planes.hi_x));
        let y = greater(x, near(self.y, planes.lo_y, planes.hi_y));
        greater(y, near(self.z, planes.lo_z, planes.hi_z))
    }

    // The lesser of the last key and a limit.
    fn until(&self, limit: i32) -> i32
        ensures { result ≡ int_min self.now.last limit }
    {
        limit.min(self.last)
    }

    // The least key beyond which a box isn't met.
    fn exit(&self, planes: Planes, limit: i32) -> i32
        requires { AreStored planes }
        ensures { result ≡ exit_key self.now limit planes }
    {
        let x = lesser(self.until(limit), far(self.x, planes.lo_x, planes.hi_x));
        let y = lesser(x, far(self.y, planes.lo_y, planes.hi_y));
        lesser(y, far(self.z, planes.lo_z, planes.hi_z))
    }
}

// The greater of two keys.
fn greater(a: i32, b: i32) -> i32
    requires a { a ≤ℤ beyond }
    requires b { b ≤ℤ beyond }
    ensures value { result ≡ int_max a b }
    ensures short { result ≤ℤ beyond }
{
    b.max(a)
}

// The lesser of two keys.
fn lesser(a: i32, b: i32) -> i32
    ensures { result ≡ int_min a b }
{
    b.min(a)
}

// What the test answers of an entry and an exit.
pub(crate) fn bound(exact: bool, entry: i32, exit: i32) -> Option<Bound>
    requires { entry ≤ℤ beyond }
    ensures { result ≡ bound_by exact entry exit }
{
    if entry <= exit {
        Some(Bound {
            key: entry,
            sure: exact && entry + 6 <= exit,
        })
    } else {
        None
    }
}
