ghost use Rattle.std.specs.Prelude.{◌≡◌, ◌<◌};
ghost use Rattle.ray_bench.specs.Tested.{pair_of};

use crate::field::{TRIANGLES, triangle};
use crate::rays::aimed;
use ray_geom::{Ray, Tri};

/// A ray and a triangle that it is tested against. (Own.)
#[derive(Clone, Copy, Debug)]
pub struct Pair {
    pub ray: Ray,
    pub tri: Tri,
}

/// The triangle of this number with the ray that is aimed at it.
pub fn aimed_pair(k: u32) -> Pair
    requires { k < TRIANGLES }
    ensures { result ≡ pair_of k }
{
    Pair {
        ray: aimed(k),
        tri: triangle(k),
    }
}
