ghost use Rattle.std.specs.Prelude.{◌≡◌};
ghost use Rattle.ray_geom.specs.Vector.{vec3};

use ray_geom::{Owner, Ray, Steps, Tri, Vec3, edge_owner};
use std::marker::Brand;
use std::mem;

// The greatest tmax, 2^40.
const FAR: u64 = 1 << 40;

const fn at(x: i64, y: i64, z: i64) -> Vec3
    ensures { result ≡ vec3 x y z }
{
    Vec3 { x, y, z }
}

#[test]
fn counts_without_bytes(rt: HostRuntime) {
    let mut steps: Steps<Brand> = Steps::zero();
    steps.tick();
    assert_eq!(rt; mem::size_of::<Steps<Brand>>(), 0);
}

// A square in two triangles, whose shared edge goes from (4, 4, 0) to (0, 0, 0).
#[test]
fn owns_edges(rt: HostRuntime) {
    let lower = Tri::new(at(0, 0, 0), at(4, 0, 0), at(4, 4, 0)).expect(&rt, "lower");
    let upper = Tri::new(at(0, 0, 0), at(4, 4, 0), at(0, 4, 0)).expect(&rt, "upper");
    let above = Ray::new(at(2, 2, 5), at(0, 0, -1), 0, FAR).expect(&rt, "above");
    let below = Ray::new(at(2, 2, -5), at(0, 0, 1), 0, FAR).expect(&rt, "below");
    let slanting = Ray::new(at(5, 3, 4), at(-1, 0, -2), 0, 131072).expect(&rt, "slanting");
    assert_eq!(rt; edge_owner(&above, &lower, &upper, 2, 0), Owner::First);
    assert_eq!(rt; edge_owner(&above, &upper, &lower, 0, 2), Owner::Second);
    assert_eq!(rt; edge_owner(&below, &lower, &upper, 2, 0), Owner::First);
    assert_eq!(rt; edge_owner(&slanting, &lower, &upper, 2, 0), Owner::First);
}
