ghost use Rattle.std.specs.Prelude.{◌≡◌, ◌<◌};
ghost use Rattle.ray_bench.specs.Rays.{down_from, ray_of, aimed_of};

use crate::field::TRIANGLES;
use ray_geom::{Ray, Vec3};

/// How many rays the generator gives.
pub const RAYS: u32 = 1024;

// The ray straight down from above this point of the ground.
fn down(x: u32, y: u32) -> Ray
    requires x_near { x < 72 }
    requires y_near { y < 72 }
    ensures { result ≡ down_from x y }
{
    let origin = Vec3 {
        x: i64::from(x),
        y: i64::from(y),
        z: 4096,
    };
    let dir = Vec3 { x: 0, y: 0, z: -1 };
    Ray::new(origin, dir, 0, 1 << 29).unwrap()
}

/// The generator's ray of this number.
pub fn ray(r: u32) -> Ray
    requires { r < RAYS }
    ensures { result ≡ ray_of r }
{
    down((37 * r + 3) % 72, (53 * r + 1) % 72)
}

/// The ray that hits the triangle of this number near its middle.
pub fn aimed(k: u32) -> Ray
    requires { k < TRIANGLES }
    ensures { result ≡ aimed_of k }
{
    let cell = k / 2;
    let x = 8 * (cell % 8);
    let y = 8 * (cell / 8);
    if k % 2 == 0 {
        down(x + 5, y + 3)
    } else {
        down(x + 3, y + 5)
    }
}
