ghost use Rattle.std.specs.Prelude.{◌≡◌, ◌<◌};
ghost use Rattle.ray_bench.specs.Spots.{transform, box_of, spot_of};

use crate::field::TRIANGLES;
use crate::rays::aimed;
use ray_geom::{Box3, Matrix, ObjectRay, Vec3, object_ray};

/// A box of an instance, and the ray in the space of the instance's object that it is tested
/// against. (Own.)
#[derive(Clone, Copy, Debug)]
pub struct Spot {
    pub ray: ObjectRay,
    pub box3: Box3,
}

/// The ray aimed at the triangle of this number, with the box of its cell where the number is even,
/// and with that of the next cell where it is odd.
pub fn aimed_spot(k: u32) -> Spot
    requires { k < TRIANGLES }
    ensures { result ≡ spot_of k }
{
    Spot {
        ray: object_ray(&aimed(k), &instance()),
        box3: cell_box((k / 2 + k % 2) % 64),
    }
}

// The instance's transform.
fn instance() -> Matrix
    ensures { result ≡ transform }
{
    Matrix::new([[2, 0, 0, 0], [0, 2, 0, 0], [0, 0, -1, 6]]).unwrap()
}

// The box over a cell, in the space of the object.
fn cell_box(cell: u32) -> Box3
    requires { cell < 64 }
    ensures { result ≡ box_of cell }
{
    let x = i64::from(4 * (cell % 8));
    let y = i64::from(4 * (cell / 8));
    let lo = Vec3 { x, y, z: 0 };
    let hi = Vec3 {
        x: x + 4,
        y: y + 4,
        z: 6,
    };
    Box3::new(lo, hi).unwrap()
}
