ghost use Rattle.std.specs.Prelude.{◌≡◌, ◌<◌, ◌≤◌};
ghost use Rattle.ray_bench.specs.Field.{vertex_of, lower_of, upper_of, triangle_of};

use ray_geom::{Tri, Vec3};

/// The number of triangles of the height field of 8 x 8 cells.
pub const TRIANGLES: u32 = 128;

// The vertex of the height field in this column and row.
fn vertex(column: u32, row: u32) -> Vec3
    requires column_in { column ≤ 8 }
    requires row_in { row ≤ 8 }
    ensures { result ≡ vertex_of column row }
{
    Vec3 {
        x: i64::from(8 * column),
        y: i64::from(8 * row),
        z: i64::from((5 * column + 3 * row) % 7),
    }
}

// The triangle at the lower right of a cell.
fn lower(column: u32, row: u32) -> Tri
    requires column_in { column < 8 }
    requires row_in { row < 8 }
    ensures { result ≡ lower_of column row }
{
    Tri::new(
        vertex(column, row),
        vertex(column + 1, row),
        vertex(column + 1, row + 1),
    )
    .unwrap()
}

// The triangle at the upper left of a cell.
fn upper(column: u32, row: u32) -> Tri
    requires column_in { column < 8 }
    requires row_in { row < 8 }
    ensures { result ≡ upper_of column row }
{
    Tri::new(
        vertex(column, row),
        vertex(column + 1, row + 1),
        vertex(column, row + 1),
    )
    .unwrap()
}

/// The triangle of this number: cell by cell along the rows, the lower one and then the upper one.
pub fn triangle(k: u32) -> Tri
    requires { k < TRIANGLES }
    ensures { result ≡ triangle_of k }
{
    let cell = k / 2;
    if k % 2 == 0 {
        lower(cell % 8, cell / 8)
    } else {
        upper(cell % 8, cell / 8)
    }
}
