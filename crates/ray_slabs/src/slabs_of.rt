ghost use Rattle.std.specs.Prelude.{ℕ, ◌≡◌, ◌<◌, ◌≤◌, ◌^◌, ◌*◌, ◌+◌, ◌-◌, ◌≤ℤ◌, ◌-ℤ◌, pos};
ghost use Rattle.std.specs.Prelude.{IfSome, IfNone, Some, true};
ghost use Rattle.std.specs.Int.{int_min};
ghost use Rattle.ray_lanes.specs.declared.lanes.Window.{Window};
ghost use Rattle.ray_prune.specs.BoxSpan.{IsInside};
ghost use Rattle.ray_window.specs.Lines.{IsLine, AreLines};
ghost use Rattle.ray_window.specs.Windows.{window_of};
ghost use Rattle.ray_window.specs.Meets.{IsUpTo};
ghost use Rattle.ray_slabs.specs.Axes.{AreSafe};
ghost use Rattle.ray_slabs.specs.Sides.{IsSide};
ghost use Rattle.ray_slabs.specs.Bounds.{AreBounds};
ghost use Rattle.ray_slabs.specs.Ranges.{AreSlopes, AreShort, IsSpanned, IsMadeOf, AreJoined};

use crate::planes::Planes;
use crate::range::{Range, range_of};
use crate::rounding::power;
use crate::shift::{least_size, shift_of};
use crate::side::{Side, Way, side_of};
use crate::slabs::Slabs;
use crate::slope::{Slopes, slopes_of};
use ray_geom::{Box3, ObjectRay, Ratio, Vec3};
use ray_lanes::Window;
use ray_window::window_of;

impl Slabs {
    /// The slabs of a ray and the root's box, up to a limit: conservative bounds of the distances
    /// at which boxes in the root's box are met. None where the root's box isn't met up to the
    /// limit, though not everywhere there. (Own.)
    pub fn new(ray: &ObjectRay, root: &Box3, limit: Option<Ratio>) -> Option<Slabs>
        ensures bounds { IfSome result (AreBounds ray.now root.now limit) }
        ensures none { IfNone result ((n d : ℕ) → 0 < d → IsUpTo limit n d →
            ¬ IsInside ray.now root.now n d) }
    {
        let shift = shift_of(ray.det(), ray.dir());
        let slopes = slopes_of(
            ray.det(),
            ray.origin(),
            ray.dir(),
            shift,
            least_size(ray.dir()),
        );
        let range = range_of(ray, Planes::of(root), slopes, limit, shift);
        if range.last < range.first {
            None
        } else {
            Some(made(ray, slopes, range, shift, until(range.last as u64, shift)))
        }
    }
}

// The distance of the key behind the last.
fn until(last: u64, shift: u32) -> Ratio
    requires last { last * 2 ^ shift ≤ 2 ^ 62 }
    requires shift { shift ≤ 62 }
    ensures num { result.num ≡ (last + 1) * 2 ^ shift }
    ensures den { result.den ≡ 2 ^ 38 }
{
    Ratio {
        num: (last + 1) * power(shift),
        den: 1 << 38,
    }
}

// The slabs with these slopes and keys. The window is made where an axis is nearly flat alone.
fn made(ray: &ObjectRay, slopes: Slopes, range: Range, shift: u32, until: Ratio) -> Slabs
    requires slopes { AreSlopes ray.now.det ray.now.origin ray.now.dir shift slopes }
    requires short { AreShort slopes }
    requires range { IsSpanned range }
    ensures { IsMadeOf ray.now.det ray.now.origin ray.now.dir
        (window_of ray.now (Some until)) range shift result }
{
    let slabs = bare(ray, slopes, range, shift);
    if slabs.exact {
        slabs
    } else {
        windowed(ray, slopes, range, shift, until)
    }
}

// The same without a window. Where they are exact it makes no difference.
fn bare(ray: &ObjectRay, slopes: Slopes, range: Range, shift: u32) -> Slabs
    requires slopes { AreSlopes ray.now.det ray.now.origin ray.now.dir shift slopes }
    requires short { AreShort slopes }
    requires range { IsSpanned range }
    ensures { result.exact ≡ true → (window : Window) →
        IsMadeOf ray.now.det ray.now.origin ray.now.dir window range shift result }
{
    let none = Window {
        lo: [0; 3],
        hi: [0; 3],
    };
    sides_of(
        ray.det(),
        ray.origin(),
        ray.dir(),
        slopes,
        range,
        shift,
        none,
    )
}

// The same with the window up to a distance. Few rays have an axis that is nearly flat.
#[inline(never)]
fn windowed(ray: &ObjectRay, slopes: Slopes, range: Range, shift: u32, until: Ratio) -> Slabs
    requires slopes { AreSlopes ray.now.det ray.now.origin ray.now.dir shift slopes }
    requires short { AreShort slopes }
    requires range { IsSpanned range }
    ensures { IsMadeOf ray.now.det ray.now.origin ray.now.dir
        (window_of ray.now (Some until)) range shift result }
{
    let window = window_of(ray, Some(until));
    sides_of(
        ray.det(),
        ray.origin(),
        ray.dir(),
        slopes,
        range,
        shift,
        window,
    )
}

// The same by the numbers of the ray and its window.
fn sides_of(
    det: i64,
    origin: Vec3,
    dir: Vec3,
    slopes: Slopes,
    range: Range,
    shift: u32,
    window: Window,
) -> Slabs
    requires lines { AreLines det origin dir }
    requires slopes { AreSlopes det origin dir shift slopes }
    requires short { AreShort slopes }
    requires range { IsSpanned range }
    ensures made { IsMadeOf det origin dir window range shift result }
    ensures free { result.exact ≡ true → (other : Window) →
        IsMadeOf det origin dir other range shift result }
{
    let base = range.first as u64;
    let x = Way {
        det,
        o: origin.x,
        m: dir.x,
    };
    let y = Way {
        det,
        o: origin.y,
        m: dir.y,
    };
    let z = Way {
        det,
        o: origin.z,
        m: dir.z,
    };
    joined(
        side_of(slopes.x, base, x, window.lo[0], window.hi[0]),
        side_of(slopes.y, base, y, window.lo[1], window.hi[1]),
        side_of(slopes.z, base, z, window.lo[2], window.hi[2]),
        base,
        last_of(range),
        shift,
    )
}

// The last key of a range, counted from the first.
fn last_of(range: Range) -> i32
    requires { IsSpanned range }
    ensures value { result ≡ int_min (range.last -ℤ range.first) (pos (2 ^ 31 - 64)) }
    ensures not_before { pos 0 ≤ℤ result }
{
    ((1 << 31) - 64).min(range.last - range.first) as i32
}

// Three sides as slabs.
fn joined(x: Side, y: Side, z: Side, base: u64, last: i32, shift: u32) -> Slabs
    requires { AreSafe x.axis y.axis z.axis last }
    ensures { AreJoined x y z base last shift result }
{
    Slabs {
        x: x.axis,
        y: y.axis,
        z: z.axis,
        base,
        last,
        shift,
        exact: x.exact && y.exact && z.exact,
    }
}
