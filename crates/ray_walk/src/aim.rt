ghost use Rattle.std.specs.Prelude.{◌≡◌, IsTrue, IfNone, IfSome, IsSome, None, ◌↔◌};
ghost use Rattle.ray_window.specs.Windows.{window_of};
ghost use Rattle.ray_walk.specs.Aims.{IsAimed, IsSameLimit};

use crate::bounding::slabs_of;
use ray_geom::{ObjectRay, Ratio, Vec3};
use ray_lanes::Window;
use ray_slabs::Slabs;
use ray_wide::WideLeaf;
use ray_window::window_of;

/// A ray in the space of a structure, with the window that was asked for last.
#[derive(Drop)]
pub(crate) struct Aim {
    /// The ray.
    pub(crate) ray: ObjectRay,
    /// Its window up to a limit, where one was asked for.
    pub(crate) seen: Option<Seen>,
    /// The leaf of the structure that was met last as a child of a wide node, by its window at
    /// least. Most often it is opened next.
    pub(crate) recent: Option<WideLeaf>,
    /// Its slabs, where they were made.
    pub(crate) slabs: Option<Slabs>,
    /// Whether slabs are to be made: nodes are then tested by these, and by no window.
    pub(crate) is_slanted: bool,
}

/// The window of a ray up to a limit.
#[derive(Clone, Copy)]
pub struct Seen {
    pub limit: Option<Ratio>,
    pub window: Window,
}

impl Aim {
    /// A ray, for which no window was asked yet.
    pub(crate) fn new(ray: ObjectRay) -> Aim
        ensures ray { result.ray ≡ ray }
        ensures aimed { IsAimed result }
        ensures recent { result.recent ≡ None }
    {
        Aim {
            ray,
            seen: None,
            recent: None,
            slabs: None,
            is_slanted: is_slanted(ray.dir()),
        }
    }
}

// Whether a ray goes along more than one axis: then its window is wide, and leaves many boxes.
fn is_slanted(dir: Vec3) -> bool {
    let (x, y, z) = (dir.x != 0, dir.y != 0, dir.z != 0);
    x && (y || z) || y && z
}

/// The window of the ray up to a limit, where it goes along an axis. Else none, and its slabs are
/// there, which are made the first time.
#[inline(always)]
pub(crate) fn sight_at(aim: &mut Aim, limit: Option<Ratio>) -> Option<Window>
    requires { IsAimed aim.old }
    ensures value { IfSome result (λ window. window ≡ window_of aim.old.ray limit) }
    ensures slabs { IfNone result (IsSome aim.new.slabs) }
    ensures ray { aim.new.ray ≡ aim.old.ray }
    ensures recent { aim.new.recent ≡ aim.old.recent }
    ensures aimed { IsAimed aim.new }
{
    if aim.is_slanted {
        make_slabs(aim);
    }
    match aim.slabs {
        Some(_) => None,
        None => Some(window_at(aim, limit)),
    }
}

// Makes the slabs of the ray, once.
#[inline(never)]
fn make_slabs(aim: &mut Aim)
    requires { IsAimed aim.old }
    ensures ray { aim.new.ray ≡ aim.old.ray }
    ensures recent { aim.new.recent ≡ aim.old.recent }
    ensures aimed { IsAimed aim.new }
{
    aim.is_slanted = false;
    aim.slabs = slabs_of(&aim.ray);
}

// The window of the ray up to a limit. It is made where another one was asked for last.
#[inline(always)]
fn window_at(aim: &mut Aim, limit: Option<Ratio>) -> Window
    requires { IsAimed aim.old }
    ensures value { result ≡ window_of aim.old.ray limit }
    ensures ray { aim.new.ray ≡ aim.old.ray }
    ensures recent { aim.new.recent ≡ aim.old.recent }
    ensures aimed { IsAimed aim.new }
{
    if let Some(seen) = aim.seen {
        if is_same_limit(seen.limit, limit) {
            return seen.window;
        }
    }
    new_window(aim, limit)
}

// The same where another one was asked for last, or none. That is seldom, and stands apart so that
// the test of it can stand where it is needed.
#[inline(never)]
fn new_window(aim: &mut Aim, limit: Option<Ratio>) -> Window
    requires { IsAimed aim.old }
    ensures value { result ≡ window_of aim.old.ray limit }
    ensures ray { aim.new.ray ≡ aim.old.ray }
    ensures recent { aim.new.recent ≡ aim.old.recent }
    ensures aimed { IsAimed aim.new }
{
    let window = window_of(&aim.ray, limit);
    aim.seen = Some(Seen { limit, window });
    window
}

// Whether two limits have the same numbers.
fn is_same_limit(a: Option<Ratio>, b: Option<Ratio>) -> bool
    ensures { IsTrue result → IsSameLimit a b }
{
    match (a, b) {
        (None, None) => true,
        (Some(a), Some(b)) => has_same_parts(a, b),
        _ => false,
    }
}

// Whether two ratios have the same parts.
fn has_same_parts(a: Ratio, b: Ratio) -> bool
    ensures { IsTrue result ↔ ((a.num ≡ b.num) × (a.den ≡ b.den)) }
{
    a.num == b.num && a.den == b.den
}
