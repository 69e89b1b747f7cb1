//! Bounds of where a ray enters boxes, in fixed point, so that few boxes are tested exactly.
ghost use Rattle.std.specs.Prelude.{◌<◌, ◌≤◌, ◌^◌, ◌≡◌, IfSome, None, slice_index_or};
ghost use Rattle.ray_slabs.specs.Bounds.{AreBounds};
ghost use Rattle.ray_walk.specs.Bounding.{AreTold, IsFromKey, IsMadeBy, whole};

use ray_geom::{Box3, ObjectRay, Ratio, Vec3};
use ray_lanes::Lanes8;
use ray_slabs::Slabs;

/// What the slabs of a ray tell of eight boxes.
#[derive(Clone, Copy)]
pub(crate) struct Eight {
    /// A bit for each box that may be met.
    pub(crate) met: u8,
    /// The key of each box.
    pub(crate) keys: [u32; 8],
    /// From where keys are counted.
    pub(crate) base: u64,
    /// How fine they are.
    pub(crate) shift: u32,
}

/// The slabs of a ray in the box of all coordinates, without a limit.
pub(crate) fn slabs_of(ray: &ObjectRay) -> Option<Slabs>
    ensures { IfSome result (AreBounds ray.now whole None) }
{
    Slabs::new(ray, &whole(), None)
}

// The box of all coordinates.
fn whole() -> Box3
    ensures { result ≡ whole }
{
    let most = 1 << 19;
    let lo = Vec3 {
        x: -most,
        y: -most,
        z: -most,
    };
    let hi = Vec3 {
        x: most,
        y: most,
        z: most,
    };
    Box3::of_corners(lo, hi)
}

/// The bits of the boxes that may be met by the slabs of a ray. What these tell is put into
/// `eight`.
pub(crate) fn told_by(slabs: &Slabs, lanes: &Lanes8, eight: &mut Option<Eight>) -> u8
    ensures { AreTold slabs.now lanes.now eight.new result }
{
    let told = eight_by(slabs, lanes);
    *eight = Some(told);
    told.met
}

// What slabs tell of eight boxes.
#[inline(always)]
fn eight_by(slabs: &Slabs, lanes: &Lanes8) -> Eight
    ensures { IsMadeBy slabs.now lanes.now result }
{
    let bounds = slabs.test8(lanes);
    let keys = bounds.keys;
    Eight {
        met: bounds.met,
        keys,
        base: slabs.base(),
        shift: slabs.shift(),
    }
}

/// A distance before which a ray doesn't enter one of eight boxes.
pub(crate) fn low_of(eight: &Eight, k: u32) -> Ratio
    requires { k < 8 }
    ensures { let e = eight.now in IsFromKey e.base (slice_index_or e.keys k 0) e.shift result }
{
    from_key(eight.base, eight.keys[k as usize], eight.shift)
}

// A distance that is no greater than that of a key.
fn from_key(base: u64, key: u32, shift: u32) -> Ratio
    ensures { IsFromKey base key shift result }
{
    let keys = base.saturating_add(u64::from(key));
    Ratio {
        num: short(u128::from(keys) * u128::from(scale(shift))),
        den: 1 << 38,
    }
}

// How fine keys are, or 0.
fn scale(shift: u32) -> u64
    ensures { result ≤ 2 ^ shift }
{
    if shift <= 62 { 1 << shift } else { 0 }
}

// The lesser of a number and the greatest one of 64 bits.
fn short(number: u128) -> u64
    ensures { result ≤ number }
{
    if number <= u128::from(u64::MAX) {
        number as u64
    } else {
        u64::MAX
    }
}
