ghost use Rattle.std.specs.Prelude.{IfSome};
ghost use Rattle.ray_flags.specs.Admission.{AsksBoth};

use crate::instances::mask;
use crate::numbers::Numbers;
use crate::scene::Sent;
use bitflags::Flags;
use ray_flags::RayFlags;
use ray_geom::{Ray, Vec3};

/// A random ray: from near the middle, or from further away, often along an axis, with flags that
/// agree.
pub(crate) fn sent(numbers: &mut Numbers) -> Option<Sent>
    ensures { IfSome result (λ sent. ¬ AsksBoth sent.flags) }
{
    let reach = match numbers.below(3) {
        0 => 3,
        1 => 8,
        _ => 20,
    };
    let origin = near(numbers, reach);
    let dir = direction(numbers, origin);
    let tmin = if numbers.is_one_of(4) {
        u64::from(numbers.below(6)) * 32768
    } else {
        0
    };
    let length = if numbers.is_one_of(4) {
        u64::from(numbers.below(16)) * 32768
    } else {
        1 << 30
    };
    let ray = Ray::new(origin, dir, tmin, tmin + length)?;
    Some(Sent {
        ray,
        flags: agreeing(flags(numbers)),
        mask: mask(numbers),
    })
}

// A point up to a reach from the middle.
fn near(numbers: &mut Numbers, reach: u16) -> Vec3 {
    Vec3 {
        x: i64::from(numbers.within(reach)),
        y: i64::from(numbers.within(reach)),
        z: i64::from(numbers.within(reach)),
    }
}

// A direction from a point: along an axis, to a point near the middle, or any.
fn direction(numbers: &mut Numbers, from: Vec3) -> Vec3 {
    let drawn = match numbers.below(5) {
        0 => axis(numbers),
        1 | 2 | 3 => {
            let to = near(numbers, 4);
            Vec3 {
                x: to.x.saturating_sub(from.x),
                y: to.y.saturating_sub(from.y),
                z: to.z.saturating_sub(from.z),
            }
        }
        _ => near(numbers, 3),
    };
    if drawn == (Vec3 { x: 0, y: 0, z: 0 }) {
        Vec3 { x: 0, y: 0, z: 1 }
    } else {
        drawn
    }
}

// A direction along an axis.
fn axis(numbers: &mut Numbers) -> Vec3 {
    let way = if numbers.is_one_of(2) { -1 } else { 1 };
    match numbers.below(3) {
        0 => Vec3 { x: way, y: 0, z: 0 },
        1 => Vec3 { x: 0, y: way, z: 0 },
        _ => Vec3 { x: 0, y: 0, z: way },
    }
}

// Random flags of a ray: mostly none, else one or two.
fn flags(numbers: &mut Numbers) -> RayFlags {
    if numbers.is_one_of(4) {
        let (one, other) = (flag(numbers.below(10)), flag(numbers.below(10)));
        RayFlags(one | other)
    } else {
        RayFlags(0)
    }
}

// The bits of a flag by its number.
fn flag(number: u32) -> u32 {
    match number {
        0 => 1,
        1 => 2,
        2 => 4,
        3 => 8,
        4 => 16,
        5 => 32,
        6 => 64,
        7 => 128,
        8 => 256,
        _ => 512,
    }
}

// These flags, where they don't ask that everything counts as opaque and that nothing does.
fn agreeing(flags: RayFlags) -> RayFlags
    ensures { ¬ AsksBoth result }
{
    if flags.contains(RayFlags::OPAQUE) && flags.contains(RayFlags::NO_OPAQUE) {
        RayFlags(0)
    } else {
        flags
    }
}
