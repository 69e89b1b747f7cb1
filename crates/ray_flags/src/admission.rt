ghost use Rattle.std.specs.Prelude.{◌≡◌, ◌↔◌, IsTrue};
ghost use Rattle.ray_flags.specs.Admission.{AsksBoth, ForcesBoth, IsCulled, culls_face, is_culled, is_culled_by_face, is_culled_by_opacity, is_skipped, opacity_of, overridden, shows_front};

use crate::instance_flags::InstanceFlags;
use crate::kind::Kind;
use crate::ray_flags::RayFlags;
use bitflags::Flags;

/// Whether a primitive counts as opaque: as its geometry does, overridden by the force bits of its
/// instance, overridden by the ray's `opaque` or `no_opaque`. (Vulkan, "Ray Traversal": ray
/// opacity; VK_KHR_ray_query.)
pub fn effective(opaque: bool, instance: InstanceFlags, ray: RayFlags) -> bool
    requires instance_agrees { ¬ ForcesBoth instance }
    requires ray_agrees { ¬ AsksBoth ray }
    ensures { result ≡ opacity_of opaque instance ray }
{
    let forced = override_by(
        opaque,
        instance.contains(InstanceFlags::FORCE_OPAQUE),
        instance.contains(InstanceFlags::FORCE_NO_OPAQUE),
    );
    override_by(
        forced,
        ray.contains(RayFlags::OPAQUE),
        ray.contains(RayFlags::NO_OPAQUE),
    )
}

/// Whether a ray passes over a primitive for its kind, its opacity or its face. `opaque` is what
/// [`effective`] answers, and `front` says whether a triangle shows its front before the instance
/// flips it; a box has no face, so `front` doesn't matter there. (Vulkan, "Ray Traversal": ray
/// culling; VK_KHR_ray_query.)
pub fn culled(kind: Kind, opaque: bool, front: bool, instance: InstanceFlags, ray: RayFlags) -> bool
    ensures cause { IsTrue result ↔ IsCulled kind opaque front instance ray }

    // The same as one test.
    ensures test { result ≡ is_culled kind opaque front instance ray }
{
    skipped(kind, ray)
        || culled_by_opacity(opaque, ray)
        || culled_by_face(kind, front, instance, ray)
}

// The base, unless it is switched on or off.
fn override_by(base: bool, on: bool, off: bool) -> bool
    requires { ¬ (IsTrue on × IsTrue off) }
    ensures { result ≡ overridden base on off }
{
    (base || on) && !off
}

// Whether the ray skips primitives of this kind.
fn skipped(kind: Kind, ray: RayFlags) -> bool
    ensures { result ≡ is_skipped kind ray }
{
    match kind {
        Kind::Triangle => ray.contains(RayFlags::SKIP_TRIANGLES),
        Kind::Aabb => ray.contains(RayFlags::SKIP_AABBS),
    }
}

// Whether the ray culls primitives of this opacity.
fn culled_by_opacity(opaque: bool, ray: RayFlags) -> bool
    ensures { result ≡ is_culled_by_opacity opaque ray }
{
    if opaque {
        ray.contains(RayFlags::CULL_OPAQUE)
    } else {
        ray.contains(RayFlags::CULL_NO_OPAQUE)
    }
}

/// Whether a triangle shows its front once its instance has flipped it, or not: the face that is
/// culled and reported. `front` says so of the triangle before. (Vulkan, "Ray Traversal": ray
/// culling.)
pub fn shows_front(front: bool, instance: InstanceFlags) -> bool
    ensures { result ≡ shows_front front instance }
{
    front ^ instance.contains(InstanceFlags::TRIANGLE_FLIP_FACING)
}

// Whether the ray culls a primitive for the face that it shows.
fn culled_by_face(kind: Kind, front: bool, instance: InstanceFlags, ray: RayFlags) -> bool
    ensures { result ≡ is_culled_by_face kind front instance ray }
{
    match kind {
        Kind::Triangle => {
            let shown = shows_front(front, instance);
            let disabled = instance.contains(InstanceFlags::TRIANGLE_FACING_CULL_DISABLE);
            !disabled && face_culled(shown, ray)
        }
        Kind::Aabb => false,
    }
}

// Whether the ray culls triangles that show their front, or their back.
fn face_culled(front: bool, ray: RayFlags) -> bool
    ensures { result ≡ culls_face front ray }
{
    if front {
        ray.contains(RayFlags::CULL_FRONT_FACING)
    } else {
        ray.contains(RayFlags::CULL_BACK_FACING)
    }
}
