//! The instance at which a walk looked last, kept for the nodes that come next.
ghost use Rattle.std.specs.Prelude.{◌≡◌, option_map, IfSome};
ghost use Rattle.ray_walk.specs.Scenes.{IsHeld, IsHolding, is_of, placement_value};
ghost use Rattle.ray_top.specs.Instances.{instance_value};
ghost use Rattle.ray_walk.specs.Traced.{placement_at, placement_of};

use crate::aim::Aim;
use crate::view::View;
use ray_bottom::{Bottom, Bottoms};
use ray_geom::object_ray;
use ray_top::Instance;

/// An instance that is looked at, with the bottom structure that it places in the world.
#[derive(Clone, Copy)]
pub(crate) struct Looked<'a> {
    /// The instance, which is active, and whose mask is seen.
    pub(crate) instance: &'a Instance,
    /// The structure that stands under its id.
    pub(crate) bottom: &'a Bottom,
}

/// An instance that is held, with the ray in its object's space.
#[derive(Drop)]
pub(crate) struct Held<'a> {
    /// Its number.
    pub(crate) number: u32,
    /// The instance with its structure.
    pub(crate) looked: Looked<'a>,
    /// The ray.
    pub(crate) aim: Aim,
}

/// Holds the instance of a number, if it is placed; none is held where it isn't.
pub(crate) fn hold<'a>(view: &View<'a>, held: &mut Option<Held<'a>>, i: u32)
    requires { IfSome held.old (IsHeld view.now) }
    ensures { IsHolding view.now i held.new }
{
    if !is_of(held, i) {
        hold_another(view, held, i);
    }
}

// The same where another one is held, or none. Most nodes are of the instance that is held already,
// so this stands apart.
#[inline(never)]
fn hold_another<'a>(view: &View<'a>, held: &mut Option<Held<'a>>, i: u32)
    requires { IfSome held.old (IsHeld view.now) }
    ensures { IsHolding view.now i held.new }
{
    match looked_at(view, i) {
        Some(looked) => {
            let ray = object_ray(view.ray(), &looked.instance.matrix);
            *held = Some(Held {
                number: i,
                looked,
                aim: Aim::new(ray),
            });
        }
        None => *held = None,
    }
}

// Whether the instance that is held is that of a number.
fn is_of(held: &Option<Held<'_>>, i: u32) -> bool
    ensures { result ≡ is_of i held.now }
{
    match held {
        Some(h) => h.number == i,
        None => false,
    }
}

/// The instance of a number with its structure, where it is active, its mask is seen, and its
/// structure stands there.
#[inline(always)]
pub(crate) fn looked_at<'a>(view: &View<'a>, i: u32) -> Option<Looked<'a>>
    ensures { option_map placement_value result ≡ placement_at view.now i }
{
    let instance = view.top().active_instance(i)?;
    look(view.bottoms(), view.mask(), instance)
}

// The same of an instance that is active.
fn look<'a>(bottoms: &'a Bottoms, mask: u8, instance: &'a Instance) -> Option<Looked<'a>>
    ensures { option_map placement_value result
        ≡ placement_of bottoms.now mask (instance_value instance.now) }
{
    if instance.mask & mask == 0 {
        return None;
    }
    let bottom = bottoms.get(instance.id)?;
    Some(Looked { instance, bottom })
}
