ghost use Rattle.std.specs.Prelude.{◌≡◌};
ghost use Rattle.ray_flags.specs.Admission.{AsksBoth};
ghost use Rattle.ray_top.specs.Trees.{without_tree};
ghost use Rattle.ray_walk.specs.Sound.{IsWalkable};
ghost use Rattle.ray_candidates.specs.Standing.{AreStanding, structures_in};
ghost use Rattle.ray_walk.specs.Traced.{traced_by};

use ray_bottom::Bottoms;
use ray_flags::RayFlags;
use ray_geom::Ray;
use ray_top::Top;
use std::marker::Model;

/// What a walk looks at for one ray: the top structure, and the bottom structures below it.
#[derive(Drop)]
pub(crate) struct View<'a> {
    top: &'a Top,
    bottoms: &'a Bottoms,
    ray: &'a Ray,
    flags: RayFlags,
    mask: u8,
}

impl<'a> Model for View<'a> {
    ghost use Rattle.ray_walk.specs.Scenes.{IsAtHand};
    ghost use Rattle.ray_walk.specs.Traced.{Traced, traced_by};

    ghost Value = { Traced };

    ghost view = { λ s. traced_by s.top.now s.bottoms.now s.ray.now s.flags s.mask };

    ghost invariant = { λ s.
        IsAtHand (traced_by s.top.now s.bottoms.now s.ray.now s.flags s.mask) };
}

impl<'a> View<'a> {
    /// That of a ray. The structures of the active instances stand there, as they were when
    /// the top structure was built or last updated.
    pub(crate) fn new(
        top: &'a Top,
        bottoms: &'a Bottoms,
        ray: &'a Ray,
        flags: RayFlags,
        mask: u8,
    ) -> View<'a>
        requires standing { AreStanding (without_tree top.now) (structures_in bottoms.now) }
        requires flags_agree { ¬ AsksBoth flags }
        ensures { result ≡ traced_by top.now bottoms.now ray.now flags mask }
    {
        let _len = top.len();
        let _tree = top.tree();
        let _wide = top.wide();
        let _origin = ray.origin();
        bottoms.sound();
        View {
            top,
            bottoms,
            ray,
            flags,
            mask,
        }
    }

    /// The top structure.
    pub(crate) fn top(&self) -> &'a Top
        ensures { result.now ≡ self.now.top }
    {
        self.top
    }

    /// The bottom structures.
    pub(crate) fn bottoms(&self) -> &'a Bottoms
        ensures { result.now ≡ self.now.bottoms }
    {
        self.bottoms
    }

    /// The ray.
    pub(crate) fn ray(&self) -> &'a Ray
        ensures { result.now ≡ self.now.ray }
    {
        self.ray
    }

    /// The flags of the ray, which agree.
    pub(crate) fn flags(&self) -> RayFlags
        ensures value { result ≡ self.now.flags }
        ensures agree { ¬ AsksBoth self.now.flags }
    {
        self.flags
    }

    /// The cull mask.
    pub(crate) fn mask(&self) -> u8
        ensures { result ≡ self.now.mask }
    {
        self.mask
    }

    /// What is known of all that is looked at.
    pub(crate) fn known(&self)
        ensures { IsWalkable self.now }
    {
        let _flags = self.flags;
    }
}
