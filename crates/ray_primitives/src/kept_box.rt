ghost use Rattle.std.specs.Prelude.{◌≡◌, [], ◌∷◌, IfSome, None, Some, is_some};
ghost use Rattle.ray_geom.specs.Boxes.{IsBox, box_value};
ghost use Rattle.ray_primitives.specs.Primitives.{IsAabb};
ghost use Rattle.ray_primitives.specs.StoredPrimitives.{written_box};

use ray_bytes::{INACTIVE_MARK, is_inactive_mark};
use ray_geom::{Box3, Point32, Vec3};
use std::marker::Model;

/// A box of a bottom structure in 24 bytes. An inactive one has the mark as its least x; contracts
/// see it as none.
#[derive(Debug, Drop)]
pub struct KeptBox {
    lo: Point32,
    hi: Point32,
}

impl Model for KeptBox {
    ghost use Rattle.std.specs.Prelude.{Option};
    ghost use Rattle.ray_geom.specs.Boxes.{BoxValue};
    ghost use Rattle.ray_primitives.specs.Primitives.{kept_box, IsAabb};

    ghost Value = { Option BoxValue };

    ghost view = { λ b. kept_box b.lo b.hi };

    ghost invariant = { λ b. IsAabb (kept_box b.lo b.hi) };
}

impl KeptBox {
    /// The active box with these corners.
    #[tactic(auto, unfolding(crate::specs::Primitives::kept_box))]
    pub fn active(lo: Vec3, hi: Vec3) -> KeptBox
        requires { IsBox (box_value lo hi) }
        ensures { result ≡ Some (box_value lo hi) }
    {
        KeptBox {
            lo: Point32::narrow(lo),
            hi: Point32::narrow(hi),
        }
    }

    /// The inactive box.
    #[tactic(auto, unfolding(crate::specs::Primitives::kept_box))]
    pub fn inactive() -> KeptBox
        ensures { result ≡ None }
    {
        KeptBox {
            lo: Point32::from_words([INACTIVE_MARK, 0, 0]),
            hi: Point32::from_words([0, 0, 0]),
        }
    }

    /// Whether it is active.
    #[tactic(auto, unfolding(crate::specs::Primitives::kept_box))]
    pub fn is_active(&self) -> bool
        ensures value { result ≡ is_some self.now }
        ensures limits { IsAabb self.now }
    {
        !is_inactive_mark(self.lo.x())
    }

    /// The box. None exactly where it is inactive.
    #[tactic(auto, unfolding(crate::specs::Primitives::kept_box))]
    pub fn bounds(&self) -> Option<Box3>
        ensures value { result ≡ self.now }
        ensures limits { IfSome result IsBox }
    {
        if is_inactive_mark(self.lo.x()) {
            None
        } else {
            Some(Box3::of_corners(self.lo.wide(), self.hi.wide()))
        }
    }

    // Its corners as they are written.
    #[tactic(auto, unfolding(crate::specs::Primitives::kept_box))]
    pub(crate) fn written(&self) -> [Point32; 2]
        ensures { let box = written_box self.now in result ≡ box.lo ∷ box.hi ∷ [] }
    {
        if is_inactive_mark(self.lo.x()) {
            [
                Point32::from_words([INACTIVE_MARK, 0, 0]),
                Point32::from_words([0, 0, 0]),
            ]
        } else {
            [self.lo, self.hi]
        }
    }

    /// The same box.
    #[tactic(auto, unfolding(crate::specs::Primitives::kept_box))]
    pub fn copy(&self) -> KeptBox
        ensures { result ≡ self.now }
    {
        KeptBox {
            lo: self.lo,
            hi: self.hi,
        }
    }
}
