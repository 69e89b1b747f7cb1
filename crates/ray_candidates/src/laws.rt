ghost use Rattle.std.specs.Prelude.{IfSome, All};
ghost use Rattle.ray_contents.specs.Bounds.{KeepsBounds};
ghost use Rattle.ray_geometries.specs.Contents.{bounds_of};
ghost use Rattle.ray_bottom.specs.Meeting.{meet_of};
ghost use Rattle.ray_top.specs.Trees.{without_tree};
ghost use Rattle.ray_candidates.specs.Laws.{CandidatesAreOne, CandidatesAreSo, FacesAreSo};
ghost use Rattle.ray_candidates.specs.Laws.{CandidatesAgree, KeepsAllNumbers};
ghost use Rattle.ray_candidates.specs.Standing.{AreStanding, IsHere, structures_in};

use ray_bottom::{Bottom, Bottoms, PrimPlace};
use ray_geom::{Matrix, Ray, Steps};
use ray_top::Top;
use std::marker::Brand;

/// The law of candidates: their keys rise, and they are exactly what the ray finds; and no other
/// list is so. A triangle that is hit shows its front, before the instance's flip, exactly where
/// the determinants of the hit and of the instance's matrix have opposite signs. (Vulkan, "Ray
/// Intersection Candidate Determination"; own: the order.)
pub fn candidates_law()
    ensures so { CandidatesAreSo }
    ensures only { CandidatesAreOne }
    ensures faces { FacesAreSo }
{}

/// The law of structures: where the same stands under the ids of the active instances, the
/// candidates are the same, and with them the answers of traces. (Own.)
pub fn agreeing_law()
    ensures { CandidatesAgree }
{}

/// The law of numbers: what is found has the numerators and denominators of what is met, which are
/// those of fractions within the limits, in lowest terms. (Own.)
pub fn numbers_law(bottom: &Bottom, place: PrimPlace, ray: &Ray, m: &Matrix)
    requires { KeepsBounds m.now (bounds_of bottom.now.geometries) }
    ensures { IfSome (meet_of bottom.now.geometries place ray.now m.now) KeepsAllNumbers }
{
    let mut steps: Steps<Brand> = Steps::zero();
    let _meet = bottom.test_prim(place, ray, m, &mut steps);
}

/// The law of standing: where each structure that was in use stands under its id with the bounds
/// that were given, the structure of each active instance does. (Own.)
pub fn standing_law(top: &Top, _bottoms: &Bottoms)
    requires { All (IsHere (structures_in _bottoms.now)) top.now.used }
    ensures { AreStanding (without_tree top.now) (structures_in _bottoms.now) }
{
    let _limits = top.len();
}
