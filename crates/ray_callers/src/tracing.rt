ghost use Rattle.std.specs.Prelude.{◌≡◌, IfOk};
ghost use Rattle.ray_flags.specs.Admission.{AsksBoth};
ghost use Rattle.ray_query.specs.declared.decision.Decision.TheVariants.{Confirm};
ghost use Rattle.ray_top.specs.Trees.{without_tree};
ghost use Rattle.ray_candidates.specs.Candidates.{trace_answer};
ghost use Rattle.ray_candidates.specs.Standing.{AreStanding, structures_in};

use ray_bottom::Bottoms;
use ray_flags::RayFlags;
use ray_geom::{Ray, Steps};
use ray_query::{Candidate, Client, Commit, Decision};
use ray_top::Top;
use ray_walk::{NoMemory, QueryOptions, Turns, trace_ray};
use std::marker::Brand;

/// A client that confirms every triangle that it is asked about.
#[derive(Drop)]
struct Confirming;

impl Client for Confirming {
    ghost meaning = { λ client c. Confirm };

    fn decide(&self, _c: &Candidate) -> Decision {
        Decision::Confirm
    }
}

/// The closest triangle that a ray hits in a top structure, by a cull mask that has all bits. What
/// stands under the ids of its instances is as it was when it was built, and the ray's flags don't
/// ask for both opacities.
///
/// # Errors
///
/// For want of memory alone.
pub fn closest(
    top: &Top,
    bottoms: &Bottoms,
    ray: &Ray,
    flags: RayFlags,
    turns: &mut Turns,
) -> Result<Option<Commit>, NoMemory>
    requires standing { AreStanding (without_tree top.now) (structures_in bottoms.now) }
    requires flags_agree { ¬ AsksBoth flags }
    ensures { IfOk result (λ commit. commit ≡ trace_answer (λ c. Confirm)
        top.now.contents (structures_in bottoms.now) ray.now 0 flags 255) }
{
    let mut steps: Steps<Brand> = Steps::zero();
    let options = QueryOptions {
        number: 0,
        flags,
        mask: 255,
    };
    trace_ray(top, bottoms, ray, options, &Confirming, turns, &mut steps)
}
