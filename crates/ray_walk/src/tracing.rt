ghost use Rattle.std.specs.Prelude.{◌≡◌, ◌≤◌, ◌+◌, IfOk};
ghost use Rattle.ray_flags.specs.Admission.{AsksBoth};
ghost use Rattle.ray_query.specs.Limits.{distance_of};
ghost use Rattle.ray_nearest.specs.Scene.{opened_in};
ghost use Rattle.ray_top.specs.Trees.{without_tree};
ghost use Rattle.ray_candidates.specs.Candidates.{trace_answer};
ghost use Rattle.ray_candidates.specs.Standing.{AreStanding, structures_in};
ghost use Rattle.ray_walk.specs.Traced.{traced_by, traced_scene};

use crate::ray_scene::RayScene;
use crate::view::View;
use ray_bottom::Bottoms;
use ray_candidates::QueryOptions;
use ray_geom::{Ray, Steps};
use ray_nearest::{NoMemory, Turns, walk};
use ray_query::{Client, Commit};
use ray_top::Top;
use std::sync::ledger::Ledger;

/// What the trace of a ray commits, by a walk through the box trees of the top structure and of the
/// bottom structures below it: it opens nodes nearest first, and ends where all that waits is
/// beyond the committed hit. None exactly where the play of the candidates commits nothing. The
/// structure of each active instance stands under its id, with the bounds that stood beside the id
/// when `top` was built or last updated, and the flags don't ask that everything counts as opaque
/// and that nothing does. A step is taken for each primitive that is tested: no more than the
/// primitives of the opened leaves, those whose boxes, and those above them, are met up to the
/// committed distance. Turns that wait in `turns` are dropped, and memory is taken for turns alone;
/// that of the heap is kept from ray to ray. After any answer, want of memory too, `turns` may hold
/// what waited last. (Vulkan, "Ray Traversal"; own: the order, and the bound.)
pub fn trace_ray<C: Client, L: Ledger>(
    top: &Top,
    bottoms: &Bottoms,
    ray: &Ray,
    options: QueryOptions,
    client: &C,
    turns: &mut Turns,
    steps: &mut Steps<L>,
) -> Result<Option<Commit>, NoMemory>
    requires standing { AreStanding (without_tree top.now) (structures_in bottoms.now) }
    requires flags_agree { ¬ AsksBoth options.flags }
    ensures answer { IfOk result (λ answer. answer ≡ trace_answer (C.meaning client.now)
        top.now.contents (structures_in bottoms.now) ray.now options.number
        options.flags options.mask) }
    ensures bound { IfOk result (λ answer. steps.new ≤ steps.old + opened_in
        (traced_scene (traced_by top.now bottoms.now ray.now options.flags options.mask))
        (distance_of answer)) }
    ensures rising { steps.old ≤ steps.new }
{
    let view = View::new(top, bottoms, ray, options.flags, options.mask);
    view.known();
    let mut scene = RayScene::new(view);
    walk(
        &mut scene,
        options.number,
        options.flags,
        client,
        turns,
        steps,
    )
}
