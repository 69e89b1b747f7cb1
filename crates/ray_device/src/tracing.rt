ghost use Rattle.std.specs.Prelude.{◌≡◌, ◌++◌, ◌+◌, ◌<◌, ◌≤◌, ◌^◌, OnOk};
ghost use Rattle.ray_bytes.specs.Hits.{hit_bytes};
ghost use Rattle.ray_flags.specs.Admission.{AsksBoth};
ghost use Rattle.ray_top.specs.Trees.{without_tree};
ghost use Rattle.ray_candidates.specs.Standing.{AreStanding, structures_in};
ghost use Rattle.ray_action.specs.Outcomes.{hit_by, ray_in};
ghost use Rattle.ray_device.specs.Bounds.{most_by, most_of_rays, most_traced};
ghost use Rattle.ray_device.specs.Fetching.{IsFetched, OnAnswered};
ghost use Rattle.ray_memory.specs.State.{memory_of};
ghost use Rattle.ray_action.specs.Traceable.{IsTraceable};
ghost use Rattle.ray_device.specs.Tracing.{rays_outcome, IsHit, traced};

use crate::fetch_fault::FetchFault;
use crate::output::Output;
use ray_bottom::Bottoms;
use ray_bytes::{DataRule, HitRecord, RayView};
use ray_candidates::QueryOptions;
use ray_cmd::Place;
use ray_geom::{Ray, Steps};
use ray_memory::{State, ray_at};
use ray_query::{Client, record_of};
use ray_rules::ByteRange;
use ray_top::Top;
use ray_walk::{Turns, trace_ray};
use std::alloc::{AllocError as NoMemory, Global};
use std::sync::ledger::Ledger;

// The hits of `count` rays that stand in these bytes, of which the first has the options' number in
// its trace.
#[tactic(auto, using(crate::proofs::Hits::rays_none, crate::proofs::Hits::rays_more, crate::proofs::Hits::rays_told))]
fn hits<C: Client, L: Ledger>(
    alloc: Global,
    top: &Top,
    bottoms: &Bottoms,
    client: &C,
    options: QueryOptions,
    rays: &[u8],
    count: u32,
    steps: &mut Steps<L>,
) -> Result<Output, FetchFault>
    requires standing { AreStanding (without_tree top.now) (structures_in bottoms.now) }
    requires flags_agree { ¬ AsksBoth options.flags }
    requires numbers { options.number + count < 2 ^ 32 }
    ensures value { IsFetched (rays_outcome (without_tree top.now) (structures_in bottoms.now)
        (C.meaning client.now) options.flags options.mask rays.now options.number count) result }
    ensures bound { OnAnswered result (steps.new ≤ steps.old + most_of_rays top.now bottoms.now
        (C.meaning client.now) options.flags options.mask rays.now options.number count) }
    ensures rising { steps.old ≤ steps.new }
{
    let mut out = Vec::with_capacity(alloc, HitRecord::SIZE * count as usize)?;
    let mut turns = Turns::new(alloc);
    for k in 0..count {
        let ray = ray(rays, k);
        let number = options.number + k;
        let each = QueryOptions { number, ..options };
        match hit(top, bottoms, client, each, ray, &mut turns, steps) {
            Ok(hit) => push(&mut out, &hit)?,
            Err(fault) => return Err(fault),
        }
    }
    Ok(Output::Bytes(out))
}

/// What rays of a trace give, where a client decides on their candidates: the bytes of their hits,
/// 80 each. `count` rays stand in the range, of which the first has the options' number in its
/// trace. They and the top structure are there, with the structures of its active instances as they
/// were when it was built or last updated; and the flags don't ask that everything counts as opaque
/// and that nothing does. `Data` comes exactly where a ray is beyond the limits (X11), and tells
/// the first: its number in the trace. A step is taken for each primitive that is tested: for each
/// ray no more than those of the leaves that it opens, in a walk through the trees.
/// (OpRayQueryInitializeKHR and the steps after it)
pub(crate) fn traced_rays<C: Client, L: Ledger>(
    alloc: Global,
    state: &State,
    top: u32,
    from: ByteRange,
    count: u32,
    options: QueryOptions,
    client: &C,
    steps: &mut Steps<L>,
) -> Result<Output, FetchFault>
    requires ready { IsTraceable (memory_of state.now) top from options.flags }
    requires numbers { options.number + count < 2 ^ 32 }
    ensures value { IsFetched (traced (memory_of state.now) top from options.number count
        options.flags options.mask (C.meaning client.now)) result }
    ensures bound { OnAnswered result (steps.new ≤ steps.old + most_traced state.now top from
        options.number count options.flags options.mask (C.meaning client.now)) }
    ensures rising { steps.old ≤ steps.new }
{
    match (state.bytes(from), state.top(top)) {
        (Some(rays), Some(top)) => {
            let bottoms = state.bottoms();
            hits(alloc, top, bottoms, client, options, rays, count, steps)
        }
        _ => unreachable!("the rays and the top structure are there"),
    }
}

// The hit of a ray, which is within the limits if it is there.
fn hit<C: Client, L: Ledger>(
    top: &Top,
    bottoms: &Bottoms,
    client: &C,
    options: QueryOptions,
    ray: Option<Ray>,
    turns: &mut Turns,
    steps: &mut Steps<L>,
) -> Result<HitRecord, FetchFault>
    requires standing { AreStanding (without_tree top.now) (structures_in bottoms.now) }
    requires flags_agree { ¬ AsksBoth options.flags }
    ensures value { IsHit (hit_by (C.meaning client.now) (without_tree top.now)
        (structures_in bottoms.now) options.flags options.mask options.number ray) result }
    ensures bound { OnAnswered result (steps.new ≤ steps.old + most_by top.now bottoms.now
        (C.meaning client.now) options.flags options.mask options.number ray) }
    ensures rising { steps.old ≤ steps.new }
{
    match ray {
        Some(ray) => Ok(record_of(trace_ray(top, bottoms, &ray, options, client, turns, steps)?)),
        None => Err(FetchFault::Data(DataRule::X11, Place::Part(options.number))),
    }
}

// Ray `k` of these bytes. None where it isn't whole, or breaks the limits.
fn ray(rays: &[u8], k: u32) -> Option<Ray>
    ensures { result ≡ ray_in rays.now k }
{
    ray_at(&RayView::new(rays, 0), k)
}

// Appends the bytes of a hit.
fn push(out: &mut Vec<u8>, hit: &HitRecord) -> Result<(), NoMemory>
    ensures { OnOk result (out.new.items ≡ out.old.items ++ hit_bytes hit.now) }
{
    let mut bytes = [0u8; HitRecord::SIZE];
    hit.write(&mut bytes);
    out.extend_from_slice(&bytes)
}
