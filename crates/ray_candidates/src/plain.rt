ghost use Rattle.std.specs.Prelude.{◌≡◌, ◌≤◌, IfOk};
ghost use Rattle.ray_flags.specs.Admission.{AsksBoth};
ghost use Rattle.ray_top.specs.Trees.{without_tree};
ghost use Rattle.ray_query.specs.KeyOrder.{AreApart, in_key_order};
ghost use Rattle.ray_candidates.specs.Candidates.{trace_answer};
ghost use Rattle.ray_candidates.specs.Standing.{AreStanding, structures_in};

use crate::gathering::gather;
use crate::options::QueryOptions;
use ray_bottom::Bottoms;
use ray_geom::{Ray, Steps};
use ray_query::{Client, Commit, Found, Query};
use ray_top::Top;
use std::alloc::{AllocError as NoMemory, Global};
use std::sync::ledger::Ledger;

/// What the trace of a ray commits, by testing every primitive: it gathers the candidates, puts
/// them in key order and plays them by a query. None exactly where the play commits nothing. The
/// structure of each active instance stands under its id, with the bounds that stood beside the id
/// when `top` was built or last updated, and the flags don't ask that everything counts as opaque
/// and that nothing does. A step is taken for each primitive that is tested, and memory for what is
/// found alone. (Vulkan, "Ray Traversal"; SPV_KHR_ray_query.)
pub fn trace_plain<C: Client, L: Ledger>(
    alloc: Global,
    top: &Top,
    bottoms: &Bottoms,
    ray: &Ray,
    options: QueryOptions,
    client: &C,
    steps: &mut Steps<L>,
) -> Result<Option<Commit>, NoMemory>
    requires standing { AreStanding (without_tree top.now) (structures_in bottoms.now) }
    requires flags_agree { ¬ AsksBoth options.flags }
    ensures answer { IfOk result (λ answer. answer ≡ trace_answer (C.meaning client.now)
        top.now.contents (structures_in bottoms.now) ray.now options.number
        options.flags options.mask) }
    ensures rising { steps.old ≤ steps.new }
{
    let mut found = gather(alloc, top, bottoms, ray, options.flags, options.mask, steps)?;
    put_in_order(&mut found);
    let mut query = Query::initialize(options.number, options.flags);
    query.play(client, found.as_slice());
    Ok(query.committed())
}

// Puts what was found in rising order of keys.
fn put_in_order(found: &mut Vec<Found>)
    requires { AreApart found.old.items }
    ensures { found.new.items ≡ in_key_order found.old.items }
{
    found.sort_unstable_by_key(|f| f.key());
}
