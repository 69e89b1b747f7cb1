ghost use Rattle.std.specs.Prelude.{◌≡◌, ◌+◌, ◌*◌, ◌≤◌, ◌↔◌, IfOk, IsTrue, option_map};
ghost use Rattle.ray_flags.specs.Admission.{AsksBoth};
ghost use Rattle.ray_geom.specs.Ratio.{parts_of};
ghost use Rattle.ray_top.specs.Trees.{without_tree};
ghost use Rattle.ray_query.specs.KeyOrder.{AreApart, in_key_order};
ghost use Rattle.ray_query.specs.Play.{play, start};
ghost use Rattle.ray_candidates.specs.Candidates.{trace_answer};
ghost use Rattle.ray_candidates.specs.Standing.{AreStanding, structures_in};
ghost use Rattle.ray_cert.specs.Certificates.{Supports, digits_in, limit_of, name_of};
ghost use Rattle.ray_cert.specs.Parts.{AreStatedFor};

use crate::cert::Cert;
use crate::gathering::gather_tested;
use crate::named::{Named, is_named};
use crate::stated::StatedBottoms;
use crate::told_ray::ToldRay;
use ray_candidates::QueryOptions;
use ray_flags::RayFlags;
use ray_geom::{Ratio, Ray, Steps};
use ray_query::{Client, Commit, Found, Query};
use ray_top::Top;
use std::alloc::{AllocError as NoMemory, Global};
use std::sync::ledger::Ledger;

// How far a certificate that names this has to tell.
pub(crate) fn limit_of(ray: &Ray, named: Option<Named>) -> Ratio
    ensures { result ≡ limit_of (parts_of ray.now.tmax) named }
{
    match named {
        None => Ratio::part(ray.tmax()),
        Some(named) => Ratio::of(named.t),
    }
}

// What is named of a commit.
pub(crate) fn name_of(commit: Option<Commit>) -> Option<Named>
    ensures { result ≡ option_map name_of commit }
{
    match commit {
        None => None,
        Some(commit) => Some(Named {
            kind: commit.found.kind,
            instance: commit.found.instance,
            geometry: commit.found.geometry,
            primitive: commit.found.primitive,
            t: commit.t,
        }),
    }
}

// Puts what was found in rising order of keys.
fn put_in_order(found: &mut Vec<Found>)
    requires { AreApart found.old.items }
    ensures { found.new.items ≡ in_key_order found.old.items }
{
    found.sort_unstable_by_key(|f| f.key());
}

// What the play of these commits, by its name.
fn name_played<C: Client>(
    mut found: Vec<Found>,
    number: u32,
    flags: RayFlags,
    client: &C,
) -> Option<Named>
    requires { AreApart found.items }
    ensures { let meaning = C.meaning client.now in result ≡ option_map name_of
        (play meaning number flags start (in_key_order found.items)).committed }
{
    put_in_order(&mut found);
    let mut query = Query::initialize(number, flags);
    query.play(client, found.as_slice());
    name_of(query.committed())
}

/// Whether a certificate supports its hit, for a ray with its number, flags and cull mask, and for
/// this client. Where it does, what it names is what testing every primitive commits. The structure
/// of each active instance stands under its id, with the bounds that stood beside the id when `top`
/// was built or last updated, `trees` of `stated` are the stated trees of these structures, and the
/// flags don't ask that everything counts as opaque and that nothing does. A step is taken for each
/// box that is tested, at most one for a digit, and for each primitive that is tested, at most four
/// for a digit. (Own.)
///
/// # Errors
///
/// For want of memory alone.
pub fn check_cert<C: Client, L: Ledger>(
    alloc: Global,
    top: &Top,
    stated: &StatedBottoms<'_>,
    ray: &Ray,
    options: QueryOptions,
    client: &C,
    cert: &Cert,
    steps: &mut Steps<L>,
) -> Result<bool, NoMemory>
    requires standing { AreStanding (without_tree top.now) (structures_in stated.now.bottoms.now) }
    requires stated { AreStatedFor top.now.contents stated.now.bottoms.now stated.now.trees.now }
    requires flags_agree { ¬ AsksBoth options.flags }
    ensures exact { IfOk result (λ supports. IsTrue supports ↔ Supports (C.meaning client.now)
        top.now.contents stated.now.bottoms.now ray.now options.number options.flags options.mask
        cert.now) }

    // What is named is the answer over all candidates.
    ensures law { IfOk result (λ supports. IsTrue supports → option_map name_of
        (trace_answer (C.meaning client.now) top.now.contents (structures_in stated.now.bottoms.now)
        ray.now options.number options.flags options.mask) ≡ cert.now.named) }
    ensures cost { IfOk result (λ supports.
        steps.new ≤ steps.old + 5 * digits_in cert.now.strings) }
    ensures rising { steps.old ≤ steps.new }
{
    let _limits = top.len();
    stated.bottoms.sound();
    let _most = ray.tmax();
    let limit = limit_of(ray, cert.named());
    let strings = cert.strings();
    let told = ToldRay {
        ray,
        flags: options.flags,
        mask: options.mask,
        limit: &limit,
        strings,
    };
    match gather_tested(alloc, top, stated, &told, steps)? {
        None => Ok(false),
        Some(found) => {
            let played = name_played(found, options.number, options.flags, client);
            Ok(is_named(played, cert.named()))
        }
    }
}
