ghost use Rattle.std.specs.Prelude.{◌≡◌, ◌+◌, ◌<◌, length, count_by, option_map, IfOk, IsTrue, MatchOption};
ghost use Rattle.ray_geom.specs.HitValue.{hit_of, hit_value};
ghost use Rattle.ray_bench.specs.Field.{triangles};
ghost use Rattle.ray_bench.specs.Rays.{rays};
ghost use Rattle.ray_bench.specs.Spots.{all_spots, IsMet, AreMet};
ghost use Rattle.ray_bench.specs.Tested.{is_hit, is_hit_pair, hits_of_rays, hits_of_pairs, AreHits, pairs};

use crate::field::{TRIANGLES, triangle};
use crate::job::Job;
use crate::pair::{Pair, aimed_pair};
use crate::rays::{RAYS, ray};
use crate::spot::{Spot, aimed_spot};
use crate::work::Work;
use ray_geom::{Ray, Tri, TriHit, hit_tri};
use ray_prune::{Reach, Span, reach_box, span_box};
use std::alloc::{AllocError, Global};

/// How many of the job's pairs are hits. Rays, triangles and boxes are made once, and then tested. The
/// only error is memory.
pub fn count_hits(alloc: Global, job: Job) -> Result<usize, AllocError>
    ensures { IfOk result (AreHits job.work job.number) }
{
    match job.work {
        Work::Pairs => {
            let rays = made_rays(alloc)?;
            let tris = made_triangles(alloc)?;
            Ok(count_of_rays(&rays, &tris, job.number))
        }
        Work::Hits => {
            let pairs = made_pairs(alloc)?;
            Ok(count_of_pairs(&pairs, job.number))
        }
        Work::BoxSpans => {
            let spots = made_spots(alloc)?;
            Ok(count_of_spots(&spots, job.number, true))
        }
        Work::BoxReaches => {
            let spots = made_spots(alloc)?;
            Ok(count_of_spots(&spots, job.number, false))
        }
    }
}

fn made_rays(alloc: Global) -> Result<Vec<Ray>, AllocError>
    ensures { IfOk result (λ v. v.items ≡ rays) }
{
    (0..RAYS).map(|r| ray(r)).collect(alloc)
}

fn made_triangles(alloc: Global) -> Result<Vec<Tri>, AllocError>
    ensures { IfOk result (λ v. v.items ≡ triangles) }
{
    (0..TRIANGLES).map(|k| triangle(k)).collect(alloc)
}

fn made_pairs(alloc: Global) -> Result<Vec<Pair>, AllocError>
    ensures { IfOk result (λ v. v.items ≡ pairs) }
{
    (0..TRIANGLES).map(|k| aimed_pair(k)).collect(alloc)
}

fn made_spots(alloc: Global) -> Result<Vec<Spot>, AllocError>
    ensures { IfOk result (λ v. v.items ≡ all_spots) }
{
    (0..TRIANGLES).map(|k| aimed_spot(k)).collect(alloc)
}

// How many are hits of the first so many pairs: ray after ray, each with every triangle, and the
// rays begin anew at their end.
fn count_of_rays(rays: &[Ray], tris: &[Tri], number: usize) -> usize
    requires has_rays { 0 < length rays.now }
    requires has_tris { 0 < length tris.now }
    ensures { result ≡ hits_of_rays rays.now tris.now number }
{
    let turns = number / tris.len();
    let rest = number % tris.len();
    let mut hits = 0;
    for turn in 0..turns {
        hits += hits_among(&rays[turn % rays.len()], tris);
    }
    hits + hits_among(&rays[turns % rays.len()], &tris[..rest])
}

// How many of the triangles the ray hits.
fn hits_among(ray: &Ray, tris: &[Tri]) -> usize
    ensures { result ≡ count_by (is_hit ray.now) tris.now }
{
    tris.iter().filter(|tri| hit(ray, tri).is_some()).count()
}

// How many are hits of the first so many pairs, which begin anew at their end.
fn count_of_pairs(pairs: &[Pair], number: usize) -> usize
    requires { 0 < length pairs.now }
    ensures { result ≡ hits_of_pairs pairs.now number }
{
    let turns = number / pairs.len();
    let rest = number % pairs.len();
    let mut hits = 0;
    for _turn in 0..turns {
        hits += hits_within(pairs);
    }
    hits + hits_within(&pairs[..rest])
}

// How many of the pairs are hits.
fn hits_within(pairs: &[Pair]) -> usize
    ensures { result ≡ count_by is_hit_pair pairs.now }
{
    pairs
        .iter()
        .filter(|pair| hit(&pair.ray, &pair.tri).is_some())
        .count()
}

// The hit of a ray and a triangle. It is kept apart from its callers, which only ask whether there
// is a hit: there LLVM could leave out what a hit tells, and that is to be timed too.
#[inline(never)]
fn hit(ray: &Ray, tri: &Tri) -> Option<TriHit>
    ensures { option_map hit_value result ≡ hit_of ray.now tri.now }
{
    hit_tri(ray, tri)
}

// How many are met of the first so many spots, which begin anew at their end: by spans, or by reaches.
fn count_of_spots(spots: &[Spot], number: usize, by_spans: bool) -> usize
    requires { spots.now ≡ all_spots }
    ensures { AreMet number result }
{
    let mut met = 0;
    for k in 0..number {
        if is_met(&spots[k % spots.len()], by_spans) {
            met += 1;
        }
    }
    met
}

// Whether the spot is met: by its span, or by its reach.
fn is_met(spot: &Spot, by_span: bool) -> bool
    ensures met { IsTrue result → IsMet spot.now }
    ensures only { IsMet spot.now → IsTrue result }
{
    if by_span {
        span(spot).is_some()
    } else {
        reach(spot).is_some()
    }
}

// The span of a ray and a box, kept apart from its caller for the same reason.
#[inline(never)]
fn span(spot: &Spot) -> Option<Span>
    ensures { MatchOption result (¬ IsMet spot.now) (λ _. IsMet spot.now) }
{
    span_box(&spot.ray, &spot.box3)
}

// And their reach.
#[inline(never)]
fn reach(spot: &Spot) -> Option<Reach>
    ensures { MatchOption result (¬ IsMet spot.now) (λ _. IsMet spot.now) }
{
    reach_box(&spot.ray, &spot.box3)
}
