ghost use Rattle.std.specs.Prelude.{◌≡◌, ℕ, ◌+◌, ◌*◌, ◌^◌, ◌<◌, ◌≤◌, ◌↔◌, IfSome, IfNone, unsigned_abs};
ghost use Rattle.ray_geom.specs.Vector.{IsWithin};
ghost use Rattle.ray_geom.specs.Fraction.{IsFraction, IsAtMost};
ghost use Rattle.ray_prune.specs.BoxSpan.{near_end, far_end, IsBetween, IsOnAxis, IsInside, AreFractions, IsReach};
ghost use Rattle.ray_prune.specs.BoxReach.{IsSameReach, reach_of};
ghost use Rattle.ray_prune.specs.Slabs.{IsAxis, IsPast, IsBefore, IsInSlab, IsSlab, Covers, Narrows, Never};

use crate::reach::Reach;
use crate::slab::Slab;
use ray_geom::{Box3, ObjectRay, Ratio};

/// From where to where the ray is inside the box, ends included, as [`span_box`](crate::span_box)
/// says it, with ends that aren't in lowest terms: it takes no greatest common divisor. (Own; for
/// the intersection of rays with AABBs in "Ray Traversal" of the Vulkan specification.)
pub fn reach_box(ray: &ObjectRay, b: &Box3) -> Option<Reach>
    ensures some { IfSome result (IsReach ray.now b.now) }
    ensures none { IfNone result ((n d : ℕ) → 0 < d → ¬ IsInside ray.now b.now n d) }

    // Both ends can be put in lowest terms.
    ensures limits { IfSome result AreFractions }

    // The same as one function of the ray and the box, by value.
    ensures value { IsSameReach result (reach_of ray.now b.now) }
{
    narrowed(ray, b)
}

// The interval, narrowed to the box on the three axes.
fn narrowed(ray: &ObjectRay, b: &Box3) -> Option<Reach>
    ensures some { IfSome result (IsReach ray.now b.now) }
    ensures none { IfNone result ((n d : ℕ) → 0 < d → ¬ IsInside ray.now b.now n d) }
    ensures limits { IfSome result AreFractions }
{
    let (lo, hi) = (b.lo(), b.hi());
    let (origin, dir, det) = (ray.origin(), ray.dir(), ray.det());
    let all = interval(ray.tmin(), ray.tmax());
    let x = on_axis(all, det, lo.x, hi.x, origin.x, dir.x)?;
    let y = on_axis(x, det, lo.y, hi.y, origin.y, dir.y)?;
    let z = on_axis(y, det, lo.z, hi.z, origin.z, dir.z)?;
    if z.entry <= z.exit { Some(z) } else { None }
}

// The distances from least / 65536 to most / 65536.
fn interval(least: u64, most: u64) -> Reach
    requires least_short { least ≤ 2 ^ 40 }
    requires most_short { most ≤ 2 ^ 40 }
    ensures covers { (n d : ℕ) → 0 < d →
        Covers result n d ↔ ((least * d ≤ 65536 * n) × (65536 * n ≤ most * d)) }
    ensures limits { AreFractions result }
{
    Reach {
        entry: Ratio::part(least),
        exit: Ratio::part(most),
    }
}

// The ends of a box on one axis, times det: the lesser and the greater.
fn ends(det: i64, lo: i64, hi: i64) -> (i64, i64)
    requires det_short { IsWithin (6 * 2 ^ 36) det }
    requires lo_short { IsWithin (2 ^ 19) lo }
    requires hi_short { IsWithin (2 ^ 19) hi }
    ensures value { result ≡ (near_end det lo hi, far_end det lo hi) }
    ensures near_short { IsWithin (6 * 2 ^ 55) result.0 }
    ensures far_short { IsWithin (6 * 2 ^ 55) result.1 }
{
    if det < 0 {
        (det * hi, det * lo)
    } else {
        (det * lo, det * hi)
    }
}

// The distances of the reach at which o + t m is between the ends of a box on one axis.
fn on_axis(reach: Reach, det: i64, lo: i64, hi: i64, o: i64, m: i64) -> Option<Reach>
    requires { IsAxis det lo hi o m }
    ensures some { IfSome result (Narrows (IsOnAxis det lo hi o m) reach) }
    ensures limits { IfSome result (λ narrower. AreFractions reach → AreFractions narrower) }
    ensures none { IfNone result (Never (IsOnAxis det lo hi o m)) }
{
    let (near, far) = ends(det, lo, hi);
    narrow(reach, slab_of(near, far, o, m))
}

// The distances at which o + t m is from near to far.
fn slab_of(near: i64, far: i64, o: i64, m: i64) -> Slab
    requires near_short { IsWithin (6 * 2 ^ 55) near }
    requires far_short { IsWithin (6 * 2 ^ 55) far }
    requires o_short { IsWithin (3 * 2 ^ 25 * (2 ^ 19 + 2 ^ 20)) o }
    requires m_short { IsWithin (3 * 2 ^ 45) m }
    ensures inside { (n d : ℕ) → IsBetween near far o m n d ↔ IsInSlab result n d }
    ensures short { IsSlab result }
{
    let size = m.unsigned_abs();
    if m < 0 {
        Slab {
            near: o - far,
            far: o - near,
            size,
        }
    } else {
        Slab {
            near: near - o,
            far: far - o,
            size,
        }
    }
}

// The distances of the reach that are in the slab.
fn narrow(reach: Reach, slab: Slab) -> Option<Reach>
    requires { IsSlab slab }
    ensures some { IfSome result (Narrows (IsInSlab slab) reach) }
    ensures limits { IfSome result (λ narrower. AreFractions reach → AreFractions narrower) }
    ensures none { IfNone result (Never (IsInSlab slab)) }
{
    let entry = raise(reach.entry, slab.near, slab.size)?;
    let exit = lower(reach.exit, slab.far, slab.size)?;
    Some(Reach { entry, exit })
}

// The greater of the entry and near / size; None where size is 0 and near is above it.
fn raise(entry: Ratio, near: i64, size: u64) -> Option<Ratio>
    requires near_below { unsigned_abs near < 2 ^ 58 }
    requires size_below { size < 2 ^ 47 }
    ensures some { IfSome result (λ f. (n d : ℕ) → 0 < d →
        IsAtMost f.num f.den n d ↔ (IsAtMost entry.num entry.den n d × IsPast near size n d)) }
    ensures limits { IfSome result (λ f. IsFraction entry.num entry.den → IsFraction f.num f.den) }
    ensures none { IfNone result (Never (IsPast near size)) }
{
    if near <= 0 {
        Some(entry)
    } else if size == 0 {
        None
    } else {
        let num = near.unsigned_abs();
        Some(later(entry, Ratio { num, den: size }))
    }
}

// The lesser of the exit and far / size; None where far is below 0.
fn lower(exit: Ratio, far: i64, size: u64) -> Option<Ratio>
    requires far_below { unsigned_abs far < 2 ^ 58 }
    requires size_below { size < 2 ^ 47 }
    ensures some { IfSome result (λ f. (n d : ℕ) → 0 < d →
        IsAtMost n d f.num f.den ↔ (IsAtMost n d exit.num exit.den × IsBefore far size n d)) }
    ensures limits { IfSome result (λ f. IsFraction exit.num exit.den → IsFraction f.num f.den) }
    ensures none { IfNone result (Never (IsBefore far size)) }
{
    if far < 0 {
        None
    } else if size == 0 {
        Some(exit)
    } else {
        let num = far.unsigned_abs();
        Some(earlier(exit, Ratio { num, den: size }))
    }
}

// The greater of two distances.
fn later(a: Ratio, b: Ratio) -> Ratio
    ensures value { (n d : ℕ) → 0 < d →
        IsAtMost result.num result.den n d ↔ (IsAtMost a.num a.den n d × IsAtMost b.num b.den n d) }
    ensures limits { IsFraction a.num a.den → IsFraction b.num b.den →
        IsFraction result.num result.den }
{
    if a < b { b } else { a }
}

// The lesser of two distances.
fn earlier(a: Ratio, b: Ratio) -> Ratio
    ensures value { (n d : ℕ) → 0 < d →
        IsAtMost n d result.num result.den ↔ (IsAtMost n d a.num a.den × IsAtMost n d b.num b.den) }
    ensures limits { IsFraction a.num a.den → IsFraction b.num b.den →
        IsFraction result.num result.den }
{
    if a < b { a } else { b }
}
