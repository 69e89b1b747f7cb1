ghost use Rattle.std.specs.Prelude.{◌≡◌, option_map};
ghost use Rattle.ray_geom.specs.HitValue.{hit_of};

use ray_geom::{Ray, Tri, hit_tri};

/// The distance at which a ray hits a triangle, as a fraction in lowest terms.
pub fn distance(ray: &Ray, tri: &Tri) -> Option<(u64, u64)>
    ensures { result ≡ option_map (λ hit. hit.t) (hit_of ray.now tri.now) }
{
    match hit_tri(ray, tri) {
        Some(hit) => Some(hit.t.lowest()),
        None => None,
    }
}
