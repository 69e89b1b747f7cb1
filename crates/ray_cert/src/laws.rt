ghost use Rattle.ray_top.specs.Trees.{without_tree};
ghost use Rattle.ray_candidates.specs.Standing.{AreStanding, structures_in};
ghost use Rattle.ray_cert.specs.Laws.{SupportedIsAnswer};
ghost use Rattle.ray_cert.specs.PlayLaw.{PlaysAlike};

use ray_bottom::Bottoms;
use ray_flags::RayFlags;
use ray_geom::Ray;
use ray_top::Top;

/// The law of what is committed: two lists of candidates, each in key order, that have the same
/// candidates up to the distance that one of them commits, or up to the end of the ray where that
/// commits nothing, commit the same. (Own; it is why a trace may leave out what is farther.)
pub fn commits_law()
    ensures { PlaysAlike }
{}

/// The law of certificates: one that supports its hit names what testing every primitive commits,
/// whatever the client and the ray's number. (Own.)
pub fn supports_law(top: &Top, bottoms: &Bottoms, ray: &Ray, _flags: RayFlags, _mask: u8)
    requires { AreStanding (without_tree top.now) (structures_in bottoms.now) }
    ensures { SupportedIsAnswer top.now.contents bottoms.now ray.now _flags _mask }
{
    let _limits = top.len();
    bottoms.sound();
    let _most = ray.tmax();
}
