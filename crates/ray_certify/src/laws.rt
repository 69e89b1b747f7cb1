ghost use Rattle.ray_certify.specs.Laws.{EachRayHasItsLine};

/// A law: of commands that keep the rules V1 to V24 and V28 to V31 and come to a text, there are as
/// many lines of certificates as their traces have rays, one for each ray. It does nothing. Own.
pub fn each_ray_has_its_line()
    ensures { EachRayHasItsLine }
{}
