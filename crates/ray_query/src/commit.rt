ghost use Rattle.std.specs.Prelude.{◌≡◌};
ghost use Rattle.ray_query.specs.Key.{commit_key};

use crate::found::Found;
use crate::key::Key;
use ray_geom::Frac;

/// A committed hit. (SPV_KHR_ray_query: the committed intersection.)
#[derive(Clone, Copy, Debug, PartialEq, Eq)]
pub struct Commit {
    /// What was found.
    pub found: Found,
    /// The distance at which it was committed: a triangle's own, or one at which a box was
    /// generated.
    pub t: Frac,
}

impl Commit {
    /// The key that a later commit has to be below. Own.
    pub fn key(&self) -> Key
        ensures { result ≡ commit_key self.now }
    {
        Key {
            t: self.t,
            ..self.found.key()
        }
    }
}
