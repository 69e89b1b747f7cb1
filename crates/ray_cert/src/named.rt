ghost use Rattle.std.specs.Prelude.{◌≡◌, ◌↔◌, IsTrue};

use ray_flags::Kind;
use ray_geom::Frac;

/// The hit that a certificate names. (Own.)
#[derive(Clone, Copy, Debug)]
pub struct Named {
    /// Whether it is of a triangle or of a box.
    pub kind: Kind,
    /// The instance's number in its top structure.
    pub instance: u32,
    /// The geometry's number in its bottom structure.
    pub geometry: u32,
    /// The primitive's number in its geometry.
    pub primitive: u32,
    /// The distance at which it was committed.
    pub t: Frac,
}

// Whether two kinds are the same.
fn is_same_kind(a: Kind, b: Kind) -> bool
    ensures { IsTrue result ↔ (a ≡ b) }
{
    match a {
        Kind::Triangle => matches!(b, Kind::Triangle),
        Kind::Aabb => matches!(b, Kind::Aabb),
    }
}

// Whether two distances are.
fn is_same_distance(a: Frac, b: Frac) -> bool
    ensures { IsTrue result ↔ (a ≡ b) }
{
    a == b
}

// Whether two hits are.
fn is_same(a: Named, b: Named) -> bool
    ensures { IsTrue result ↔ (a ≡ b) }
{
    let numbers = a.instance == b.instance && a.geometry == b.geometry;
    let place = numbers && a.primitive == b.primitive;
    place && is_same_kind(a.kind, b.kind) && is_same_distance(a.t, b.t)
}

// Whether the same is named, or none.
pub(crate) fn is_named(a: Option<Named>, b: Option<Named>) -> bool
    ensures { IsTrue result ↔ (a ≡ b) }
{
    match a {
        None => b.is_none(),
        Some(a) => match b {
            None => false,
            Some(b) => is_same(a, b),
        },
    }
}
