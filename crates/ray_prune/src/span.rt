use ray_geom::Frac;

/// The distances at which a ray is inside a box: all from `entry` to `exit`. (Own.)
#[derive(Clone, Copy, Debug, PartialEq, Eq)]
pub struct Span {
    /// The least.
    pub entry: Frac,
    /// The greatest.
    pub exit: Frac,
}
