use crate::frac::Frac;

/// What a ray's hit of a triangle tells. (What OpRayQueryGetIntersectionTKHR and
/// OpRayQueryGetIntersectionBarycentricsKHR give, exact.)
#[derive(Clone, Copy, Debug, PartialEq, Eq)]
pub struct TriHit {
    /// The distance: the ray meets the triangle at origin + t * direction.
    pub t: Frac,
    /// The weight of the triangle's second vertex.
    pub u: Frac,
    /// The weight of the triangle's third vertex.
    pub v: Frac,
    /// Whether the triangle's determinant in the direction is negative, which says from which side
    /// the ray comes.
    pub den_negative: bool,
}
