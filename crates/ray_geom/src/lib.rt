//! Exact integer geometry for ray queries: rays, triangles, boxes and transforms, and which
//! triangles a ray hits, and where.
//!
//! Points, rays, triangles, boxes and transforms have whole coordinates, a ray's interval is in
//! whole numbers of 1/65536, and every answer is an exact fraction, so no answer is rounded and
//! none depends on an order of evaluation.
//!
//! The layers above use these calls:
//! - [`hit_tri`], whose clauses `some` and `value` say by `IsHit` and `Tells` of
//!   `specs/TriangleHit` exactly which triangles are hit and exactly what each hit tells;
//! - [`meet_tri`], the same with fractions that are put in lowest terms only where that is asked
//!   for ([`RawHit`], [`Unreduced`]);
//! - [`object_ray`], which takes a ray into the space of an instance's object without division;
//! - [`Box3::union`], [`Box3::of_points`] and their kin, which make least boxes by
//!   `specs/LeastBoxes`.
//!
//! [`edge_owner`] is a law that computes: of two triangles at a shared edge exactly one is hit.
//! Where a ray is inside a box, and which boxes and which faces of triangles a walk may pass over,
//! is the crate `ray_prune`.
//!
//! [`Frac`] and [`Ratio`] have a total order by value. [`Ray::new`], [`Tri::new`], [`Box3::new`]
//! and [`Matrix::new`] refuse exactly what is beyond the limits of `specs/Scene`, `specs/Boxes` and
//! `specs/Transform`, and the accessors say these limits in a clause `limits`. Numbers that are
//! known to be within them are taken unchecked by [`Tri::of_vertices`], [`Box3::of_corners`] and
//! [`Matrix::of_words`]. [`Point32`] is a point in 12 bytes. [`Steps`] counts in contracts alone.
//!
//! ```rust
//! // The one hit of a ray that goes down, by a triangle that faces it.
//! let at = |x, y, z| Vec3 { x, y, z };
//! let ray = Ray::new(at(1, 1, 5), at(0, 0, -1), 0, 1 << 29)?;
//! let tri = Tri::new(at(0, 0, 0), at(4, 0, 0), at(0, 4, 0))?;
//! assert_eq!(hit_tri(&ray, &tri)?.t.lowest(), (5, 1));
//! ```
//!
//! CALLING.md has a proved caller.
//!
//! It stands on the standard library and on no other crate. No call takes memory.
#![tactic(auto)]

mod adjugate;
mod box3;
mod count;
mod edge;
mod frac;
mod gcd;
mod hit;
mod least_box;
mod matrix;
mod measured;
mod object;
mod owner;
mod point32;
mod ratio;
mod raw_hit;
mod ray;
mod shared_edge;
mod steps;
mod tri;
mod tri_hit;
mod unreduced;
mod vec3;

pub use crate::box3::Box3;
pub use crate::frac::Frac;
pub use crate::hit::{hit_tri, meet_tri};
pub use crate::matrix::Matrix;
pub use crate::object::{ObjectRay, object_ray};
pub use crate::owner::Owner;
pub use crate::point32::Point32;
pub use crate::ratio::Ratio;
pub use crate::raw_hit::RawHit;
pub use crate::ray::Ray;
pub use crate::shared_edge::edge_owner;
pub use crate::steps::Steps;
pub use crate::tri::Tri;
pub use crate::tri_hit::TriHit;
pub use crate::unreduced::Unreduced;
pub use crate::vec3::{Vec3, is_short};
