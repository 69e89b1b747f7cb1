//! What a walk of box trees prunes by: where a ray is inside a box, and which boxes and which faces
//! of triangles it may pass over. All of it is exact, over the rays, triangles, boxes and
//! transforms of `ray_geom`.
//!
//! The calls:
//! - [`reach_box`], whose clauses `some` and `none` say by `IsReach` and `IsInside` of
//!   `specs/BoxSpan` exactly which boxes an object ray meets, and from where to where, and
//!   [`span_box`], the same in lowest terms;
//! - [`image_box`], the least world box of a box's corners, and [`keeps_corners`], which says where
//!   there is one;
//! - [`is_front`], which says from which side a triangle was hit, by `specs/Facing`.
//!
//! Laws are calls that do nothing and whose contract is the law: [`hit_is_inside`],
//! [`inside_is_met`], [`part_is_later`], [`image_is_held`] and [`inside_in_world`] say which boxes
//! a walk may leave out, [`facing_law`] what the front is, [`union_law`] and [`part_law`] how boxes
//! stand to each other, and [`reach_law`] what the reach as a value means.
//!
//! It stands on `ray_geom`. No call takes memory.
#![tactic(auto)]

mod box_laws;
mod box_reach;
mod box_span;
mod facing;
mod images;
mod pruning;
mod reach;
mod slab;
mod span;

pub use crate::box_laws::{part_law, union_law};
pub use crate::box_reach::reach_box;
pub use crate::box_span::span_box;
pub use crate::facing::{facing_law, is_front};
pub use crate::images::{image_box, keeps_corners};
pub use crate::pruning::{
    hit_is_inside, image_is_held, inside_in_world, inside_is_met, part_is_later, reach_law,
};
pub use crate::reach::Reach;
pub use crate::span::Span;
