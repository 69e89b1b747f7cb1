//! The walk of a ray through a scene of boxes in boxes, nearest first.
//!
//! A [`Scene`] tells a walk what a ray meets: the nodes at which it begins, and, node by node, the
//! nodes below and what is found there. `specs/Scene` says what that is as a value, and what has to
//! hold of it: boxes hold what is found in them, and no key is found twice.
//!
//! The layer above uses [`walk`]. Its answer is the play, in rising order of keys, of all that is
//! found in the scene (`answer_in` of `specs/Answer`), and the steps that it takes are no more than
//! the primitives of opened leaves: those that are met up to the committed distance. A scene adds
//! to [`Turns`] by [`Turns::push_node`] and [`Turns::push_found`], and shows `IsOpened` of
//! `specs/Adding`; the lemmas of `proofs/Added` put that together. `specs/Parts` makes a scene of
//! what is right at each node, and `proofs/Growing` shows that it is one.
//!
//! It stands on ray_geom (ratios, steps), ray_query (the play) and ray_flags (flags of a ray).
#![tactic(auto)]

mod nearest;
mod node;
mod scene;
mod tie;
mod turn;
mod turns;
mod waiting;

pub use nearest::walk;
pub use node::WalkNode;
pub use scene::Scene;
pub use std::alloc::AllocError as NoMemory;
pub use turn::Turn;
pub use turns::Turns;
