use crate::node::WalkNode;
use ray_geom::Ratio;
use ray_query::Found;

/// What a walk looks at next. (Own.)
#[derive(Clone, Copy, Debug)]
pub enum Turn {
    /// A node, to be opened, from where the ray is in its box.
    Node(Ratio, WalkNode),
    /// What was found, to be played.
    Candidate(Found),
}
