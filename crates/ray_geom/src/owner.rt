/// Which of two triangles that share an edge a ray hits. (Own.)
#[derive(Clone, Copy, Debug, PartialEq, Eq)]
pub enum Owner {
    /// The first is hit, and the second isn't.
    First,
    /// The second is hit, and the first isn't.
    Second,
}
