/// Where a structure stands. (Own.)
#[derive(Clone, Copy, Debug)]
pub enum Level {
    /// The top structure, in the world.
    World,
    /// The bottom structure of the instance of this number, in its object's space.
    Object(u32),
}
