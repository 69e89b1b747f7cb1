/// A node of a scene: of the top structure, or of the bottom structure of an instance. The numbers
/// are the scene's own. (Own.)
#[derive(Clone, Copy, Debug)]
pub enum WalkNode {
    /// A node of the top structure with nodes below.
    TopInner(u32),
    /// A leaf of the top structure, with its instances below.
    TopLeaf(u32),
    /// A node of an instance's bottom structure, with nodes below.
    Inner { instance: u32, node: u32 },
    /// A leaf of an instance's bottom structure, with its primitives.
    Leaf { instance: u32, node: u32 },
}
