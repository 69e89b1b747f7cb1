/// A value of a recording that is no object and no list of values with a shape of their own. (Own.)
#[derive(Clone, Copy, Debug, PartialEq, Eq)]
pub enum Leaf {
    /// A whole number from 0 to 2^64 - 1.
    Number64,
    /// A whole number from 0 to 2^32 - 1.
    Number32,
    /// The number of a serialized form, 1 or 2.
    SerializedForm,
    /// `true` or `false`.
    Truth,
    /// Hexadecimal digits, two a byte.
    Digits,
    /// The word of a command.
    Op,
    /// The word of a kind of geometry.
    GeometryKind,
    /// The word of a mode of a build.
    BuildMode,
    /// The word of what a script's rule decides.
    Choice,
    /// The word of a kind of structure.
    StructureKind,
    /// The word of what is destroyed.
    Thing,
    /// The word of how bytes are shown.
    ReadForm,
    /// The word of a mode of a copy.
    CopyMode,
    /// The word of which number of a structure is asked.
    Asked,
    /// The word of a vertex format.
    Format,
    /// The word of a type of index.
    IndexType,
    /// A list of words: what a buffer may be used for.
    Usage,
    /// A list of words: how a structure is built.
    BuildFlags,
    /// A list of words: what a ray skips and culls.
    RayFlags,
    /// A list of words: the stages of one side of a barrier.
    Stages,
    /// A list of words: the accesses of one side of a barrier.
    Access,
}
