/// A rule that a command's inputs may break: a fact of the bytes and structures that it reads, and
/// not of the recording alone. The numbers are part of the printed text. (Own: which rules are
/// looked at, after the valid usage of builds, copies and ray queries in the Vulkan specification.)
#[derive(Clone, Copy, Debug, PartialEq, Eq)]
pub enum DataRule {
    /// An index is above the greatest vertex number, or its vertex isn't whole in the buffer.
    X1,
    /// A coordinate of an active primitive, before or after the geometry's transform, is above 2^19
    /// in absolute value.
    X2,
    /// The transform of a geometry that has primitives breaks the limits of a matrix.
    X3,
    /// An active box has a minimum above its maximum.
    X4,
    /// An active instance refers to no structure that its build names.
    X5,
    /// An active instance's matrix breaks the limits.
    X6,
    /// A corner of a structure's bounds, moved by an instance, leaves the world's limits.
    X7,
    /// An instance has both of the bits that force its opacity.
    X8,
    /// An update makes a primitive or an instance active or inactive.
    X9,
    /// An update changes an index.
    X10,
    /// A ray breaks the limits of origin, direction or interval.
    X11,
    /// The bytes to be deserialized are no serialized form, or that of the other kind of structure.
    X12,
    /// The destination is too small for what is written.
    X13,
}
