/// What of a geometry an update may not change. Own.
#[derive(Clone, Copy, Debug)]
pub enum Matter {
    /// `kind`.
    Kind,
    /// `opaque`.
    Opaque,
    /// `format`.
    Format,
    /// The type of its indices, or whether it has any.
    Index,
    /// `max_vertex`.
    MaxVertex,
    /// `count`.
    Count,
    /// Whether it has a `transform`.
    Transform,
}

/// In what an update differs from its source. Own.
#[derive(Clone, Copy, Debug)]
pub enum Change {
    /// In its flags.
    Flags,
    /// In how many geometries it has.
    Count,
    /// In this of the geometry of this number.
    Geometry(u32, Matter),
}

/// An update that differs from its source. Own.
#[derive(Clone, Copy, Debug)]
pub struct Update {
    /// The number of its info.
    pub info: u32,
    /// The number of the command by which its source was built.
    pub stamp: u32,
    /// In what it differs.
    pub change: Change,
}
