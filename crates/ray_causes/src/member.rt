/// The name of a member of a command, an info or a geometry, as a recording writes it.
#[derive(Clone, Copy, Debug)]
pub enum Name {
    /// `id`.
    Id,
    /// `buffer`.
    Buffer,
    /// `offset`.
    Offset,
    /// `size`.
    Size,
    /// `data`.
    Data,
    /// `src`.
    Src,
    /// `dst`.
    Dst,
    /// `src_offset`.
    SrcOffset,
    /// `dst_offset`.
    DstOffset,
    /// `top`.
    Top,
    /// `rays`.
    Rays,
    /// `hits`.
    Hits,
    /// `scratch`.
    Scratch,
    /// `vertex`.
    Vertex,
    /// `stride`.
    Stride,
    /// `index`.
    Index,
    /// `transform`.
    Transform,
    /// `primitive_offset`.
    PrimitiveOffset,
    /// `transform_offset`.
    TransformOffset,
    /// `uses`.
    Uses,
    /// `structures`.
    Structures,
    /// `buffers`.
    Buffers,
    /// `op`.
    Op,
    /// `flags`.
    Flags,
    /// `src_access`.
    SrcAccess,
    /// `dst_access`.
    DstAccess,
    /// `usage`.
    Usage,
}

/// A member of a command, by the way to it. Numbers count from 0. Own.
#[derive(Clone, Copy, Debug)]
pub enum Member {
    /// A member of the command itself.
    Own(Name),
    /// An item of a list of the command.
    Item(Name, u32),
    /// A member of a region.
    Region(u32, Name),
    /// A member of an info.
    Info(u32, Name),
    /// An item of a list of an info.
    InfoItem(u32, Name, u32),
    /// A member of a geometry of an info.
    Geometry(u32, u32, Name),
}
