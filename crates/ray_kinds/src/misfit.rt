use crate::words::{AccessWord, RayWord};
use ray_causes::Member;
use ray_cmd::{Access, Stages, StructureKind};

/// The entries of `uses`, and the structure for which they are. Own.
#[derive(Clone, Copy, Debug)]
pub struct Uses {
    /// How many there are.
    pub count: usize,
    /// The id of the structure that is built by them.
    pub dst: u32,
}

/// The ids of a source and of a destination. Own.
#[derive(Clone, Copy, Debug)]
pub struct Pair {
    /// The id of the source.
    pub src: u32,
    /// The id of the destination.
    pub dst: u32,
}

/// Two flags of a ray that exclude one another. Own.
#[derive(Clone, Copy, Debug)]
pub struct Clash {
    /// The one.
    pub one: RayWord,
    /// The other.
    pub other: RayWord,
}

/// One side of a barrier. Own.
#[derive(Clone, Copy, Debug)]
pub struct Side {
    /// The stages that it names.
    pub stages: Stages,
    /// The accesses that it names.
    pub access: Access,
}

/// What of a command doesn't fit, by kind or by flag. Own.
#[derive(Clone, Copy, Debug)]
pub enum Misfit {
    /// The member names the structure of this id, which isn't of this kind.
    WrongKind(Member, u32, StructureKind),
    /// The member has entries, and is for a bottom.
    UsesOfBottom(Member, Uses),
    /// The member is of a source and a destination, one a bottom and the other a top.
    TwoKinds(Member, Pair),
    /// The source and the destination of a copy are one structure.
    Same(Pair),
    /// The flags of the info of this number prefer both a fast trace and a fast build.
    BothFast(u32),
    /// The flags of a trace have two that exclude one another.
    Exclusive(Clash),
    /// The member names this access, and no stage of its side supports it.
    Unsupported(Member, AccessWord),
    /// The buffer that is made has no usage.
    NoUsage,
    /// The buffer that is made is for scratch memory or for structures, and for something else.
    Mixed,
    /// The buffer that is made is for scratch memory or for structures, and has content.
    Filled,
    /// The buffer of this id, which is read, is for scratch memory or for structures.
    ReadOfPrivate(u32),
}
