use ray_causes::Member;

/// What a structure lacks by what it was built by. Own.
#[derive(Clone, Copy, Debug)]
pub enum Lack {
    /// `allow_update`, with which it wasn't last built or updated.
    Update,
    /// `allow_compaction`, in the same way.
    Compaction,
    /// A build or an update: its contents came by `deserialize`.
    Build,
}

/// An entry of `uses` of the command by which the contents of a top came. Own.
#[derive(Clone, Copy, Debug)]
pub struct Entry {
    /// The id of the top.
    pub top: u32,
    /// The number of that command, the top's stamp.
    pub stamp: u32,
    /// The id that the entry names.
    pub id: u32,
}

/// Why a traced top can't refer to a structure any more. Own.
#[derive(Clone, Copy, Debug)]
pub enum Stale {
    /// No structure is live under the id.
    Gone,
    /// It is a top.
    Top,
    /// It isn't built.
    Unbuilt,
    /// The command of this number wrote it last, which stands behind the top's stamp.
    Rewritten(u32),
}

/// By what something was built that a command reads, where a rule forbids to read it. Own.
#[derive(Clone, Copy, Debug)]
pub enum Origin {
    /// The member names a structure of this id, whose contents came by the command of this number,
    /// and which lacks this.
    Lacking(Member, u32, u32, Lack),
    /// The entry of this number of `uses`, by which the traced top was built, is stale.
    Stale(u32, Entry, Stale),
}
