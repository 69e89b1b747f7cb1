use ray_causes::Member;

/// A place of a command. Numbers count from 0. Own.
#[derive(Clone, Copy, Debug)]
pub enum Spot {
    /// A list that ray_causes names.
    Member(Member),
    /// `counts`.
    Counts,
    /// `count`.
    Count,
    /// `infos`.
    Infos,
    /// `geometries` of an info.
    Geometries(u32),
    /// A geometry of an info.
    Geometry(u32, u32),
    /// `script`.
    Script,
    /// A rule of the script.
    Rule(u32),
}
