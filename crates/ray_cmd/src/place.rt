/// Where in a command a rule is broken.
#[derive(Clone, Copy, Debug, PartialEq, Eq)]
pub enum Place {
    /// In the command as a whole.
    Whole,
    /// In the part of this number: an info, a region, a rule, a ray.
    Part(u32),
    /// In a geometry of an info.
    Geometry(u32, u32),
    /// In an element of a geometry of an info.
    Element(u32, u32, u32),
    /// Against the earlier command of this number.
    Earlier(u32),
}
