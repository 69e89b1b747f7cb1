ghost use Rattle.std.specs.Prelude.{◌≡◌};
ghost use Rattle.ray_shape.specs.Reads.{item_shape};

use crate::leaf::Leaf;

/// What a place of a recording may hold. (Own.)
#[derive(Clone, Copy, Debug, PartialEq, Eq)]
pub enum Shape {
    /// A value that has no parts with a shape of their own.
    Leaf(Leaf),
    /// A list of these.
    List(Item),
    /// An object of this kind.
    Object(Kind),
}

/// What a list of a recording holds. (Own.)
#[derive(Clone, Copy, Debug, PartialEq, Eq)]
pub enum Item {
    /// Whole numbers from 0 to 2^32 - 1: ids, or counts.
    Number,
    /// Regions of a copy.
    Region,
    /// What structures are built from.
    Info,
    /// Geometries.
    Geometry,
    /// Rules of a script.
    Rule,
}

impl Item {
    /// The shape of each of these.
    pub fn shape(self) -> Shape
        ensures { result ≡ item_shape self }
    {
        match self {
            Item::Number => Shape::Leaf(Leaf::Number32),
            Item::Region => Shape::Object(Kind::Region),
            Item::Info => Shape::Object(Kind::Info),
            Item::Geometry => Shape::Object(Kind::Geometry),
            Item::Rule => Shape::Object(Kind::Rule),
        }
    }
}

/// The kind of an object of a recording. (Own.)
#[derive(Clone, Copy, Debug, PartialEq, Eq)]
pub enum Kind {
    /// A place in a buffer.
    Spot,
    /// A span of bytes of a buffer.
    Stretch,
    /// A region of a copy.
    Region,
    /// The indices of triangles.
    Index,
    /// What a structure is built from.
    Info,
    /// A geometry.
    Geometry,
    /// A rule of a script.
    Rule,
    /// A command.
    Command,
}

/// The form of an object: which members it has. Where a word of the object chooses among several,
/// each has a form of its own. (Own.)
#[derive(Clone, Copy, Debug, PartialEq, Eq)]
pub enum Form {
    /// A place in a buffer.
    Spot,
    /// A span of bytes of a buffer.
    Stretch,
    /// A region of a copy.
    Region,
    /// The indices of triangles.
    Index,
    /// What a structure is built from anew.
    BuildInfo,
    /// What a structure is updated from.
    UpdateInfo,
    /// A geometry of triangles.
    Triangles,
    /// A geometry of boxes.
    Boxes,
    /// A geometry of instances.
    Instances,
    /// A rule of a script without a distance.
    Rule,
    /// A rule of a script that decides at a distance.
    RuleAt,
    /// The command `buffer`.
    Buffer,
    /// The command `structure`.
    Structure,
    /// The command `destroy`.
    Destroy,
    /// The command `sizes`.
    Sizes,
    /// The command `begin`.
    Begin,
    /// The command `end`.
    End,
    /// The command `submit`.
    Submit,
    /// The command `wait`.
    Wait,
    /// The command `read`.
    Read,
    /// The command `update`.
    Update,
    /// The command `fill`.
    Fill,
    /// The command `copy`.
    Copy,
    /// The command `barrier`.
    Barrier,
    /// The command `build`.
    Build,
    /// The command `copy_structure`.
    CopyStructure,
    /// The command `serialize`.
    Serialize,
    /// The command `deserialize`.
    Deserialize,
    /// The command `property`.
    Property,
    /// The command `trace`.
    Trace,
}

/// Whether a member has to be there. (Own.)
#[derive(Clone, Copy, Debug, PartialEq, Eq)]
pub enum Need {
    /// It has to be there.
    Must,
    /// It may be there.
    May,
    /// It may not be there.
    Never,
    /// It is the word that chose the form, and was read before.
    Tag,
}

/// A member of a form. (Own.)
#[derive(Clone, Copy, Debug)]
pub struct Field {
    /// Its name.
    pub name: &'static str,
    /// Whether it has to be there.
    pub need: Need,
    /// What it holds.
    pub shape: Shape,
}
