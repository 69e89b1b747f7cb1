ghost use Rattle.std.specs.Prelude.{◌≤◌};

/// How much is built. (Own.)
#[derive(Clone, Copy, Debug, PartialEq, Eq)]
pub(crate) enum Size {
    /// A little, for a first look.
    Little,
    /// As much as is built where builds are timed.
    Large,
    /// As many triangles as a structure has at most.
    Greatest,
}

impl Size {
    /// How many cells a row of the field has.
    pub(crate) fn columns(self) -> u32
        ensures { result ≤ 1024 }
    {
        match self {
            Size::Little => 8,
            Size::Large => 512,
            Size::Greatest => 1024,
        }
    }

    /// How many rows of cells the field has.
    pub(crate) fn rows(self) -> u32
        ensures { result ≤ 512 }
    {
        match self {
            Size::Little => 8,
            Size::Large | Size::Greatest => 512,
        }
    }

    /// How many instances a top structure has.
    pub(crate) fn instances(self) -> u32
        ensures { result ≤ 65536 }
    {
        match self {
            Size::Little => 64,
            Size::Large | Size::Greatest => 65_536,
        }
    }
}
