ghost use Rattle.std.specs.Prelude.{◌≤◌};

/// How large a made-up scene is. (Own.)
#[derive(Clone, Copy, Debug, PartialEq, Eq)]
pub(crate) enum Size {
    /// A little, for a first look.
    Little,
    /// As large as is traced where traces are timed.
    Large,
}

impl Size {
    /// How many cells a row has, and how many rows there are.
    pub(crate) fn side(self) -> u32
        ensures { result ≤ 256 }
    {
        match self {
            Size::Little => 8,
            Size::Large => 256,
        }
    }

    /// How many rays are traced.
    pub(crate) fn rays(self) -> u32
        ensures { result ≤ 16384 }
    {
        match self {
            Size::Little => 64,
            Size::Large => 16384,
        }
    }
}
