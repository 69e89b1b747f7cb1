ghost use Rattle.std.specs.Prelude.{◌≡◌, max};
ghost use Rattle.ray_sync.specs.Kinds.{no_numbers, number_of, raised_at};

use crate::kind::Kind;

/// A number for each kind of commands.
#[derive(Clone, Copy, Debug, PartialEq, Eq)]
pub struct PerKind {
    /// That of transfers.
    pub transfer: u32,
    /// That of builds.
    pub build: u32,
    /// That of copies of structures.
    pub structure_copy: u32,
    /// That of traces.
    pub compute: u32,
    /// That of barriers.
    pub barrier: u32,
    /// That of host commands.
    pub host: u32,
}

impl PerKind {
    // Each number is 0.
    pub(crate) fn none() -> PerKind
        ensures { result ≡ no_numbers }
    {
        PerKind {
            transfer: 0,
            build: 0,
            structure_copy: 0,
            compute: 0,
            barrier: 0,
            host: 0,
        }
    }

    // The number of a kind.
    pub(crate) fn at(self, kind: Kind) -> u32
        ensures { result ≡ number_of self kind }
    {
        match kind {
            Kind::Transfer => self.transfer,
            Kind::Build => self.build,
            Kind::StructureCopy => self.structure_copy,
            Kind::Compute => self.compute,
            Kind::Barrier => self.barrier,
            Kind::Host => self.host,
        }
    }

    // The same with the number of a kind at least this one.
    pub(crate) fn raised(self, kind: Kind, number: u32) -> PerKind
        ensures { result ≡ raised_at self kind number }
    {
        match kind {
            Kind::Transfer => PerKind {
                transfer: greater(self.transfer, number),
                ..self
            },
            Kind::Build => PerKind {
                build: greater(self.build, number),
                ..self
            },
            Kind::StructureCopy => PerKind {
                structure_copy: greater(self.structure_copy, number),
                ..self
            },
            Kind::Compute => PerKind {
                compute: greater(self.compute, number),
                ..self
            },
            Kind::Barrier => PerKind {
                barrier: greater(self.barrier, number),
                ..self
            },
            Kind::Host => PerKind {
                host: greater(self.host, number),
                ..self
            },
        }
    }
}

// The greater of two numbers.
pub(crate) fn greater(a: u32, b: u32) -> u32
    ensures { result ≡ max a b }
{
    if a < b { b } else { a }
}
