use ray_bottom::NoMemory as Refused;

/// Why the form of a bottom structure gives none. (Own.)
#[derive(Clone, Copy, Debug, PartialEq, Eq)]
pub enum StoredFault {
    /// It is a form 2, and carries no tree over its primitives: number 10.
    BadTree,
    /// There was no memory to make it.
    NoMemory,
}

impl From<Refused> for StoredFault {
    ghost use Rattle.std.specs.Prelude.{◌≡◌};
    ghost use Rattle.ray_serial.specs.declared.stored_fault.StoredFault.TheVariants.{NoMemory};

    ghost from_gives = { λ _ e. e ≡ NoMemory };

    fn from(_refused: Refused) -> StoredFault {
        StoredFault::NoMemory
    }
}
