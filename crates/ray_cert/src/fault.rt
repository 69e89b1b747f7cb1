use std::alloc::AllocError;

/// Why no certificate was read of a line. (Own.)
#[derive(Clone, Copy, Debug, PartialEq, Eq)]
pub enum CertFault {
    /// The line isn't the spelling of a certificate.
    BadLine,
    /// There was no memory to read it.
    NoMemory,
}

impl From<AllocError> for CertFault {
    ghost use Rattle.std.specs.Prelude.{◌≡◌};
    ghost use Rattle.ray_cert.specs.declared.fault.CertFault.TheVariants.{NoMemory};

    ghost from_gives = { λ _ e. e ≡ NoMemory };

    fn from(_refused: AllocError) -> CertFault {
        CertFault::NoMemory
    }
}
