//! Why not all could be read.

ghost use Rattle.std.specs.Prelude.{◌≡◌};
ghost use Rattle.ray_io.specs.declared.read_error.ReadError.TheVariants.{ReadFault, NoMemory};

use crate::failed::Failed;
use std::alloc::AllocError;

/// Why `read_all` gave up (own).
#[derive(Clone, Copy, Debug, PartialEq, Eq)]
pub enum ReadError {
    /// A read failed.
    ReadFault,
    /// There are more bytes than the limit.
    TooLong,
    /// Memory ran out.
    NoMemory,
}

impl From<Failed> for ReadError {
    ghost from_gives = { λ _ e. e ≡ ReadFault };

    fn from(_failed: Failed) -> ReadError {
        ReadError::ReadFault
    }
}

impl From<AllocError> for ReadError {
    ghost from_gives = { λ _ e. e ≡ NoMemory };

    fn from(_error: AllocError) -> ReadError {
        ReadError::NoMemory
    }
}
