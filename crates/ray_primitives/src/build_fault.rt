ghost use Rattle.std.specs.Prelude.{◌≡◌};
ghost use Rattle.ray_primitives.specs.declared.build_fault.BuildFault.TheVariants.{Data, NoMemory};

use ray_bytes::DataFault;
use std::alloc::{AllocError, AllocFailed};

/// Why a geometry wasn't read.
#[derive(Clone, Copy, Debug, PartialEq, Eq)]
pub enum BuildFault {
    /// It breaks a data rule.
    Data(DataFault),
    /// There was no memory.
    NoMemory,
}

impl From<DataFault> for BuildFault {
    ghost from_gives = { λ fault e. e ≡ Data fault };

    fn from(fault: DataFault) -> BuildFault {
        BuildFault::Data(fault)
    }
}

impl From<AllocError> for BuildFault {
    ghost from_gives = { λ _ e. e ≡ NoMemory };

    fn from(_error: AllocError) -> BuildFault {
        BuildFault::NoMemory
    }
}

impl<T: Drop> From<AllocFailed<T>> for BuildFault {
    ghost from_gives = { λ _ e. e ≡ NoMemory };

    fn from(_error: AllocFailed<T>) -> BuildFault {
        BuildFault::NoMemory
    }
}
