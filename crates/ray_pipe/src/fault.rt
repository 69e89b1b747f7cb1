use std::alloc::{AllocError, AllocFailed};

/// Why a JSON value holds no tables for the traces of a recording. Own.
#[derive(Clone, Copy, Debug, PartialEq, Eq)]
pub enum TableFault {
    /// This entry is the first that is outside its shape, holds a script that is refused, or
    /// belongs to a trace with a script of its own. It is 0 where the value is no list; and where
    /// no entry is bad, but there are more or fewer than the recording has traces, it is the lesser
    /// of the two numbers.
    BadTable(u32),
    /// There was no memory to read it.
    NoMemory,
}

impl From<AllocError> for TableFault {
    ghost use Rattle.std.specs.Prelude.{◌≡◌};
    ghost use Rattle.ray_pipe.specs.declared.fault.TableFault.TheVariants.{NoMemory};

    ghost from_gives = { λ _ e. e ≡ NoMemory };

    fn from(_refused: AllocError) -> TableFault {
        TableFault::NoMemory
    }
}

impl<T: Drop> From<AllocFailed<T>> for TableFault {
    ghost use Rattle.std.specs.Prelude.{◌≡◌};
    ghost use Rattle.ray_pipe.specs.declared.fault.TableFault.TheVariants.{NoMemory};

    ghost from_gives = { λ _ e. e ≡ NoMemory };

    fn from(_refused: AllocFailed<T>) -> TableFault {
        TableFault::NoMemory
    }
}
