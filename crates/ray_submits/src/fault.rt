use std::alloc::{AllocError, AllocFailed};

/// Why a JSON value is no recording that is submitted to queues. Own.
#[derive(Clone, Copy, Debug, PartialEq, Eq)]
pub enum QueueFault {
    /// It is no object with exactly the members `commands` and `submits`.
    BadObject,
    /// This command of `commands` is the first that has no shape of a command, as in a recording.
    BadShape(u32),
    /// This entry of `submits` is the first outside its shape. It is 0 where `submits` is no list;
    /// and where each entry has its shape, but there are more or fewer entries than the commands
    /// have `submit`s, it is the lesser of the two numbers.
    BadSubmits(u32),
    /// There was no memory to read it.
    NoMemory,
}

impl From<AllocError> for QueueFault {
    ghost use Rattle.std.specs.Prelude.{◌≡◌};
    ghost use Rattle.ray_submits.specs.declared.fault.QueueFault.TheVariants.{NoMemory};

    ghost from_gives = { λ _ e. e ≡ NoMemory };

    fn from(_refused: AllocError) -> QueueFault {
        QueueFault::NoMemory
    }
}

impl<T: Drop> From<AllocFailed<T>> for QueueFault {
    ghost use Rattle.std.specs.Prelude.{◌≡◌};
    ghost use Rattle.ray_submits.specs.declared.fault.QueueFault.TheVariants.{NoMemory};

    ghost from_gives = { λ _ e. e ≡ NoMemory };

    fn from(_refused: AllocFailed<T>) -> QueueFault {
        QueueFault::NoMemory
    }
}
