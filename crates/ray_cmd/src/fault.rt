use std::alloc::{AllocError, AllocFailed};

/// Why bytes are no recording. Own.
#[derive(Clone, Copy, Debug, PartialEq, Eq)]
pub enum RecordingFault {
    /// The bytes are no UTF-8 or no JSON.
    NotJson,
    /// This command is the first that has no shape of a command. It is 0 where the JSON is no
    /// array, and 65,536 where the array has more commands than that and none before is outside the
    /// shapes.
    BadShape(u32),
    /// There was no memory to read the recording.
    NoMemory,
}

impl From<AllocError> for RecordingFault {
    ghost use Rattle.std.specs.Prelude.{◌≡◌};
    ghost use Rattle.ray_cmd.specs.declared.fault.RecordingFault.TheVariants.{NoMemory};

    ghost from_gives = { λ _ e. e ≡ NoMemory };

    fn from(_refused: AllocError) -> RecordingFault {
        RecordingFault::NoMemory
    }
}

impl<T: Drop> From<AllocFailed<T>> for RecordingFault {
    ghost use Rattle.std.specs.Prelude.{◌≡◌};
    ghost use Rattle.ray_cmd.specs.declared.fault.RecordingFault.TheVariants.{NoMemory};

    ghost from_gives = { λ _ e. e ≡ NoMemory };

    fn from(_refused: AllocFailed<T>) -> RecordingFault {
        RecordingFault::NoMemory
    }
}
