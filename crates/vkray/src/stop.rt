use crate::input_fault::InputFault;
use ray_cmd::RecordingFault;
use ray_exec::RunFault;
use ray_inputs::BadInput;
use ray_io::ReadError;

/// Why there is no text of a run. (Own.)
#[derive(Clone, Copy, Debug, PartialEq, Eq)]
pub enum Stop {
    /// The words are none of the program's.
    BadWords,
    /// A read failed.
    ReadFault,
    /// The input is longer than 2^26 bytes.
    TooLong,
    /// The input is none that can be answered.
    Input(InputFault),
    /// Memory ran out.
    NoMemory,
}

impl From<ReadError> for Stop {
    ghost use Rattle.std.specs.Prelude.{◌≡◌};
    ghost use Rattle.vkray.specs.Endings.{stop_of_read};

    ghost from_gives = { λ error stop. stop ≡ stop_of_read error };

    fn from(error: ReadError) -> Stop {
        match error {
            ReadError::ReadFault => Stop::ReadFault,
            ReadError::TooLong => Stop::TooLong,
            ReadError::NoMemory => Stop::NoMemory,
        }
    }
}

impl From<RecordingFault> for Stop {
    ghost use Rattle.std.specs.Prelude.{◌≡◌};
    ghost use Rattle.vkray.specs.Endings.{stop_of_recording};

    ghost from_gives = { λ fault stop. stop ≡ stop_of_recording fault };

    fn from(fault: RecordingFault) -> Stop {
        match fault {
            RecordingFault::NotJson => Stop::Input(InputFault::NotJson),
            RecordingFault::BadShape(command) => Stop::Input(InputFault::BadShape(command)),
            RecordingFault::NoMemory => Stop::NoMemory,
        }
    }
}

impl From<BadInput> for Stop {
    ghost use Rattle.std.specs.Prelude.{◌≡◌};
    ghost use Rattle.vkray.specs.Endings.{stop_of_input};

    ghost from_gives = { λ fault stop. stop ≡ stop_of_input fault };

    fn from(fault: BadInput) -> Stop {
        match fault {
            BadInput::NotJson => Stop::Input(InputFault::NotJson),
            BadInput::BadObject => Stop::Input(InputFault::BadObject),
            BadInput::BadShape(command) => Stop::Input(InputFault::BadShape(command)),
            BadInput::BadTable(entry) => Stop::Input(InputFault::BadTable(entry)),
            BadInput::BadSubmits(entry) => Stop::Input(InputFault::BadSubmits(entry)),
            BadInput::BadCertificates => Stop::Input(InputFault::BadCertificates),
            BadInput::NoMemory => Stop::NoMemory,
        }
    }
}

impl From<RunFault> for Stop {
    ghost use Rattle.std.specs.Prelude.{◌≡◌};
    ghost use Rattle.vkray.specs.Endings.{stop_of_run};

    ghost from_gives = { λ fault stop. stop ≡ stop_of_run fault };

    fn from(fault: RunFault) -> Stop {
        match fault {
            RunFault::Refused(refusal) => Stop::Input(InputFault::Refused(refusal)),
            RunFault::NoMemory => Stop::NoMemory,
        }
    }
}
