ghost use Rattle.std.specs.Prelude.{◌≡◌};
ghost use Rattle.vkray.specs.Codes.{code_of};

/// How a call of the program ends. (Own.)
#[derive(Clone, Copy, Debug, PartialEq, Eq)]
pub enum Status {
    /// The input was read to its end, no rule is broken, and the whole text is written.
    Done,
    /// A command of the recording breaks a rule.
    Refused,
    /// The input is no JSON, or no recording.
    BadRecording,
    /// The words are none of the program's.
    BadWords,
    /// A read failed.
    ReadFault,
    /// A write failed, or took nothing.
    WriteFault,
    /// The input is longer than 2^26 bytes.
    TooLong,
    /// Memory ran out.
    NoMemory,
}

impl Status {
    /// The number with which the program ends, from 0 to 7.
    pub fn code(self) -> u8
        ensures { result ≡ code_of self }
    {
        match self {
            Status::Done => 0,
            Status::Refused => 1,
            Status::BadRecording => 2,
            Status::BadWords => 3,
            Status::ReadFault => 4,
            Status::WriteFault => 5,
            Status::TooLong => 6,
            Status::NoMemory => 7,
        }
    }
}
