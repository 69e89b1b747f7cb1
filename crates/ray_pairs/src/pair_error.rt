use std::alloc::AllocError;
use std::{fmt, io};

/// Why the program does not end well. (Own.)
#[derive(Debug, Drop)]
pub(crate) enum PairError {
    /// The words are none of the program's.
    BadWords,
    /// A write failed, or the words could not be read.
    Io(io::Error),
    /// A made-up recording isn't read.
    NotRead,
    /// Memory ran out.
    NoMemory,
}

impl PairError {
    /// The number with which the program ends.
    pub(crate) fn status(&self) -> u8 {
        match self {
            PairError::BadWords => 3,
            PairError::Io(_) => 5,
            PairError::NotRead => 2,
            PairError::NoMemory => 7,
        }
    }
}

impl fmt::Display for PairError {
    fn fmt<W: fmt::Write>(&self, f: &mut fmt::Formatter<W>) -> fmt::Result {
        match self {
            PairError::BadWords => write!(f, "bad-words"),
            PairError::Io(error) => write!(f, "io {error}"),
            PairError::NotRead => write!(f, "not-read"),
            PairError::NoMemory => write!(f, "no-memory"),
        }
    }
}

impl From<AllocError> for PairError {
    fn from(_error: AllocError) -> PairError {
        PairError::NoMemory
    }
}

impl From<io::Error> for PairError {
    fn from(error: io::Error) -> PairError {
        PairError::Io(error)
    }
}
