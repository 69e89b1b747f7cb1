use ray_primitives::BuildFault;
use std::alloc::AllocError;
use std::{fmt, io};

/// Why the program does not end well. (Own.)
#[derive(Debug, Drop)]
pub(crate) enum BenchError {
    /// The words are none of the program's.
    BadWords,
    /// A write failed, or the words could not be read.
    Io(io::Error),
    /// What is built breaks a data rule.
    Data,
    /// Memory ran out.
    NoMemory,
}

impl BenchError {
    /// The number with which the program ends.
    pub(crate) fn status(&self) -> u8 {
        match self {
            BenchError::BadWords => 3,
            BenchError::Io(_) => 5,
            BenchError::Data => 1,
            BenchError::NoMemory => 7,
        }
    }
}

impl fmt::Display for BenchError {
    fn fmt<W: fmt::Write>(&self, f: &mut fmt::Formatter<W>) -> fmt::Result {
        match self {
            BenchError::BadWords => write!(f, "bad-words"),
            BenchError::Io(error) => write!(f, "io {error}"),
            BenchError::Data => write!(f, "data"),
            BenchError::NoMemory => write!(f, "no-memory"),
        }
    }
}

impl From<AllocError> for BenchError {
    fn from(_error: AllocError) -> BenchError {
        BenchError::NoMemory
    }
}

impl From<io::Error> for BenchError {
    fn from(error: io::Error) -> BenchError {
        BenchError::Io(error)
    }
}

impl From<BuildFault> for BenchError {
    fn from(fault: BuildFault) -> BenchError {
        match fault {
            BuildFault::Data(_) => BenchError::Data,
            BuildFault::NoMemory => BenchError::NoMemory,
        }
    }
}
