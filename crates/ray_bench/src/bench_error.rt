ghost use Rattle.std.specs.Prelude.{◌≡◌};
ghost use Rattle.ray_bench.specs.Status.{status_of};

use std::alloc::AllocError;
use std::{fmt, io};

/// Why the program does not end well. (Own.)
#[derive(Debug, Drop)]
pub enum BenchError {
    /// The words are none of the program's.
    BadWords,
    /// A write failed, or the words could not be read.
    Io(io::Error),
    /// Memory ran out.
    NoMemory,
}

impl BenchError {
    /// The number with which the program ends.
    pub fn status(&self) -> u8
        ensures { result ≡ status_of self.now }
    {
        match self {
            BenchError::BadWords => 3,
            BenchError::Io(_) => 5,
            BenchError::NoMemory => 7,
        }
    }
}

impl fmt::Display for BenchError {
    fn fmt<W: fmt::Write>(&self, f: &mut fmt::Formatter<W>) -> fmt::Result {
        match self {
            BenchError::BadWords => write!(f, "bad-words"),
            BenchError::Io(error) => write!(f, "io {error}"),
            BenchError::NoMemory => write!(f, "no-memory"),
        }
    }
}

impl From<AllocError> for BenchError {
    ghost use Rattle.ray_bench.specs.declared.bench_error.BenchError.TheVariants.{NoMemory};

    ghost from_gives = { λ _ e. e ≡ NoMemory };

    fn from(_error: AllocError) -> BenchError {
        BenchError::NoMemory
    }
}

impl From<io::Error> for BenchError {
    ghost use Rattle.ray_bench.specs.declared.bench_error.BenchError.TheVariants.{Io};

    ghost from_gives = { λ error e. e ≡ Io error };

    fn from(error: io::Error) -> BenchError {
        BenchError::Io(error)
    }
}
