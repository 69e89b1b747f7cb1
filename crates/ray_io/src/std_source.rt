//! A reader of std as a source.

ghost use Rattle.std.specs.Prelude.{◌≡◌, ◌≤◌, None, length, IfOk, OnErr};
ghost use Rattle.std.specs.Io.KnownBytes.{ReadConsumes};
ghost use Rattle.ray_io.specs.Faults.{HasRisen};
ghost use Rattle.ray_io.specs.StdSource.{faults_of, reader_of};

use crate::count::counted_on;
use crate::failed::Failed;
use crate::source::Source;
use std::io;

/// A reader of std: each read makes one read of it, straight into the slice that it is lent. Any
/// error of the reader, an interruption too, is a `Failed` and is counted. It doesn't tell what is
/// left (own).
#[derive(Drop)]
pub struct StdSource<T> {
    reader: T,
    faults: u64,
}

impl<T: io::Read> StdSource<T> {
    /// A source at which no read was made yet.
    pub fn new(reader: T) -> StdSource<T>
        ensures reader { reader_of result ≡ reader }
        ensures faults { faults_of result ≡ 0 }
    {
        StdSource { reader, faults: 0 }
    }
}

impl<T: io::Read> Source for StdSource<T> {
    ghost left = { λ _. None };

    ghost faults = { λ s. faults_of s };

    /// As `Source` says, and where the reader itself says which bytes it has left, it gives those.
    fn read(&mut self, into: &mut [u8]) -> Result<usize, Failed>
        ensures bytes { ReadConsumes (T.remaining (reader_of self.old)) (T.remaining (reader_of self.new))
            result into.new }

        // What `Source` promises of a source that doesn't tell.
        ensures count { IfOk result (λ n. n ≤ length into.old) }
        ensures failed { OnErr result (HasRisen (faults_of self.old) (faults_of self.new)) }
        ensures rising { faults_of self.old ≤ faults_of self.new }
    {
        match self.reader.read(into) {
            Ok(count) => Ok(count),
            Err(_) => {
                self.faults = counted_on(self.faults);
                Err(Failed)
            }
        }
    }
}
