//! A writer of std as a sink.

ghost use Rattle.std.specs.Prelude.{◌≡◌, ◌<◌, ◌≤◌, None, length, IfOk, OnErr};
ghost use Rattle.std.specs.Io.KnownBytes.{WriteAppends};
ghost use Rattle.ray_io.specs.Faults.{HasRisen};
ghost use Rattle.ray_io.specs.StdSink.{faults_of, writer_of, zero_writes_of};

use crate::count::counted_on;
use crate::failed::Failed;
use crate::sink::Sink;
use std::io;

/// A writer of std: each write makes one write to it, and never a flush. Any error of the writer,
/// an interruption too, is a `Failed` and is counted, and so is a write that takes nothing of a
/// piece that isn't empty. It doesn't tell what was taken (own).
#[derive(Drop)]
pub struct StdSink<T> {
    writer: T,
    faults: u64,
    zero_writes: u64,
}

impl<T: io::Write> StdSink<T> {
    /// A sink at which no write was made yet.
    pub fn new(writer: T) -> StdSink<T>
        ensures writer { writer_of result ≡ writer }
        ensures faults { faults_of result ≡ 0 }
        ensures zero_writes { zero_writes_of result ≡ 0 }
    {
        StdSink {
            writer,
            faults: 0,
            zero_writes: 0,
        }
    }
}

impl<T: io::Write> Sink for StdSink<T> {
    ghost taken = { λ _. None };

    ghost faults = { λ s. faults_of s };

    ghost zero_writes = { λ s. zero_writes_of s };

    /// As `Sink` says, and where the writer itself says which bytes it holds, it gains those taken.
    fn write(&mut self, from: &[u8]) -> Result<usize, Failed>
        ensures bytes { WriteAppends (T.contents (writer_of self.old)) (T.contents (writer_of self.new))
            result from.now }

        // What `Sink` promises of a sink that doesn't tell.
        ensures count { IfOk result (λ n. n ≤ length from.now) }
        ensures failed { OnErr result (HasRisen (faults_of self.old) (faults_of self.new)) }
        ensures zero { IfOk result (λ n. n ≡ 0 → 0 < length from.now →
            HasRisen (zero_writes_of self.old) (zero_writes_of self.new)) }
        ensures rising { faults_of self.old ≤ faults_of self.new }
        ensures zero_rising { zero_writes_of self.old ≤ zero_writes_of self.new }
        ensures zero_some { IfOk result (λ n. 0 < n → zero_writes_of self.new ≡ zero_writes_of self.old) }
        ensures zero_empty { length from.now ≡ 0 → zero_writes_of self.new ≡ zero_writes_of self.old }
        ensures zero_failed { OnErr result (zero_writes_of self.new ≡ zero_writes_of self.old) }
    {
        match self.writer.write(from) {
            Ok(count) => {
                if count == 0 && !from.is_empty() {
                    self.zero_writes = counted_on(self.zero_writes);
                }
                Ok(count)
            }
            Err(_) => {
                self.faults = counted_on(self.faults);
                Err(Failed)
            }
        }
    }
}
