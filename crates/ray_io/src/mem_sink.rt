//! A sink in memory.

ghost use Rattle.std.specs.Prelude.{◌≡◌, ◌<◌, ◌≤◌, ◌↔◌, [], length, Some, IsErr, IfOk, OnErr, IfSome, is_some, Contains};
ghost use Rattle.ray_io.specs.Faults.{HasRisen};
ghost use Rattle.ray_io.specs.Sink.{TakesFirst};
ghost use Rattle.ray_io.specs.MemSink.{taken_count, after_write, after_failed_write};

use crate::count::{counted_on, is_among};
use crate::failed::Failed;
use crate::sink::Sink;
use std::alloc::{AllocError as NoMemory, Global};
use std::marker::Model;

/// Room in memory for `room` bytes, of which each write takes at most `piece`; the writes whose
/// numbers, from 0, stand in `fails` fail (own).
#[derive(Drop)]
pub struct MemSink {
    taken: Vec<u8>,
    room: u32,
    piece: u32,
    fails: Vec<u32>,
    calls: u64,
    faults: u64,
    zero_writes: u64,
}

impl Model for MemSink {
    ghost use Rattle.std.specs.Prelude.{◌≤◌, length, vec_capacity};
    ghost use Rattle.ray_io.specs.MemSink.{SinkState};

    ghost Value = { SinkState };

    ghost view = { λ s. record {
      taken = s.taken.items;
      room = s.room;
      piece = s.piece;
      fails = s.fails.items;
      calls = s.calls;
      faults = s.faults;
      zero_writes = s.zero_writes;
    } };

    ghost invariant = { λ s. (length s.taken.items ≤ s.room) × (s.room ≤ vec_capacity s.taken) };
}

impl MemSink {
    /// An empty sink, at which no write was made yet. All the memory that it will need is taken
    /// here; an error says that there was none.
    pub fn new(alloc: Global, room: u32, piece: u32, fails: Vec<u32>) -> Result<MemSink, NoMemory>
        ensures { IfOk result (λ s. s ≡ record {
          taken = [];
          room = room;
          piece = piece;
          fails = fails.items;
          calls = 0;
          faults = 0;
          zero_writes = 0;
        }) }
    {
        Ok(MemSink {
            taken: Vec::with_capacity(alloc, room as usize)?,
            room,
            piece,
            fails,
            calls: 0,
            faults: 0,
            zero_writes: 0,
        })
    }

    /// The bytes that it took, in the order in which it took them.
    pub fn bytes(&self) -> &[u8]
        ensures { result.now ≡ self.now.taken }
    {
        &self.taken
    }
}

impl Sink for MemSink {
    ghost taken = { λ s. Some s.taken };

    ghost faults = { λ s. s.faults };

    ghost zero_writes = { λ s. s.zero_writes };

    /// As `Sink` says, and exactly: it fails at the calls in `fails` and at no other, and takes
    /// the least of the piece, the bytes in `from` and the room that is left.
    fn write(&mut self, from: &[u8]) -> Result<usize, Failed>
        ensures fails { IsErr result ↔ Contains self.old.fails self.old.calls }
        ensures exact { IfOk result (λ n. n ≡ taken_count self.old (length from.now)) }
        ensures ok { IfOk result (λ n. self.new ≡ after_write self.old n from.now) }
        ensures err { OnErr result (self.new ≡ after_failed_write self.old) }

        // What `Sink` promises.
        ensures count { IfOk result (λ n. n ≤ length from.now) }
        ensures told { IfOk result (λ n. IfSome (Some self.old.taken) (λ bytes.
            TakesFirst bytes (Some self.new.taken) n from.now)) }
        ensures failed { OnErr result (HasRisen self.old.faults self.new.faults) }
        ensures stays { OnErr result (Some self.new.taken ≡ Some self.old.taken) }
        ensures zero { IfOk result (λ n. n ≡ 0 → 0 < length from.now →
            HasRisen self.old.zero_writes self.new.zero_writes) }
        ensures rising { self.old.faults ≤ self.new.faults }
        ensures zero_rising { self.old.zero_writes ≤ self.new.zero_writes }
        ensures zero_some { IfOk result (λ n. 0 < n → self.new.zero_writes ≡ self.old.zero_writes) }
        ensures zero_empty { length from.now ≡ 0 → self.new.zero_writes ≡ self.old.zero_writes }
        ensures zero_failed { OnErr result (self.new.zero_writes ≡ self.old.zero_writes) }
        ensures telling { is_some (Some self.new.taken) ≡ is_some (Some self.old.taken) }
    {
        let failing = is_among(&self.fails, self.calls);
        self.calls = counted_on(self.calls);
        if failing {
            self.faults = counted_on(self.faults);
            return Err(Failed);
        }
        let room = self.room as usize - self.taken.len();
        let count = room.min(from.len()).min(self.piece as usize);
        if count == 0 && !from.is_empty() {
            self.zero_writes = counted_on(self.zero_writes);
        }
        match self.taken.extend_from_slice(&from[..count]) {
            Ok(()) => Ok(count),
            Err(_) => unreachable!("the room was reserved"),
        }
    }
}
