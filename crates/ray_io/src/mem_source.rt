//! A source in memory.

ghost use Rattle.std.specs.Prelude.{◌≡◌, ◌<◌, ◌≤◌, ◌↔◌, [], ◌++◌, length, take, drop, Some, IsErr, IfOk, OnErr, IfSome, is_some, Contains};
ghost use Rattle.ray_io.specs.Faults.{HasRisen};
ghost use Rattle.ray_io.specs.Source.{GivesFirst};
ghost use Rattle.ray_io.specs.MemSource.{given_count, after_read, after_failed_read};

use crate::count::{counted_on, is_among};
use crate::failed::Failed;
use crate::source::Source;
use std::marker::Model;

/// Bytes in memory, of which each read gives at most `piece`; the reads whose numbers, from 0,
/// stand in `fails` fail (own).
#[derive(Drop)]
pub struct MemSource {
    bytes: Vec<u8>,
    read: usize,
    piece: u32,
    fails: Vec<u32>,
    calls: u64,
    faults: u64,
}

impl Model for MemSource {
    ghost use Rattle.std.specs.Prelude.{◌≤◌, length, drop};
    ghost use Rattle.ray_io.specs.MemSource.{SourceState};

    ghost Value = { SourceState };

    ghost view = { λ s. record {
      left = drop s.read s.bytes.items;
      piece = s.piece;
      fails = s.fails.items;
      calls = s.calls;
      faults = s.faults;
    } };

    ghost invariant = { λ s. (s.read ≤ length s.bytes.items) × (1 ≤ s.piece) };
}

impl MemSource {
    /// A source of these bytes, at which no read was made yet.
    pub fn new(bytes: Vec<u8>, piece: u32, fails: Vec<u32>) -> MemSource
        requires { 1 ≤ piece }
        ensures { result ≡ record { left = bytes.items; piece = piece; fails = fails.items; calls = 0; faults = 0 } }
    {
        MemSource {
            bytes,
            read: 0,
            piece,
            fails,
            calls: 0,
            faults: 0,
        }
    }
}

impl Source for MemSource {
    ghost left = { λ s. Some s.left };

    ghost faults = { λ s. s.faults };

    /// As `Source` says, and exactly: it fails at the calls in `fails` and at no other, and gives
    /// the least of the piece, the room in `into` and the bytes left.
    fn read(&mut self, into: &mut [u8]) -> Result<usize, Failed>
        ensures fails { IsErr result ↔ Contains self.old.fails self.old.calls }
        ensures exact { IfOk result (λ n. n ≡ given_count self.old (length into.old)) }
        ensures given { IfOk result (λ n. into.new ≡ take n self.old.left ++ drop n into.old) }
        ensures ok { IfOk result (λ n. self.new ≡ after_read self.old n) }
        ensures err { OnErr result (self.new ≡ after_failed_read self.old) }
        ensures untouched { OnErr result (into.new ≡ into.old) }

        // What `Source` promises.
        ensures count { IfOk result (λ n. n ≤ length into.old) }
        ensures told { IfOk result (λ n. IfSome (Some self.old.left) (λ bytes.
            GivesFirst bytes (Some self.new.left) n into.new)) }
        ensures end { IfOk result (λ n. IfSome (Some self.old.left) (λ bytes.
            0 < length into.old → (n ≡ 0) ↔ (bytes ≡ []))) }
        ensures failed { OnErr result (HasRisen self.old.faults self.new.faults) }
        ensures stays { OnErr result (Some self.new.left ≡ Some self.old.left) }
        ensures rising { self.old.faults ≤ self.new.faults }
        ensures telling { is_some (Some self.new.left) ≡ is_some (Some self.old.left) }
    {
        let failing = is_among(&self.fails, self.calls);
        self.calls = counted_on(self.calls);
        if failing {
            self.faults = counted_on(self.faults);
            return Err(Failed);
        }
        let rest = &self.bytes[self.read..];
        let count = rest.len().min(into.len()).min(self.piece as usize);
        into[..count].copy_from_slice(&rest[..count]);
        self.read += count;
        Ok(count)
    }
}
