ghost use Rattle.std.specs.Prelude.{◌≡◌, ◌+◌, ◌≤◌, ◌^◌};
ghost use Rattle.ray_rules.specs.Makers.{buffer_of};
ghost use Rattle.ray_access.specs.Axis.{ReachFits, TouchFits, extent_of, memory_number, stretch, stretch_from, touched};

use crate::touched::Touched;
use ray_ranges::Range;
use ray_rules::{Reach, Touch};
use ray_status::Status;

// How many numbers each stretch has.
const STRETCH: u128 = 1 << 70;

// How many stretches each kind of memory has.
const STRETCHES: u128 = 1 << 32;

/// A kind of memory: what has a stretch of the axis. Own.
#[derive(Clone, Copy, Debug, PartialEq, Eq)]
pub enum Memory {
    /// The bytes of a buffer.
    Bytes,
    /// The structure that a command made.
    Structures,
    /// The scratch memory of a buffer.
    Scratch,
}

impl Memory {
    // The number of a kind of memory.
    fn number(self) -> u128
        ensures value { result ≡ memory_number self }
        ensures limit { result ≤ 2 }
    {
        match self {
            Memory::Bytes => 0,
            Memory::Structures => 1,
            Memory::Scratch => 2,
        }
    }
}

// Where the stretch of what a command made begins.
fn stretch_from(memory: Memory, made: u32) -> u128
    ensures value { result ≡ stretch_from memory made }
    ensures limit { result ≤ 2 ^ 110 }
{
    (memory.number() * STRETCHES + u128::from(made)) * STRETCH
}

// The numbers of a part of what a command made: none where there is no such command.
fn stretch(memory: Memory, made: Option<u32>, from: u128, size: u128) -> Range
    requires { from + size ≤ 2 ^ 70 }
    ensures { result ≡ stretch memory made from size }
{
    match made {
        None => Range { from: 0, end: 0 },
        Some(made) => {
            let first = stretch_from(memory, made);
            Range {
                from: first + from,
                end: first + (from + size),
            }
        }
    }
}

// The numbers of what is reached where a status stands.
fn extent_of(status: &Status, reach: Reach) -> Range
    requires { ReachFits reach }
    ensures { result ≡ extent_of status.now reach }
{
    match reach {
        Reach::Bytes(r) => {
            let made = status.maker_of_buffer(r.buffer);
            stretch(Memory::Bytes, made, r.from, r.size)
        }
        Reach::Structure(id) => {
            let made = status.maker_of_structure(id);
            stretch(Memory::Structures, made, 0, 1)
        }
        Reach::Scratch(r) => {
            let made = status.maker_of_buffer(r.buffer);
            stretch(Memory::Scratch, made, r.from, r.size)
        }
    }
}

// The buffer in which something is reached where a status stands, by the command that made it.
fn buffer_of(status: &Status, reach: Reach) -> Option<u32>
    ensures { result ≡ buffer_of status.now reach }
{
    match reach {
        Reach::Bytes(r) => status.maker_of_buffer(r.buffer),
        Reach::Structure(_) => None,
        Reach::Scratch(r) => status.maker_of_buffer(r.buffer),
    }
}

// A touch, with its numbers and its buffer.
pub(crate) fn touched(status: &Status, touch: Touch) -> Touched
    requires { TouchFits touch }
    ensures { result ≡ touched status.now touch }
{
    Touched {
        access: touch.access,
        range: extent_of(status, touch.reach),
        buffer: buffer_of(status, touch.reach),
    }
}
