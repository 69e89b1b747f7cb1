ghost use Rattle.std.specs.Prelude.{◌≡◌, IfOk, map, string_bytes};
ghost use Rattle.vkray_cases.specs.Told.{IsToldOf};

use crate::text::Text;
use ray_io::{MemSink, MemSource};
use std::alloc::{AllocError, Global};
use std::thread::Threads;
use vkray::{NoGate, Status, vkray};

// How many bytes the source gives a call.
const PIECE: u32 = 65_536;

// How many bytes the sink takes in all: more than any case wants.
const ROOM: u32 = 1_048_576;

/// What the program answered.
#[derive(Drop)]
pub struct Told {
    /// The status with which it ended.
    pub status: Status,
    /// All that it wrote.
    pub text: Vec<u8>,
}

/// Asks the program by these words what it answers to an input, over a source and a sink in memory
/// that never fail.
pub fn ask<R: Threads + Sync>(
    rt: &R,
    alloc: Global,
    words: &[String],
    input: &[u8],
) -> Result<Told, AllocError>
    ensures { IfOk result (λ told. IsToldOf words.now input.now told) }
{
    let mut source = MemSource::new(input.to_vec(alloc)?, PIECE, Vec::new(alloc));
    let mut sink = MemSink::new(alloc, ROOM, PIECE, Vec::new(alloc))?;
    let status = vkray(rt, alloc, words, &mut source, &mut sink, &NoGate);
    Ok(Told {
        status,
        text: sink.bytes().to_vec(alloc)?,
    })
}

/// The texts as the strings that the program takes.
pub fn words_of(alloc: Global, texts: &[Text]) -> Result<Vec<String>, AllocError>
    ensures { IfOk result (λ words. map string_bytes words.items ≡ texts.now) }
{
    let mut words = Vec::new(alloc);
    for text in texts {
        words.push(String::from_str(alloc, text.as_str())?)?;
    }
    Ok(words)
}
