use ray_io::{MemSink, MemSource};
use std::alloc::Global;
use std::test::Fail;
use std::thread::Threads;
use vkray::{NoGate, Status, vkray};

/// How `run` is called: its source and its sink.
#[derive(Clone, Copy)]
pub(crate) struct Call<'a> {
    pub(crate) input: &'a [u8],
    /// How many bytes the source gives a call at most.
    pub(crate) read_piece: u32,
    /// The number of the source's call that fails.
    pub(crate) read_fails: Option<u32>,
    /// How many bytes the sink takes in all.
    pub(crate) room: u32,
    /// How many bytes the sink takes a call at most.
    pub(crate) write_piece: u32,
    /// The number of the sink's call that fails.
    pub(crate) write_fails: Option<u32>,
}

/// `run` on an input, with a source and a sink that never fail.
pub(crate) fn run(input: &[u8]) -> Call<'_> {
    Call {
        input,
        read_piece: 65536,
        read_fails: None,
        room: 4096,
        write_piece: 4096,
        write_fails: None,
    }
}

/// The status, and the sink with what was written.
pub(crate) fn answer<R: Threads + Sync>(
    rt: &R,
    alloc: Global,
    call: &Call<'_>,
) -> Result<(Status, MemSink), Fail> {
    let words = vec![in alloc; String::from_str(alloc, "run")?]?;
    let piece = call.read_piece.max(1);
    let mut source = MemSource::new(
        call.input.to_vec(alloc)?,
        piece,
        numbers(alloc, call.read_fails)?,
    );
    let fails = numbers(alloc, call.write_fails)?;
    let mut sink = MemSink::new(alloc, call.room, call.write_piece, fails)?;
    let status = vkray(rt, alloc, words.as_slice(), &mut source, &mut sink, &NoGate);
    Ok((status, sink))
}

// The list of the number that is given, if one is.
fn numbers(alloc: Global, number: Option<u32>) -> Result<Vec<u32>, Fail> {
    let mut numbers = Vec::new(alloc);
    if let Some(number) = number {
        numbers.push(number)?;
    }
    Ok(numbers)
}
