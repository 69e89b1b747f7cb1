//! Workers fetch the pieces of a wave beside each other, and each draws one piece at a time: the
//! first fetch that begins waits until certain others have begun.

use ray_device::Piece;
use ray_io::{MemSink, MemSource};
use std::alloc::Global;
use std::sync::atomic::{AtomicU64, Ordering};
use std::test::Fail;
use std::thread::Threads;
use vkray::{Gate, Status, vkray};

// How often a fetch that waits looks for the others.
const TURNS: u64 = 1_000_000_000;

// Waits in the first fetch that begins, of the pieces of the commands from one number to another,
// until so many others of these have begun.
#[derive(Drop)]
struct Meeting {
    from: u32,
    to: u32,
    others: u64,
    begun: AtomicU64,
    met: AtomicU64,
}

impl Gate for Meeting {
    fn begin(&self, piece: Piece) {
        if piece.command < self.from || self.to < piece.command {
            return;
        }
        if self.begun.fetch_add(1, Ordering::SeqCst) > 0 {
            return;
        }
        for _turn in 0..TURNS {
            if self.begun.load(Ordering::SeqCst) > self.others {
                self.met.fetch_add(1, Ordering::SeqCst);
                return;
            }
        }
    }

    fn end(&self, _piece: Piece) {}
}

// A meeting of these commands, before anything has begun.
fn gate_of(from: u32, to: u32, others: u64) -> Meeting {
    Meeting {
        from,
        to,
        others,
        begun: AtomicU64::new(0),
        met: AtomicU64::new(0),
    }
}

// What the words answer for an input, with a gate: the status and the sink.
fn answer<R: Threads + Sync>(
    rt: &R,
    alloc: Global,
    words: &str,
    input: &str,
    gate: &Meeting,
) -> Result<(Status, MemSink), Fail> {
    let mut list = Vec::new(alloc);
    for word in words.split(' ') {
        list.push(String::from_str(alloc, word)?)?;
    }
    let mut source = MemSource::new(input.as_bytes().to_vec(alloc)?, 65536, Vec::new(alloc));
    let mut sink = MemSink::new(alloc, 4096, 4096, Vec::new(alloc))?;
    let status = vkray(rt, alloc, list.as_slice(), &mut source, &mut sink, gate);
    Ok((status, sink))
}

#[test]
fn both_parts_of_a_trace_begin(rt: HostRuntime) -> Result<(), Fail> {
    let gate = gate_of(11, 11, 1);
    let words = "selfrun 1 1 128 --workers 2";
    let (status, _sink) = answer(&rt, rt.alloc(), words, "", &gate)?;
    assert_eq!(rt; status, Status::Done);
    assert_eq!(rt; gate.met.load(Ordering::SeqCst), 1);
    Ok(())
}

// Two fills with no barrier between them, and what they leave.
const FILLS: &str = concat!(
    r#"[{"op":"buffer","id":0,"size":8,"usage":["transfer_dst"]},{"op":"begin"},"#,
    r#"{"op":"fill","buffer":0,"offset":0,"size":4,"value":1},"#,
    r#"{"op":"fill","buffer":0,"offset":4,"size":4,"value":2},"#,
    r#"{"op":"barrier","src_stages":["transfer"],"src_access":["transfer_write"],"#,
    r#""dst_stages":["host"],"dst_access":["host_read"]},{"op":"end"},{"op":"submit"},"#,
    r#"{"op":"wait"},{"op":"read","buffer":0,"offset":0,"size":8,"form":"hex"}]"#,
);

#[test]
fn two_fills_begin_together(rt: HostRuntime) -> Result<(), Fail> {
    let gate = gate_of(2, 3, 1);
    let (status, sink) = answer(&rt, rt.alloc(), "run --workers 2", FILLS, &gate)?;
    assert_eq!(rt; status, Status::Done);
    assert_eq!(rt; sink.bytes(), b"0100000002000000\n".as_slice());
    assert_eq!(rt; gate.met.load(Ordering::SeqCst), 1);
    Ok(())
}

#[test]
fn one_worker_draws_what_the_other_leaves(rt: HostRuntime) -> Result<(), Fail> {
    let gate = gate_of(11, 11, 3);
    let words = "selfrun 1 1 256 --workers 2";
    let (status, _sink) = answer(&rt, rt.alloc(), words, "", &gate)?;
    assert_eq!(rt; status, Status::Done);
    assert_eq!(rt; gate.met.load(Ordering::SeqCst), 1);
    Ok(())
}

// Two builds that are submitted to two queues, with no semaphore between them.
const BUILDS: &str = concat!(
    r#"{"commands":[{"op":"buffer","id":0,"size":1024,"usage":["structure"]},"#,
    r#"{"op":"buffer","id":1,"size":1024,"usage":["scratch"]},"#,
    r#"{"op":"structure","id":0,"kind":"bottom","buffer":0,"offset":0,"size":512},"#,
    r#"{"op":"structure","id":1,"kind":"bottom","buffer":0,"offset":512,"size":512},"#,
    r#"{"op":"begin"},{"op":"build","infos":[{"mode":"build","dst":0,"flags":[],"#,
    r#""scratch":{"buffer":1,"offset":0},"geometries":[]}]},{"op":"end"},{"op":"submit"},"#,
    r#"{"op":"begin"},{"op":"build","infos":[{"mode":"build","dst":1,"flags":[],"#,
    r#""scratch":{"buffer":1,"offset":512},"geometries":[]}]},{"op":"end"},{"op":"submit"},"#,
    r#"{"op":"wait"}],"submits":[{"queue":0,"waits":[],"signals":[]},"#,
    r#"{"queue":1,"waits":[],"signals":[]}]}"#,
);

#[test]
fn builds_of_two_queues_begin_together(rt: HostRuntime) -> Result<(), Fail> {
    let gate = gate_of(5, 9, 1);
    let words = "queues --workers 2";
    let (status, sink) = answer(&rt, rt.alloc(), words, BUILDS, &gate)?;
    assert_eq!(rt; status, Status::Done);
    assert_eq!(rt; sink.bytes(), b"".as_slice());
    assert_eq!(rt; gate.met.load(Ordering::SeqCst), 1);
    Ok(())
}
