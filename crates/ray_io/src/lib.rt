//! Byte sources and sinks that may fail at any call.
//!
//! A `Source` tells in its ghost member `left` which bytes it has left, a `Sink` in `taken` which
//! bytes it took, and both count their faults, so that a program's top call can say what it read
//! and wrote, and that it gave up only where a read or a write really failed. The layer above
//! calls `read_all` and `write_all`: their contracts are the ones to read. `MemSource` and
//! `MemSink` stand in memory and fail where they are told to; `StdSource` and `StdSink` stand
//! before a reader and a writer of std, tell nothing, and are the trusted edge to the outside.
//! The crate stands on std alone. Its rules are its own: Vulkan says nothing of them.
#![tactic(auto)]

mod count;
mod failed;
mod mem_sink;
mod mem_source;
mod read_error;
mod reading;
mod sink;
mod source;
mod std_sink;
mod std_source;
mod write_fault;
mod writing;

pub use failed::Failed;
pub use mem_sink::MemSink;
pub use mem_source::MemSource;
pub use read_error::ReadError;
pub use reading::read_all;
pub use sink::Sink;
pub use source::Source;
pub use std::alloc::AllocError as NoMemory;
pub use std_sink::StdSink;
pub use std_source::StdSource;
pub use write_fault::WriteFault;
pub use writing::write_all;
