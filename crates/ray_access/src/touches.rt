ghost use Rattle.std.specs.Prelude.{IfOk};
ghost use Rattle.ray_rules.specs.Access.{accesses_of, host_reads};
ghost use Rattle.ray_access.specs.Lists.{AreOf, AreTouched};

use crate::commands::{
    build, copy, copy_structure, deserialize, host_read, one_write, property, serialize, trace,
};
use crate::touched::Touched;
use ray_cmd::{Command, Recording};
use ray_status::Status;
use std::alloc::{AllocError as NoMemory, Global};

/// What a command reads and writes. Own.
#[derive(Drop)]
pub struct Touches {
    /// Its reads.
    pub reads: Vec<Touched>,
    /// Its writes.
    pub writes: Vec<Touched>,
}

/// What a command reads and writes where a status stands before it.
///
/// # Errors
///
/// For want of memory alone.
#[tactic(auto, unfolding(ray_rules::specs::Access::accesses_of))]
pub fn touches_of(
    alloc: Global,
    rec: &Recording,
    status: &Status,
    command: &Command,
) -> Result<Touches, NoMemory>
    ensures { IfOk result (AreOf status.now (accesses_of rec.now status.now command.now)) }
{
    match command {
        Command::Update {
            buffer,
            offset,
            content,
        } => one_write(
            alloc,
            status,
            *buffer,
            *offset,
            content.as_slice().len() as u64,
        ),
        Command::Fill {
            buffer,
            offset,
            size,
            ..
        } => one_write(alloc, status, *buffer, *offset, *size),
        Command::Copy { src, dst, regions } => {
            copy(alloc, status, *src, *dst, regions.as_slice())
        }
        Command::Build { infos } => build(alloc, status, infos.as_slice()),
        Command::CopyStructure { src, dst, .. } => copy_structure(alloc, status, *src, *dst),
        Command::Serialize { src, dst, .. } => serialize(alloc, status, *src, *dst),
        Command::Deserialize { src, dst, uses } => {
            deserialize(alloc, status, *src, *dst, uses.as_slice())
        }
        Command::Property {
            structures,
            dst,
            ..
        } => property(alloc, status, structures.as_slice(), *dst),
        Command::Trace {
            top,
            rays,
            count,
            hits,
            ..
        } => trace(alloc, rec, status, *top, *rays, *count, *hits),
        _ => Ok(Touches {
            reads: Vec::new(alloc),
            writes: Vec::new(alloc),
        }),
    }
}

/// What a host command reads where a status stands before it: the bytes of a `read`.
///
/// # Errors
///
/// For want of memory alone.
pub fn host_touches_of(
    alloc: Global,
    status: &Status,
    command: &Command,
) -> Result<Vec<Touched>, NoMemory>
    ensures { IfOk result (λ list. AreTouched status.now (host_reads command.now) list.items) }
{
    match command {
        Command::Read {
            buffer,
            offset,
            size,
            ..
        } => host_read(alloc, status, *buffer, *offset, *size),
        _ => Ok(Vec::new(alloc)),
    }
}
