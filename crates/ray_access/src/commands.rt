ghost use Rattle.std.specs.Prelude.{◌≡◌, ◌<◌, ◌≤◌, ◌+◌, ◌*◌, ◌^◌, IfOk, [], length};
ghost use Rattle.ray_rules.specs.declared.access_type.AccessType.TheVariants.{ShaderRead, ShaderWrite, StructureWrite};
ghost use Rattle.ray_rules.specs.Access.{at_bytes, at_structure, build_accesses, copy_accesses, deserialize_accesses};
ghost use Rattle.ray_rules.specs.Access.{property_accesses, ray_accesses};
ghost use Rattle.ray_rules.specs.Access.{serialize_accesses, structure_copy_accesses, uses_at, write_accesses};
ghost use Rattle.ray_access.specs.Axis.{TouchFits};
ghost use Rattle.ray_access.specs.Lists.{AreOf, AreTouched, IsHostRead, rays_traced, structures_traced};

use crate::infos::{add_info_reads, add_info_writes};
use crate::lists::{add, add_structures, structure_read};
use crate::touched::Touched;
use crate::touches::Touches;
use ray_cmd::{Info, Recording, Region, Spot, Stretch};
use ray_rules::{AccessType, Reach, Touch};
use ray_status::{Status, range, uses_of};
use std::alloc::{AllocError as NoMemory, Global};

// An access of bytes.
fn bytes(access: AccessType, buffer: u32, from: u64, size: u64) -> Touch
    ensures value { result ≡ at_bytes access buffer from size }
    ensures fits { TouchFits result }
{
    Touch {
        access,
        reach: Reach::Bytes(range(buffer, from, u128::from(size))),
    }
}

// An access of all records of these sizes from a spot on.
fn records(access: AccessType, spot: Spot, size: u64, count: u32) -> Touch
    requires { size < 2 ^ 10 }
    ensures value { result ≡ at_bytes access spot.buffer (spot.offset + size * 0) (size * count) }
    ensures fits { TouchFits result }
{
    bytes(access, spot.buffer, spot.offset, size * u64::from(count))
}

// The write of a structure.
fn structure_write(id: u32) -> Touch
    ensures value { result ≡ at_structure StructureWrite id }
    ensures fits { TouchFits result }
{
    Touch {
        access: AccessType::StructureWrite,
        reach: Reach::Structure(id),
    }
}

// The write of an update or of a fill.
#[tactic(auto, using(crate::proofs::Joining::begun))]
pub(crate) fn one_write(
    alloc: Global,
    status: &Status,
    buffer: u32,
    offset: u64,
    size: u64,
) -> Result<Touches, NoMemory>
    ensures { IfOk result (AreOf status.now (write_accesses buffer offset size)) }
{
    let reads = Vec::new(alloc);
    let mut writes = Vec::new(alloc);
    let access = AccessType::TransferWrite;
    add(&mut writes, status, bytes(access, buffer, offset, size))?;
    Ok(Touches { reads, writes })
}

// The sources and the destinations of a copy.
#[tactic(auto, using(crate::proofs::Joining::adds_none, crate::proofs::Joining::adds_next))]
pub(crate) fn copy(
    alloc: Global,
    status: &Status,
    src: u32,
    dst: u32,
    regions: &[Region],
) -> Result<Touches, NoMemory>
    ensures { IfOk result (AreOf status.now (copy_accesses src dst regions.now)) }
{
    let mut reads = Vec::new(alloc);
    let mut writes = Vec::new(alloc);
    for region in regions {
        let read = AccessType::TransferRead;
        let write = AccessType::TransferWrite;
        let size = region.size;
        add(
            &mut reads,
            status,
            bytes(read, src, region.src_offset, size),
        )?;
        add(
            &mut writes,
            status,
            bytes(write, dst, region.dst_offset, size),
        )?;
    }
    Ok(Touches { reads, writes })
}

// What the infos of a build read and write.
#[tactic(auto, using(crate::proofs::Joining::adds_none))]
pub(crate) fn build(alloc: Global, status: &Status, infos: &[Info]) -> Result<Touches, NoMemory>
    ensures { IfOk result (AreOf status.now (build_accesses status.now.buffers infos.now)) }
{
    let mut reads = Vec::new(alloc);
    let mut writes = Vec::new(alloc);
    for info in infos {
        add_info_reads(&mut reads, status, info)?;
        add_info_writes(&mut writes, status, info)?;
    }
    Ok(Touches { reads, writes })
}

// The source and the destination of a copy of a structure.
#[tactic(auto, using(crate::proofs::Joining::begun))]
pub(crate) fn copy_structure(
    alloc: Global,
    status: &Status,
    src: u32,
    dst: u32,
) -> Result<Touches, NoMemory>
    ensures { IfOk result (AreOf status.now (structure_copy_accesses src dst)) }
{
    let mut reads = Vec::new(alloc);
    let mut writes = Vec::new(alloc);
    add(&mut reads, status, structure_read(src))?;
    add(&mut writes, status, structure_write(dst))?;
    Ok(Touches { reads, writes })
}

// The structure that is serialized, and its bytes.
#[tactic(auto, using(crate::proofs::Joining::begun))]
pub(crate) fn serialize(
    alloc: Global,
    status: &Status,
    src: u32,
    dst: Stretch,
) -> Result<Touches, NoMemory>
    ensures { IfOk result (AreOf status.now (serialize_accesses src dst)) }
{
    let mut reads = Vec::new(alloc);
    let mut writes = Vec::new(alloc);
    let access = AccessType::TransferWrite;
    add(&mut reads, status, structure_read(src))?;
    add(
        &mut writes,
        status,
        bytes(access, dst.buffer, dst.offset, dst.size),
    )?;
    Ok(Touches { reads, writes })
}

// The serialized bytes, the structures that they may refer to, and the structure that is made.
#[tactic(auto, using(crate::proofs::Joining::begun, crate::proofs::Joining::adds_then))]
pub(crate) fn deserialize(
    alloc: Global,
    status: &Status,
    src: Stretch,
    dst: u32,
    uses: &[u32],
) -> Result<Touches, NoMemory>
    ensures { IfOk result (AreOf status.now (deserialize_accesses src dst uses.now)) }
{
    let mut reads = Vec::new(alloc);
    let mut writes = Vec::new(alloc);
    let access = AccessType::TransferRead;
    add(
        &mut reads,
        status,
        bytes(access, src.buffer, src.offset, src.size),
    )?;
    add_structures(&mut reads, status, uses)?;
    add(&mut writes, status, structure_write(dst))?;
    Ok(Touches { reads, writes })
}

// The structures that are asked, and the bytes of the answers.
#[tactic(auto, using(crate::proofs::Joining::begun, crate::proofs::Joining::adds_then))]
pub(crate) fn property(
    alloc: Global,
    status: &Status,
    structures: &[u32],
    dst: Spot,
) -> Result<Touches, NoMemory>
    requires { length structures.now ≤ 67108864 }
    ensures { IfOk result (AreOf status.now (property_accesses structures.now dst)) }
{
    let mut reads = Vec::new(alloc);
    let mut writes = Vec::new(alloc);
    let access = AccessType::TransferWrite;
    let size = 8 * structures.len() as u64;
    add_structures(&mut reads, status, structures)?;
    add(
        &mut writes,
        status,
        bytes(access, dst.buffer, dst.offset, size),
    )?;
    Ok(Touches { reads, writes })
}

// The structures that are traced, the rays and the hits.
#[tactic(auto, using(crate::proofs::Joining::begun, crate::proofs::Joining::adds_then))]
pub(crate) fn trace(
    alloc: Global,
    rec: &Recording,
    status: &Status,
    top: u32,
    rays: Spot,
    count: u32,
    hits: Spot,
) -> Result<Touches, NoMemory>
    ensures { IfOk result (AreOf status.now (ray_accesses rec.now status.now top rays hits 0 count)) }
{
    let mut reads = Vec::new(alloc);
    let mut writes = Vec::new(alloc);
    add(&mut reads, status, structure_read(top))?;
    add_structures(&mut reads, status, uses_at(rec, status, top))?;
    add(&mut reads, status, rays_read(rays, count))?;
    add(&mut writes, status, hits_written(hits, count))?;
    Ok(Touches { reads, writes })
}

// The read of the rays of a trace.
fn rays_read(rays: Spot, count: u32) -> Touch
    ensures value { result ≡ at_bytes ShaderRead rays.buffer (rays.offset + 40 * 0) (40 * count) }
    ensures fits { TouchFits result }
{
    records(AccessType::ShaderRead, rays, 40, count)
}

// The write of its hits.
fn hits_written(hits: Spot, count: u32) -> Touch
    ensures value { result ≡ at_bytes ShaderWrite hits.buffer (hits.offset + 80 * 0) (80 * count) }
    ensures fits { TouchFits result }
{
    records(AccessType::ShaderWrite, hits, 80, count)
}

/// What a trace of the top of an id reads of structures where a status stands: the top, and all
/// that it may refer to.
///
/// # Errors
///
/// For want of memory alone.
#[tactic(auto, using(crate::proofs::Joining::begun, crate::proofs::Joining::adds_then))]
pub fn structures_traced(
    alloc: Global,
    rec: &Recording,
    status: &Status,
    top: u32,
) -> Result<Vec<Touched>, NoMemory>
    ensures { IfOk result (λ list.
        AreTouched status.now (structures_traced rec.now status.now top) list.items) }
{
    let mut reads = Vec::new(alloc);
    add(&mut reads, status, structure_read(top))?;
    add_structures(&mut reads, status, uses_at(rec, status, top))?;
    Ok(reads)
}

/// What else a trace reads and writes: so many rays, and their hits.
///
/// # Errors
///
/// For want of memory alone.
#[tactic(auto, using(crate::proofs::Joining::begun))]
pub fn rays_traced(
    alloc: Global,
    status: &Status,
    rays: Spot,
    count: u32,
    hits: Spot,
) -> Result<Touches, NoMemory>
    ensures { IfOk result (AreOf status.now (rays_traced rays hits count)) }
{
    let mut reads = Vec::new(alloc);
    let mut writes = Vec::new(alloc);
    add(&mut reads, status, rays_read(rays, count))?;
    add(&mut writes, status, hits_written(hits, count))?;
    Ok(Touches { reads, writes })
}

// The structures that the top of an id may refer to: none where it isn't built.
fn uses_at<'a>(rec: &'a Recording, status: &Status, top: u32) -> &'a [u32]
    ensures { result.now ≡ uses_at rec.now status.now top }
{
    match status.built(top) {
        Some(built) => uses_of(rec, &built),
        None => &[],
    }
}

// The bytes that a `read` reads.
#[tactic(auto, using(crate::proofs::Joining::begun))]
pub(crate) fn host_read(
    alloc: Global,
    status: &Status,
    buffer: u32,
    offset: u64,
    size: u64,
) -> Result<Vec<Touched>, NoMemory>
    ensures { IfOk result (λ list. IsHostRead status.now buffer offset size list.items) }
{
    let mut reads = Vec::new(alloc);
    add(
        &mut reads,
        status,
        bytes(AccessType::HostRead, buffer, offset, size),
    )?;
    Ok(reads)
}
