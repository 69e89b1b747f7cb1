ghost use Rattle.std.specs.Prelude.{◌≡◌, map, IfOk, IsSome};
ghost use Rattle.std.specs.List.{flat_map};
ghost use Rattle.byteorder.specs.Endian.{little_bytes};
ghost use Rattle.ray_bottom.specs.Trees.{without_tree};
ghost use Rattle.ray_cmd.specs.declared.copy_mode.CopyMode.TheVariants as copies;
ghost use Rattle.ray_action.specs.Memory.{StructureAt, ContentsAt, bytes_at};
ghost use Rattle.ray_action.specs.Outcomes.{bytes_outcome, copy_outcome, compact_copy, number_of, numbers_of, property_outcome};
ghost use Rattle.ray_action.specs.Readiness.{IsCopyReady, FitsMode, IsBottomSource};
ghost use Rattle.ray_action.specs.Seeing.{see_structure};
ghost use Rattle.ray_memory.specs.State.{memory_of};
ghost use Rattle.ray_device.specs.Fetching.{IsFetched, clone_outcome, number_told};

use crate::fetch_fault::FetchFault;
use crate::output::Output;
use crate::serializing::{handle_count_at, serialized_size_at};
use ray_bottom::Bottom;
use ray_bytes::DataRule;
use ray_cmd::{Asked, CopyMode, Place};
use ray_memory::State;
use ray_rules::ByteRange;
use std::alloc::{AllocError as NoMemory, Global};

/// What a copy of bytes gives: those of a range, which is there. Only want of memory fails.
/// (vkCmdCopyBuffer)
pub(crate) fn copied_bytes(
    alloc: Global,
    state: &State,
    from: ByteRange,
) -> Result<Output, FetchFault>
    requires { IsSome (bytes_at (memory_of state.now) from) }
    ensures { IsFetched (bytes_outcome (bytes_at (memory_of state.now) from)) result }
{
    match state.bytes(from) {
        Some(bytes) => Ok(Output::Bytes(bytes.to_vec(alloc)?)),
        None => unreachable!("the range is there"),
    }
}

/// What a copy of a structure gives: what the source holds. The destination is live and of the
/// source's kind; the source of a compact copy is a bottom structure. `Data` comes exactly where a
/// compact copy has a destination below the compacted size (X13), with the place `Whole`.
/// (vkCmdCopyAccelerationStructureKHR)
pub(crate) fn copied_structure(
    alloc: Global,
    state: &State,
    mode: CopyMode,
    src: u32,
    dst: u32,
) -> Result<Output, FetchFault>
    requires ready { IsCopyReady (memory_of state.now (ContentsAt src))
        (memory_of state.now (StructureAt dst)) }
    requires fits { FitsMode mode (memory_of state.now (ContentsAt src)) }
    ensures { IsFetched (copy_outcome mode (memory_of state.now (ContentsAt src))
        (memory_of state.now (StructureAt dst))) result }
{
    match mode {
        CopyMode::Clone => clone(alloc, state, src),
        CopyMode::Compact => compact(alloc, state, src, dst),
    }
}

// What a clone gives.
fn clone(alloc: Global, state: &State, src: u32) -> Result<Output, FetchFault>
    requires { IsSome (memory_of state.now (ContentsAt src)) }
    ensures { IsFetched (clone_outcome (memory_of state.now (ContentsAt src))) result }
{
    if let Some(bottom) = state.bottom(src) {
        return Ok(Output::Bottom(bottom.copy(alloc)?));
    }
    match state.top(src) {
        Some(top) => Ok(Output::Top(top.copy(alloc)?)),
        None => unreachable!("the source is built"),
    }
}

// What a compact copy gives: X13 where the destination is too small.
fn compact(alloc: Global, state: &State, src: u32, dst: u32) -> Result<Output, FetchFault>
    requires source { IsBottomSource (memory_of state.now (ContentsAt src)) }
    requires live { IsSome (memory_of state.now (StructureAt dst)) }
    ensures { IsFetched (copy_outcome copies.Compact (memory_of state.now (ContentsAt src))
        (memory_of state.now (StructureAt dst))) result }
{
    match (state.bottom(src), state.form(dst)) {
        (Some(bottom), Some(form)) => compacted(alloc, bottom, form.size),
        _ => unreachable!("the source is built, and the destination is live"),
    }
}

// The same of a structure, into one of a size.
fn compacted(alloc: Global, bottom: &Bottom, size: u64) -> Result<Output, FetchFault>
    ensures { IsFetched (compact_copy size (without_tree bottom.now)) result }
{
    if size < bottom.compacted_size() {
        Err(FetchFault::Data(DataRule::X13, Place::Whole))
    } else {
        Ok(Output::Bottom(bottom.compact(alloc)?))
    }
}

/// What is told of structures: the numbers that are asked of them, each in 8 bytes, little-endian.
/// Each structure has the number. Only want of memory fails.
/// (vkCmdWriteAccelerationStructuresPropertiesKHR)
#[tactic(auto, using(crate::proofs::Numbers::told_numbers))]
pub(crate) fn told_numbers(
    alloc: Global,
    state: &State,
    what: Asked,
    structures: &[u32],
) -> Result<Output, FetchFault>
    requires { IsSome (numbers_of what (map (see_structure (memory_of state.now)) structures.now)) }
    ensures { IsFetched (property_outcome (numbers_of what
        (map (see_structure (memory_of state.now)) structures.now))) result }
{
    let numbers = numbers(alloc, state, what, structures)?;
    Ok(Output::Bytes(words(alloc, numbers.as_slice())?))
}

// The numbers of structures, 0 where one has none.
fn numbers(
    alloc: Global,
    state: &State,
    what: Asked,
    structures: &[u32],
) -> Result<Vec<u64>, NoMemory>
    ensures { IfOk result (λ v. v.items
        ≡ map (number_told what (memory_of state.now)) structures.now) }
{
    structures
        .iter()
        .map(|id| number_told(state, what, *id))
        .collect(alloc)
}

// The number of a structure, 0 where it has none.
fn number_told(state: &State, what: Asked, id: u32) -> u64
    ensures { result ≡ number_told what (memory_of state.now) id }
{
    number(state, what, id).unwrap_or(0)
}

// The number that is asked of a structure.
fn number(state: &State, what: Asked, id: u32) -> Option<u64>
    ensures { result ≡ number_of what (see_structure (memory_of state.now) id) }
{
    match what {
        Asked::Compacted => Some(state.bottom(id)?.compacted_size()),
        Asked::Size => Some(state.form(id)?.size),
        Asked::Serialized => serialized_size_at(state, false, id),
        Asked::SerializedForm2 => serialized_size_at(state, true, id),
        Asked::Handles => handle_count_at(state, id),
    }
}

// Numbers of 64 bits, one after the other.
fn words(alloc: Global, numbers: &[u64]) -> Result<Vec<u8>, NoMemory>
    ensures { IfOk result (λ v. v.items ≡ flat_map (little_bytes 8) numbers.now) }
{
    let mut out = Vec::new(alloc);
    for k in 0..numbers.len() {
        out.extend_from_slice(&numbers[k].to_le_bytes())?;
    }
    Ok(out)
}
