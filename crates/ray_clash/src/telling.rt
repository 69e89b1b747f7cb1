//! What is told of two commands at odds, in words.
ghost use Rattle.std.specs.Prelude.{◌≡◌, ◌++◌, IfOk, codes, decimal, string_bytes};
ghost use Rattle.ray_clash.specs.Telling.{access_word, barrier_text, clash_text, lack_text};
ghost use Rattle.ray_clash.specs.Telling.{mending_text, missing_text, part_text, shared_text};
ghost use Rattle.ray_clash.specs.Telling.{side_text, sides_text, stage_word};

use crate::clash::{Clash, Missing, Part, Shared, Side};
use ray_rules::{AccessType, Stage};
use std::alloc::{AllocError as NoMemory, Global};

/// What is told of commands number `earlier` and `later`: their accesses, what both reach, what is
/// missing, and a barrier that mends it. Own.
///
/// # Errors
///
/// For want of memory alone.
pub fn clash_text(
    alloc: Global,
    earlier: u32,
    later: u32,
    clash: &Clash,
) -> Result<String, NoMemory>
    ensures { IfOk result (λ text. string_bytes text ≡ clash_text earlier later clash.now) }
{
    let sides = sides_text(alloc, earlier, later, clash)?;
    let lack = lack_text(alloc, clash)?;
    let mending = mending_text(alloc, clash)?;
    joined(alloc, sides.as_str(), lack.as_str(), mending.as_str())
}

// Three texts, one after the other.
fn joined(alloc: Global, first: &str, second: &str, third: &str) -> Result<String, NoMemory>
    ensures { IfOk result (λ text. string_bytes text ≡ first.now ++ (second.now ++ third.now)) }
{
    format!(in alloc; "{first}{second}{third}")
}

// The two accesses.
fn sides_text(alloc: Global, earlier: u32, later: u32, clash: &Clash) -> Result<String, NoMemory>
    ensures { IfOk result (λ text. string_bytes text ≡ sides_text earlier later clash.now) }
{
    let first = side_text(alloc, earlier, clash.earlier)?;
    let second = side_text(alloc, later, clash.later)?;
    format!(in alloc; "first: {first}\nsecond: {second}\n")
}

// One of them.
fn side_text(alloc: Global, number: u32, side: Side) -> Result<String, NoMemory>
    ensures { IfOk result (λ text. string_bytes text ≡ side_text number side) }
{
    access_text(
        alloc,
        number,
        stage_word(side.stage),
        access_word(side.access),
    )
}

// The same of a command, and of the words of its stage and its access.
fn access_text(alloc: Global, number: u32, stage: &str, access: &str) -> Result<String, NoMemory>
    ensures { IfOk result (λ text. string_bytes text ≡ codes "command " ++ (decimal number
        ++ (codes " at stage " ++ (stage.now ++ (codes " with " ++ access.now))))) }
{
    format!(in alloc; "command {number} at stage {stage} with {access}")
}

// What both reach, and what is missing.
fn lack_text(alloc: Global, clash: &Clash) -> Result<String, NoMemory>
    ensures { IfOk result (λ text. string_bytes text ≡ lack_text clash.now) }
{
    let shared = shared_text(alloc, clash.shared)?;
    let missing = missing_words(clash.missing);
    both_text(alloc, shared.as_str(), missing)
}

// The same of two texts.
fn both_text(alloc: Global, shared: &str, missing: &str) -> Result<String, NoMemory>
    ensures { IfOk result (λ text. string_bytes text ≡ codes "both reach: " ++ (shared.now
        ++ (codes "\nmissing: " ++ (missing.now ++ codes "\n")))) }
{
    format!(in alloc; "both reach: {shared}\nmissing: {missing}\n")
}

// What both reach.
fn shared_text(alloc: Global, shared: Shared) -> Result<String, NoMemory>
    ensures { IfOk result (λ text. string_bytes text ≡ shared_text shared) }
{
    match shared {
        Shared::Bytes(part) => part_text(alloc, part),
        Shared::Structure(made) => { format!(in alloc; "the structure that command {made} made") }
        Shared::Scratch(part) => scratch_text(alloc, part),
    }
}

// Scratch memory.
fn scratch_text(alloc: Global, part: Part) -> Result<String, NoMemory>
    ensures { IfOk result (λ text. string_bytes text
        ≡ codes "as scratch memory, " ++ part_text part) }
{
    let bytes = part_text(alloc, part)?;
    format!(in alloc; "as scratch memory, {bytes}")
}

// Bytes of a buffer.
fn part_text(alloc: Global, part: Part) -> Result<String, NoMemory>
    ensures { IfOk result (λ text. string_bytes text ≡ part_text part) }
{
    let from = part.from;
    let end = part.end;
    let made = part.made;
    format!(in alloc; "bytes {from} to {end} of the buffer that command {made} made")
}

// What is missing.
fn missing_words(missing: Missing) -> &'static str
    ensures { result.now ≡ missing_text missing }
{
    match missing {
        Missing::Execution => "execution dependency: nothing orders the first before the second",
        Missing::Availability => {
            "availability: they are ordered, but no barrier or wait takes up what was written"
        }
        Missing::Visibility => {
            "visibility: what was written is available, but not visible to the second"
        }
    }
}

// Where a barrier is to be put in, and which.
fn mending_text(alloc: Global, clash: &Clash) -> Result<String, NoMemory>
    ensures { IfOk result (λ text. string_bytes text ≡ mending_text clash.now) }
{
    let put = clash.put;
    let barrier = barrier_text(alloc, clash.earlier, clash.later)?;
    format!(in alloc; "put in before command {put}: {barrier}\n")
}

// The barrier between two accesses.
fn barrier_text(alloc: Global, from: Side, to: Side) -> Result<String, NoMemory>
    ensures { IfOk result (λ text. string_bytes text ≡ barrier_text from to) }
{
    let source = source_text(alloc, stage_word(from.stage), access_word(from.access))?;
    let destination = destination_text(alloc, stage_word(to.stage), access_word(to.access))?;
    format!(in alloc; "{{\"op\":\"barrier\",{source},{destination}}}")
}

// Its source, of these words.
fn source_text(alloc: Global, stage: &str, access: &str) -> Result<String, NoMemory>
    ensures { IfOk result (λ text. string_bytes text ≡ codes "\"src_stages\":[\"" ++ (stage.now
        ++ (codes "\"],\"src_access\":[\"" ++ (access.now ++ codes "\"]")))) }
{
    format!(in alloc; "\"src_stages\":[\"{stage}\"],\"src_access\":[\"{access}\"]")
}

// Its destination.
fn destination_text(alloc: Global, stage: &str, access: &str) -> Result<String, NoMemory>
    ensures { IfOk result (λ text. string_bytes text ≡ codes "\"dst_stages\":[\"" ++ (stage.now
        ++ (codes "\"],\"dst_access\":[\"" ++ (access.now ++ codes "\"]")))) }
{
    format!(in alloc; "\"dst_stages\":[\"{stage}\"],\"dst_access\":[\"{access}\"]")
}

// A stage, as a recording writes it.
fn stage_word(stage: Stage) -> &'static str
    ensures { result.now ≡ stage_word stage }
{
    match stage {
        Stage::Transfer => "transfer",
        Stage::Build => "build",
        Stage::StructureCopy => "structure_copy",
        Stage::Compute => "compute",
        Stage::Host => "host",
    }
}

// An access, as a recording writes it.
fn access_word(access: AccessType) -> &'static str
    ensures { result.now ≡ access_word access }
{
    match access {
        AccessType::TransferRead => "transfer_read",
        AccessType::TransferWrite => "transfer_write",
        AccessType::ShaderRead => "shader_read",
        AccessType::ShaderWrite => "shader_write",
        AccessType::StructureRead => "structure_read",
        AccessType::StructureWrite => "structure_write",
        AccessType::HostRead => "host_read",
        AccessType::HostWrite => "host_write",
    }
}
