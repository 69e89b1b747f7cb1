ghost use Rattle.std.specs.Prelude.{◌≡◌, IfOk, string_bytes};
ghost use Rattle.ray_told.specs.Causes.{cause_text, compared, lacking_text, member_of};
ghost use Rattle.ray_told.specs.Causes.{use_word};

use crate::numbers::{multiple_text, outside_text};
use ray_causes::{BufferUse, Cause, Member, member_text};
use std::alloc::{AllocError as NoMemory, Global};

/// What is told of that by which a command breaks a static rule: the member, and what was
/// compared. Own.
///
/// # Errors
///
/// For want of memory alone.
pub fn cause_text(alloc: Global, command: u32, cause: Cause) -> Result<String, NoMemory>
    ensures { IfOk result (λ text. string_bytes text ≡ cause_text command cause) }
{
    let member = member_text(alloc, command, member_of(cause))?;
    let compared = compared(alloc, cause)?;
    format!(in alloc; "at: {member}\ncompared: {compared}\n")
}

// The member of a command by which it breaks a rule.
fn member_of(cause: Cause) -> Member
    ensures { result ≡ member_of cause }
{
    match cause {
        Cause::NoBuffer(member, _) => member,
        Cause::NoStructure(member, _) => member,
        Cause::BufferThere(name, _) => Member::Own(name),
        Cause::StructureThere(name, _) => Member::Own(name),
        Cause::Unusable(member, _, _) => member,
        Cause::Outside(member, _, _) => member,
        Cause::Misaligned(member, _) => member,
    }
}

// What was compared.
fn compared(alloc: Global, cause: Cause) -> Result<String, NoMemory>
    ensures { IfOk result (λ text. string_bytes text ≡ compared cause) }
{
    match cause {
        Cause::NoBuffer(_, id) => format!(in alloc; "no buffer {id} is live"),
        Cause::NoStructure(_, id) => format!(in alloc; "no structure {id} is live"),
        Cause::BufferThere(_, id) => format!(in alloc; "buffer {id} is live already"),
        Cause::StructureThere(_, id) => format!(in alloc; "structure {id} is live already"),
        Cause::Unusable(_, id, wanted) => unusable_text(alloc, id, wanted),
        Cause::Outside(_, range, size) => outside_text(alloc, range, size),
        Cause::Misaligned(_, multiple) => multiple_text(alloc, multiple),
    }
}

// A buffer that lacks a use.
fn unusable_text(alloc: Global, id: u32, wanted: BufferUse) -> Result<String, NoMemory>
    ensures { IfOk result (λ text. string_bytes text ≡ lacking_text id (use_word wanted)) }
{
    lacking_text(alloc, id, use_word(wanted))
}

// The same of a word.
fn lacking_text(alloc: Global, id: u32, word: &str) -> Result<String, NoMemory>
    ensures { IfOk result (λ text. string_bytes text ≡ lacking_text id word.now) }
{
    format!(in alloc; "buffer {id}, whose usage lacks {word}")
}

// A use, as a recording writes it.
fn use_word(wanted: BufferUse) -> &'static str
    ensures { result.now ≡ use_word wanted }
{
    match wanted {
        BufferUse::Input => "input",
        BufferUse::Storage => "storage",
        BufferUse::TransferSrc => "transfer_src",
        BufferUse::TransferDst => "transfer_dst",
        BufferUse::Scratch => "scratch",
        BufferUse::Structure => "structure",
    }
}
