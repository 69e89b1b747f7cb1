ghost use Rattle.std.specs.Prelude.{◌≡◌, IfOk, string_bytes};
ghost use Rattle.ray_told.specs.Limits.{bound_text, full_text, limit_member, limit_text};
ghost use Rattle.ray_told.specs.Limits.{limit_words, overlaps_text, sizes_text};
ghost use Rattle.ray_told.specs.Numbers.{range_text};

use crate::numbers::{multiple_text, outside_text, range_text};
use ray_causes::{Member, Name, member_text};
use ray_limits::{Bound, Limit, Sizes};
use ray_rules::ByteRange;
use std::alloc::{AllocError as NoMemory, Global};

/// What is told of the number by which a command breaks a rule: the member, and what was compared.
/// Own.
///
/// # Errors
///
/// For want of memory alone.
pub fn limit_text(alloc: Global, command: u32, limit: Limit) -> Result<String, NoMemory>
    ensures { IfOk result (λ text. string_bytes text ≡ limit_text command limit) }
{
    let member = member_text(alloc, command, limit_member(limit))?;
    let compared = limit_words(alloc, limit)?;
    format!(in alloc; "at: {member}\ncompared: {compared}\n")
}

// The member of a command by which it breaks a rule.
fn limit_member(limit: Limit) -> Member
    ensures { result ≡ limit_member limit }
{
    match limit {
        Limit::Empty(member) => member,
        Limit::Above(member, _) => member,
        Limit::NoMultiple(member, _) => member,
        Limit::Small(member, _) => member,
        Limit::Full(_, _) => Member::Own(Name::Size),
        Limit::Outside(_, _) => Member::Own(Name::Offset),
        Limit::Overlaps(_, _, _) => Member::Own(Name::Offset),
    }
}

// What was compared.
fn limit_words(alloc: Global, limit: Limit) -> Result<String, NoMemory>
    ensures { IfOk result (λ text. string_bytes text ≡ limit_words limit) }
{
    match limit {
        Limit::Empty(_) => String::from_str(alloc, "0 bytes"),
        Limit::Above(_, bound) => bound_text(alloc, bound),
        Limit::NoMultiple(_, multiple) => multiple_text(alloc, multiple),
        Limit::Small(_, sizes) => sizes_text(alloc, sizes),
        Limit::Full(live, size) => full_text(alloc, live, size),
        Limit::Outside(range, size) => outside_text(alloc, range, size),
        Limit::Overlaps(range, id, made) => overlapping_text(alloc, range, id, made),
    }
}

// A number of bytes, and how many there may be.
fn bound_text(alloc: Global, bound: Bound) -> Result<String, NoMemory>
    ensures { IfOk result (λ text. string_bytes text ≡ bound_text bound) }
{
    let number = bound.number;
    let most = bound.most;
    format!(in alloc; "{number} bytes, and at most {most} may be")
}

// The size of a structure, and that which it has to have.
fn sizes_text(alloc: Global, sizes: Sizes) -> Result<String, NoMemory>
    ensures { IfOk result (λ text. string_bytes text ≡ sizes_text sizes) }
{
    let id = sizes.id;
    let size = sizes.size;
    let wanted = sizes.wanted;
    format!(in alloc; "structure {id} has {size} bytes, and {wanted} are needed")
}

// The bytes of all live buffers, and those of one more.
fn full_text(alloc: Global, live: u64, size: u64) -> Result<String, NoMemory>
    ensures { IfOk result (λ text. string_bytes text ≡ full_text live size) }
{
    format!(in alloc; "live buffers have {live} bytes, and with {size} more they pass 268435456")
}

// A range that meets that of a structure.
fn overlapping_text(alloc: Global, range: ByteRange, id: u32, made: u32) -> Result<String, NoMemory>
    ensures { IfOk result (λ text. string_bytes text ≡ overlaps_text (range_text range) id made) }
{
    let range = range_text(alloc, range)?;
    overlaps_text(alloc, range.as_str(), id, made)
}

// The same of the range as a text.
fn overlaps_text(alloc: Global, range: &str, id: u32, made: u32) -> Result<String, NoMemory>
    ensures { IfOk result (λ text. string_bytes text ≡ overlaps_text range.now id made) }
{
    format!(in alloc; "{range}, which meet those of structure {id}, made by command {made}")
}
