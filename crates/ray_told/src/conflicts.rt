ghost use Rattle.std.specs.Prelude.{◌≡◌, IfOk, string_bytes};
ghost use Rattle.ray_told.specs.Conflicts.{conflict_member, conflict_text, conflict_words};
ghost use Rattle.ray_told.specs.Conflicts.{other_text, way_name, way_word};

use ray_causes::{Member, Name, member_text};
use ray_conflicts::{Conflict, Way};
use std::alloc::{AllocError as NoMemory, Global};

/// What is told of parts that conflict: the member, and what was compared. Own.
///
/// # Errors
///
/// For want of memory alone.
pub fn conflict_text(alloc: Global, command: u32, conflict: Conflict) -> Result<String, NoMemory>
    ensures { IfOk result (λ text. string_bytes text ≡ conflict_text command conflict) }
{
    let member = member_text(alloc, command, conflict_member(conflict))?;
    let compared = conflict_words(alloc, conflict)?;
    format!(in alloc; "at: {member}\ncompared: {compared}\n")
}

// The member that conflicts.
fn conflict_member(conflict: Conflict) -> Member
    ensures { result ≡ conflict_member conflict }
{
    match conflict {
        Conflict::Infos(two, way) => Member::Info(two.part, way_name(way)),
        Conflict::Targets(two) => Member::Region(two.part, Name::DstOffset),
        Conflict::Source(two) => Member::Region(two.part, Name::DstOffset),
        Conflict::Hits => Member::Own(Name::Hits),
    }
}

// The member of an info that conflicts in a way.
fn way_name(way: Way) -> Name
    ensures { result ≡ way_name way }
{
    match way {
        Way::Same => Name::Dst,
        Way::Source => Name::Src,
        Way::Use => Name::Uses,
        Way::Read => Name::Dst,
        Way::Scratch => Name::Scratch,
    }
}

// What was compared.
fn conflict_words(alloc: Global, conflict: Conflict) -> Result<String, NoMemory>
    ensures { IfOk result (λ text. string_bytes text ≡ conflict_words conflict) }
{
    match conflict {
        Conflict::Infos(two, way) => other_text(alloc, "info", two.other, way_word(way)),
        Conflict::Targets(two) => {
            other_text(alloc, "region", two.other, "writes bytes of these, too")
        }
        Conflict::Source(two) => other_text(alloc, "region", two.other, "reads bytes of these"),
        Conflict::Hits => String::from_str(alloc, "the rays share bytes with them"),
    }
}

// What another part does.
fn other_text(alloc: Global, part: &str, number: u32, word: &str) -> Result<String, NoMemory>
    ensures { IfOk result (λ text. string_bytes text ≡ other_text part.now number word.now) }
{
    format!(in alloc; "{part} {number} {word}")
}

// What the other info does.
fn way_word(way: Way) -> &'static str
    ensures { result.now ≡ way_word way }
{
    match way {
        Way::Same => "has this dst, too",
        Way::Source => "writes it",
        Way::Use => "writes one of them",
        Way::Read => "reads it",
        Way::Scratch => "has scratch memory that shares bytes with it",
    }
}
