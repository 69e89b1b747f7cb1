ghost use Rattle.std.specs.Prelude.{◌≡◌, IfOk, string_bytes};
ghost use Rattle.ray_told.specs.Misfits.{exclusive_text, kind_text, kind_words, misfit_member};
ghost use Rattle.ray_told.specs.Misfits.{misfit_text, misfit_words, same_text, two_kinds_text};
ghost use Rattle.ray_told.specs.Misfits.{private_text, unsupported_text, uses_text};

use crate::words::{access_word, ray_word};
use ray_causes::{Member, Name, member_text};
use ray_cmd::StructureKind;
use ray_kinds::{Misfit, Pair, Uses};
use std::alloc::{AllocError as NoMemory, Global};

/// What is told of what doesn't fit: the member, and what was compared. Own.
///
/// # Errors
///
/// For want of memory alone.
pub fn misfit_text(alloc: Global, command: u32, misfit: Misfit) -> Result<String, NoMemory>
    ensures { IfOk result (λ text. string_bytes text ≡ misfit_text command misfit) }
{
    let member = member_text(alloc, command, misfit_member(misfit))?;
    let compared = misfit_words(alloc, misfit)?;
    format!(in alloc; "at: {member}\ncompared: {compared}\n")
}

// The member of a command by which it breaks a rule.
fn misfit_member(misfit: Misfit) -> Member
    ensures { result ≡ misfit_member misfit }
{
    match misfit {
        Misfit::WrongKind(member, _, _) => member,
        Misfit::UsesOfBottom(member, _) => member,
        Misfit::TwoKinds(member, _) => member,
        Misfit::Same(_) => Member::Own(Name::Dst),
        Misfit::BothFast(info) => Member::Info(info, Name::Flags),
        Misfit::Exclusive(_) => Member::Own(Name::Flags),
        Misfit::Unsupported(member, _) => member,
        Misfit::NoUsage | Misfit::Mixed => Member::Own(Name::Usage),
        Misfit::Filled => Member::Own(Name::Data),
        Misfit::ReadOfPrivate(_) => Member::Own(Name::Buffer),
    }
}

// What was compared.
fn misfit_words(alloc: Global, misfit: Misfit) -> Result<String, NoMemory>
    ensures { IfOk result (λ text. string_bytes text ≡ misfit_words misfit) }
{
    match misfit {
        Misfit::WrongKind(_, id, wanted) => kind_text(alloc, id, kind_words(wanted)),
        Misfit::UsesOfBottom(_, uses) => uses_text(alloc, uses),
        Misfit::TwoKinds(_, two) => two_kinds_text(alloc, two),
        Misfit::Same(two) => same_text(alloc, two),
        Misfit::BothFast(_) => String::from_str(alloc, "prefer_fast_trace and prefer_fast_build"),
        Misfit::Exclusive(two) => exclusive_text(alloc, ray_word(two.one), ray_word(two.other)),
        Misfit::Unsupported(_, word) => unsupported_text(alloc, access_word(word)),
        Misfit::NoUsage => String::from_str(alloc, "no usage"),
        Misfit::Mixed => String::from_str(alloc, "scratch or structure, and another usage"),
        Misfit::Filled => String::from_str(alloc, FILLED),
        Misfit::ReadOfPrivate(id) => private_text(alloc, id),
    }
}

// What is told of a buffer with content that may have none.
const FILLED: &str = "content of a buffer for scratch memory or for structures";

// A buffer that is read.
fn private_text(alloc: Global, id: u32) -> Result<String, NoMemory>
    ensures { IfOk result (λ text. string_bytes text ≡ private_text id) }
{
    format!(in alloc; "buffer {id} is for scratch memory or for structures, and isn't read")
}

// Two flags that exclude one another.
fn exclusive_text(alloc: Global, one: &str, other: &str) -> Result<String, NoMemory>
    ensures { IfOk result (λ text. string_bytes text ≡ exclusive_text one.now other.now) }
{
    format!(in alloc; "{one} and {other}")
}

// An access that no stage supports.
fn unsupported_text(alloc: Global, word: &str) -> Result<String, NoMemory>
    ensures { IfOk result (λ text. string_bytes text ≡ unsupported_text word.now) }
{
    format!(in alloc; "{word}, which no stage of this side supports")
}

// A structure, and its kind.
fn kind_text(alloc: Global, id: u32, words: &str) -> Result<String, NoMemory>
    ensures { IfOk result (λ text. string_bytes text ≡ kind_text id words.now) }
{
    format!(in alloc; "structure {id}{words}")
}

// The kind that isn't wanted, and the one that is.
fn kind_words(wanted: StructureKind) -> &'static str
    ensures { result.now ≡ kind_words wanted }
{
    match wanted {
        StructureKind::Bottom => " is a top, and a bottom is wanted",
        StructureKind::Top => " is a bottom, and a top is wanted",
    }
}

// Entries, and the bottom for which they are.
fn uses_text(alloc: Global, uses: Uses) -> Result<String, NoMemory>
    ensures { IfOk result (λ text. string_bytes text ≡ uses_text uses) }
{
    let count = uses.count;
    let dst = uses.dst;
    format!(in alloc; "{count} entries, and structure {dst} is a bottom")
}

// A source and a destination of two kinds.
fn two_kinds_text(alloc: Global, two: Pair) -> Result<String, NoMemory>
    ensures { IfOk result (λ text. string_bytes text ≡ two_kinds_text two) }
{
    let src = two.src;
    let dst = two.dst;
    format!(in alloc; "of structures {src} and {dst} one is a bottom and one a top")
}

// One structure.
fn same_text(alloc: Global, two: Pair) -> Result<String, NoMemory>
    ensures { IfOk result (λ text. string_bytes text ≡ same_text two) }
{
    let src = two.src;
    format!(in alloc; "structure {src} is the source, too")
}
