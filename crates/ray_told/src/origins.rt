ghost use Rattle.std.specs.Prelude.{◌≡◌, IfOk, string_bytes};
ghost use Rattle.ray_told.specs.Grounds.{contents_text, entry_text, lack_words, origin_text};
ghost use Rattle.ray_told.specs.Grounds.{stale_entry_text, stale_text};

use ray_grounds::{Entry, Lack, Origin, Stale};
use std::alloc::{AllocError as NoMemory, Global};

// By what something was built that a command reads.
pub(crate) fn origin_text(alloc: Global, origin: Origin) -> Result<String, NoMemory>
    ensures { IfOk result (λ text. string_bytes text ≡ origin_text origin) }
{
    match origin {
        Origin::Lacking(_, id, stamp, lack) => contents_text(alloc, id, stamp, lack_words(lack)),
        Origin::Stale(number, entry, stale) => stale_of(alloc, number, entry, stale),
    }
}

// An entry of `uses` that is stale.
fn stale_of(alloc: Global, number: u32, entry: Entry, stale: Stale) -> Result<String, NoMemory>
    ensures { IfOk result (λ text. string_bytes text
        ≡ stale_entry_text (entry_text number entry) entry.id (stale_text stale)) }
{
    let words = entry_text(alloc, number, entry)?;
    let why = stale_text(alloc, stale)?;
    stale_entry_text(alloc, words.as_str(), entry.id, why.as_str())
}

// An entry of `uses` by which a top was built.
fn entry_text(alloc: Global, number: u32, entry: Entry) -> Result<String, NoMemory>
    ensures { IfOk result (λ text. string_bytes text ≡ entry_text number entry) }
{
    let stamp = entry.stamp;
    let top = entry.top;
    format!(in alloc; "entry {number} of uses of command {stamp}, by which top {top} was built")
}

// The same, its structure, and why that is stale.
fn stale_entry_text(alloc: Global, entry: &str, id: u32, why: &str) -> Result<String, NoMemory>
    ensures { IfOk result (λ text. string_bytes text ≡ stale_entry_text entry.now id why.now) }
{
    format!(in alloc; "{entry}, names structure {id}, which {why}")
}

// Why a structure is stale.
fn stale_text(alloc: Global, stale: Stale) -> Result<String, NoMemory>
    ensures { IfOk result (λ text. string_bytes text ≡ stale_text stale) }
{
    match stale {
        Stale::Gone => String::from_str(alloc, "isn't live"),
        Stale::Top => String::from_str(alloc, "is a top"),
        Stale::Unbuilt => String::from_str(alloc, "isn't built"),
        Stale::Rewritten(written) => format!(in alloc; "command {written} wrote last"),
    }
}

// A structure, and how a command gave it its contents.
fn contents_text(alloc: Global, id: u32, stamp: u32, words: &str) -> Result<String, NoMemory>
    ensures { IfOk result (λ text. string_bytes text ≡ contents_text id stamp words.now) }
{
    format!(in alloc; "structure {id}, whose contents command {stamp} {words}")
}

// What a structure lacks.
fn lack_words(lack: Lack) -> &'static str
    ensures { result.now ≡ lack_words lack }
{
    match lack {
        Lack::Update => "built without allow_update",
        Lack::Compaction => "built without allow_compaction",
        Lack::Build => "deserialized",
    }
}
