ghost use Rattle.std.specs.Prelude.{◌≡◌, IfOk, string_bytes};
ghost use Rattle.ray_told.specs.Updates.{change_spot, change_text, change_word, matter_word};
ghost use Rattle.ray_told.specs.Updates.{spot_and_text, update_spot, update_text, update_words};

use ray_causes::{Member, Name};
use ray_crowds::{Spot, spot_text};
use ray_updates::{Change, Matter, Update};
use std::alloc::{AllocError as NoMemory, Global};

/// What is told of an update that differs from its source: the spot, and what was compared. Own.
///
/// # Errors
///
/// For want of memory alone.
pub fn update_text(alloc: Global, command: u32, update: Update) -> Result<String, NoMemory>
    ensures { IfOk result (λ text. string_bytes text ≡ update_text command update) }
{
    let words = update_words(alloc, update)?;
    spot_and_text(alloc, command, update_spot(update), words.as_str())
}

// Where an update differs.
#[tactic(auto, unfolding(crate::specs::Updates::update_spot))]
fn update_spot(update: Update) -> Spot
    ensures { result ≡ update_spot update }
{
    change_spot(update.info, update.change)
}

// In what an update differs.
#[tactic(auto, unfolding(crate::specs::Updates::update_words))]
fn update_words(alloc: Global, update: Update) -> Result<String, NoMemory>
    ensures { IfOk result (λ text. string_bytes text ≡ update_words update) }
{
    change_text(alloc, update.stamp, change_word(update.change))
}

// A spot, and what was compared there.
fn spot_and_text(alloc: Global, command: u32, spot: Spot, words: &str) -> Result<String, NoMemory>
    ensures { IfOk result (λ text. string_bytes text ≡ spot_and_text command spot words.now) }
{
    let spot = spot_text(alloc, command, spot)?;
    format!(in alloc; "at: {spot}\ncompared: {words}\n")
}

// Where an info differs.
fn change_spot(info: u32, change: Change) -> Spot
    ensures { result ≡ change_spot info change }
{
    match change {
        Change::Flags => Spot::Member(Member::Info(info, Name::Flags)),
        Change::Count => Spot::Geometries(info),
        Change::Geometry(geometry, _) => Spot::Geometry(info, geometry),
    }
}

// What the source has.
fn change_text(alloc: Global, stamp: u32, word: &str) -> Result<String, NoMemory>
    ensures { IfOk result (λ text. string_bytes text ≡ change_text stamp word.now) }
{
    format!(in alloc; "the source, built by command {stamp}, has {word}")
}

// What differs.
fn change_word(change: Change) -> &'static str
    ensures { result.now ≡ change_word change }
{
    match change {
        Change::Flags => "other flags",
        Change::Count => "another number of geometries",
        Change::Geometry(_, matter) => matter_word(matter),
    }
}

// What of a geometry differs.
fn matter_word(matter: Matter) -> &'static str
    ensures { result.now ≡ matter_word matter }
{
    match matter {
        Matter::Kind => "another kind",
        Matter::Opaque => "another opaque",
        Matter::Format => "another format",
        Matter::Index => "indices of another type",
        Matter::MaxVertex => "another max_vertex",
        Matter::Count => "another count",
        Matter::Transform => "a transform where this has none, or none",
    }
}
