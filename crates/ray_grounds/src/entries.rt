ghost use Rattle.std.specs.Prelude.{◌≡◌, IfSome, Some, slice_get, true};
ghost use Rattle.ray_cmd.specs.declared.rule.Rule.TheVariants.{V};
ghost use Rattle.ray_rules.specs.Sources.{is_later, is_stale_structure};
ghost use Rattle.ray_grounds.specs.Entries.{entry_in, entry_of, entry_traced, later_by, stale_by};
ghost use Rattle.ray_grounds.specs.Origins.{IsOrigin};

use crate::origin::{Entry, Origin, Stale};
use ray_causes::{Member, Name, structure_named};
use ray_cmd::{Command, Recording};
use ray_rules::{Built, LiveStructure};
use ray_status::{Status, is_bottom, uses_of};

// That an entry of `uses` by which the traced top was built is stale, where the rule V of a number
// forbids it.
pub(crate) fn stale_at(
    rec: &Recording,
    status: &Status,
    command: &Command,
    number: u8,
    entry: u32,
) -> Option<Origin>
    ensures { IfSome result (λ origin. IsOrigin rec.now status.now command.now (V number) origin) }
{
    match number {
        21 => stale_entry(rec, status, command, entry),
        _ => None,
    }
}

// That the entry of a number is stale.
fn stale_entry(rec: &Recording, status: &Status, command: &Command, number: u32) -> Option<Origin>
    ensures { IfSome result (λ origin. IsOrigin rec.now status.now command.now (V 21) origin) }
{
    match entry_traced(rec, status, command, number) {
        Some(entry) => match stale_by(entry.stamp, status.structure(entry.id)) {
            Some(stale) => Some(Origin::Stale(number, entry, stale)),
            None => None,
        },
        None => None,
    }
}

// The entry of this number of what the traced top was built by.
fn entry_traced(rec: &Recording, status: &Status, command: &Command, number: u32) -> Option<Entry>
    ensures { result ≡ entry_traced rec.now status.now command.now number }
{
    match structure_named(command, Member::Own(Name::Top)) {
        Some(top) => entry_of(rec, status, number, top),
        None => None,
    }
}

// The same of the top of an id.
fn entry_of(rec: &Recording, status: &Status, number: u32, top: u32) -> Option<Entry>
    ensures { result ≡ entry_of rec.now status.now number top }
{
    match status.built(top) {
        Some(built) => entry_in(rec, top, number, built),
        None => None,
    }
}

// The same of what a top was built by.
fn entry_in(rec: &Recording, top: u32, number: u32, built: Built) -> Option<Entry>
    ensures { result ≡ entry_in rec.now top number built }
{
    match item_of(uses_of(rec, &built), number) {
        Some(id) => Some(Entry {
            top,
            stamp: built.stamp,
            id,
        }),
        None => None,
    }
}

// An item of a list of ids.
fn item_of(ids: &[u32], item: u32) -> Option<u32>
    ensures { result ≡ slice_get ids.now item }
{
    ids.get(item as usize).copied()
}

// Why a structure can't be referred to by a top of a stamp, if it can't.
fn stale_by(stamp: u32, structure: Option<LiveStructure>) -> Option<Stale>
    ensures value { result ≡ stale_by stamp structure }
    ensures stale { IfSome result (λ stale. is_stale_structure stamp structure ≡ true) }
{
    match structure {
        Some(structure) => stale_as(stamp, structure),
        None => Some(Stale::Gone),
    }
}

// The same of a structure that is live.
fn stale_as(stamp: u32, structure: LiveStructure) -> Option<Stale>
    ensures value { result ≡ stale_by stamp (Some structure) }
    ensures stale { IfSome result (λ stale. is_stale_structure stamp (Some structure) ≡ true) }
{
    if is_bottom(structure.kind) {
        later_by(stamp, structure.built)
    } else {
        Some(Stale::Top)
    }
}

// The same of what it was built by.
fn later_by(stamp: u32, built: Option<Built>) -> Option<Stale>
    ensures value { result ≡ later_by stamp built }
    ensures later { IfSome result (λ stale. is_later stamp built ≡ true) }
{
    match built {
        Some(built) => {
            if stamp < built.written {
                Some(Stale::Rewritten(built.written))
            } else {
                None
            }
        }
        None => Some(Stale::Unbuilt),
    }
}
