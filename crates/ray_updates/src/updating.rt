ghost use Rattle.std.specs.Prelude.{◌≡◌, IfSome, true};
ghost use Rattle.ray_cmd.specs.declared.place.Place.TheVariants.{Part};
ghost use Rattle.ray_cmd.specs.declared.rule.Rule.TheVariants.{V};
ghost use Rattle.ray_updates.specs.Changes.{IsUpdate, is_change_in, is_change_of, stamp_in, stamp_of};

use crate::change::{Change, Update};
use crate::comparing::first_change;
use ray_causes::info_at;
use ray_cmd::{Command, Info, Place, Recording, Refusal, Rule};
use ray_status::{Status, info_at as info_of};

// In what the update of the place of a refusal differs from its source.
pub(crate) fn first_update(
    rec: &Recording,
    status: &Status,
    command: &Command,
    refusal: Refusal,
) -> Option<Update>
    ensures { IfSome result (λ update. IsUpdate rec.now status.now command.now refusal update) }
{
    match refusal.rule {
        Rule::V(15) => match refusal.place {
            Place::Part(info) => update_at(rec, status, command, refusal, info),
            _ => None,
        },
        _ => None,
    }
}

// The same of the info of this number.
fn update_at(
    rec: &Recording,
    status: &Status,
    command: &Command,
    refusal: Refusal,
    info: u32,
) -> Option<Update>
    requires rule { refusal.rule ≡ V 15 }
    requires place { refusal.place ≡ Part info }
    ensures { IfSome result (λ update. IsUpdate rec.now status.now command.now refusal update) }
{
    match stamp_in(status, command, info) {
        Some(stamp) => match change_in(rec, status, command, info) {
            Some(change) => Some(Update {
                info,
                stamp,
                change,
            }),
            None => None,
        },
        None => None,
    }
}

// The number of the command by which the source of an info was built.
fn stamp_in(status: &Status, command: &Command, info: u32) -> Option<u32>
    ensures { result ≡ stamp_in status.now command.now info }
{
    match info_at(command, info) {
        Some(info) => stamp_of(status, info),
        None => None,
    }
}

// The same of an info.
fn stamp_of(status: &Status, info: &Info) -> Option<u32>
    ensures { result ≡ stamp_of status.now info.now }
{
    match info.src {
        Some(src) => match status.built(src) {
            Some(built) => Some(built.stamp),
            None => None,
        },
        None => None,
    }
}

// In what the info of a number differs from the one by which its source was built.
fn change_in(rec: &Recording, status: &Status, command: &Command, info: u32) -> Option<Change>
    ensures { IfSome result
        (λ change. is_change_in rec.now status.now command.now info change ≡ true) }
{
    match info_at(command, info) {
        Some(info) => change_of(rec, status, info),
        None => None,
    }
}

// The same of an info.
fn change_of(rec: &Recording, status: &Status, info: &Info) -> Option<Change>
    ensures { IfSome result (λ change. is_change_of rec.now status.now change info.now ≡ true) }
{
    match info.src {
        Some(src) => match info_of(rec, status, src) {
            Some(source) => first_change(info, source),
            None => None,
        },
        None => None,
    }
}
