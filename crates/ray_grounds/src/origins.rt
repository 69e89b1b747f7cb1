ghost use Rattle.std.specs.Prelude.{◌≡◌, IfSome, Some, true};
ghost use Rattle.ray_cmd.specs.declared.rule.Rule.TheVariants.{V};
ghost use Rattle.ray_causes.specs.Names.{structure_named};
ghost use Rattle.ray_grounds.specs.Origins.{IsOrigin, asks_origin, is_lacking, stamp_of};

use crate::asked::asks_origin;
use crate::lacking::is_lacking;
use crate::origin::{Lack, Origin};
use ray_causes::{Member, structure_named};
use ray_cmd::{Command, Recording};
use ray_status::Status;

// By what the structure that a member names was built, where the rule V of a number forbids it.
pub(crate) fn origin_at(
    rec: &Recording,
    status: &Status,
    command: &Command,
    number: u8,
    member: Member,
) -> Option<Origin>
    ensures { IfSome result (λ origin. IsOrigin rec.now status.now command.now (V number) origin) }
{
    match number {
        13 => lacking(rec, status, command, 13, member, Lack::Build),
        14 => lacking(rec, status, command, 14, member, Lack::Update),
        18 => not_compactable(rec, status, command, member),
        _ => None,
    }
}

// That a member names a structure that can't be compacted.
fn not_compactable(
    rec: &Recording,
    status: &Status,
    command: &Command,
    member: Member,
) -> Option<Origin>
    ensures { IfSome result (λ origin. IsOrigin rec.now status.now command.now (V 18) origin) }
{
    match lacking(rec, status, command, 18, member, Lack::Compaction) {
        Some(origin) => Some(origin),
        None => lacking(rec, status, command, 18, member, Lack::Build),
    }
}

// That a member names a structure that lacks what the rule V of a number asks.
fn lacking(
    rec: &Recording,
    status: &Status,
    command: &Command,
    number: u8,
    member: Member,
    lack: Lack,
) -> Option<Origin>
    ensures { IfSome result (λ origin. IsOrigin rec.now status.now command.now (V number) origin) }
{
    if asks_origin(number, command, member, lack) {
        match structure_named(command, member) {
            Some(id) => lacking_as(rec, status, command, number, member, lack, id),
            None => None,
        }
    } else {
        None
    }
}

// The same of the structure of an id.
fn lacking_as(
    rec: &Recording,
    status: &Status,
    command: &Command,
    number: u8,
    member: Member,
    lack: Lack,
    id: u32,
) -> Option<Origin>
    requires asked { asks_origin (V number) command.now member lack ≡ true }
    requires named { structure_named command.now member ≡ Some id }
    ensures { IfSome result (λ origin. IsOrigin rec.now status.now command.now (V number) origin) }
{
    match stamp_of(status, id) {
        Some(stamp) => {
            if is_lacking(rec, status, lack, id) {
                Some(Origin::Lacking(member, id, stamp, lack))
            } else {
                None
            }
        }
        None => None,
    }
}

// The number of the command by which the contents of the structure of an id came.
fn stamp_of(status: &Status, id: u32) -> Option<u32>
    ensures { result ≡ stamp_of status.now id }
{
    match status.built(id) {
        Some(built) => Some(built.stamp),
        None => None,
    }
}
