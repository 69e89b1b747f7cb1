ghost use Rattle.std.specs.Prelude.{◌≡◌, IfSome, Some};
ghost use Rattle.ray_cmd.specs.declared.rule.Rule.TheVariants.{V};
ghost use Rattle.ray_rules.specs.Buffers.{lacks_usage};
ghost use Rattle.ray_rules.specs.Ranges.{size_at};
ghost use Rattle.ray_causes.specs.Causes.{IsCause};
ghost use Rattle.ray_causes.specs.Names.{buffer_named, flag_of};

use crate::cause::{BufferUse, Cause};
use crate::member::{Member, Name};
use crate::multiples::multiple_at;
use crate::names::{buffer_made, buffer_named, structure_made, structure_named, use_needed};
use crate::ranges::range_needed;
use ray_cmd::{Command, Rule};
use ray_rules::ByteRange;
use ray_status::{
    Status, lacks_buffer, lacks_input, lacks_scratch, lacks_storage, lacks_structure,
    lacks_structures, lacks_transfer_dst, lacks_transfer_src, misses,
};

// By what a member of a command breaks a rule, where it is one of V1, V3, V4, V5 and V12.
pub(crate) fn cause_at(
    status: &Status,
    command: &Command,
    rule: Rule,
    member: Member,
) -> Option<Cause>
    ensures { IfSome result (λ cause. IsCause status.now command.now rule cause) }
{
    match rule {
        Rule::V(number) => by_number(status, command, number, member),
        Rule::X(_) => None,
    }
}

// The same of the rule V of this number.
fn by_number(status: &Status, command: &Command, number: u8, member: Member) -> Option<Cause>
    ensures { IfSome result (λ cause. IsCause status.now command.now (V number) cause) }
{
    match number {
        1 => missing(status, command, member),
        3 => unusable(status, command, member),
        4 => outside(status, command, member),
        5 => misaligned(status, command, member),
        12 => outside(status, command, member),
        _ => None,
    }
}

// That a member names what isn't live, or is the id of something new under which something is.
fn missing(status: &Status, command: &Command, member: Member) -> Option<Cause>
    ensures { IfSome result (λ cause. IsCause status.now command.now (V 1) cause) }
{
    match no_buffer(status, command, member) {
        Some(cause) => Some(cause),
        None => match no_structure(status, command, member) {
            Some(cause) => Some(cause),
            None => there(status, command, member),
        },
    }
}

// That a member names a buffer, and none is live under the id.
fn no_buffer(status: &Status, command: &Command, member: Member) -> Option<Cause>
    ensures { IfSome result (λ cause. IsCause status.now command.now (V 1) cause) }
{
    match buffer_named(command, member) {
        Some(id) => {
            if lacks_buffer(status, id) {
                Some(Cause::NoBuffer(member, id))
            } else {
                None
            }
        }
        None => None,
    }
}

// That a member names a structure, and none is live under the id.
fn no_structure(status: &Status, command: &Command, member: Member) -> Option<Cause>
    ensures { IfSome result (λ cause. IsCause status.now command.now (V 1) cause) }
{
    match structure_named(command, member) {
        Some(id) => {
            if lacks_structure(status, id) {
                Some(Cause::NoStructure(member, id))
            } else {
                None
            }
        }
        None => None,
    }
}

// That a member is the id of something new, and something is live under it.
fn there(status: &Status, command: &Command, member: Member) -> Option<Cause>
    ensures { IfSome result (λ cause. IsCause status.now command.now (V 1) cause) }
{
    match member {
        Member::Own(name) => match buffer_there(status, command, name) {
            Some(cause) => Some(cause),
            None => structure_there(status, command, name),
        },
        _ => None,
    }
}

// That a member is the id of a new buffer, and one is live under it.
fn buffer_there(status: &Status, command: &Command, name: Name) -> Option<Cause>
    ensures { IfSome result (λ cause. IsCause status.now command.now (V 1) cause) }
{
    match buffer_made(command, name) {
        Some(id) => {
            if status.buffer(id).is_some() {
                Some(Cause::BufferThere(name, id))
            } else {
                None
            }
        }
        None => None,
    }
}

// That a member is the id of a new structure, and one is live under it.
fn structure_there(status: &Status, command: &Command, name: Name) -> Option<Cause>
    ensures { IfSome result (λ cause. IsCause status.now command.now (V 1) cause) }
{
    match structure_made(command, name) {
        Some(id) => {
            if status.structure(id).is_some() {
                Some(Cause::StructureThere(name, id))
            } else {
                None
            }
        }
        None => None,
    }
}

// That a member names a buffer that may not be used as the command needs.
fn unusable(status: &Status, command: &Command, member: Member) -> Option<Cause>
    ensures { IfSome result (λ cause. IsCause status.now command.now (V 3) cause) }
{
    match buffer_named(command, member) {
        Some(id) => unusable_as(status, command, member, id),
        None => None,
    }
}

// The same of the buffer of an id.
fn unusable_as(status: &Status, command: &Command, member: Member, id: u32) -> Option<Cause>
    requires { buffer_named command.now member ≡ Some id }
    ensures { IfSome result (λ cause. IsCause status.now command.now (V 3) cause) }
{
    match use_needed(command, member) {
        Some(wanted) => {
            if lacks_use(status, wanted, id) {
                Some(Cause::Unusable(member, id, wanted))
            } else {
                None
            }
        }
        None => None,
    }
}

// Whether the buffer of an id may not be used so.
fn lacks_use(status: &Status, wanted: BufferUse, id: u32) -> bool
    ensures { result ≡ lacks_usage status.now (flag_of wanted) id }
{
    match wanted {
        BufferUse::Input => lacks_input(status, id),
        BufferUse::Storage => lacks_storage(status, id),
        BufferUse::TransferSrc => lacks_transfer_src(status, id),
        BufferUse::TransferDst => lacks_transfer_dst(status, id),
        BufferUse::Scratch => lacks_scratch(status, id),
        BufferUse::Structure => lacks_structures(status, id),
    }
}

// That the bytes that a member needs aren't whole within their buffer.
fn outside(status: &Status, command: &Command, member: Member) -> Option<Cause>
    ensures four { IfSome result (λ cause. IsCause status.now command.now (V 4) cause) }
    ensures twelve { IfSome result (λ cause. IsCause status.now command.now (V 12) cause) }
{
    match range_needed(command, member) {
        Some(range) => {
            let size = size_of(status, range);
            if status.is_outside(range) {
                Some(Cause::Outside(member, range, size))
            } else {
                None
            }
        }
        None => None,
    }
}

// The size of the buffer of a range: 0 where it isn't live.
fn size_of(status: &Status, range: ByteRange) -> u64
    ensures { result ≡ size_at status.now.buffers range.buffer }
{
    match status.buffer(range.buffer) {
        Some(buffer) => buffer.size,
        None => 0,
    }
}

// That a member misses its alignment.
fn misaligned(status: &Status, command: &Command, member: Member) -> Option<Cause>
    ensures { IfSome result (λ cause. IsCause status.now command.now (V 5) cause) }
{
    match multiple_at(command, member) {
        Some(multiple) => {
            if misses(multiple.of, multiple.number) {
                Some(Cause::Misaligned(member, multiple))
            } else {
                None
            }
        }
        None => None,
    }
}
