ghost use Rattle.std.specs.Prelude.{◌≡◌, ◌≤◌, IfSome, Some, length};
ghost use Rattle.ray_cmd.specs.declared.rule.Rule.TheVariants.{V};
ghost use Rattle.ray_rules.specs.Ranges.{size_at};
ghost use Rattle.ray_limits.specs.Limits.{IsLimit};
ghost use Rattle.ray_limits.specs.Standing.{range_made, size_made};

use crate::limit::Limit;
use ray_cmd::{Command, Recording};
use ray_rules::ByteRange;
use ray_status::{Status, meets, range, structure_range};

// That the live buffers have too many bytes together with the buffer that a command makes.
pub(crate) fn full(status: &Status, command: &Command) -> Option<Limit>
    ensures { IfSome result (λ limit. IsLimit status.now command.now (V 2) limit) }
{
    match size_made(command) {
        Some(size) => {
            let live = status.live_bytes();
            if 268435456 < u128::from(live) + u128::from(size) {
                Some(Limit::Full(live, size))
            } else {
                None
            }
        }
        None => None,
    }
}

// The size of the buffer that a command makes.
fn size_made(command: &Command) -> Option<u64>
    ensures { result ≡ size_made command.now }
{
    match command {
        Command::Buffer { size, .. } => Some(*size),
        _ => None,
    }
}

// That the structure that command number `i` makes can't stand where it says.
pub(crate) fn misplaced(
    rec: &Recording,
    i: u32,
    status: &Status,
    command: &Command,
) -> Option<Limit>
    requires { i ≤ length rec.now }
    ensures { IfSome result (λ limit. IsLimit status.now command.now (V 6) limit) }
{
    match range_made(command) {
        Some(range) => {
            if status.is_outside(range) {
                Some(Limit::Outside(range, size_at(status, range.buffer)))
            } else {
                overlapping(rec, i, status, command, range)
            }
        }
        None => None,
    }
}

// The bytes of the structure that a command makes.
fn range_made(command: &Command) -> Option<ByteRange>
    ensures { result ≡ range_made command.now }
{
    match command {
        Command::Structure {
            buffer,
            offset,
            size,
            ..
        } => Some(range(*buffer, *offset, u128::from(*size))),
        _ => None,
    }
}

// The size of the buffer of an id: 0 where it isn't live.
fn size_at(status: &Status, id: u32) -> u64
    ensures { result ≡ size_at status.now.buffers id }
{
    match status.buffer(id) {
        Some(buffer) => buffer.size,
        None => 0,
    }
}

// That these bytes meet those of a live structure: of the one that was made first.
fn overlapping(
    rec: &Recording,
    i: u32,
    status: &Status,
    command: &Command,
    range: ByteRange,
) -> Option<Limit>
    requires i { i ≤ length rec.now }
    requires made { range_made command.now ≡ Some range }
    ensures { IfSome result (λ limit. IsLimit status.now command.now (V 6) limit) }
{
    for k in 0..i {
        let earlier = rec.command(k);
        if let Some(limit) = overlapped_by(status, command, range, earlier) {
            return Some(limit);
        }
    }
    None
}

// The same of the structure that an earlier command made.
fn overlapped_by(
    status: &Status,
    command: &Command,
    range: ByteRange,
    earlier: &Command,
) -> Option<Limit>
    requires { range_made command.now ≡ Some range }
    ensures { IfSome result (λ limit. IsLimit status.now command.now (V 6) limit) }
{
    match earlier {
        Command::Structure { id, .. } => overlapped_as(status, command, range, *id),
        _ => None,
    }
}

// The same of the structure of an id.
fn overlapped_as(status: &Status, command: &Command, range: ByteRange, id: u32) -> Option<Limit>
    requires { range_made command.now ≡ Some range }
    ensures { IfSome result (λ limit. IsLimit status.now command.now (V 6) limit) }
{
    match status.structure(id) {
        Some(structure) => {
            if meets(range, structure_range(&structure)) {
                Some(Limit::Overlaps(range, id, structure.made))
            } else {
                None
            }
        }
        None => None,
    }
}
