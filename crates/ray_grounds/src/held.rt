ghost use Rattle.std.specs.Prelude.{◌≡◌, ◌≤◌, IfSome, Some, length};
ghost use Rattle.ray_cmd.specs.declared.rule.Rule.TheVariants.{V};
ghost use Rattle.ray_grounds.specs.Facts.{IsFact, buffer_destroyed, buffer_of_thing};

use crate::fact::Fact;
use ray_cmd::{Command, Recording, Thing};
use ray_status::Status;

// That the buffer that command number `i` destroys holds a live structure, where the rule V of a
// number forbids it: the one that was made first.
pub(crate) fn held_at(
    rec: &Recording,
    i: u32,
    status: &Status,
    command: &Command,
    number: u8,
) -> Option<Fact>
    requires { i ≤ length rec.now }
    ensures { IfSome result (λ fact. IsFact status.now command.now (V number) fact) }
{
    match number {
        30 => held(rec, i, status, command),
        _ => None,
    }
}

// The same of V30.
fn held(rec: &Recording, i: u32, status: &Status, command: &Command) -> Option<Fact>
    requires { i ≤ length rec.now }
    ensures { IfSome result (λ fact. IsFact status.now command.now (V 30) fact) }
{
    match buffer_destroyed(command) {
        Some(buffer) => held_in(rec, i, status, command, buffer),
        None => None,
    }
}

// The same of a buffer: the structures are those that the commands before made.
fn held_in(rec: &Recording, i: u32, status: &Status, command: &Command, buffer: u32) -> Option<Fact>
    requires i { i ≤ length rec.now }
    requires destroyed { buffer_destroyed command.now ≡ Some buffer }
    ensures { IfSome result (λ fact. IsFact status.now command.now (V 30) fact) }
{
    for k in 0..i {
        let earlier = rec.command(k);
        if let Some(fact) = held_by(status, command, buffer, earlier) {
            return Some(fact);
        }
    }
    None
}

// The same of the structure that an earlier command made.
fn held_by(status: &Status, command: &Command, buffer: u32, earlier: &Command) -> Option<Fact>
    requires { buffer_destroyed command.now ≡ Some buffer }
    ensures { IfSome result (λ fact. IsFact status.now command.now (V 30) fact) }
{
    match earlier {
        Command::Structure { id, .. } => held_as(status, command, buffer, *id),
        _ => None,
    }
}

// The same of the structure of an id.
fn held_as(status: &Status, command: &Command, buffer: u32, id: u32) -> Option<Fact>
    requires { buffer_destroyed command.now ≡ Some buffer }
    ensures { IfSome result (λ fact. IsFact status.now command.now (V 30) fact) }
{
    match status.structure(id) {
        Some(structure) => {
            if structure.buffer == buffer {
                Some(Fact::Held(buffer, id, structure.made))
            } else {
                None
            }
        }
        None => None,
    }
}

// The id of the buffer that a command destroys.
fn buffer_destroyed(command: &Command) -> Option<u32>
    ensures { result ≡ buffer_destroyed command.now }
{
    match command {
        Command::Destroy { what, id } => buffer_of_thing(*what, *id),
        _ => None,
    }
}

// The id of what is destroyed, where it is a buffer.
fn buffer_of_thing(what: Thing, id: u32) -> Option<u32>
    ensures { result ≡ buffer_of_thing what id }
{
    match what {
        Thing::Buffer => Some(id),
        Thing::Structure => None,
    }
}
