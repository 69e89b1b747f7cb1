ghost use Rattle.std.specs.Prelude.{◌≡◌, ◌≤◌, IfSome, Some, length};
ghost use Rattle.ray_cmd.specs.declared.rule.Rule.TheVariants.{V};
ghost use Rattle.ray_grounds.specs.Asking.{asks_wait};
ghost use Rattle.ray_grounds.specs.Grounds.{IsGround};
ghost use Rattle.ray_grounds.specs.Submits.{last_submit, submit_after};

use crate::grounds::Ground;
use ray_causes::{Member, Name};
use ray_cmd::{Command, Recording};
use ray_status::Status;

// That what was submitted may not be done yet, where the rule V of a number asks that it is. The
// `op` of the command tells it.
pub(crate) fn in_flight(
    rec: &Recording,
    i: u32,
    status: &Status,
    command: &Command,
    number: u8,
    member: Member,
) -> Option<Ground>
    requires { i ≤ length rec.now }
    ensures { IfSome result
        (λ basis. IsGround rec.now i status.now command.now (V number) basis) }
{
    match member {
        Member::Own(Name::Op) => submitted(rec, i, status, command, number),
        _ => None,
    }
}

// The same of the command.
fn submitted(
    rec: &Recording,
    i: u32,
    status: &Status,
    command: &Command,
    number: u8,
) -> Option<Ground>
    requires { i ≤ length rec.now }
    ensures { IfSome result
        (λ basis. IsGround rec.now i status.now command.now (V number) basis) }
{
    if asks_wait(number, command) && status.pending() {
        match last_submit(rec, i) {
            Some(submit) => Some(Ground::InFlight(submit)),
            None => None,
        }
    } else {
        None
    }
}

// Whether the rule V of a number asks of a command that all that was submitted is done.
fn asks_wait(number: u8, command: &Command) -> bool
    ensures { result ≡ asks_wait (V number) command.now }
{
    match command {
        Command::Read { .. } => number == 29,
        Command::Destroy { .. } => number == 30,
        _ => false,
    }
}

// The number of the last command before number `i` that submits, if no `wait` stands behind it.
fn last_submit(rec: &Recording, i: u32) -> Option<u32>
    requires { i ≤ length rec.now }
    ensures { result ≡ last_submit rec.now i }
{
    let mut last = None;
    for k in 0..i {
        let command = rec.command(k);
        last = submit_after(last, k, command);
    }
    last
}

// The same once command number `k` was gone past.
fn submit_after(last: Option<u32>, k: u32, command: &Command) -> Option<u32>
    ensures { result ≡ submit_after last k (Some command.now) }
{
    match command {
        Command::Submit => Some(k),
        Command::Wait => None,
        _ => last,
    }
}
