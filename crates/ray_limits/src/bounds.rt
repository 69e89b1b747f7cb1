ghost use Rattle.std.specs.Prelude.{◌≡◌};
ghost use Rattle.std.specs.Option.{option_copied};
ghost use Rattle.ray_cmd.specs.declared.rule.Rule.TheVariants.{V};
ghost use Rattle.ray_limits.specs.Amounts.{bound, bound_at, content_bound, own_bound};
ghost use Rattle.ray_limits.specs.Amounts.{passed, passed_by, rule_of_bound};

use crate::limit::Bound;
use crate::naming::at_data;
use ray_causes::{Member, Name};
use ray_cmd::{Bytes, Command};

// The bound that a member passes, where the rule V of a number asks that it doesn't.
pub(crate) fn passed(number: u8, command: &Command, member: Member) -> Option<Bound>
    ensures { result ≡ passed (V number) command.now member }
{
    if rule_of_bound(command) == number {
        match bound_at(command, member) {
            Some(bound) => passed_by(bound),
            None => None,
        }
    } else {
        None
    }
}

// A bound, where it is passed.
fn passed_by(bound: Bound) -> Option<Bound>
    ensures { result ≡ passed_by bound }
{
    if bound.most < bound.number {
        Some(bound)
    } else {
        None
    }
}

// How many bytes a member has, and how many it may have.
fn bound_at(command: &Command, member: Member) -> Option<Bound>
    ensures { result ≡ bound_at command.now member }
{
    match member {
        Member::Own(name) => own_bound(command, name),
        _ => None,
    }
}

// The same of a member of the command itself.
fn own_bound(command: &Command, name: Name) -> Option<Bound>
    ensures { result ≡ own_bound command.now name }
{
    match command {
        Command::Buffer { size, content, .. } => match content_bound(content.as_ref(), *size) {
            Some(bound) => at_data(name, bound),
            None => None,
        },
        Command::Update { content, .. } => {
            at_data(name, bound(content.as_slice().len() as u64, 65536))
        }
        _ => None,
    }
}

// The same of the content of a buffer of a size, where there is any.
fn content_bound(content: Option<&Bytes>, size: u64) -> Option<Bound>
    ensures { result ≡ content_bound size (option_copied content.entry) }
{
    match content {
        Some(bytes) => Some(bound(bytes.as_slice().len() as u64, size)),
        None => None,
    }
}

// A number of bytes, and how many there may be.
fn bound(number: u64, most: u64) -> Bound
    ensures { result ≡ bound number most }
{
    Bound { number, most }
}

// The number of the rule that asks it, 0 for no rule.
fn rule_of_bound(command: &Command) -> u8
    ensures { result ≡ rule_of_bound command.now }
{
    match command {
        Command::Buffer { .. } => 2,
        Command::Update { .. } => 31,
        _ => 0,
    }
}
