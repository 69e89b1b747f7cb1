ghost use Rattle.std.specs.Prelude.{◌≡◌};
ghost use Rattle.ray_cmd.specs.declared.rule.Rule.TheVariants.{V};
ghost use Rattle.ray_causes.specs.Multiples.{multiple};
ghost use Rattle.ray_rules.specs.Spans.{record_size};
ghost use Rattle.ray_limits.specs.Amounts.{missed, missed_by, multiple_at, own_multiple};
ghost use Rattle.ray_limits.specs.Amounts.{rule_of_multiple};

use crate::naming::{at_offset, at_offset_or_data, at_offset_or_size, at_size};
use ray_causes::{Member, Multiple, Name};
use ray_cmd::{Command, ReadForm};
use ray_status::misses;

// The multiple that a member misses, where the rule V of a number asks that it doesn't.
pub(crate) fn missed(number: u8, command: &Command, member: Member) -> Option<Multiple>
    ensures { result ≡ missed (V number) command.now member }
{
    if rule_of_multiple(command) == number {
        match multiple_at(command, member) {
            Some(multiple) => missed_by(multiple),
            None => None,
        }
    } else {
        None
    }
}

// A multiple, where it is missed.
fn missed_by(multiple: Multiple) -> Option<Multiple>
    ensures { result ≡ missed_by multiple }
{
    if misses(multiple.of, multiple.number) {
        Some(multiple)
    } else {
        None
    }
}

// What a member has to be a multiple of.
fn multiple_at(command: &Command, member: Member) -> Option<Multiple>
    ensures { result ≡ multiple_at command.now member }
{
    match member {
        Member::Own(name) => own_multiple(command, name),
        _ => None,
    }
}

// The same of a member of the command itself.
#[tactic(auto, unfolding(crate::specs::Amounts::own_multiple))]
fn own_multiple(command: &Command, name: Name) -> Option<Multiple>
    ensures { result ≡ own_multiple command.now name }
{
    match command {
        Command::Structure { offset, .. } => at_offset(name, multiple(*offset, 256)),
        Command::Read { size, form, .. } => at_size(name, multiple(*size, record_size(*form))),
        Command::Update {
            offset,
            content,
            ..
        } => {
            let length = content.as_slice().len() as u64;
            at_offset_or_data(name, multiple(*offset, 4), multiple(length, 4))
        }
        Command::Fill { offset, size, .. } => {
            at_offset_or_size(name, multiple(*offset, 4), multiple(*size, 4))
        }
        _ => None,
    }
}

// A number, and of what it has to be a multiple.
fn multiple(number: u64, of: u64) -> Multiple
    ensures { result ≡ multiple number of }
{
    Multiple { number, of }
}

// The size of a record of a form.
fn record_size(form: ReadForm) -> u64
    ensures { result ≡ record_size form }
{
    match form {
        ReadForm::Hex => 1,
        ReadForm::U64 => 8,
        ReadForm::Hits => 80,
    }
}

// The number of the rule that asks it, 0 for no rule.
#[tactic(auto, unfolding(crate::specs::Amounts::rule_of_multiple))]
fn rule_of_multiple(command: &Command) -> u8
    ensures { result ≡ rule_of_multiple command.now }
{
    match command {
        Command::Structure { .. } => 6,
        Command::Read { .. } | Command::Update { .. } | Command::Fill { .. } => 31,
        _ => 0,
    }
}
