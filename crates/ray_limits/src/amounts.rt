ghost use Rattle.std.specs.Prelude.{◌≡◌, ◌==◌, ℕ, false, slice_get};
ghost use Rattle.std.specs.Option.{option_and_then, option_map_or};
ghost use Rattle.ray_cmd.specs.declared.region.Region.{Region as RegionValue};
ghost use Rattle.ray_cmd.specs.declared.rule.Rule.TheVariants.{V};
ghost use Rattle.ray_causes.specs.Naming.{at_size};
ghost use Rattle.ray_limits.specs.Amounts.{amount_at, is_empty, own_amount};
ghost use Rattle.ray_limits.specs.Amounts.{region_amount, rule_of_amount};

use crate::naming::{at_data, at_size};
use ray_causes::{Member, Name};
use ray_cmd::{Command, Region};

// Whether a member has no bytes, and the rule V of a number asks that it has some.
pub(crate) fn is_empty(number: u8, command: &Command, member: Member) -> bool
    ensures { result ≡ is_empty (V number) command.now member }
{
    rule_of_amount(command) == number && has_none(amount_at(command, member))
}

// Whether it is told that there are no bytes.
fn has_none(amount: Option<u64>) -> bool
    ensures { result ≡ option_map_or (λ (n : ℕ). n == 0) amount false }
{
    match amount {
        Some(count) => count == 0,
        None => false,
    }
}

// How many bytes a member has, which may not be none.
fn amount_at(command: &Command, member: Member) -> Option<u64>
    ensures { result ≡ amount_at command.now member }
{
    match member {
        Member::Own(name) => own_amount(command, name),
        Member::Region(number, name) => region_amount(command, number, name),
        _ => None,
    }
}

// The same of a member of the command itself.
#[tactic(auto, unfolding(crate::specs::Amounts::own_amount))]
fn own_amount(command: &Command, name: Name) -> Option<u64>
    ensures { result ≡ own_amount command.now name }
{
    match command {
        Command::Buffer { size, .. } => at_size(name, *size),
        Command::Structure { size, .. } => at_size(name, *size),
        Command::Read { size, .. } => at_size(name, *size),
        Command::Update { content, .. } => at_data(name, content.as_slice().len() as u64),
        Command::Fill { size, .. } => at_size(name, *size),
        _ => None,
    }
}

// The same of a member of a region.
fn region_amount(command: &Command, number: u32, name: Name) -> Option<u64>
    ensures { result ≡ region_amount command.now number name }
{
    match command {
        Command::Copy { regions, .. } => size_of_region(regions.as_slice(), number, name),
        _ => None,
    }
}

// The same of a region of this number.
fn size_of_region(regions: &[Region], number: u32, name: Name) -> Option<u64>
    ensures { result ≡ option_and_then (λ (region : RegionValue). at_size name region.size)
        (slice_get regions.now number) }
{
    match regions.get(number as usize) {
        Some(region) => at_size(name, region.size),
        None => None,
    }
}

// The number of the rule that asks that a command's bytes aren't none, 0 for no rule.
#[tactic(auto, unfolding(crate::specs::Amounts::rule_of_amount))]
fn rule_of_amount(command: &Command) -> u8
    ensures { result ≡ rule_of_amount command.now }
{
    match command {
        Command::Buffer { .. } | Command::Structure { .. } => 2,
        Command::Read { .. }
        | Command::Update { .. }
        | Command::Fill { .. }
        | Command::Copy { .. } => 31,
        _ => 0,
    }
}
