ghost use Rattle.std.specs.Prelude.{◌≡◌, IfSome};
ghost use Rattle.ray_cmd.specs.declared.rule.Rule.TheVariants.{V};
ghost use Rattle.ray_kinds.specs.Misfits.{IsMisfit};
ghost use Rattle.ray_kinds.specs.Usages.{buffer_read, has_no_usage, is_filled, is_mixed};
ghost use Rattle.ray_rules.specs.Buffers.{is_alone};

use crate::misfit::Misfit;
use ray_cmd::{Command, Usage};
use ray_status::{Status, is_private, is_private_at};

// By what usage a buffer can't be made or can't be read.
pub(crate) fn wrong_usage(status: &Status, command: &Command) -> Option<Misfit>
    ensures { IfSome result (λ misfit. IsMisfit status.now command.now (V 3) misfit) }
{
    if has_no_usage(command) {
        Some(Misfit::NoUsage)
    } else if is_mixed(command) {
        Some(Misfit::Mixed)
    } else if is_filled(command) {
        Some(Misfit::Filled)
    } else {
        read_of_private(status, command)
    }
}

// That a buffer for scratch memory or for structures is read.
fn read_of_private(status: &Status, command: &Command) -> Option<Misfit>
    ensures { IfSome result (λ misfit. IsMisfit status.now command.now (V 3) misfit) }
{
    match buffer_read(command) {
        Some(id) => {
            if is_private_at(status, id) {
                Some(Misfit::ReadOfPrivate(id))
            } else {
                None
            }
        }
        None => None,
    }
}

// The buffer that a command shows.
fn buffer_read(command: &Command) -> Option<u32>
    ensures { result ≡ buffer_read command.now }
{
    match command {
        Command::Read { buffer, .. } => Some(*buffer),
        _ => None,
    }
}

// Whether a command makes a buffer without a usage.
fn has_no_usage(command: &Command) -> bool
    ensures { result ≡ has_no_usage command.now }
{
    match command {
        Command::Buffer { usage, .. } => usage.0 == 0,
        _ => false,
    }
}

// Whether it makes one for scratch memory or for structures, and for something else.
fn is_mixed(command: &Command) -> bool
    ensures { result ≡ is_mixed command.now }
{
    match command {
        Command::Buffer { usage, .. } => is_private(*usage) && !is_alone(*usage),
        _ => false,
    }
}

// Whether it makes one for scratch memory or for structures, with content.
fn is_filled(command: &Command) -> bool
    ensures { result ≡ is_filled command.now }
{
    match command {
        Command::Buffer { usage, content, .. } => is_private(*usage) && content.is_some(),
        _ => false,
    }
}

// Whether a usage is for scratch memory alone, or for structures alone.
fn is_alone(usage: Usage) -> bool
    ensures { result ≡ is_alone usage }
{
    usage == Usage::SCRATCH || usage == Usage::STRUCTURE
}
