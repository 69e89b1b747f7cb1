ghost use Rattle.std.specs.Prelude.{◌≡◌, ◌≤◌, length, slice_get};
ghost use Rattle.std.specs.Option.{option_copied};
ghost use Rattle.ray_status.specs.Parts.{uses_if};
ghost use Rattle.ray_rules.specs.Origins.{info_in, info_of, is_deserialize, is_deserialized, uses_in, uses_of};

use ray_cmd::{Command, Info, Recording};
use ray_rules::Built;

/// The info by which a structure was last built or updated. None where its contents came by
/// `deserialize`, or where the recording has no such info. Own.
pub fn info_of<'a>(rec: &'a Recording, built: &Built) -> Option<&'a Info>
    ensures { option_copied result ≡ info_of rec.now built.now }
{
    match command_at(rec, built.stamp) {
        Some(command) => info_in(command, built.info),
        None => None,
    }
}

/// The ids of the structures that the instances of a built structure may refer to, at most 2^26.
/// Own.
pub fn uses_of<'a>(rec: &'a Recording, built: &Built) -> &'a [u32]
    ensures ids { result.now ≡ uses_of rec.now built.now }
    ensures limit { length result.now ≤ 67108864 }
{
    match command_at(rec, built.stamp) {
        Some(command) => uses_in(command, built.info),
        None => &[],
    }
}

/// Whether the contents of a built structure came by `deserialize`. Own.
pub fn is_deserialized(rec: &Recording, built: &Built) -> bool
    ensures { result ≡ is_deserialized rec.now built.now }
{
    match command_at(rec, built.stamp) {
        Some(command) => is_deserialize(command),
        None => false,
    }
}

// Command number `i`, where there is one.
fn command_at(rec: &Recording, i: u32) -> Option<&Command>
    ensures { option_copied result ≡ slice_get rec.now i }
{
    if i < rec.len() {
        Some(rec.command(i))
    } else {
        None
    }
}

// Info number `k` of a command, where it is a build that has one.
fn info_in(command: &Command, k: usize) -> Option<&Info>
    ensures { option_copied result ≡ info_in k command.now }
{
    match command {
        Command::Build { infos } => infos.as_slice().get(k),
        _ => None,
    }
}

// The ids that a command names as those that info number `k` may refer to.
fn uses_in(command: &Command, k: usize) -> &[u32]
    ensures ids { result.now ≡ uses_in k command.now }
    ensures limit { length result.now ≤ 67108864 }
{
    match command {
        Command::Build { infos } => uses_of_info(infos.as_slice().get(k)),
        Command::Deserialize { uses, .. } => uses.as_slice(),
        _ => &[],
    }
}

// The ids that an info may refer to, none where there is no info.
fn uses_of_info(info: Option<&Info>) -> &[u32]
    ensures ids { result.now ≡ uses_if (option_copied info.entry) }
    ensures limit { length result.now ≤ 67108864 }
{
    match info {
        Some(info) => info.uses.as_slice(),
        None => &[],
    }
}

// Whether a command is a `deserialize`.
fn is_deserialize(command: &Command) -> bool
    ensures { result ≡ is_deserialize command.now }
{
    matches!(command, Command::Deserialize { .. })
}
