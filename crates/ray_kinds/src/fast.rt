ghost use Rattle.std.specs.Prelude.{◌≡◌, false};
ghost use Rattle.std.specs.Option.{option_map_or};
ghost use Rattle.ray_causes.specs.Geometries.{info_at};
ghost use Rattle.ray_rules.specs.Shapes.{prefers_both};

use bitflags::Flags;
use ray_causes::info_at;
use ray_cmd::{BuildFlags, Command, Info};

// Whether the info of this number prefers both.
pub(crate) fn prefers_both_at(command: &Command, number: u32) -> bool
    ensures { result ≡ option_map_or prefers_both (info_at command.now number) false }
{
    match info_at(command, number) {
        Some(info) => prefers_both(info),
        None => false,
    }
}

// Whether an info prefers both a fast trace and a fast build.
fn prefers_both(info: &Info) -> bool
    ensures { result ≡ prefers_both info.now }
{
    info.flags.contains(BuildFlags::PREFER_FAST_TRACE)
        && info.flags.contains(BuildFlags::PREFER_FAST_BUILD)
}
