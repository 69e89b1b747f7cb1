ghost use Rattle.std.specs.Prelude.{◌≡◌};
ghost use Rattle.ray_rules.specs.Structures.{is_smaller_clone, v6, v11, v19};

use crate::place::whole;
use ray_cmd::{Command, CopyMode, Place};
use ray_infos::first_too_small;
use ray_status::{Status, differ_in_kind, is_smaller, misses, range};

// V6: a structure's offset isn't a multiple of 256, its range isn't within its buffer, or it
// overlaps a live structure.
#[tactic(auto, unfolding(ray_rules::specs::Structures::v6))]
pub(crate) fn v6(status: &Status, command: &Command) -> Option<Place>
    ensures { result ≡ v6 status.now command.now }
{
    match command {
        Command::Structure {
            buffer,
            offset,
            size,
            ..
        } => {
            let place = range(*buffer, *offset, u128::from(*size));
            whole(
                misses(256, *offset)
                    || status.is_outside(place)
                    || status.overlaps_structure(place),
            )
        }
        _ => None,
    }
}

// V11: mode `build`: `dst` smaller than the structure size; `update` into another structure, and
// `clone`: `dst` smaller than `src`.
#[tactic(auto, unfolding(ray_rules::specs::Structures::v11))]
pub(crate) fn v11(status: &Status, command: &Command) -> Option<Place>
    ensures { result ≡ v11 status.now command.now }
{
    match command {
        Command::Build { infos } => first_too_small(status, infos),
        Command::CopyStructure { mode, src, dst } => {
            whole(is_smaller_clone(status, *mode, *src, *dst))
        }
        _ => None,
    }
}

// Whether the destination of a copy is too small.
fn is_smaller_clone(status: &Status, mode: CopyMode, src: u32, dst: u32) -> bool
    ensures { result ≡ is_smaller_clone status.now mode src dst }
{
    match mode {
        CopyMode::Clone => is_smaller(status, dst, src),
        CopyMode::Compact => false,
    }
}

// V19: `copy_structure`: `src` and `dst` differ in kind or are the same.
#[tactic(auto, unfolding(ray_rules::specs::Structures::v19))]
pub(crate) fn v19(status: &Status, command: &Command) -> Option<Place>
    ensures { result ≡ v19 status.now command.now }
{
    match command {
        Command::CopyStructure { src, dst, .. } => {
            whole(src == dst || differ_in_kind(status, *src, *dst))
        }
        _ => None,
    }
}
