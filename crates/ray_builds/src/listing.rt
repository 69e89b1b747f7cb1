ghost use Rattle.std.specs.Prelude.{◌≡◌, ◌&&◌, IfSome, false, is_some, not};
ghost use Rattle.std.specs.Option.{option_map_or};
ghost use Rattle.ray_causes.specs.Geometries.{info_at};
ghost use Rattle.ray_rules.specs.Shapes.{are_of_bottom, are_of_top, is_misshapen};
ghost use Rattle.ray_rules.specs.Structures.{is_bottom_at, is_top_at};
ghost use Rattle.ray_builds.specs.Builds.{IsMisbuilt, IsOfInfo, IsOfInfoIf, IsOfSizes};
ghost use Rattle.ray_builds.specs.Builds.{has_odd_counts, is_misbuilt_at};
ghost use Rattle.ray_builds.specs.Geometries.{counts_of_top};

use crate::bottoms::bottom_flaw;
use crate::misbuilt::Misbuilt;
use crate::tops::top_flaw;
use ray_causes::info_at;
use ray_cmd::{Command, Info, Place};
use ray_status::{Status, is_bottom_at, is_top, is_top_at};

// By what a command breaks V8 at a place.
pub(crate) fn misbuilt_at(status: &Status, command: &Command, place: Place) -> Option<Misbuilt>
    ensures is { IfSome result (λ misbuilt. IsMisbuilt status.now command.now place misbuilt) }
    ensures told { is_some result ≡ is_misbuilt_at status.now command.now place }
{
    match place {
        Place::Whole => of_sizes(command),
        Place::Part(number) => of_info_at(status, command, number),
        _ => None,
    }
}

// The same of the counts of a `sizes` of a top.
fn of_sizes(command: &Command) -> Option<Misbuilt>
    ensures is { IfSome result (λ misbuilt. IsOfSizes command.now misbuilt) }
    ensures told { is_some result ≡ has_odd_counts command.now }
{
    match counts_of_top(command) {
        Some(1) => None,
        Some(count) => Some(Misbuilt::Counts(count)),
        None => None,
    }
}

// How many counts `sizes` of a top has.
fn counts_of_top(command: &Command) -> Option<usize>
    ensures { result ≡ counts_of_top command.now }
{
    match command {
        Command::Sizes { kind, counts } => {
            if is_top(*kind) {
                Some(counts.as_slice().len())
            } else {
                None
            }
        }
        _ => None,
    }
}

// The same of the info of a number.
fn of_info_at(status: &Status, command: &Command, number: u32) -> Option<Misbuilt>
    ensures is { IfSome result (λ misbuilt.
        IsOfInfoIf status.now number (info_at command.now number) misbuilt) }
    ensures told { is_some result
        ≡ option_map_or (is_misshapen status.now) (info_at command.now number) false }
{
    match info_at(command, number) {
        Some(info) => of_info(status, number, info),
        None => None,
    }
}

// The same of an info.
fn of_info(status: &Status, number: u32, info: &Info) -> Option<Misbuilt>
    ensures is { IfSome result (λ misbuilt. IsOfInfo status.now number info.now misbuilt) }
    ensures told { is_some result ≡ is_misshapen status.now info.now }
{
    match of_top(status, number, info) {
        Some(misbuilt) => Some(misbuilt),
        None => of_bottom(status, number, info),
    }
}

// The same where it builds a top.
fn of_top(status: &Status, number: u32, info: &Info) -> Option<Misbuilt>
    ensures is { IfSome result (λ misbuilt. IsOfInfo status.now number info.now misbuilt) }
    ensures told { is_some result
        ≡ (is_top_at status.now info.now.dst && not (are_of_top info.now.geometries)) }
{
    if is_top_at(status, info.dst) {
        match top_flaw(info.geometries.as_slice()) {
            Some(flaw) => Some(Misbuilt::Top(number, flaw)),
            None => None,
        }
    } else {
        None
    }
}

// The same where it builds a bottom.
fn of_bottom(status: &Status, number: u32, info: &Info) -> Option<Misbuilt>
    ensures is { IfSome result (λ misbuilt. IsOfInfo status.now number info.now misbuilt) }
    ensures told { is_some result
        ≡ (is_bottom_at status.now info.now.dst && not (are_of_bottom info.now.geometries)) }
{
    if is_bottom_at(status, info.dst) {
        match bottom_flaw(info.geometries.as_slice()) {
            Some(flaw) => Some(Misbuilt::Bottom(number, flaw)),
            None => None,
        }
    } else {
        None
    }
}
