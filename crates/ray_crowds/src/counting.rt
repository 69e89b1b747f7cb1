ghost use Rattle.std.specs.Prelude.{◌≡◌, sum};
ghost use Rattle.ray_rules.specs.Shapes.{most_primitives};
ghost use Rattle.ray_crowds.specs.Counts.{count, counts_primitives, info_primitives, primitives_at};
ghost use Rattle.ray_crowds.specs.Counts.{rays_of, structures_with, too_many, too_many_by};

use crate::crowd::Count;
use crate::spot::Spot;
use ray_causes::info_at;
use ray_cmd::{Command, Info};
use ray_status::{Status, is_top, is_top_at, primitives};

// A count, where there is one and it is more than may be.
pub(crate) fn too_many(count: Option<Count>) -> Option<Count>
    ensures { result ≡ too_many count }
{
    match count {
        Some(count) => too_many_by(count),
        None => None,
    }
}

// A count, where it is more than may be.
fn too_many_by(count: Count) -> Option<Count>
    ensures { result ≡ too_many_by count }
{
    if u128::from(count.most) < count.number {
        Some(count)
    } else {
        None
    }
}

// How many there are, and how many there may be.
pub(crate) fn count(number: u128, most: u32) -> Count
    ensures { result ≡ count number most }
{
    Count { number, most }
}

// How many primitives the list at a spot has, and how many it may have.
pub(crate) fn primitives_at(status: &Status, command: &Command, spot: Spot) -> Option<Count>
    ensures { result ≡ primitives_at status.now command.now spot }
{
    match spot {
        Spot::Counts => counts_primitives(command),
        Spot::Geometries(number) => match info_at(command, number) {
            Some(info) => Some(info_primitives(status, info)),
            None => None,
        },
        _ => None,
    }
}

// The same of the geometries of an info.
fn info_primitives(status: &Status, info: &Info) -> Count
    ensures { result ≡ info_primitives status.now info.now }
{
    let number = primitives(info.geometries.as_slice());
    count(number, most_primitives(is_top_at(status, info.dst)))
}

// The same of the counts of a `sizes`.
fn counts_primitives(command: &Command) -> Option<Count>
    ensures { result ≡ counts_primitives command.now }
{
    match command {
        Command::Sizes { kind, counts } => {
            Some(count(total(counts.as_slice()), most_primitives(is_top(*kind))))
        }
        _ => None,
    }
}

// The most primitives of a top, or of a bottom.
fn most_primitives(top: bool) -> u32
    ensures { result ≡ most_primitives top }
{
    if top { 65536 } else { 1048576 }
}

// The sum of counts.
fn total(counts: &[u32]) -> u128
    ensures { result ≡ sum counts.now }
{
    let mut total = 0;
    for count in counts {
        total += u128::from(*count);
    }
    total
}

// The live structures, with the one that a command makes, and how many there may be.
pub(crate) fn structures_with(status: &Status, command: &Command) -> Option<Count>
    ensures { result ≡ structures_with status.now command.now }
{
    match command {
        Command::Structure { .. } => Some(count(status.structure_count() as u128 + 1, 4096)),
        _ => None,
    }
}

// The rays of a trace, and how many there may be.
pub(crate) fn rays_of(command: &Command) -> Option<Count>
    ensures { result ≡ rays_of command.now }
{
    match command {
        Command::Trace { count: rays, .. } => Some(count(u128::from(*rays), 1048576)),
        _ => None,
    }
}
