//! From the numbers of the axis on which all memory stands back to bytes and structures.
ghost use Rattle.std.specs.Prelude.{◌≡◌, ◌<◌, IfSome, max, min};
ghost use Rattle.ray_access.specs.Axis.{ReachFits, extent_of};
ghost use Rattle.ray_rules.specs.declared.reach.Reach.{Reach as AReach};
ghost use Rattle.ray_rules.specs.Status.{Status as AStatus};
ghost use Rattle.ray_clash.specs.Sharing.{IsMeet, IsShared};

use crate::clash::{Part, Shared};
use ray_ranges::Range;

// Each stretch of the axis has so many numbers.
const STRETCH: u128 = 1 << 70;

// And each kind of memory so many stretches.
const STRETCHES: u128 = 1 << 32;

// What two ranges of the axis have both, if they meet.
pub(crate) fn shared_by(one: Range, other: Range) -> Option<Shared>
    ensures { (z : AStatus) (w : AStatus) (r : AReach) (s : AReach) → ReachFits r → ReachFits s
        → one ≡ extent_of z r → other ≡ extent_of w s → IfSome result (IsShared z w r s) }
{
    let from = greater(one.from, other.from);
    let end = lesser(one.end, other.end);
    if from < end { part_of(from, end) } else { None }
}

// What stands from one number of the axis to another, both of one stretch.
fn part_of(from: u128, end: u128) -> Option<Shared>
    requires { from < end }
    ensures { (z : AStatus) (w : AStatus) (r : AReach) (s : AReach) → ReachFits r → ReachFits s
        → IsMeet from end (extent_of z r) (extent_of w s) → IfSome result (IsShared z w r s) }
{
    let stretch = from / STRETCH;
    let made = (stretch % STRETCHES) as u32;
    let first = from % STRETCH;
    let part = Part {
        made,
        from: first,
        end: first + (end - from),
    };
    match stretch / STRETCHES {
        0 => Some(Shared::Bytes(part)),
        1 => Some(Shared::Structure(made)),
        2 => Some(Shared::Scratch(part)),
        _ => None,
    }
}

// The greater of two numbers.
fn greater(a: u128, b: u128) -> u128
    ensures { result ≡ max a b }
{
    if a < b { b } else { a }
}

// The lesser of two numbers.
fn lesser(a: u128, b: u128) -> u128
    ensures { result ≡ min a b }
{
    if a < b { a } else { b }
}
