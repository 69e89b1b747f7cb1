ghost use Rattle.std.specs.Prelude.{◌≡◌, ◌≤◌, IfSome, true};
ghost use Rattle.std.specs.Option.{option_copied};
ghost use Rattle.ray_updates.specs.Changes.{differ_at, differ_in, differs_if, is_change};

use crate::change::{Change, Matter};
use crate::numbers::number_of;
use ray_cmd::{Geometry, Info};

// What is compared, in the order in which it is told.
const MATTERS: &[Matter] = &[
    Matter::Kind,
    Matter::Opaque,
    Matter::Format,
    Matter::Index,
    Matter::MaxVertex,
    Matter::Count,
    Matter::Transform,
];

// In what an info differs first from the one by which its source was built.
pub(crate) fn first_change(info: &Info, source: &Info) -> Option<Change>
    ensures { IfSome result (λ change. is_change info.now change source.now ≡ true) }
{
    if info.flags.0 == source.flags.0 {
        change_of_geometries(info, source)
    } else {
        Some(Change::Flags)
    }
}

// The same of their geometries.
fn change_of_geometries(info: &Info, source: &Info) -> Option<Change>
    ensures { IfSome result (λ change. is_change info.now change source.now ≡ true) }
{
    let count = info.geometries.as_slice().len();
    let wanted = source.geometries.as_slice().len();
    if count == wanted {
        change_below(info, source, count)
    } else {
        Some(Change::Count)
    }
}

// The same of so many geometries.
fn change_below(info: &Info, source: &Info, count: usize) -> Option<Change>
    requires { count ≤ 67108864 }
    ensures { IfSome result (λ change. is_change info.now change source.now ≡ true) }
{
    for number in 0..count {
        if let Some(change) = change_at(info, source, number as u32, MATTERS) {
            return Some(change);
        }
    }
    None
}

// The same of the geometries of a number.
fn change_at(info: &Info, source: &Info, number: u32, matters: &[Matter]) -> Option<Change>
    ensures { IfSome result (λ change. is_change info.now change source.now ≡ true) }
{
    for matter in matters {
        let matter = *matter;
        if differ_at(
            matter,
            info.geometries.as_slice(),
            source.geometries.as_slice(),
            number,
        ) {
            return Some(Change::Geometry(number, matter));
        }
    }
    None
}

// Whether the geometries of a number differ in something.
fn differ_at(matter: Matter, ones: &[Geometry], others: &[Geometry], number: u32) -> bool
    ensures { result ≡ differ_at matter ones.now others.now number }
{
    match ones.get(number as usize) {
        Some(geometry) => differs_if(matter, others.get(number as usize), geometry),
        None => false,
    }
}

// Whether a geometry differs from another, where there is one.
fn differs_if(matter: Matter, other: Option<&Geometry>, geometry: &Geometry) -> bool
    ensures { result ≡ differs_if matter (option_copied other.entry) geometry.now }
{
    match other {
        Some(other) => differ_in(matter, geometry, other),
        None => false,
    }
}

// Whether two geometries differ in something.
fn differ_in(matter: Matter, one: &Geometry, other: &Geometry) -> bool
    ensures { result ≡ differ_in matter one.now other.now }
{
    number_of(matter, one) != number_of(matter, other)
}
