ghost use Rattle.std.specs.Prelude.{◌≡◌, ◌+◌, ◌≤◌, ◌^◌, ◌⊎◌, nat_lt, IfNone, IfSome};
ghost use Rattle.ray_rules.specs.Ranges.{meets, place_of};
ghost use Rattle.ray_status.specs.Parts.{structure_place};
ghost use Rattle.ray_rules.specs.Structures.{structure_range};

use ray_ranges::Place;
use ray_rules::{ByteRange, LiveStructure};

/// Whether two ranges share a byte. Own.
pub fn meets(r: ByteRange, s: ByteRange) -> bool
    ensures { result ≡ meets r s }
{
    r.buffer == s.buffer
        && (is_before_end(r.from, s)
            && is_before_end(s.from, r)
            && is_before_end(r.from, r)
            && is_before_end(s.from, s))
}

// Whether a byte's number is below the end of a range.
fn is_before_end(from: u128, range: ByteRange) -> bool
    ensures { result ≡ nat_lt from (range.from + range.size) }
{
    from < range.from || from - range.from < range.size
}

/// The bytes in which a structure stands. Own.
pub fn structure_range(structure: &LiveStructure) -> ByteRange
    ensures { result ≡ structure_range structure.now }
{
    ByteRange {
        buffer: structure.buffer,
        from: u128::from(structure.offset),
        size: u128::from(structure.size),
    }
}

// The place of a range in its buffer, where 64 bits have its numbers.
pub(crate) fn place_of(range: ByteRange) -> Option<Place>
    ensures some { IfSome result (λ place. place ≡ place_of range) }
    ensures none { IfNone result ((2 ^ 64 ≤ range.from) ⊎ (2 ^ 64 ≤ range.size)) }
{
    if range.from <= u128::from(u64::MAX) && range.size <= u128::from(u64::MAX) {
        Some(Place {
            space: range.buffer,
            from: range.from as u64,
            size: range.size as u64,
        })
    } else {
        None
    }
}

// The place in which a structure stands.
pub(crate) fn structure_place(structure: &LiveStructure) -> Place
    ensures { result ≡ structure_place structure.now }
{
    Place {
        space: structure.buffer,
        from: structure.offset,
        size: structure.size,
    }
}
