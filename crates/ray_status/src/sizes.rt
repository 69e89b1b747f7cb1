ghost use Rattle.std.specs.Prelude.{◌≡◌, ◌+◌, ◌*◌, ◌<◌, ◌≤◌, ◌^◌};
ghost use Rattle.ray_bytes.specs.StructureSizes.{rounded_up, structure_size};
ghost use Rattle.ray_rules.specs.Ranges.{scratch_range, scratch_size};

use crate::inputs::primitives;
use ray_cmd::{BuildMode, Info};
use ray_rules::ByteRange;

/// The size of a structure of so many geometries and primitives, in bytes. (Own: the formula is that
/// of `sizes_of` of ray_bytes, for numbers beyond the limits too.)
pub fn structure_size(geometries: usize, primitives: u128) -> u128
    requires { primitives < 2 ^ 100 }
    ensures { result ≡ structure_size geometries primitives }
{
    let geometries = geometries as u128;
    round_up(128 + 32 * geometries + 128 * primitives)
}

/// The scratch memory of an info: some bytes, below byte 2^66. (Own: the formulas are those of `sizes_of` of ray_bytes, for
/// numbers beyond the limits too.)
pub fn scratch_range(info: &Info) -> ByteRange
    ensures value { result ≡ scratch_range info.now }
    ensures some { 0 < result.size }
    ensures fits { result.from + result.size ≤ 2 ^ 66 }
{
    let primitives = primitives(info.geometries.as_slice());
    ByteRange {
        buffer: info.scratch.buffer,
        from: u128::from(info.scratch.offset),
        size: scratch_size(info.mode, primitives),
    }
}

// The scratch memory that a build or an update of so many primitives takes.
fn scratch_size(mode: BuildMode, primitives: u128) -> u128
    requires { primitives < 2 ^ 100 }
    ensures value { result ≡ scratch_size mode primitives }
    ensures some { 0 < result }
    ensures limit { result ≤ 64 * primitives + 512 }
{
    match mode {
        BuildMode::Build => round_up(256 + 64 * primitives),
        BuildMode::Update => round_up(256 + 32 * primitives),
    }
}

// The least multiple of 256 that is at least `size`.
fn round_up(size: u128) -> u128
    requires { size < 2 ^ 120 }
    ensures value { result ≡ rounded_up size }
    ensures least { size ≤ result }
    ensures limit { result ≤ size + 255 }
{
    (size + 255) / 256 * 256
}
