ghost use Rattle.std.specs.Prelude.{◌≡◌, ◌+◌, ◌*◌, ◌<◌, ◌^◌};
ghost use Rattle.ray_bytes.specs.StructureSizes.{rounded_up, IsRoundedUp, structure_size, build_scratch_size, update_scratch_size, compacted_size};

/// How many bytes a structure and its builds take. (The members of
/// VkAccelerationStructureBuildSizesInfoKHR; the numbers are our own.)
#[derive(Clone, Copy, Debug, PartialEq, Eq)]
pub struct Sizes {
    /// The structure itself.
    pub structure: u64,
    /// The scratch memory of a build.
    pub build_scratch: u64,
    /// The scratch memory of an update.
    pub update_scratch: u64,
}

/// The sizes for `g` geometries and `n` primitives; a structure of instances has one geometry, and
/// its instances are its primitives. Each is a multiple of 256.
pub fn sizes_of(g: u32, n: u32) -> Sizes
    ensures value { result ≡ record {
      structure = structure_size g n;
      build_scratch = build_scratch_size n;
      update_scratch = update_scratch_size n;
    } }
    ensures structure { IsRoundedUp (128 + 32 * g + 128 * n) result.structure }
    ensures build_scratch { IsRoundedUp (256 + 64 * n) result.build_scratch }
    ensures update_scratch { IsRoundedUp (256 + 32 * n) result.update_scratch }
{
    let (g, n) = (u64::from(g), u64::from(n));
    Sizes {
        structure: round_up(128 + 32 * g + 128 * n),
        build_scratch: round_up(256 + 64 * n),
        update_scratch: round_up(256 + 32 * n),
    }
}

/// The size of the compacted structure of `g` geometries and `n` primitives, of which `active` are
/// active: a multiple of 256.
pub fn compacted_of(g: u32, n: u32, active: u32) -> u64
    ensures value { result ≡ compacted_size g n active }
    ensures rounded { IsRoundedUp (128 + 32 * g + 32 * n + 64 * active) result }
{
    let (g, n, active) = (u64::from(g), u64::from(n), u64::from(active));
    round_up(128 + 32 * g + 32 * n + 64 * active)
}

// The least multiple of 256 that is at least `size`.
fn round_up(size: u64) -> u64
    requires { size + 256 < 2 ^ 64 }
    ensures value { result ≡ rounded_up size }
    ensures rounded { IsRoundedUp size result }
{
    size.next_multiple_of(256)
}
