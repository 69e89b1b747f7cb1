ghost use Rattle.std.specs.Prelude.{ℕ, ⊤, ◌≡◌, ◌↔◌, Some, Contains, option_map, refl};
ghost use Rattle.bitflags.specs.Sets.{find_name};
ghost use Rattle.ray_flags.specs.Words.{build_words};
ghost use Rattle.ray_flags.specs.Constants.{build_constants};

use crate::words::{Words, flag_list};
use bitflags::{Flag, Flags};

/// How an acceleration structure is built. (Vulkan: VkBuildAccelerationStructureFlagBitsKHR, with
/// its bits.)
#[derive(Clone, Copy, PartialEq, Eq, Debug)]
pub struct BuildFlags(pub u32);

impl BuildFlags {
    /// The structure may be updated. (VK_BUILD_ACCELERATION_STRUCTURE_ALLOW_UPDATE_BIT_KHR.)
    pub const ALLOW_UPDATE: BuildFlags = BuildFlags(1);

    /// The structure may be compacted. (VK_BUILD_ACCELERATION_STRUCTURE_ALLOW_COMPACTION_BIT_KHR.)
    pub const ALLOW_COMPACTION: BuildFlags = BuildFlags(2);

    /// Traces are to be fast. (VK_BUILD_ACCELERATION_STRUCTURE_PREFER_FAST_TRACE_BIT_KHR.)
    pub const PREFER_FAST_TRACE: BuildFlags = BuildFlags(4);

    /// The build is to be fast. (VK_BUILD_ACCELERATION_STRUCTURE_PREFER_FAST_BUILD_BIT_KHR.)
    pub const PREFER_FAST_BUILD: BuildFlags = BuildFlags(8);

    /// The structure is to be small. (VK_BUILD_ACCELERATION_STRUCTURE_LOW_MEMORY_BIT_KHR.)
    pub const LOW_MEMORY: BuildFlags = BuildFlags(16);

    /// The flag of this word. None exactly where `build_words` of `specs/Words` lacks it.
    pub fn from_word(word: &str) -> Option<BuildFlags>
        ensures found { option_map (λ f. f.0) result ≡ find_name build_words word.now }
        ensures row { (bits : ℕ)
            → (option_map (λ f. f.0) result ≡ Some bits) ↔ Contains build_words (word.now, bits) }

        // Each constant is the flag of its word.
        ensures constants { build_words ≡ build_constants }
    {
        BuildFlags::of_word(word)
    }
}

impl Flags for BuildFlags {
    type Bits = u32;

    ghost exact = { ⊤ };

    ghost table = { build_words };

    ghost set_of = { λ f. f.0 };

    fn flags<'a>() -> &'a [Flag<BuildFlags>] {
        flag_list![
            "allow_update" => BuildFlags::ALLOW_UPDATE,
            "allow_compaction" => BuildFlags::ALLOW_COMPACTION,
            "prefer_fast_trace" => BuildFlags::PREFER_FAST_TRACE,
            "prefer_fast_build" => BuildFlags::PREFER_FAST_BUILD,
            "low_memory" => BuildFlags::LOW_MEMORY,
        ]
    }

    fn bits(&self) -> u32 {
        self.0
    }

    fn from_bits_retain(bits: u32) -> BuildFlags {
        BuildFlags(bits)
    }
}

impl Words for BuildFlags {
    ghost own = { (tt, refl) };
}
