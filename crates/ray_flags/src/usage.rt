ghost use Rattle.std.specs.Prelude.{ℕ, ⊤, ◌≡◌, ◌↔◌, Some, Contains, option_map, refl};
ghost use Rattle.bitflags.specs.Sets.{find_name};
ghost use Rattle.ray_flags.specs.Words.{usage_words};
ghost use Rattle.ray_flags.specs.Constants.{usage_constants};

use crate::words::{Words, flag_list};
use bitflags::{Flag, Flags};

/// What a buffer may be used for. (Vulkan: VkBufferUsageFlagBits; the bits are own.)
#[derive(Clone, Copy, PartialEq, Eq, Debug)]
pub struct Usage(pub u32);

impl Usage {
    /// Input of builds: vertices, indices, transforms, boxes and instances.
    /// (VK_BUFFER_USAGE_ACCELERATION_STRUCTURE_BUILD_INPUT_READ_ONLY_BIT_KHR.)
    pub const INPUT: Usage = Usage(1);

    /// Rays and hits. (VK_BUFFER_USAGE_STORAGE_BUFFER_BIT.)
    pub const STORAGE: Usage = Usage(2);

    /// Sources of copies, and of what is deserialized. (VK_BUFFER_USAGE_TRANSFER_SRC_BIT.)
    pub const TRANSFER_SRC: Usage = Usage(4);

    /// Destinations of updates, fills and copies, of serialized bytes and of properties.
    /// (VK_BUFFER_USAGE_TRANSFER_DST_BIT.)
    pub const TRANSFER_DST: Usage = Usage(8);

    /// Scratch memory of builds. (Own: Vulkan asks VK_BUFFER_USAGE_STORAGE_BUFFER_BIT of it.)
    pub const SCRATCH: Usage = Usage(16);

    /// Memory of acceleration structures.
    /// (VK_BUFFER_USAGE_ACCELERATION_STRUCTURE_STORAGE_BIT_KHR.)
    pub const STRUCTURE: Usage = Usage(32);

    /// The usage of this word. None exactly where `usage_words` of `specs/Words` lacks it.
    pub fn from_word(word: &str) -> Option<Usage>
        ensures found { option_map (λ f. f.0) result ≡ find_name usage_words word.now }
        ensures row { (bits : ℕ)
            → (option_map (λ f. f.0) result ≡ Some bits) ↔ Contains usage_words (word.now, bits) }

        // Each constant is the flag of its word.
        ensures constants { usage_words ≡ usage_constants }
    {
        Usage::of_word(word)
    }
}

impl Flags for Usage {
    type Bits = u32;

    ghost exact = { ⊤ };

    ghost table = { usage_words };

    ghost set_of = { λ f. f.0 };

    fn flags<'a>() -> &'a [Flag<Usage>] {
        flag_list![
            "input" => Usage::INPUT,
            "storage" => Usage::STORAGE,
            "transfer_src" => Usage::TRANSFER_SRC,
            "transfer_dst" => Usage::TRANSFER_DST,
            "scratch" => Usage::SCRATCH,
            "structure" => Usage::STRUCTURE,
        ]
    }

    fn bits(&self) -> u32 {
        self.0
    }

    fn from_bits_retain(bits: u32) -> Usage {
        Usage(bits)
    }
}

impl Words for Usage {
    ghost own = { (tt, refl) };
}
