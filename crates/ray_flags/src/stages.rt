ghost use Rattle.std.specs.Prelude.{ℕ, ⊤, ◌≡◌, ◌↔◌, Some, Contains, option_map, refl};
ghost use Rattle.bitflags.specs.Sets.{find_name};
ghost use Rattle.ray_flags.specs.Words.{stage_words};
ghost use Rattle.ray_flags.specs.Constants.{stage_constants};

use crate::words::{Words, flag_list};
use bitflags::{Flag, Flags};

/// Stages of a barrier. (Vulkan: VkPipelineStageFlagBits; the bits are own.)
#[derive(Clone, Copy, PartialEq, Eq, Debug)]
pub struct Stages(pub u32);

impl Stages {
    /// Updates, fills and copies of buffers. (VK_PIPELINE_STAGE_TRANSFER_BIT.)
    pub const TRANSFER: Stages = Stages(1);

    /// Builds, updates and properties of structures.
    /// (VK_PIPELINE_STAGE_ACCELERATION_STRUCTURE_BUILD_BIT_KHR.)
    pub const BUILD: Stages = Stages(2);

    /// Traces. (VK_PIPELINE_STAGE_COMPUTE_SHADER_BIT.)
    pub const COMPUTE: Stages = Stages(4);

    /// Accesses of the host. (VK_PIPELINE_STAGE_HOST_BIT.)
    pub const HOST: Stages = Stages(8);

    /// Copies, serializations and deserializations of structures.
    /// (VK_PIPELINE_STAGE_2_ACCELERATION_STRUCTURE_COPY_BIT_KHR.)
    pub const STRUCTURE_COPY: Stages = Stages(16);

    /// Transfer, build, structure_copy and compute together, and not the host.
    /// (VK_PIPELINE_STAGE_ALL_COMMANDS_BIT.) `Flags::all` has the host too.
    pub const ALL: Stages = Stages(23);

    /// The stages of this word. None exactly where `stage_words` of `specs/Words` lacks it.
    pub fn from_word(word: &str) -> Option<Stages>
        ensures found { option_map (λ f. f.0) result ≡ find_name stage_words word.now }
        ensures row { (bits : ℕ)
            → (option_map (λ f. f.0) result ≡ Some bits) ↔ Contains stage_words (word.now, bits) }

        // Each constant is the flag of its word.
        ensures constants { stage_words ≡ stage_constants }
    {
        Stages::of_word(word)
    }
}

impl Flags for Stages {
    type Bits = u32;

    ghost exact = { ⊤ };

    ghost table = { stage_words };

    ghost set_of = { λ f. f.0 };

    fn flags<'a>() -> &'a [Flag<Stages>] {
        flag_list![
            "transfer" => Stages::TRANSFER,
            "build" => Stages::BUILD,
            "structure_copy" => Stages::STRUCTURE_COPY,
            "compute" => Stages::COMPUTE,
            "host" => Stages::HOST,
            "all" => Stages::ALL,
        ]
    }

    fn bits(&self) -> u32 {
        self.0
    }

    fn from_bits_retain(bits: u32) -> Stages {
        Stages(bits)
    }
}

impl Words for Stages {
    ghost own = { (tt, refl) };
}
