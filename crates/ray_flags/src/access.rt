ghost use Rattle.std.specs.Prelude.{ℕ, ⊤, ◌≡◌, ◌↔◌, Some, Contains, option_map, refl};
ghost use Rattle.bitflags.specs.Sets.{find_name};
ghost use Rattle.ray_flags.specs.Words.{access_words};
ghost use Rattle.ray_flags.specs.Constants.{access_constants};

use crate::words::{Words, flag_list};
use bitflags::{Flag, Flags};

/// Accesses of a barrier. (Vulkan: VkAccessFlagBits; the bits are own.)
#[derive(Clone, Copy, PartialEq, Eq, Debug)]
pub struct Access(pub u32);

impl Access {
    /// Reads of the sources of copies, and of what is deserialized. (VK_ACCESS_TRANSFER_READ_BIT.)
    pub const TRANSFER_READ: Access = Access(1);

    /// Writes of updates, fills and copies, of serialized bytes and of properties.
    /// (VK_ACCESS_TRANSFER_WRITE_BIT.)
    pub const TRANSFER_WRITE: Access = Access(2);

    /// Reads of rays by traces, and of the input of builds. (VK_ACCESS_SHADER_READ_BIT.)
    pub const SHADER_READ: Access = Access(4);

    /// Writes of hits by traces. (VK_ACCESS_SHADER_WRITE_BIT.)
    pub const SHADER_WRITE: Access = Access(8);

    /// Reads of acceleration structures, and of scratch memory.
    /// (VK_ACCESS_ACCELERATION_STRUCTURE_READ_BIT_KHR.)
    pub const STRUCTURE_READ: Access = Access(16);

    /// Writes of acceleration structures, and of scratch memory.
    /// (VK_ACCESS_ACCELERATION_STRUCTURE_WRITE_BIT_KHR.)
    pub const STRUCTURE_WRITE: Access = Access(32);

    /// Reads by the host. (VK_ACCESS_HOST_READ_BIT.)
    pub const HOST_READ: Access = Access(64);

    /// Writes by the host. (VK_ACCESS_HOST_WRITE_BIT.)
    pub const HOST_WRITE: Access = Access(128);

    /// Every read: a bit of its own. (VK_ACCESS_MEMORY_READ_BIT.)
    pub const MEMORY_READ: Access = Access(256);

    /// Every write: a bit of its own. (VK_ACCESS_MEMORY_WRITE_BIT.)
    pub const MEMORY_WRITE: Access = Access(512);

    /// The access of this word. None exactly where `access_words` of `specs/Words` lacks it.
    pub fn from_word(word: &str) -> Option<Access>
        ensures found { option_map (λ f. f.0) result ≡ find_name access_words word.now }
        ensures row { (bits : ℕ)
            → (option_map (λ f. f.0) result ≡ Some bits) ↔ Contains access_words (word.now, bits) }

        // Each constant is the flag of its word.
        ensures constants { access_words ≡ access_constants }
    {
        Access::of_word(word)
    }
}

impl Flags for Access {
    type Bits = u32;

    ghost exact = { ⊤ };

    ghost table = { access_words };

    ghost set_of = { λ f. f.0 };

    fn flags<'a>() -> &'a [Flag<Access>] {
        flag_list![
            "transfer_read" => Access::TRANSFER_READ,
            "transfer_write" => Access::TRANSFER_WRITE,
            "shader_read" => Access::SHADER_READ,
            "shader_write" => Access::SHADER_WRITE,
            "structure_read" => Access::STRUCTURE_READ,
            "structure_write" => Access::STRUCTURE_WRITE,
            "host_read" => Access::HOST_READ,
            "host_write" => Access::HOST_WRITE,
            "memory_read" => Access::MEMORY_READ,
            "memory_write" => Access::MEMORY_WRITE,
        ]
    }

    fn bits(&self) -> u32 {
        self.0
    }

    fn from_bits_retain(bits: u32) -> Access {
        Access(bits)
    }
}

impl Words for Access {
    ghost own = { (tt, refl) };
}
