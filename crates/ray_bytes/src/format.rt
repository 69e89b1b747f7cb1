ghost use Rattle.std.specs.Prelude.{◌≡◌};

/// How a vertex stands in memory: signed whole numbers, one a coordinate.
#[derive(Clone, Copy, Debug, PartialEq, Eq)]
pub enum Format {
    /// Three of 32 bits, 12 bytes. (VK_FORMAT_R32G32B32_SINT)
    S32x3,
    /// Two of 32 bits, 8 bytes; z is 0. (VK_FORMAT_R32G32_SINT)
    S32x2,
    /// Three of 16 bits, 6 bytes. (VK_FORMAT_R16G16B16_SINT)
    S16x3,
}

impl Format {
    ghost use Rattle.ray_bytes.specs.Formats.{vertex_size, component_size};

    /// How many bytes a vertex has.
    pub fn size(self) -> u32
        ensures { result ≡ vertex_size self }
    {
        match self {
            Format::S32x3 => 12,
            Format::S32x2 => 8,
            Format::S16x3 => 6,
        }
    }

    /// How many bytes a component has.
    pub fn component_size(self) -> u32
        ensures { result ≡ component_size self }
    {
        match self {
            Format::S32x3 | Format::S32x2 => 4,
            Format::S16x3 => 2,
        }
    }
}
