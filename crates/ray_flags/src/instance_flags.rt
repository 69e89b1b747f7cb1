ghost use Rattle.std.specs.Prelude.{⊤};
ghost use Rattle.ray_flags.specs.Words.{instance_words};

use crate::words::flag_list;
use bitflags::{Flag, Flags};

/// The facing and the opacity of an instance. (Vulkan: VkGeometryInstanceFlagBitsKHR, with its
/// bits.)
#[derive(Clone, Copy, PartialEq, Eq, Debug)]
pub struct InstanceFlags(pub u8);

impl InstanceFlags {
    /// No triangle is culled for its face.
    /// (VK_GEOMETRY_INSTANCE_TRIANGLE_FACING_CULL_DISABLE_BIT_KHR.)
    pub const TRIANGLE_FACING_CULL_DISABLE: InstanceFlags = InstanceFlags(1);

    /// Front and back of each triangle are exchanged.
    /// (VK_GEOMETRY_INSTANCE_TRIANGLE_FLIP_FACING_BIT_KHR.)
    pub const TRIANGLE_FLIP_FACING: InstanceFlags = InstanceFlags(2);

    /// Every geometry counts as opaque. (VK_GEOMETRY_INSTANCE_FORCE_OPAQUE_BIT_KHR.)
    pub const FORCE_OPAQUE: InstanceFlags = InstanceFlags(4);

    /// No geometry counts as opaque. (VK_GEOMETRY_INSTANCE_FORCE_NO_OPAQUE_BIT_KHR.)
    pub const FORCE_NO_OPAQUE: InstanceFlags = InstanceFlags(8);
}

impl Flags for InstanceFlags {
    type Bits = u8;

    ghost exact = { ⊤ };

    ghost table = { instance_words };

    ghost set_of = { λ f. f.0 };

    fn flags<'a>() -> &'a [Flag<InstanceFlags>] {
        flag_list![
            "triangle_facing_cull_disable" => InstanceFlags::TRIANGLE_FACING_CULL_DISABLE,
            "triangle_flip_facing" => InstanceFlags::TRIANGLE_FLIP_FACING,
            "force_opaque" => InstanceFlags::FORCE_OPAQUE,
            "force_no_opaque" => InstanceFlags::FORCE_NO_OPAQUE,
        ]
    }

    fn bits(&self) -> u8 {
        self.0
    }

    fn from_bits_retain(bits: u8) -> InstanceFlags {
        InstanceFlags(bits)
    }
}
