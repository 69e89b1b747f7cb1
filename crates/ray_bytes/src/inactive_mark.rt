ghost use Rattle.std.specs.Prelude.{◌≡◌};
ghost use Rattle.ray_bytes.specs.InactiveMark.{is_inactive_mark};

/// The coordinate that marks a primitive as inactive, -2^31: as x of a triangle's first vertex, or
/// as a box's least x. (Own: the number; Vulkan, "Acceleration Structures": inactive primitives.)
pub const INACTIVE_MARK: i32 = i32::MIN;

/// Whether a coordinate is [`INACTIVE_MARK`].
pub fn is_inactive_mark(x: i32) -> bool
    ensures { result ≡ is_inactive_mark x }
{
    x == INACTIVE_MARK
}
