ghost use Rattle.std.specs.Prelude.{ℕ, ⊤, ◌≡◌, ◌↔◌, Some, Contains, option_map, refl};
ghost use Rattle.bitflags.specs.Sets.{find_name};
ghost use Rattle.ray_flags.specs.Words.{ray_words};
ghost use Rattle.ray_flags.specs.Constants.{ray_constants};

use crate::words::{Words, flag_list};
use bitflags::{Flag, Flags};

/// What a ray skips and culls, and when it ends. (SPIR-V: Ray Flags of SPV_KHR_ray_query, with
/// their bits.)
#[derive(Clone, Copy, PartialEq, Eq, Debug)]
pub struct RayFlags(pub u32);

impl RayFlags {
    /// Every primitive counts as opaque. (OpaqueKHR.)
    pub const OPAQUE: RayFlags = RayFlags(1);

    /// No primitive counts as opaque. (NoOpaqueKHR.)
    pub const NO_OPAQUE: RayFlags = RayFlags(2);

    /// The first hit that is committed ends the query. (TerminateOnFirstHitKHR.)
    pub const TERMINATE_ON_FIRST_HIT: RayFlags = RayFlags(4);

    /// No closest hit shader runs; a ray query has none to run. (SkipClosestHitShaderKHR.)
    pub const SKIP_CLOSEST_HIT_SHADER: RayFlags = RayFlags(8);

    /// Triangles that show their back are culled. (CullBackFacingTrianglesKHR.)
    pub const CULL_BACK_FACING: RayFlags = RayFlags(16);

    /// Triangles that show their front are culled. (CullFrontFacingTrianglesKHR.)
    pub const CULL_FRONT_FACING: RayFlags = RayFlags(32);

    /// Opaque primitives are culled. (CullOpaqueKHR.)
    pub const CULL_OPAQUE: RayFlags = RayFlags(64);

    /// Primitives that aren't opaque are culled. (CullNoOpaqueKHR.)
    pub const CULL_NO_OPAQUE: RayFlags = RayFlags(128);

    /// Triangles are skipped. (SkipTrianglesKHR.)
    pub const SKIP_TRIANGLES: RayFlags = RayFlags(256);

    /// Boxes are skipped. (SkipAABBsKHR.)
    pub const SKIP_AABBS: RayFlags = RayFlags(512);

    /// The flag of this word. None exactly where `ray_words` of `specs/Words` lacks it.
    pub fn from_word(word: &str) -> Option<RayFlags>
        ensures found { option_map (λ f. f.0) result ≡ find_name ray_words word.now }
        ensures row { (bits : ℕ)
            → (option_map (λ f. f.0) result ≡ Some bits) ↔ Contains ray_words (word.now, bits) }

        // Each constant is the flag of its word.
        ensures constants { ray_words ≡ ray_constants }
    {
        RayFlags::of_word(word)
    }
}

impl Flags for RayFlags {
    type Bits = u32;

    ghost exact = { ⊤ };

    ghost table = { ray_words };

    ghost set_of = { λ f. f.0 };

    fn flags<'a>() -> &'a [Flag<RayFlags>] {
        flag_list![
            "opaque" => RayFlags::OPAQUE,
            "no_opaque" => RayFlags::NO_OPAQUE,
            "terminate_on_first_hit" => RayFlags::TERMINATE_ON_FIRST_HIT,
            "skip_closest_hit_shader" => RayFlags::SKIP_CLOSEST_HIT_SHADER,
            "cull_back_facing" => RayFlags::CULL_BACK_FACING,
            "cull_front_facing" => RayFlags::CULL_FRONT_FACING,
            "cull_opaque" => RayFlags::CULL_OPAQUE,
            "cull_no_opaque" => RayFlags::CULL_NO_OPAQUE,
            "skip_triangles" => RayFlags::SKIP_TRIANGLES,
            "skip_aabbs" => RayFlags::SKIP_AABBS,
        ]
    }

    fn bits(&self) -> u32 {
        self.0
    }

    fn from_bits_retain(bits: u32) -> RayFlags {
        RayFlags(bits)
    }
}

impl Words for RayFlags {
    ghost own = { (tt, refl) };
}
