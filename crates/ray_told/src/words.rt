ghost use Rattle.std.specs.Prelude.{◌≡◌};
ghost use Rattle.ray_told.specs.Words.{access_word, ray_word};

use ray_kinds::{AccessWord, RayWord};

// A flag of a ray, as a recording writes it.
pub(crate) fn ray_word(word: RayWord) -> &'static str
    ensures { result.now ≡ ray_word word }
{
    match word {
        RayWord::Opaque => "opaque",
        RayWord::NoOpaque => "no_opaque",
        RayWord::CullOpaque => "cull_opaque",
        RayWord::CullNoOpaque => "cull_no_opaque",
        RayWord::SkipTriangles => "skip_triangles",
        RayWord::CullBackFacing => "cull_back_facing",
        RayWord::CullFrontFacing => "cull_front_facing",
        RayWord::SkipAabbs => "skip_aabbs",
    }
}

// An access of a barrier, as a recording writes it.
pub(crate) fn access_word(word: AccessWord) -> &'static str
    ensures { result.now ≡ access_word word }
{
    match word {
        AccessWord::TransferRead => "transfer_read",
        AccessWord::TransferWrite => "transfer_write",
        AccessWord::ShaderRead => "shader_read",
        AccessWord::ShaderWrite => "shader_write",
        AccessWord::StructureRead => "structure_read",
        AccessWord::StructureWrite => "structure_write",
        AccessWord::HostRead => "host_read",
        AccessWord::HostWrite => "host_write",
        AccessWord::MemoryRead => "memory_read",
        AccessWord::MemoryWrite => "memory_write",
    }
}
