ghost use Rattle.std.specs.Prelude.{◌≡◌, IfOk, string_bytes};
ghost use Rattle.ray_causes.specs.Pointers.{member_text, name_of};

use crate::member::{Member, Name};
use std::alloc::{AllocError as NoMemory, Global};

/// A member of command number `command` as a JSON pointer (RFC 6901), as `/8/infos/0/scratch`.
///
/// # Errors
///
/// For want of memory alone.
pub fn member_text(alloc: Global, command: u32, member: Member) -> Result<String, NoMemory>
    ensures { IfOk result (λ text. string_bytes text ≡ member_text command member) }
{
    match member {
        Member::Own(name) => {
            let name = name_of(name);
            format!(in alloc; "/{command}/{name}")
        }
        Member::Item(name, item) => {
            let name = name_of(name);
            format!(in alloc; "/{command}/{name}/{item}")
        }
        Member::Region(region, name) => {
            let name = name_of(name);
            format!(in alloc; "/{command}/regions/{region}/{name}")
        }
        Member::Info(info, name) => {
            let name = name_of(name);
            format!(in alloc; "/{command}/infos/{info}/{name}")
        }
        Member::InfoItem(info, name, item) => {
            let name = name_of(name);
            format!(in alloc; "/{command}/infos/{info}/{name}/{item}")
        }
        Member::Geometry(info, geometry, name) => {
            let name = name_of(name);
            format!(in alloc; "/{command}/infos/{info}/geometries/{geometry}/{name}")
        }
    }
}

// A name, as a recording writes it.
fn name_of(name: Name) -> &'static str
    ensures { result.now ≡ name_of name }
{
    match name {
        Name::Id => "id",
        Name::Buffer => "buffer",
        Name::Offset => "offset",
        Name::Size => "size",
        Name::Data => "data",
        Name::Src => "src",
        Name::Dst => "dst",
        Name::SrcOffset => "src_offset",
        Name::DstOffset => "dst_offset",
        Name::Top => "top",
        Name::Rays => "rays",
        Name::Hits => "hits",
        Name::Scratch => "scratch",
        Name::Vertex => "vertex",
        Name::Stride => "stride",
        Name::Index => "index",
        Name::Transform => "transform",
        Name::PrimitiveOffset => "primitive_offset",
        Name::TransformOffset => "transform_offset",
        Name::Uses => "uses",
        Name::Structures => "structures",
        Name::Buffers => "buffers",
        Name::Op => "op",
        Name::Flags => "flags",
        Name::SrcAccess => "src_access",
        Name::DstAccess => "dst_access",
        Name::Usage => "usage",
    }
}
