ghost use Rattle.std.specs.Prelude.{◌≡◌};
ghost use Rattle.ray_causes.specs.Naming.{at_buffer, at_buffers, at_data, at_dst, at_id};
ghost use Rattle.ray_causes.specs.Naming.{at_rays_or_hits, at_size, at_src, at_src_or_dst};
ghost use Rattle.ray_causes.specs.Naming.{at_structures, at_top, at_uses};

use crate::member::Name;

// What stands at the member of this name alone.
pub(crate) fn at_id<T: Copy>(name: Name, value: T) -> Option<T>
    ensures { result ≡ at_id name value }
{
    match name {
        Name::Id => Some(value),
        _ => None,
    }
}

// What stands at the member of this name alone.
pub(crate) fn at_buffer<T: Copy>(name: Name, value: T) -> Option<T>
    ensures { result ≡ at_buffer name value }
{
    match name {
        Name::Buffer => Some(value),
        _ => None,
    }
}

// What stands at the member of this name alone.
pub(crate) fn at_size<T: Copy>(name: Name, value: T) -> Option<T>
    ensures { result ≡ at_size name value }
{
    match name {
        Name::Size => Some(value),
        _ => None,
    }
}

// What stands at the member of this name alone.
pub(crate) fn at_data<T: Copy>(name: Name, value: T) -> Option<T>
    ensures { result ≡ at_data name value }
{
    match name {
        Name::Data => Some(value),
        _ => None,
    }
}

// What stands at the member of this name alone.
pub(crate) fn at_src<T: Copy>(name: Name, value: T) -> Option<T>
    ensures { result ≡ at_src name value }
{
    match name {
        Name::Src => Some(value),
        _ => None,
    }
}

// What stands at the member of this name alone.
pub(crate) fn at_dst<T: Copy>(name: Name, value: T) -> Option<T>
    ensures { result ≡ at_dst name value }
{
    match name {
        Name::Dst => Some(value),
        _ => None,
    }
}

// What stands at the member of this name alone.
pub(crate) fn at_top<T: Copy>(name: Name, value: T) -> Option<T>
    ensures { result ≡ at_top name value }
{
    match name {
        Name::Top => Some(value),
        _ => None,
    }
}

// What stands at the member of this name alone.
pub(crate) fn at_uses<T: Copy>(name: Name, value: T) -> Option<T>
    ensures { result ≡ at_uses name value }
{
    match name {
        Name::Uses => Some(value),
        _ => None,
    }
}

// What stands at the member of this name alone.
pub(crate) fn at_structures<T: Copy>(name: Name, value: T) -> Option<T>
    ensures { result ≡ at_structures name value }
{
    match name {
        Name::Structures => Some(value),
        _ => None,
    }
}

// What stands at the member of this name alone.
pub(crate) fn at_buffers<T: Copy>(name: Name, value: T) -> Option<T>
    ensures { result ≡ at_buffers name value }
{
    match name {
        Name::Buffers => Some(value),
        _ => None,
    }
}

// What stands at the source and at the destination.
pub(crate) fn at_src_or_dst<T: Copy>(name: Name, src: T, dst: T) -> Option<T>
    ensures { result ≡ at_src_or_dst name src dst }
{
    match name {
        Name::Src => Some(src),
        Name::Dst => Some(dst),
        _ => None,
    }
}

// What stands at the rays and at the hits of a trace.
pub(crate) fn at_rays_or_hits<T: Copy>(name: Name, rays: T, hits: T) -> Option<T>
    ensures { result ≡ at_rays_or_hits name rays hits }
{
    match name {
        Name::Rays => Some(rays),
        Name::Hits => Some(hits),
        _ => None,
    }
}
