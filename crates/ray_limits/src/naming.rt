ghost use Rattle.std.specs.Prelude.{◌≡◌};
ghost use Rattle.ray_causes.specs.Naming.{at_data, at_dst, at_size};
ghost use Rattle.ray_limits.specs.Naming.{at_offset, at_offset_or_data, at_offset_or_size};

use ray_causes::Name;

// What stands at the member of this name alone.
pub(crate) fn at_offset<T: Copy>(name: Name, value: T) -> Option<T>
    ensures { result ≡ at_offset name value }
{
    match name {
        Name::Offset => Some(value),
        _ => None,
    }
}

// What stands at the member of this name alone.
pub(crate) fn at_size<T: Copy>(name: Name, value: T) -> Option<T>
    ensures { result ≡ at_size name value }
{
    match name {
        Name::Size => Some(value),
        _ => None,
    }
}

// What stands at the member of this name alone.
pub(crate) fn at_data<T: Copy>(name: Name, value: T) -> Option<T>
    ensures { result ≡ at_data name value }
{
    match name {
        Name::Data => Some(value),
        _ => None,
    }
}

// What stands at the member of this name alone.
pub(crate) fn at_dst<T: Copy>(name: Name, value: T) -> Option<T>
    ensures { result ≡ at_dst name value }
{
    match name {
        Name::Dst => Some(value),
        _ => None,
    }
}

// What stands at the offset and at the size.
pub(crate) fn at_offset_or_size<T: Copy>(name: Name, offset: T, size: T) -> Option<T>
    ensures { result ≡ at_offset_or_size name offset size }
{
    match name {
        Name::Offset => Some(offset),
        Name::Size => Some(size),
        _ => None,
    }
}

// What stands at the offset and at the data.
pub(crate) fn at_offset_or_data<T: Copy>(name: Name, offset: T, content: T) -> Option<T>
    ensures { result ≡ at_offset_or_data name offset content }
{
    match name {
        Name::Offset => Some(offset),
        Name::Data => Some(content),
        _ => None,
    }
}
