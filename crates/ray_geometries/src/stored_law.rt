ghost use Rattle.std.specs.Prelude.{◌≡◌, All, IfSome};
ghost use Rattle.ray_geometries.specs.Storing.{IsStoredBack, element_bytes, stored_shapes};

use crate::contents::Contents;
use ray_bytes::Format;
use ray_flags::Kind;

/// The law of stored contents: what the payload holds of each geometry, read back, is its
/// primitives. (Own.)
pub fn stored_back(_contents: &Contents)
    ensures { All IsStoredBack _contents.now.geometries }
{
    // The primitives are within the limits.
    let _geometries = _contents.geometries();
}

/// The same the other way round: the elements that stand for the primitives of a geometry are those
/// that these are stored as. (Own.)
pub fn stored_again(_kind: Kind, _format: Format, _size: u8, _count: u32, _elements: &[u8])
    ensures { IfSome (stored_shapes _kind _format _size _count _elements.now)
        (λ shapes. element_bytes shapes ≡ _elements.now) }
{}
