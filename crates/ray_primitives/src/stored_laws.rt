ghost use Rattle.std.specs.Prelude.{◌≡◌, ◌*◌, All, IfSome, Some, length};
ghost use Rattle.std.specs.List.{flat_map};
ghost use Rattle.ray_primitives.specs.Primitives.{IsTriangleOf, IsAabb};
ghost use Rattle.ray_primitives.specs.StoredPrimitives.{triangle_bytes, stored_triangles};
ghost use Rattle.ray_primitives.specs.StoredPrimitives.{aabb_bytes, stored_boxes};

use crate::kept_box::KeptBox;
use crate::kept_triangle::KeptTriangle;

/// The laws of stored triangles: what is stored and read back is the same triangles; what is read
/// of all bytes and stored again is the same bytes; and what is read is within the limits, with
/// index values that fit. (Own.)
pub fn stored_triangles_law(_triangles: &[KeptTriangle], _size: u8, _bytes: &[u8], _count: u32)
    ensures back { All (IsTriangleOf _size) _triangles.now →
        stored_triangles _size (length _triangles.now) (flat_map triangle_bytes _triangles.now)
        ≡ Some _triangles.now }
    ensures again { length _bytes.now ≡ 48 * _count →
        IfSome (stored_triangles _size _count _bytes.now)
        (λ ts. flat_map triangle_bytes ts ≡ _bytes.now) }
    ensures limits { IfSome (stored_triangles _size _count _bytes.now) (All (IsTriangleOf _size)) }
    ensures count { IfSome (stored_triangles _size _count _bytes.now) (λ ts. length ts ≡ _count) }
{}

/// The laws of stored boxes: what is stored and read back is the same boxes; what is read of all
/// bytes and stored again is the same bytes; and what is read is within the limits. (Own.)
pub fn stored_boxes_law(_boxes: &[KeptBox], _bytes: &[u8], _count: u32)
    ensures back { All IsAabb _boxes.now →
        stored_boxes (length _boxes.now) (flat_map aabb_bytes _boxes.now) ≡ Some _boxes.now }
    ensures again { length _bytes.now ≡ 24 * _count →
        IfSome (stored_boxes _count _bytes.now) (λ boxes. flat_map aabb_bytes boxes ≡ _bytes.now) }
    ensures limits { IfSome (stored_boxes _count _bytes.now) (All IsAabb) }
    ensures count { IfSome (stored_boxes _count _bytes.now) (λ boxes. length boxes ≡ _count) }
{}
