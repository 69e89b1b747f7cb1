ghost use Rattle.std.specs.Prelude.{◌≡◌, ◌≤◌, ◌+◌, ◌*◌, length};
ghost use Rattle.ray_bytes.specs.Fields.{word_at, signed_at};
ghost use Rattle.ray_primitives.specs.StoredPrimitives.{point_at, is_zero, is_zero_but_x, part_at};
ghost use Rattle.ray_primitives.specs.StoredPrimitives.{point_words};

use byteorder::{ByteOrder, LittleEndian};
use ray_geom::Point32;

// The coordinates of a point as words.
pub(crate) fn point_words(p: Point32) -> [u32; 3]
    ensures { result ≡ point_words p }
{
    let [x, y, z] = p.words();
    [x.cast_unsigned(), y.cast_unsigned(), z.cast_unsigned()]
}

// Part i of bytes, in parts of one size.
#[tactic(auto, unfolding(crate::specs::StoredPrimitives::part_at))]
pub(crate) fn part_at(bytes: &[u8], size: u32, i: u32) -> &[u8]
    requires { size * (i + 1) ≤ length bytes.now }
    ensures value { result.now ≡ part_at size bytes.now i }
    ensures len { length result.now ≡ size }
{
    let from = size as usize * i as usize;
    &bytes[from..from + size as usize]
}

// The point whose three coordinates stand at a place.
#[tactic(auto, unfolding(crate::specs::StoredPrimitives::point_at))]
pub(crate) fn point_at(bytes: &[u8], at: usize) -> Point32
    requires { at + 12 ≤ length bytes.now }
    ensures { result ≡ point_at bytes.now at }
{
    Point32::from_words([
        signed_at(bytes, at),
        signed_at(bytes, at + 4),
        signed_at(bytes, at + 8),
    ])
}

// Whether a point is zero.
#[tactic(auto, unfolding(crate::specs::StoredPrimitives::is_zero))]
pub(crate) fn is_zero(p: Point32) -> bool
    ensures { result ≡ is_zero p }
{
    let [x, y, z] = p.words();
    x == 0 && y == 0 && z == 0
}

// Whether a point is zero but for x.
#[tactic(auto, unfolding(crate::specs::StoredPrimitives::is_zero_but_x))]
pub(crate) fn is_zero_but_x(p: Point32) -> bool
    ensures { result ≡ is_zero_but_x p }
{
    let [_, y, z] = p.words();
    y == 0 && z == 0
}

// The 32-bit number at a place.
#[tactic(auto, unfolding(ray_bytes::specs::Fields::word_at))]
pub(crate) fn word_at(bytes: &[u8], at: usize) -> u32
    requires { at + 4 ≤ length bytes.now }
    ensures { result ≡ word_at bytes.now at }
{
    LittleEndian::read_u32(&bytes[at..])
}

// The signed 32-bit number at a place.
#[tactic(auto, unfolding(ray_bytes::specs::Fields::signed_at, ray_bytes::specs::Fields::word_at))]
fn signed_at(bytes: &[u8], at: usize) -> i32
    requires { at + 4 ≤ length bytes.now }
    ensures { result ≡ signed_at bytes.now at }
{
    LittleEndian::read_i32(&bytes[at..])
}
