ghost use Rattle.std.specs.Prelude.{◌≡◌, ◌≤◌, ◌+◌, ◌*◌, ◌^◌, IfOk, IfSome, length, is_some};
ghost use Rattle.ray_geom.specs.Vector.{IsShort};
ghost use Rattle.ray_primitives.specs.StoredPrimitives.{triangle_bytes, triangle_words};
ghost use Rattle.ray_primitives.specs.StoredPrimitives.{indices_at, indices_fit, inactive_from};
ghost use Rattle.ray_primitives.specs.StoredPrimitives.{active_from, marked_from, stored_from};
ghost use Rattle.ray_primitives.specs.StoredPrimitives.{stored_triangle, stored_triangles};
ghost use Rattle.ray_primitives.specs.StoredPrimitives.{stored_triangle_at};

use crate::corners::index_fits;
use crate::index_values::IndexValues;
use crate::kept_triangle::KeptTriangle;
use crate::stored_points::{is_zero, is_zero_but_x, part_at, point_at, point_words, word_at};
use byteorder::{ByteOrder, LittleEndian};
use ray_bytes::is_inactive_mark;
use ray_contents::{Elements, point_within};
use ray_geom::{Point32, Vec3};
use std::alloc::{AllocError as NoMemory, Global};

impl KeptTriangle {
    /// The triangle as it is stored. (Own: the layout.)
    #[tactic(auto, unfolding(crate::specs::StoredPrimitives::triangle_bytes))]
    pub fn bytes(&self) -> [u8; 48]
        ensures { result ≡ triangle_bytes self.now }
    {
        let mut bytes = [0; 48];
        LittleEndian::write_u32_into(&self.words(), &mut bytes);
        bytes
    }

    // Its twelve words.
    fn words(&self) -> [u32; 12]
        ensures { result ≡ triangle_words self.now }
    {
        let [a, b, c] = self.written();
        let [ax, ay, az] = point_words(a);
        let [bx, by, bz] = point_words(b);
        let [cx, cy, cz] = point_words(c);
        let indices = self.indices();
        [
            ax,
            ay,
            az,
            bx,
            by,
            bz,
            cx,
            cy,
            cz,
            indices.first,
            indices.second,
            indices.third,
        ]
    }

    /// The triangle of 48 bytes, where the index values fit an index size in bytes: 0 without
    /// indices, else 2 or 4. None exactly where they stand for none: where an index value doesn't
    /// fit, an active coordinate is beyond the limits, or an inactive triangle isn't the mark and
    /// zeros. (Own: the layout.)
    #[tactic(auto, unfolding(crate::specs::StoredPrimitives::stored_triangle))]
    pub fn from_bytes(bytes: &[u8], index_size: u8) -> Option<KeptTriangle>
        requires { length bytes.now ≡ 48 }
        ensures { result ≡ stored_triangle index_size bytes.now }
    {
        stored_from(
            index_size,
            point_at(bytes, 0),
            point_at(bytes, 12),
            point_at(bytes, 24),
            indices_at(bytes),
        )
    }
}

/// The first triangles of bytes, of 48 each. Ok(None) exactly where one of them stands for none.
#[tactic(auto, using(ray_contents::proofs::Gathered::all_values))]
pub fn triangles_of_bytes(
    alloc: Global,
    bytes: &[u8],
    index_size: u8,
    count: u32,
) -> Result<Option<Elements<KeptTriangle>>, NoMemory>
    requires { 48 * count ≤ length bytes.now }
    ensures { IfOk result (λ read. read ≡ stored_triangles index_size count bytes.now) }
{
    let mut kept = Vec::with_capacity(alloc, count as usize)?;
    for i in 0..count {
        match triangle_at(bytes, index_size, i) {
            Some(t) => kept.push(t)?,
            None => return Ok(None),
        }
    }
    Ok(Some(Elements::new(kept)))
}

/// Whether each of the first triangles of bytes, of 48 each, stands for one.
#[tactic(auto, using(ray_contents::proofs::Gathered::has_all))]
pub fn are_triangles(bytes: &[u8], index_size: u8, count: u32) -> bool
    requires { 48 * count ≤ length bytes.now }
    ensures { result ≡ is_some (stored_triangles index_size count bytes.now) }
{
    for i in 0..count {
        if !is_triangle_at(bytes, index_size, i) {
            return false;
        }
    }
    true
}

// Triangle i of bytes.
#[tactic(auto, unfolding(crate::specs::StoredPrimitives::stored_triangle_at))]
fn triangle_at(bytes: &[u8], index_size: u8, i: u32) -> Option<KeptTriangle>
    requires { 48 * (i + 1) ≤ length bytes.now }
    ensures { result ≡ stored_triangle_at index_size bytes.now i }
{
    KeptTriangle::from_bytes(part_at(bytes, 48, i), index_size)
}

// Whether there is a triangle i of bytes.
fn is_triangle_at(bytes: &[u8], index_size: u8, i: u32) -> bool
    requires { 48 * (i + 1) ≤ length bytes.now }
    ensures { result ≡ is_some (stored_triangle_at index_size bytes.now i) }
{
    triangle_at(bytes, index_size, i).is_some()
}

// The index values of a triangle.
#[tactic(auto, unfolding(crate::specs::StoredPrimitives::indices_at))]
fn indices_at(bytes: &[u8]) -> IndexValues
    requires { length bytes.now ≡ 48 }
    ensures { result ≡ indices_at bytes.now }
{
    IndexValues {
        first: word_at(bytes, 36),
        second: word_at(bytes, 40),
        third: word_at(bytes, 44),
    }
}

// Whether all three index values fit their size.
#[tactic(auto, unfolding(crate::specs::StoredPrimitives::indices_fit))]
fn indices_fit(size: u8, i: IndexValues) -> bool
    ensures { result ≡ indices_fit size i }
{
    index_fits(size, i.first) && index_fits(size, i.second) && index_fits(size, i.third)
}

// The triangle of three points, where its index values fit their size.
#[tactic(auto, unfolding(crate::specs::StoredPrimitives::stored_from))]
fn stored_from(
    size: u8,
    a: Point32,
    b: Point32,
    c: Point32,
    indices: IndexValues,
) -> Option<KeptTriangle>
    ensures { result ≡ stored_from size a b c indices }
{
    if indices_fit(size, indices) {
        marked_from(a, b, c, indices)
    } else {
        None
    }
}

// The triangle of three points, by the mark.
#[tactic(auto, unfolding(crate::specs::StoredPrimitives::marked_from))]
fn marked_from(a: Point32, b: Point32, c: Point32, indices: IndexValues) -> Option<KeptTriangle>
    ensures { result ≡ marked_from a b c indices }
{
    if is_inactive_mark(a.x()) {
        inactive_from(a, b, c, indices)
    } else {
        active_from(
            point_within(a.wide()),
            point_within(b.wide()),
            point_within(c.wide()),
            indices,
        )
    }
}

// The inactive triangle of the mark and zeros.
#[tactic(auto, unfolding(crate::specs::StoredPrimitives::inactive_from))]
fn inactive_from(a: Point32, b: Point32, c: Point32, indices: IndexValues) -> Option<KeptTriangle>
    ensures { result ≡ inactive_from a b c indices }
{
    if is_zero_but_x(a) && is_zero(b) && is_zero(c) {
        Some(KeptTriangle::inactive(indices))
    } else {
        None
    }
}

// The active triangle of three points.
fn active_from(
    a: Option<Vec3>,
    b: Option<Vec3>,
    c: Option<Vec3>,
    indices: IndexValues,
) -> Option<KeptTriangle>
    requires a_short { IfSome a (IsShort (2 ^ 19)) }
    requires b_short { IfSome b (IsShort (2 ^ 19)) }
    requires c_short { IfSome c (IsShort (2 ^ 19)) }
    ensures { result ≡ active_from a b c indices }
{
    if let (Some(a), Some(b), Some(c)) = (a, b, c) {
        Some(KeptTriangle::active(a, b, c, indices))
    } else {
        None
    }
}
