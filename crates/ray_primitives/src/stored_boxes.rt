ghost use Rattle.std.specs.Prelude.{◌≡◌, ◌≤◌, ◌+◌, ◌*◌, ◌^◌, IfOk, IfSome, length, is_some};
ghost use Rattle.ray_geom.specs.Vector.{IsShort};
ghost use Rattle.ray_primitives.specs.StoredPrimitives.{aabb_bytes, aabb_words, stored_box};
ghost use Rattle.ray_primitives.specs.StoredPrimitives.{inactive_box_from, active_box_from};
ghost use Rattle.ray_primitives.specs.StoredPrimitives.{stored_box_from, stored_boxes, stored_box_at};

use crate::boxes::is_ordered;
use crate::kept_box::KeptBox;
use crate::stored_points::{is_zero, is_zero_but_x, part_at, point_at, point_words};
use byteorder::{ByteOrder, LittleEndian};
use ray_bytes::is_inactive_mark;
use ray_contents::{Elements, point_within};
use ray_geom::{Point32, Vec3};
use std::alloc::{AllocError as NoMemory, Global};

impl KeptBox {
    /// The box as it is stored. (Own: the layout.)
    #[tactic(auto, unfolding(crate::specs::StoredPrimitives::aabb_bytes))]
    pub fn bytes(&self) -> [u8; 24]
        ensures { result ≡ aabb_bytes self.now }
    {
        let mut bytes = [0; 24];
        LittleEndian::write_u32_into(&self.words(), &mut bytes);
        bytes
    }

    // Its six words.
    fn words(&self) -> [u32; 6]
        ensures { result ≡ aabb_words self.now }
    {
        let [lo, hi] = self.written();
        let [lo_x, lo_y, lo_z] = point_words(lo);
        let [hi_x, hi_y, hi_z] = point_words(hi);
        [lo_x, lo_y, lo_z, hi_x, hi_y, hi_z]
    }

    /// The box of 24 bytes. None exactly where they stand for none: where an active coordinate is
    /// beyond the limits, a minimum is above its maximum, or an inactive box isn't the mark and
    /// zeros. (Own: the layout.)
    #[tactic(auto, unfolding(crate::specs::StoredPrimitives::stored_box))]
    pub fn from_bytes(bytes: &[u8]) -> Option<KeptBox>
        requires { length bytes.now ≡ 24 }
        ensures { result ≡ stored_box bytes.now }
    {
        stored_box_from(point_at(bytes, 0), point_at(bytes, 12))
    }
}

/// The first boxes of bytes, of 24 each. Ok(None) exactly where one of them stands for none.
#[tactic(auto, using(ray_contents::proofs::Gathered::all_values))]
pub fn boxes_of_bytes(
    alloc: Global,
    bytes: &[u8],
    count: u32,
) -> Result<Option<Elements<KeptBox>>, NoMemory>
    requires { 24 * count ≤ length bytes.now }
    ensures { IfOk result (λ read. read ≡ stored_boxes count bytes.now) }
{
    let mut kept = Vec::with_capacity(alloc, count as usize)?;
    for i in 0..count {
        match box_at(bytes, i) {
            Some(b) => kept.push(b)?,
            None => return Ok(None),
        }
    }
    Ok(Some(Elements::new(kept)))
}

/// Whether each of the first boxes of bytes, of 24 each, stands for one.
#[tactic(auto, using(ray_contents::proofs::Gathered::has_all))]
pub fn are_boxes(bytes: &[u8], count: u32) -> bool
    requires { 24 * count ≤ length bytes.now }
    ensures { result ≡ is_some (stored_boxes count bytes.now) }
{
    for i in 0..count {
        if !is_box_at(bytes, i) {
            return false;
        }
    }
    true
}

// Box i of bytes.
#[tactic(auto, unfolding(crate::specs::StoredPrimitives::stored_box_at))]
fn box_at(bytes: &[u8], i: u32) -> Option<KeptBox>
    requires { 24 * (i + 1) ≤ length bytes.now }
    ensures { result ≡ stored_box_at bytes.now i }
{
    KeptBox::from_bytes(part_at(bytes, 24, i))
}

// Whether there is a box i of bytes.
fn is_box_at(bytes: &[u8], i: u32) -> bool
    requires { 24 * (i + 1) ≤ length bytes.now }
    ensures { result ≡ is_some (stored_box_at bytes.now i) }
{
    box_at(bytes, i).is_some()
}

// The box of two points, by the mark.
#[tactic(auto, unfolding(crate::specs::StoredPrimitives::stored_box_from))]
fn stored_box_from(lo: Point32, hi: Point32) -> Option<KeptBox>
    ensures { result ≡ stored_box_from lo hi }
{
    if is_inactive_mark(lo.x()) {
        inactive_box_from(lo, hi)
    } else {
        active_box_from(point_within(lo.wide()), point_within(hi.wide()))
    }
}

// The inactive box of the mark and zeros.
#[tactic(auto, unfolding(crate::specs::StoredPrimitives::inactive_box_from))]
fn inactive_box_from(lo: Point32, hi: Point32) -> Option<KeptBox>
    ensures { result ≡ inactive_box_from lo hi }
{
    if is_zero_but_x(lo) && is_zero(hi) {
        Some(KeptBox::inactive())
    } else {
        None
    }
}

// The active box of two points.
fn active_box_from(lo: Option<Vec3>, hi: Option<Vec3>) -> Option<KeptBox>
    requires lo_short { IfSome lo (IsShort (2 ^ 19)) }
    requires hi_short { IfSome hi (IsShort (2 ^ 19)) }
    ensures { result ≡ active_box_from lo hi }
{
    if let (Some(lo), Some(hi)) = (lo, hi) {
        if is_ordered(lo, hi) {
            Some(KeptBox::active(lo, hi))
        } else {
            None
        }
    } else {
        None
    }
}
