ghost use Rattle.std.specs.Prelude.{◌≡◌, ◌^◌, IfSome, IfOk, All, length, IsTrue, option_copied};
ghost use Rattle.ray_geom.specs.Vector.{IsShort};
ghost use Rattle.ray_geom.specs.Boxes.{IsBelow};
ghost use Rattle.ray_primitives.specs.Primitives.{IsAabb};
ghost use Rattle.ray_primitives.specs.Outcomes.{Gives};
ghost use Rattle.ray_primitives.specs.Updates.{old_at, box_after};
ghost use Rattle.ray_primitives.specs.BoxReading.{box_words, is_ordered, boxed, box_from, box_read};
ghost use Rattle.ray_primitives.specs.BoxReading.{ordered_box, updated_box, box_element, boxes_read};

use crate::box_info::BoxInfo;
use crate::build_fault::BuildFault;
use crate::kept_box::KeptBox;
use ray_bytes::{BoxView, DataFault, DataRule, is_inactive_mark};
use ray_contents::{Elements, point_within};
use ray_geom::{Point32, Vec3};
use std::alloc::Global;

/// The boxes of a geometry, as an update of those of an old one where there is one. Data comes
/// exactly where one of X2, X4 and X9 is broken, and is the first: by element, and for one element
/// the least. (VkAabbPositionsKHR; own: the rules.)
pub fn read_boxes(
    alloc: Global,
    info: &BoxInfo,
    boxes: BoxView<'_>,
    olds: Option<&[KeptBox]>,
    geometry: u32,
) -> Result<Elements<KeptBox>, BuildFault>
    ensures value { Gives (boxes_read info.now boxes.entry (option_copied olds.entry) geometry)
        result }
    ensures count { IfOk result (λ kept. length kept ≡ info.now.count) }
    ensures limits { IfOk result (All IsAabb) }
{
    read(alloc, info, boxes, olds, geometry)
}

// The boxes of a geometry.
#[tactic(auto, unfolding(crate::specs::BoxReading::boxes_read), using(ray_contents::proofs::Gathered::gathering))]
fn read(
    alloc: Global,
    info: &BoxInfo,
    boxes: BoxView<'_>,
    olds: Option<&[KeptBox]>,
    geometry: u32,
) -> Result<Elements<KeptBox>, BuildFault>
    ensures { Gives (boxes_read info.now boxes.entry (option_copied olds.entry) geometry) result }
{
    let mut kept = Vec::with_capacity(alloc, info.count as usize)?;
    for i in 0..info.count {
        kept.push(element(&boxes, olds, geometry, i)?)?;
    }
    Ok(Elements::new(kept))
}

// Box i, or the least rule that it breaks, with its place.
#[tactic(auto, unfolding(crate::specs::BoxReading::box_element))]
fn element(
    boxes: &BoxView<'_>,
    olds: Option<&[KeptBox]>,
    geometry: u32,
    i: u32,
) -> Result<KeptBox, DataFault>
    ensures { result ≡ box_element boxes.now (option_copied olds.entry) geometry i }
{
    match updated(old(olds, i), made(words(boxes, i))) {
        Ok(b) => Ok(b),
        Err(rule) => Err(DataFault {
            rule,
            geometry,
            element: Some(i),
        }),
    }
}

// The old box of this number.
fn old<'a>(olds: Option<&'a [KeptBox]>, i: u32) -> Option<&'a KeptBox>
    ensures { option_copied result ≡ old_at (option_copied olds.entry) i }
{
    match olds {
        Some(olds) => olds.get(i as usize),
        None => None,
    }
}

// A box that is read, as an update of the old one.
fn updated(old: Option<&KeptBox>, read: Result<KeptBox, DataRule>) -> Result<KeptBox, DataRule>
    ensures { result ≡ updated_box (option_copied old.entry) read }
{
    match read {
        Ok(b) => after(old, b),
        Err(rule) => Err(rule),
    }
}

// A box, as an update of the old one.
fn after(old: Option<&KeptBox>, b: KeptBox) -> Result<KeptBox, DataRule>
    ensures { result ≡ box_after (option_copied old.entry) b }
{
    match old {
        Some(old) => {
            if old.is_active() == b.is_active() {
                Ok(b)
            } else {
                Err(DataRule::X9)
            }
        }
        None => Ok(b),
    }
}

// The six numbers of box i of the buffer.
#[tactic(auto, unfolding(crate::specs::BoxReading::box_words))]
fn words(boxes: &BoxView<'_>, i: u32) -> [i32; 6]
    ensures { result ≡ box_words boxes.now i }
{
    boxes.get(u64::from(i)).unwrap_or([0; 6])
}

// The box of six numbers.
fn made(words: [i32; 6]) -> Result<KeptBox, DataRule>
    ensures { result ≡ box_read words }
{
    let [lo_x, lo_y, lo_z, hi_x, hi_y, hi_z] = words;
    from_corners(
        Point32::from_words([lo_x, lo_y, lo_z]),
        Point32::from_words([hi_x, hi_y, hi_z]),
    )
}

// The box of two points.
#[tactic(auto, unfolding(crate::specs::BoxReading::box_from))]
fn from_corners(lo: Point32, hi: Point32) -> Result<KeptBox, DataRule>
    ensures { result ≡ box_from lo hi }
{
    if is_inactive_mark(lo.x()) {
        Ok(KeptBox::inactive())
    } else {
        active(point_within(lo.wide()), point_within(hi.wide()))
    }
}

// The active box of two points.
fn active(lo: Option<Vec3>, hi: Option<Vec3>) -> Result<KeptBox, DataRule>
    requires lo_short { IfSome lo (IsShort (2 ^ 19)) }
    requires hi_short { IfSome hi (IsShort (2 ^ 19)) }
    ensures { result ≡ boxed lo hi }
{
    if let (Some(lo), Some(hi)) = (lo, hi) {
        ordered(lo, hi)
    } else {
        Err(DataRule::X2)
    }
}

// The active box of two points within the limits.
fn ordered(lo: Vec3, hi: Vec3) -> Result<KeptBox, DataRule>
    requires lo_short { IsShort (2 ^ 19) lo }
    requires hi_short { IsShort (2 ^ 19) hi }
    ensures { result ≡ ordered_box lo hi }
{
    if is_ordered(lo, hi) {
        Ok(KeptBox::active(lo, hi))
    } else {
        Err(DataRule::X4)
    }
}

// Whether no coordinate of the second point is below that of the first.
#[tactic(auto, unfolding(crate::specs::BoxReading::is_ordered))]
pub(crate) fn is_ordered(lo: Vec3, hi: Vec3) -> bool
    ensures value { result ≡ is_ordered lo hi }
    ensures below { IsTrue result → IsBelow lo hi }
{
    !(hi.x < lo.x) && !(hi.y < lo.y) && !(hi.z < lo.z)
}
