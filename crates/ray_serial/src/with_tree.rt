//! Form 2 of a bottom structure, which carries a tree.
ghost use Rattle.std.specs.Prelude.{◌≡◌, ◌<◌, ◌^◌, ◌++◌, Some, IfOk, length};
ghost use Rattle.ray_bottom.specs.Trees.{without_tree, items_of};
ghost use Rattle.ray_stated.specs.Stated.{stated_tree};
ghost use Rattle.ray_tree_part.specs.TreeParts.{tree_bytes, IsReadAgain};
ghost use Rattle.ray_serial.specs.Meaning.{IsForm, bottom_in, tree_in_form};
ghost use Rattle.ray_serial.specs.Written.{form_2_size, form_2_bytes, bottom_form_2};
ghost use Rattle.ray_serial.specs.WrittenAgain.{IsWrittenAgain};

use crate::writing::{append_longs, serialized_size};
use ray_bottom::Bottom;
use ray_bytes::sizes_of;
use ray_form::{DEVICE, FORM_2};
use ray_geom::Steps;
use ray_stated::build_stated;
use ray_tree_part::{append_tree, stated_size};
use std::alloc::{AllocError as NoMemory, Global};
use std::marker::Brand;

/// Form 2 of a bottom structure: the form of its contents with the stated tree over its primitives,
/// which is a function of their boxes, whatever tree the structure has. It is a form that stands
/// for the contents and carries that tree, where the flags of its build are flags that there are,
/// which are below 32. The form is then opened, and the structure that `to_bottom` makes of it is
/// written in form 2 as the same bytes again.
/// (Own: the form; vkCmdCopyAccelerationStructureToMemoryKHR.)
pub fn serialize_form_2(alloc: Global, bottom: &Bottom) -> Result<Vec<u8>, NoMemory>
    ensures value { IfOk result (λ bytes. bytes.items ≡ bottom_form_2 (without_tree bottom.now)) }
    ensures form { bottom.now.flags.0 < 32 → IfOk result (λ bytes. IsForm bytes.items) }
    ensures stands { bottom.now.flags.0 < 32
        → IfOk result (λ bytes. bottom_in bytes.items ≡ Some (without_tree bottom.now)) }
    ensures tree { bottom.now.flags.0 < 32 → IfOk result (λ bytes. tree_in_form bytes.items
        ≡ Some (stated_tree (items_of bottom.now.geometries))) }
    ensures again { bottom.now.flags.0 < 32
        → IfOk result (λ bytes. IsWrittenAgain bytes.items) }
{
    // The contents are within the limits.
    let _geometries = bottom.geometries();
    bottom_form_2(alloc, bottom)
}

// The same.
#[tactic(auto, unfolding(crate::specs::Written::bottom_form_2))]
fn bottom_form_2(alloc: Global, bottom: &Bottom) -> Result<Vec<u8>, NoMemory>
    ensures value { IfOk result (λ bytes. bytes.items ≡ bottom_form_2 (without_tree bottom.now)) }
    ensures again { IfOk result (λ _. IsReadAgain (stated_tree (items_of bottom.now.geometries))) }
{
    let part = stated_part(alloc, bottom)?;
    let mut steps: Steps<Brand> = Steps::zero();
    let payload = bottom.payload(alloc, &mut steps)?;
    let size = sizes_of(bottom.geometries(), bottom.total()).structure;
    form_2_bytes(alloc, size, payload.as_slice(), part.as_slice())
}

// The tree part of the stated tree over its primitives.
fn stated_part(alloc: Global, bottom: &Bottom) -> Result<Vec<u8>, NoMemory>
    ensures value { IfOk result (λ part. part.items
        ≡ tree_bytes (stated_tree (items_of bottom.now.geometries))) }
    ensures again { IfOk result (λ _. IsReadAgain (stated_tree (items_of bottom.now.geometries))) }
{
    let mut steps: Steps<Brand> = Steps::zero();
    let items = bottom.item_boxes(alloc, &mut steps)?;
    let tree = build_stated(alloc, &items)?;
    let mut part = Vec::new(alloc);
    append_tree(alloc, &mut part, &tree)?;
    Ok(part)
}

/// How many bytes `serialize_form_2` gives of a bottom structure. It takes no memory.
/// (VK_QUERY_TYPE_ACCELERATION_STRUCTURE_SERIALIZATION_SIZE_KHR; the number is our own.)
pub fn serialized_size_form_2(bottom: &Bottom) -> u64
    ensures { result ≡ length (bottom_form_2 (without_tree bottom.now)) }
{
    let _limits = bottom.total();
    serialized_size(bottom) + stated_size(bottom.active())
}

// Form 2 with a deserialized size, a payload and a tree part.
#[tactic(auto, unfolding(crate::specs::Written::form_2_bytes))]
fn form_2_bytes(
    alloc: Global,
    deserialized: u64,
    payload: &[u8],
    part: &[u8],
) -> Result<Vec<u8>, NoMemory>
    requires { form_2_size payload.now part.now < 2 ^ 64 }
    ensures { IfOk result (λ bytes.
        bytes.items ≡ form_2_bytes deserialized payload.now part.now) }
{
    let size = 56 + (payload.len() as u64 + part.len() as u64);
    let mut bytes = Vec::with_capacity(alloc, size as usize)?;
    bytes.extend_from_slice(&DEVICE)?;
    bytes.extend_from_slice(&FORM_2)?;
    append_longs(&mut bytes, &[size, deserialized, 0])?;
    bytes.extend_from_slice(payload)?;
    bytes.extend_from_slice(part)?;
    Ok(bytes)
}
