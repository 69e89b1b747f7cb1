ghost use Rattle.std.specs.Prelude.{◌≡◌, ◌<◌, ◌≤◌, ◌^◌, ◌++◌, Some, [], IfOk, OnOk, length};
ghost use Rattle.ray_geometries.specs.Storing.{kind_number};
ghost use Rattle.ray_bottom.specs.Trees.{without_tree};
ghost use Rattle.ray_form.specs.Heads.{element_size};
ghost use Rattle.ray_serial.specs.Meaning.{IsForm, bottom_in};
ghost use Rattle.ray_serial.specs.Written.{long_bytes, form_size, form_bytes, bottom_form, AreOf};

use ray_bottom::Bottom;
use ray_bytes::sizes_of;
use ray_flags::Kind;
use ray_form::{DEVICE, FORM};
use ray_geom::Steps;
use std::alloc::{AllocError as NoMemory, Global};
use std::marker::Brand;

/// The form of a bottom structure. It is a form that stands for the structure's contents, where the
/// flags of its build are flags that there are, which are below 32. (Own: the form;
/// vkCmdCopyAccelerationStructureToMemoryKHR.)
pub fn serialize(alloc: Global, bottom: &Bottom) -> Result<Vec<u8>, NoMemory>
    ensures value { IfOk result (λ bytes. bytes.items ≡ bottom_form (without_tree bottom.now)) }
    ensures form { bottom.now.flags.0 < 32 → IfOk result (λ bytes. IsForm bytes.items) }
    ensures stands { bottom.now.flags.0 < 32
        → IfOk result (λ bytes. bottom_in bytes.items
        ≡ Some (without_tree bottom.now)) }
{
    // The contents are within the limits.
    let _geometries = bottom.geometries();
    bottom_form(alloc, bottom)
}

// The same.
#[tactic(auto, unfolding(crate::specs::Written::bottom_form))]
fn bottom_form(alloc: Global, bottom: &Bottom) -> Result<Vec<u8>, NoMemory>
    ensures { IfOk result (λ bytes. bytes.items ≡ bottom_form (without_tree bottom.now)) }
{
    let mut steps: Steps<Brand> = Steps::zero();
    let payload = bottom.payload(alloc, &mut steps)?;
    let size = sizes_of(bottom.geometries(), bottom.total()).structure;
    form_bytes(alloc, size, &[], payload.as_slice())
}

/// How many bytes `serialize` gives of a bottom structure.
/// (VK_QUERY_TYPE_ACCELERATION_STRUCTURE_SERIALIZATION_SIZE_KHR; the number is our own.)
pub fn serialized_size(bottom: &Bottom) -> u64
    ensures { result ≡ length (bottom_form (without_tree bottom.now)) }
{
    let (geometries, total) = (bottom.geometries(), bottom.total());
    let size = element_size(kind_of_all(bottom));
    72 + 32 * u64::from(geometries) + size * u64::from(total)
}

// The form with a deserialized size, handles and a payload.
#[tactic(auto, unfolding(crate::specs::Written::form_bytes))]
pub(crate) fn form_bytes(
    alloc: Global,
    deserialized: u64,
    handles: &[u64],
    payload: &[u8],
) -> Result<Vec<u8>, NoMemory>
    requires { form_size handles.now payload.now < 2 ^ 64 }
    ensures { IfOk result (λ bytes.
        bytes.items ≡ form_bytes deserialized handles.now payload.now) }
{
    let size = 56 + 8 * handles.len() as u64 + payload.len() as u64;
    let mut bytes = Vec::with_capacity(alloc, size as usize)?;
    bytes.extend_from_slice(&DEVICE)?;
    bytes.extend_from_slice(&FORM)?;
    append_longs(&mut bytes, &[size, deserialized, handles.len() as u64])?;
    append_longs(&mut bytes, handles)?;
    bytes.extend_from_slice(payload)?;
    Ok(bytes)
}

// Numbers of 64 bits.
pub(crate) fn append_longs(bytes: &mut Vec<u8>, numbers: &[u64]) -> Result<(), NoMemory>
    ensures { OnOk result (bytes.new.items ≡ bytes.old.items ++ long_bytes numbers.now) }
{
    for number in numbers {
        bytes.extend_from_slice(&number.to_le_bytes())?;
    }
    Ok(())
}

// The kind of all geometries of a bottom structure; where there are none, any.
fn kind_of_all(bottom: &Bottom) -> Kind
    ensures { AreOf result bottom.now.geometries }
{
    if bottom.geometries() > 0 {
        bottom.kind(0)
    } else {
        Kind::Triangle
    }
}

// The size of an element.
fn element_size(kind: Kind) -> u64
    ensures value { result ≡ element_size (kind_number kind) }
    ensures limits { result ≤ 48 }
{
    match kind {
        Kind::Triangle => 48,
        Kind::Aabb => 24,
    }
}
