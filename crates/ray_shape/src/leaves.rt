ghost use Rattle.std.specs.Prelude.{◌≡◌, IfOk, is_some};
ghost use Rattle.serde_json.specs.View.{view};
ghost use Rattle.ray_json.specs.Fields.{hex_of};
ghost use Rattle.ray_cmd.specs.Words as words;
ghost use Rattle.ray_shape.specs.Reads.{index_type_of, is_form_number, reads_leaf};
ghost use Rattle.ray_json.specs.Fields.{u32_of};

use crate::forms::{is_choice, is_geometry, is_mode, is_op};
use crate::leaf::Leaf;
use ray_bytes::Format;
use ray_cmd::{Asked, CopyMode, ReadForm, StructureKind, Thing};
use ray_flags::{Access, BuildFlags, RayFlags, Stages, Usage};
use ray_json::{ReadFault, read_bool, read_hex, read_u32, read_u64, read_word, read_words};
use serde_json::Value;
use std::alloc::{AllocError as NoMemory, Global};

// Whether a value without parts is as the grammar wants it.
pub(crate) fn is_leaf(alloc: Global, leaf: Leaf, value: &Value) -> Result<bool, NoMemory>
    ensures { IfOk result (λ is. is ≡ reads_leaf leaf (view value.now)) }
{
    match leaf {
        Leaf::Number64 => Ok(read_u64(value).is_ok()),
        Leaf::Number32 => Ok(read_u32(value).is_ok()),
        Leaf::SerializedForm => Ok(is_form(value)),
        Leaf::Truth => Ok(read_bool(value).is_ok()),
        Leaf::Digits => is_hex(alloc, value),
        Leaf::Op => Ok(is_op(value)),
        Leaf::GeometryKind => Ok(is_geometry(value)),
        Leaf::BuildMode => Ok(is_mode(value)),
        Leaf::Choice => Ok(is_choice(value)),
        Leaf::StructureKind => Ok(is_structure_kind(value)),
        Leaf::Thing => Ok(is_thing(value)),
        Leaf::ReadForm => Ok(is_read_form(value)),
        Leaf::CopyMode => Ok(is_copy_mode(value)),
        Leaf::Asked => Ok(is_asked(value)),
        Leaf::Format => Ok(is_format(value)),
        Leaf::IndexType => Ok(is_index_type(value)),
        Leaf::Usage => Ok(is_usage(value)),
        Leaf::BuildFlags => Ok(are_build_flags(value)),
        Leaf::RayFlags => Ok(are_ray_flags(value)),
        Leaf::Stages => Ok(are_stages(value)),
        Leaf::Access => Ok(is_access(value)),
    }
}

// Whether it is the number of a serialized form.
fn is_form(value: &Value) -> bool
    ensures { result ≡ is_form_number (u32_of (view value.now)) }
{
    match read_u32(value) {
        Ok(number) => number == 1 || number == 2,
        Err(_) => false,
    }
}

// Whether it is hexadecimal digits.
fn is_hex(alloc: Global, value: &Value) -> Result<bool, NoMemory>
    ensures { IfOk result (λ is. is ≡ is_some (hex_of (view value.now))) }
{
    match read_hex(alloc, value) {
        Ok(_) => Ok(true),
        Err(ReadFault::Shape) => Ok(false),
        Err(ReadFault::NoMemory) => Err(NoMemory),
    }
}

// Whether it is the word of a kind of structure.
fn is_structure_kind(value: &Value) -> bool
    ensures { result ≡ is_some (words.structure_kind_of (view value.now)) }
{
    let table = [
        ("bottom", StructureKind::Bottom),
        ("top", StructureKind::Top),
    ];
    read_word(&table, value).is_ok()
}

// Whether it is the word of what is destroyed.
fn is_thing(value: &Value) -> bool
    ensures { result ≡ is_some (words.thing_of (view value.now)) }
{
    let table = [("buffer", Thing::Buffer), ("structure", Thing::Structure)];
    read_word(&table, value).is_ok()
}

// Whether it is the word of how bytes are shown.
fn is_read_form(value: &Value) -> bool
    ensures { result ≡ is_some (words.read_form_of (view value.now)) }
{
    let table = [
        ("hex", ReadForm::Hex),
        ("u64", ReadForm::U64),
        ("hits", ReadForm::Hits),
    ];
    read_word(&table, value).is_ok()
}

// Whether it is the word of a mode of a copy.
fn is_copy_mode(value: &Value) -> bool
    ensures { result ≡ is_some (words.copy_mode_of (view value.now)) }
{
    let table = [("clone", CopyMode::Clone), ("compact", CopyMode::Compact)];
    read_word(&table, value).is_ok()
}

// Whether it is the word of which number of a structure is asked.
fn is_asked(value: &Value) -> bool
    ensures { result ≡ is_some (words.asked_of (view value.now)) }
{
    let table = [
        ("compacted", Asked::Compacted),
        ("serialized", Asked::Serialized),
        ("serialized_form_2", Asked::SerializedForm2),
        ("handles", Asked::Handles),
        ("size", Asked::Size),
    ];
    read_word(&table, value).is_ok()
}

// Whether it is the word of a vertex format.
fn is_format(value: &Value) -> bool
    ensures { result ≡ is_some (words.format_of (view value.now)) }
{
    let table = [
        ("s32x3", Format::S32x3),
        ("s32x2", Format::S32x2),
        ("s16x3", Format::S16x3),
    ];
    read_word(&table, value).is_ok()
}

// Whether it is the word of a type of index.
fn is_index_type(value: &Value) -> bool
    ensures { result ≡ is_some (index_type_of (view value.now)) }
{
    let table = [("u16", 2_u8), ("u32", 4)];
    read_word(&table, value).is_ok()
}

// Whether it is a list of words of what a buffer may be used for.
fn is_usage(value: &Value) -> bool
    ensures { result ≡ is_some (words.usage_of (view value.now)) }
{
    read_words::<Usage>(value).is_ok()
}

// Whether it is a list of words of how a structure is built.
fn are_build_flags(value: &Value) -> bool
    ensures { result ≡ is_some (words.build_flags_of (view value.now)) }
{
    read_words::<BuildFlags>(value).is_ok()
}

// Whether it is a list of words of what a ray skips and culls.
fn are_ray_flags(value: &Value) -> bool
    ensures { result ≡ is_some (words.ray_flags_of (view value.now)) }
{
    read_words::<RayFlags>(value).is_ok()
}

// Whether it is a list of words of stages.
fn are_stages(value: &Value) -> bool
    ensures { result ≡ is_some (words.stages_of (view value.now)) }
{
    read_words::<Stages>(value).is_ok()
}

// Whether it is a list of words of accesses.
fn is_access(value: &Value) -> bool
    ensures { result ≡ is_some (words.access_of (view value.now)) }
{
    read_words::<Access>(value).is_ok()
}
