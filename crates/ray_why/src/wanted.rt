use ray_shape::{Item, Kind, Leaf, Shape, Wanted};

// What the grammar wants, in words.
pub(crate) fn wanted_words(wanted: Wanted) -> &'static str {
    match wanted {
        Wanted::Shape(shape) => shape_words(shape),
        Wanted::List(item) => list_words(item),
        Wanted::Object(kind) => object_words(kind),
        Wanted::Members(_) => "an object with no other member",
        Wanted::Nothing => "no member of this name",
    }
}

// A shape in words.
fn shape_words(shape: Shape) -> &'static str {
    match shape {
        Shape::Leaf(leaf) => leaf_words(leaf),
        Shape::List(item) => list_words(item),
        Shape::Object(kind) => object_words(kind),
    }
}

// A list in words.
fn list_words(item: Item) -> &'static str {
    match item {
        Item::Number => "a list of whole numbers from 0 to 4294967295",
        Item::Region => "a list of regions",
        Item::Info => "a list of infos",
        Item::Geometry => "a list of geometries",
        Item::Rule => "a list of rules",
    }
}

// An object in words.
fn object_words(kind: Kind) -> &'static str {
    match kind {
        Kind::Spot => "an object with buffer and offset",
        Kind::Stretch => "an object with buffer, offset and size",
        Kind::Region => "an object with src_offset, dst_offset and size",
        Kind::Index => "an object with type, buffer and offset",
        Kind::Info => "an info: an object with mode",
        Kind::Geometry => "a geometry: an object with kind",
        Kind::Rule => "a rule: an object with do",
        Kind::Command => "a command: an object with op",
    }
}

// A value without parts in words.
fn leaf_words(leaf: Leaf) -> &'static str {
    match leaf {
        Leaf::Number64 => "a whole number from 0 to 18446744073709551615",
        Leaf::Number32 => "a whole number from 0 to 4294967295",
        Leaf::SerializedForm => "1 or 2",
        Leaf::Truth => "true or false",
        Leaf::Digits => "hexadecimal digits, two a byte",
        Leaf::Op => {
            "one of buffer, structure, destroy, sizes, begin, end, submit, wait, read, \
             update, fill, copy, barrier, build, copy_structure, serialize, deserialize, \
             property, trace"
        }
        Leaf::GeometryKind => "one of triangles, boxes, instances",
        Leaf::BuildMode => "one of build, update",
        Leaf::Choice => { "one of ignore, confirm, entry, exit, at, terminate, confirm_terminate" }
        Leaf::StructureKind => "one of bottom, top",
        Leaf::Thing => "one of buffer, structure",
        Leaf::ReadForm => "one of hex, u64, hits",
        Leaf::CopyMode => "one of clone, compact",
        Leaf::Asked => "one of compacted, serialized, serialized_form_2, handles, size",
        Leaf::Format => "one of s32x3, s32x2, s16x3",
        Leaf::IndexType => "one of u16, u32",
        Leaf::Usage => {
            "a list of input, storage, transfer_src, transfer_dst, scratch, structure"
        }
        Leaf::BuildFlags => {
            "a list of allow_update, allow_compaction, prefer_fast_trace, \
             prefer_fast_build, low_memory"
        }
        Leaf::RayFlags => {
            "a list of opaque, no_opaque, terminate_on_first_hit, \
             skip_closest_hit_shader, cull_back_facing, cull_front_facing, cull_opaque, \
             cull_no_opaque, skip_triangles, skip_aabbs"
        }
        Leaf::Stages => "a list of transfer, build, structure_copy, compute, host, all",
        Leaf::Access => {
            "a list of transfer_read, transfer_write, shader_read, shader_write, \
             structure_read, structure_write, host_read, host_write, memory_read, \
             memory_write"
        }
    }
}
