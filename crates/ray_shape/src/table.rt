ghost use Rattle.std.specs.Prelude.{◌≡◌, map};
ghost use Rattle.ray_shape.specs.Table.{member_of, members_of};

use crate::leaf::Leaf;
use crate::shape::{Field, Form, Item, Kind, Need, Shape};

// Rows of a form: for each member whether it has to be there, its name and what it holds.
macro_rules! rows {
    ($($need:ident $name:literal $shape:expr;)*) => {
        &[$(Field { name: $name, need: Need::$need, shape: $shape }),*]
    };
}

// A whole number from 0 to 2^32 - 1.
const NUMBER32: Shape = Shape::Leaf(Leaf::Number32);

// A whole number from 0 to 2^64 - 1.
const NUMBER64: Shape = Shape::Leaf(Leaf::Number64);

// The members of a form.
pub(crate) fn fields(form: Form) -> &'static [Field]
    ensures { map member_of result.now ≡ members_of form }
{
    match form {
        Form::Spot => rows![
            Must "buffer" NUMBER32;
            Must "offset" NUMBER64;
        ],
        Form::Stretch => rows![
            Must "buffer" NUMBER32;
            Must "offset" NUMBER64;
            Must "size" NUMBER64;
        ],
        Form::Region => rows![
            Must "src_offset" NUMBER64;
            Must "dst_offset" NUMBER64;
            Must "size" NUMBER64;
        ],
        Form::Index => rows![
            Must "type" Shape::Leaf(Leaf::IndexType);
            Must "buffer" NUMBER32;
            Must "offset" NUMBER64;
        ],
        Form::BuildInfo => rows![
            Tag "mode" Shape::Leaf(Leaf::BuildMode);
            Must "dst" NUMBER32;
            Never "src" NUMBER32;
            Must "flags" Shape::Leaf(Leaf::BuildFlags);
            Must "scratch" Shape::Object(Kind::Spot);
            Must "geometries" Shape::List(Item::Geometry);
            May "uses" Shape::List(Item::Number);
        ],
        Form::UpdateInfo => rows![
            Tag "mode" Shape::Leaf(Leaf::BuildMode);
            Must "dst" NUMBER32;
            Must "src" NUMBER32;
            Must "flags" Shape::Leaf(Leaf::BuildFlags);
            Must "scratch" Shape::Object(Kind::Spot);
            Must "geometries" Shape::List(Item::Geometry);
            May "uses" Shape::List(Item::Number);
        ],
        Form::Triangles => rows![
            Tag "kind" Shape::Leaf(Leaf::GeometryKind);
            Must "opaque" Shape::Leaf(Leaf::Truth);
            Must "format" Shape::Leaf(Leaf::Format);
            Must "vertex" Shape::Object(Kind::Spot);
            Must "stride" NUMBER32;
            Must "max_vertex" NUMBER32;
            May "index" Shape::Object(Kind::Index);
            May "transform" Shape::Object(Kind::Spot);
            Must "count" NUMBER32;
            Must "primitive_offset" NUMBER32;
            Must "first_vertex" NUMBER32;
            Must "transform_offset" NUMBER32;
        ],
        Form::Boxes => rows![
            Tag "kind" Shape::Leaf(Leaf::GeometryKind);
            Must "opaque" Shape::Leaf(Leaf::Truth);
            Must "data" Shape::Object(Kind::Spot);
            Must "stride" NUMBER32;
            Must "count" NUMBER32;
            Must "primitive_offset" NUMBER32;
        ],
        Form::Instances => rows![
            Tag "kind" Shape::Leaf(Leaf::GeometryKind);
            Must "data" Shape::Object(Kind::Spot);
            Must "count" NUMBER32;
            Must "primitive_offset" NUMBER32;
        ],
        Form::Rule => rows![
            May "ray" NUMBER64;
            May "instance" NUMBER64;
            May "geometry" NUMBER64;
            May "primitive" NUMBER64;
            May "nth" NUMBER64;
            Tag "do" Shape::Leaf(Leaf::Choice);
        ],
        Form::RuleAt => rows![
            May "ray" NUMBER64;
            May "instance" NUMBER64;
            May "geometry" NUMBER64;
            May "primitive" NUMBER64;
            May "nth" NUMBER64;
            Tag "do" Shape::Leaf(Leaf::Choice);
            Must "num" NUMBER64;
            Must "den" NUMBER64;
        ],
        Form::Buffer => rows![
            Tag "op" Shape::Leaf(Leaf::Op);
            Must "id" NUMBER32;
            Must "size" NUMBER64;
            Must "usage" Shape::Leaf(Leaf::Usage);
            May "data" Shape::Leaf(Leaf::Digits);
        ],
        Form::Structure => rows![
            Tag "op" Shape::Leaf(Leaf::Op);
            Must "id" NUMBER32;
            Must "kind" Shape::Leaf(Leaf::StructureKind);
            Must "buffer" NUMBER32;
            Must "offset" NUMBER64;
            Must "size" NUMBER64;
        ],
        Form::Destroy => rows![
            Tag "op" Shape::Leaf(Leaf::Op);
            Must "what" Shape::Leaf(Leaf::Thing);
            Must "id" NUMBER32;
        ],
        Form::Sizes => rows![
            Tag "op" Shape::Leaf(Leaf::Op);
            Must "kind" Shape::Leaf(Leaf::StructureKind);
            Must "counts" Shape::List(Item::Number);
        ],
        Form::Begin => rows![
            Tag "op" Shape::Leaf(Leaf::Op);
        ],
        Form::End => rows![
            Tag "op" Shape::Leaf(Leaf::Op);
        ],
        Form::Submit => rows![
            Tag "op" Shape::Leaf(Leaf::Op);
        ],
        Form::Wait => rows![
            Tag "op" Shape::Leaf(Leaf::Op);
        ],
        Form::Read => rows![
            Tag "op" Shape::Leaf(Leaf::Op);
            Must "buffer" NUMBER32;
            Must "offset" NUMBER64;
            Must "size" NUMBER64;
            Must "form" Shape::Leaf(Leaf::ReadForm);
        ],
        Form::Update => rows![
            Tag "op" Shape::Leaf(Leaf::Op);
            Must "buffer" NUMBER32;
            Must "offset" NUMBER64;
            Must "data" Shape::Leaf(Leaf::Digits);
        ],
        Form::Fill => rows![
            Tag "op" Shape::Leaf(Leaf::Op);
            Must "buffer" NUMBER32;
            Must "offset" NUMBER64;
            Must "size" NUMBER64;
            Must "value" NUMBER32;
        ],
        Form::Copy => rows![
            Tag "op" Shape::Leaf(Leaf::Op);
            Must "src" NUMBER32;
            Must "dst" NUMBER32;
            Must "regions" Shape::List(Item::Region);
        ],
        Form::Barrier => rows![
            Tag "op" Shape::Leaf(Leaf::Op);
            Must "src_stages" Shape::Leaf(Leaf::Stages);
            Must "src_access" Shape::Leaf(Leaf::Access);
            Must "dst_stages" Shape::Leaf(Leaf::Stages);
            Must "dst_access" Shape::Leaf(Leaf::Access);
            May "buffers" Shape::List(Item::Number);
        ],
        Form::Build => rows![
            Tag "op" Shape::Leaf(Leaf::Op);
            Must "infos" Shape::List(Item::Info);
        ],
        Form::CopyStructure => rows![
            Tag "op" Shape::Leaf(Leaf::Op);
            Must "mode" Shape::Leaf(Leaf::CopyMode);
            Must "src" NUMBER32;
            Must "dst" NUMBER32;
        ],
        Form::Serialize => rows![
            Tag "op" Shape::Leaf(Leaf::Op);
            Must "src" NUMBER32;
            Must "dst" Shape::Object(Kind::Stretch);
            May "form" Shape::Leaf(Leaf::SerializedForm);
        ],
        Form::Deserialize => rows![
            Tag "op" Shape::Leaf(Leaf::Op);
            Must "src" Shape::Object(Kind::Stretch);
            Must "dst" NUMBER32;
            May "uses" Shape::List(Item::Number);
        ],
        Form::Property => rows![
            Tag "op" Shape::Leaf(Leaf::Op);
            Must "what" Shape::Leaf(Leaf::Asked);
            Must "structures" Shape::List(Item::Number);
            Must "dst" Shape::Object(Kind::Spot);
        ],
        Form::Trace => rows![
            Tag "op" Shape::Leaf(Leaf::Op);
            Must "top" NUMBER32;
            Must "rays" Shape::Object(Kind::Spot);
            Must "count" NUMBER32;
            Must "hits" Shape::Object(Kind::Spot);
            Must "flags" Shape::Leaf(Leaf::RayFlags);
            Must "mask" NUMBER32;
            Must "script" Shape::List(Item::Rule);
        ],
    }
}
