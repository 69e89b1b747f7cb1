use crate::fields::FromJson;
use ray_json::{ReadFault, read_word};
use serde_json::Value;
use std::alloc::Global;

// The word that says which kind of geometry follows.
#[derive(Clone, Copy)]
pub(crate) enum GeometryKind {
    Triangles,
    Boxes,
    Instances,
}

impl FromJson for GeometryKind {
    ghost use Rattle.ray_cmd.specs.Words.{geometry_kind_of};

    ghost spells = { geometry_kind_of };

    fn from_json(_alloc: Global, value: &Value) -> Result<Self, ReadFault> {
        read_word(
            &[
                ("triangles", GeometryKind::Triangles),
                ("boxes", GeometryKind::Boxes),
                ("instances", GeometryKind::Instances),
            ],
            value,
        )
    }
}
