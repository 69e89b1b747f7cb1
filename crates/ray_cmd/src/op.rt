use crate::fields::FromJson;
use ray_json::{ReadFault, read_word};
use serde_json::Value;
use std::alloc::Global;

// The word that says which command follows.
#[derive(Clone, Copy)]
pub(crate) enum Op {
    Buffer,
    Structure,
    Destroy,
    Sizes,
    Begin,
    End,
    Submit,
    Wait,
    Read,
    Update,
    Fill,
    Copy,
    Build,
    CopyStructure,
    Serialize,
    Deserialize,
    Property,
    Barrier,
    Trace,
}

impl FromJson for Op {
    ghost use Rattle.ray_cmd.specs.Grammar.{op_of};

    ghost spells = { op_of };

    fn from_json(_alloc: Global, value: &Value) -> Result<Self, ReadFault> {
        read_word(
            &[
                ("buffer", Op::Buffer),
                ("structure", Op::Structure),
                ("destroy", Op::Destroy),
                ("sizes", Op::Sizes),
                ("begin", Op::Begin),
                ("end", Op::End),
                ("submit", Op::Submit),
                ("wait", Op::Wait),
                ("read", Op::Read),
                ("update", Op::Update),
                ("fill", Op::Fill),
                ("copy", Op::Copy),
                ("build", Op::Build),
                ("copy_structure", Op::CopyStructure),
                ("serialize", Op::Serialize),
                ("deserialize", Op::Deserialize),
                ("property", Op::Property),
                ("barrier", Op::Barrier),
                ("trace", Op::Trace),
            ],
            value,
        )
    }
}
