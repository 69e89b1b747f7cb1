use crate::fields::FromJson;
use ray_json::{ReadFault, read_word};
use serde_json::Value;
use std::alloc::Global;

/// How the bytes of a `read` are shown. Own.
#[derive(Clone, Copy, Debug, PartialEq, Eq)]
pub enum ReadForm {
    /// As hexadecimal digits.
    Hex,
    /// As decimal numbers of 64 bits.
    U64,
    /// As records of hits.
    Hits,
}

impl FromJson for ReadForm {
    ghost use Rattle.ray_cmd.specs.Words.{read_form_of};

    ghost spells = { read_form_of };

    fn from_json(_alloc: Global, value: &Value) -> Result<Self, ReadFault> {
        read_word(
            &[
                ("hex", ReadForm::Hex),
                ("u64", ReadForm::U64),
                ("hits", ReadForm::Hits),
            ],
            value,
        )
    }
}
