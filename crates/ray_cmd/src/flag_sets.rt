use crate::fields::FromJson;
use ray_bytes::Format;
use ray_flags::{Access, BuildFlags, RayFlags, Stages, Usage};
use ray_json::{ReadFault, read_word, read_words};
use serde_json::Value;
use std::alloc::Global;

impl FromJson for Usage {
    ghost use Rattle.ray_cmd.specs.Words.{usage_of};

    ghost spells = { usage_of };

    fn from_json(_alloc: Global, value: &Value) -> Result<Self, ReadFault> {
        read_words(value)
    }
}

impl FromJson for BuildFlags {
    ghost use Rattle.ray_cmd.specs.Words.{build_flags_of};

    ghost spells = { build_flags_of };

    fn from_json(_alloc: Global, value: &Value) -> Result<Self, ReadFault> {
        read_words(value)
    }
}

impl FromJson for RayFlags {
    ghost use Rattle.ray_cmd.specs.Words.{ray_flags_of};

    ghost spells = { ray_flags_of };

    fn from_json(_alloc: Global, value: &Value) -> Result<Self, ReadFault> {
        read_words(value)
    }
}

impl FromJson for Stages {
    ghost use Rattle.ray_cmd.specs.Words.{stages_of};

    ghost spells = { stages_of };

    fn from_json(_alloc: Global, value: &Value) -> Result<Self, ReadFault> {
        read_words(value)
    }
}

impl FromJson for Access {
    ghost use Rattle.ray_cmd.specs.Words.{access_of};

    ghost spells = { access_of };

    fn from_json(_alloc: Global, value: &Value) -> Result<Self, ReadFault> {
        read_words(value)
    }
}

impl FromJson for Format {
    ghost use Rattle.ray_cmd.specs.Words.{format_of};

    ghost spells = { format_of };

    fn from_json(_alloc: Global, value: &Value) -> Result<Self, ReadFault> {
        read_word(
            &[
                ("s32x3", Format::S32x3),
                ("s32x2", Format::S32x2),
                ("s16x3", Format::S16x3),
            ],
            value,
        )
    }
}
