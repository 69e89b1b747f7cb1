ghost use Rattle.std.specs.Prelude.{Option};
ghost use Rattle.serde_json.specs.Data.{Data};
ghost use Rattle.serde_json.specs.View.{view};
ghost use Rattle.ray_json.specs.Outcome.{Gives};
ghost use Rattle.ray_json.specs.Fields.{at, optional_at, listed_at};

use ray_json::{
    Bytes, Listed, ReadFault, Reader, member, optional_member, read_bool, read_hex, read_list,
    read_u32, read_u64,
};
use ray_script::{RawRule, RuleReader};
use serde_json::Value;
use std::alloc::Global;
use std::marker::PhantomData;

// A type that a member of a command is read as.
pub(crate) trait FromJson: Sized + Drop {
    // The type's grammar: what a value spells, if it spells one.
    ghost spells: { Data → Option Self };

    // What the value spells.
    fn from_json(alloc: Global, value: &Value) -> Result<Self, ReadFault>
        ensures { Gives result (spells (view value.now)) };
}

// The member of this name.
pub(crate) fn at<T: FromJson>(alloc: Global, object: &Value, name: &str) -> Result<T, ReadFault>
    ensures { Gives result (at T.spells name.now (view object.now)) }
{
    let value = member(object, name)?;
    T::from_json(alloc, value)
}

// The member of this name, where it is there.
pub(crate) fn optional_at<T: FromJson>(
    alloc: Global,
    object: &Value,
    name: &str,
) -> Result<Option<T>, ReadFault>
    ensures { Gives result (optional_at T.spells name.now (view object.now)) }
{
    match optional_member(object, name) {
        Some(value) => Ok(Some(T::from_json(alloc, value)?)),
        None => Ok(None),
    }
}

// The list of this name, which is empty where it isn't there.
pub(crate) fn listed_at<T: FromJson>(
    alloc: Global,
    object: &Value,
    name: &str,
) -> Result<Listed<T>, ReadFault>
    ensures { Gives result (listed_at T.spells name.now (view object.now)) }
{
    match optional_member(object, name) {
        Some(value) => Listed::from_json(alloc, value),
        None => Ok(Listed::new(alloc)),
    }
}

// Reads the items of a list of `T`.
struct Each<T> {
    item: PhantomData<T>,
}

impl<T: FromJson> Reader for Each<T> {
    type Item = T;

    ghost spells = { T.FromJson.spells };

    fn read(alloc: Global, value: &Value) -> Result<T, ReadFault> {
        T::from_json(alloc, value)
    }
}

impl<T: FromJson> FromJson for Listed<T> {
    ghost use Rattle.ray_json.specs.Fields.{list_of};

    ghost spells = { list_of T.FromJson.spells };

    fn from_json(alloc: Global, value: &Value) -> Result<Self, ReadFault> {
        read_list::<Each<T>>(alloc, value)
    }
}

impl FromJson for u64 {
    ghost use Rattle.ray_json.specs.Fields.{u64_of};

    ghost spells = { u64_of };

    fn from_json(_alloc: Global, value: &Value) -> Result<Self, ReadFault> {
        read_u64(value)
    }
}

impl FromJson for u32 {
    ghost use Rattle.ray_json.specs.Fields.{u32_of};

    ghost spells = { u32_of };

    fn from_json(_alloc: Global, value: &Value) -> Result<Self, ReadFault> {
        read_u32(value)
    }
}

impl FromJson for bool {
    ghost use Rattle.ray_json.specs.Fields.{bool_of};

    ghost spells = { bool_of };

    fn from_json(_alloc: Global, value: &Value) -> Result<Self, ReadFault> {
        read_bool(value)
    }
}

impl FromJson for Bytes {
    ghost use Rattle.ray_json.specs.Fields.{hex_of};

    ghost spells = { hex_of };

    fn from_json(alloc: Global, value: &Value) -> Result<Self, ReadFault> {
        read_hex(alloc, value)
    }
}

impl FromJson for RawRule {
    ghost use Rattle.ray_script.specs.Rules.{rule_of};

    ghost spells = { rule_of };

    fn from_json(alloc: Global, value: &Value) -> Result<Self, ReadFault> {
        RuleReader::read(alloc, value)
    }
}
