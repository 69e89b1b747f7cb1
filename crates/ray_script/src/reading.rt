ghost use Rattle.serde_json.specs.View.{view};
ghost use Rattle.ray_script.specs.Rules.{GivesRules};

use crate::not_rules::NotRules;
use crate::raw_rule::RawRule;
use crate::rule_reader::RuleReader;
use ray_json::{ReadFault, read_list};
use serde_json::Value;
use std::alloc::Global;

/// The rules that a value spells: a list of objects, each with `do` and the numbers that it gives,
/// and with `num` and `den` exactly where `do` is `at`.
///
/// # Errors
///
/// `Shape` exactly where the value is outside that shape.
pub fn raw_rules(alloc: Global, value: &Value) -> Result<Vec<RawRule>, NotRules>
    ensures { GivesRules result (view value.now) }
{
    match read_list::<RuleReader>(alloc, value) {
        Ok(rules) => Ok(rules.into_vec()),
        Err(ReadFault::Shape) => Err(NotRules::Shape),
        Err(ReadFault::NoMemory) => Err(NotRules::NoMemory),
    }
}
