ghost use Rattle.std.specs.Prelude.{◌≤◌, IfOk};
ghost use Rattle.serde_json.specs.View.{view};
ghost use Rattle.ray_json.specs.Outcome.{Gives};
ghost use Rattle.ray_pipe.specs.Shapes.{
  four_bits_of,
  script_of,
  scripts_of,
  table_of,
  unrefused,
};
ghost use Rattle.ray_script.specs.Scripts.{refused_at};

use crate::groups::Groups;
use ray_json::{Listed, ReadFault, Reader, member, only_members, read_list, read_u32};
use ray_script::{BadScript, NotRules, RawRule, Script, raw_rules, script_of};
use serde_json::Value;
use std::alloc::Global;

// The greatest offset, and the greatest stride.
const MOST_OFFSET: u32 = 15;

// The greatest number of scripts of a table.
const MOST_SCRIPTS: usize = 4096;

// The table that a value spells.
#[tactic(auto, unfolding(crate::specs::Shapes::table_of))]
pub(crate) fn read_table(alloc: Global, value: &Value) -> Result<Groups, ReadFault>
    ensures { Gives result (table_of (view value.now)) }
{
    only_members(value, &["offset", "stride", "scripts"])?;
    let offset = four_bits(member(value, "offset")?)?;
    let stride = four_bits(member(value, "stride")?)?;
    let scripts = scripts(alloc, member(value, "scripts")?)?;
    Ok(Groups::new(offset, stride, scripts.into_vec()))
}

// The offset or stride that a value spells.
fn four_bits(value: &Value) -> Result<u8, ReadFault>
    ensures value { Gives result (four_bits_of (view value.now)) }
    ensures few { IfOk result (λ n. n ≤ 15) }
{
    let number = read_u32(value)?;
    if number <= MOST_OFFSET {
        Ok(number as u8)
    } else {
        Err(ReadFault::Shape)
    }
}

// The scripts that a value spells, at most 4,096.
fn scripts(alloc: Global, value: &Value) -> Result<Listed<Script>, ReadFault>
    ensures { Gives result (scripts_of (view value.now)) }
{
    let scripts = read_list::<ScriptReader>(alloc, value)?;
    if scripts.as_slice().len() <= MOST_SCRIPTS {
        Ok(scripts)
    } else {
        Err(ReadFault::Shape)
    }
}

// Reads a script.
struct ScriptReader;

impl Reader for ScriptReader {
    type Item = Script;

    ghost use Rattle.ray_pipe.specs.Shapes.{script_of};

    ghost spells = { script_of };

    fn read(alloc: Global, value: &Value) -> Result<Script, ReadFault> {
        read_script(alloc, value)
    }
}

// The script that a value spells.
fn read_script(alloc: Global, value: &Value) -> Result<Script, ReadFault>
    ensures { Gives result (script_of (view value.now)) }
{
    match raw_rules(alloc, value) {
        Ok(rules) => accepted(alloc, &rules),
        Err(NotRules::Shape) => Err(ReadFault::Shape),
        Err(NotRules::NoMemory) => Err(ReadFault::NoMemory),
    }
}

// The script of these rules, where none is refused.
fn accepted(alloc: Global, rules: &[RawRule]) -> Result<Script, ReadFault>
    ensures { Gives result (unrefused rules.now (refused_at rules.now)) }
{
    match script_of(alloc, rules) {
        Ok(script) => Ok(script),
        Err(BadScript::At(_)) => Err(ReadFault::Shape),
        Err(BadScript::NoMemory) => Err(ReadFault::NoMemory),
    }
}
