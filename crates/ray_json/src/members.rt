ghost use Rattle.std.specs.Prelude.{◌≡◌, ◌≢◌, map, option_map, string_bytes};
ghost use Rattle.serde_json.specs.View.{view};
ghost use Rattle.serde_json.specs.Find.{get};
ghost use Rattle.ray_json.specs.Outcome.{Gives, GivesBy};
ghost use Rattle.std.specs.List.{list_any, list_all};
ghost use Rattle.std.specs.Str.{bytes_eq};
ghost use Rattle.std.specs.BTreeMap.{keys};
ghost use Rattle.ray_json.specs.Fields.{only};

use crate::fault::ReadFault;
use serde_json::{Map, Value};

/// That the value is an object with no member but these. Which of them are there is for the readers
/// of each to say.
#[tactic(auto, using(crate::proofs::Named::named))]
pub fn only_members(value: &Value, names: &[&str]) -> Result<(), ReadFault>
    ensures value { Gives result (only (map (λ name. name.now) names.now) (view value.now)) }
    ensures memory { result ≢ Err ReadFault.NoMemory }
{
    match value.as_object() {
        Some(members) if are_named(members, names) => Ok(()),
        _ => Err(ReadFault::Shape),
    }
}

/// The member of this name, which has to be there.
pub fn member<'a>(value: &'a Value, name: &str) -> Result<&'a Value, ReadFault>
    ensures value { GivesBy (λ v. view v.now) result (get name.now (view value.now)) }
    ensures memory { result ≢ Err ReadFault.NoMemory }
{
    value.get(name).ok_or(ReadFault::Shape)
}

/// The member of this name, where it is there.
pub fn optional_member<'a>(value: &'a Value, name: &str) -> Option<&'a Value>
    ensures { option_map (λ v. view v.now) result ≡ get name.now (view value.now) }
{
    value.get(name)
}

// Whether each member's name is one of these.
fn are_named(members: &Map<String, Value>, names: &[&str]) -> bool
    ensures { result ≡ list_all (λ key. list_any (λ name. bytes_eq (string_bytes key) name.now) names.now) (keys members.now) }
{
    members.keys().all(|key| is_named(key, names))
}

// Whether it is one of these names.
fn is_named(key: &String, names: &[&str]) -> bool
    ensures { result ≡ list_any (λ name. bytes_eq (string_bytes key.now) name.now) names.now }
{
    names.iter().any(|name| key.as_str() == *name)
}
