ghost use Rattle.std.specs.Prelude.{◌≡◌, ◌+◌};
ghost use Rattle.serde_json.specs.View.{view, items_view, members_view};
ghost use Rattle.ray_cmd.specs.Counting.{listed_in, listed_in_items, listed_in_members, less};

use serde_json::{Map, Value};

// How many members lists may still have after those of the value. None where it has more.
#[cycle(counting)]
pub(crate) fn left_after(value: &Value, left: u64) -> Option<u64>
    ensures { result ≡ less (listed_in (view value.now)) left }
{
    match value {
        Value::Array(items) => left_after_items(items, left),
        Value::Object(members) => left_after_members(members, left),
        _ => Some(left),
    }
}

// The same of the items of a list.
#[cycle(counting)]
fn left_after_items(items: &Vec<Value>, most: u64) -> Option<u64>
    ensures { result ≡ less (listed_in_items (items_view items.now.items)) most }
{
    let mut left = most;
    for item in items {
        left = left_after_item(item, left)?;
    }
    Some(left)
}

// The same of one item and the value that it is.
#[cycle(counting)]
fn left_after_item(item: &Value, left: u64) -> Option<u64>
    ensures { result ≡ less (1 + listed_in (view item.now)) left }
{
    if left == 0 {
        None
    } else {
        left_after(item, left - 1)
    }
}

// The same of the members of an object.
#[cycle(counting)]
fn left_after_members(members: &Map<String, Value>, most: u64) -> Option<u64>
    ensures { result ≡ less (listed_in_members (members_view members.now.entries)) most }
{
    let mut left = most;
    for (_name, member) in members.iter() {
        left = left_after(member, left)?;
    }
    Some(left)
}
