ghost use Rattle.std.specs.Prelude.{◌≡◌, ◌≤◌, ◌<◌, ◌&&◌, ◌==◌, not, length, take, None};
ghost use Rattle.std.specs.Prelude.{slice_index_or};
ghost use Rattle.std.specs.List.{list_any};
ghost use Rattle.ray_top.specs.Instances.{told_instance};
ghost use Rattle.ray_serial.specs.TopWritten.{handles_of, top_form, refers_to};

use crate::handles::told;
use ray_top::{Instance, Top};

/// How many handles the form of a top structure has: the distinct structures that its active
/// instances refer to. It takes no memory, and so time in the number of instances times the number
/// of the structures.
/// (VK_QUERY_TYPE_ACCELERATION_STRUCTURE_SERIALIZATION_BOTTOM_LEVEL_POINTERS_KHR)
pub fn handle_count(top: &Top) -> u32
    ensures { result ≡ length (handles_of top.now.contents.instances) }
{
    let mut count = 0;
    for i in 0..top.len() {
        if is_first(top, i) {
            count += 1;
        }
    }
    count
}

/// How many bytes `serialize_top` gives of a top structure.
/// (VK_QUERY_TYPE_ACCELERATION_STRUCTURE_SERIALIZATION_SIZE_KHR; the number is our own.)
pub fn serialized_size_top(top: &Top) -> u64
    ensures { result ≡ length (top_form top.now.contents) }
{
    104 + 8 * u64::from(handle_count(top)) + 64 * u64::from(top.len())
}

// Whether an instance is the first that refers to its structure.
fn is_first(top: &Top, i: u32) -> bool
    requires { i < length top.now.contents.instances }
    ensures { let instances = top.now.contents.instances in
        let this = told_instance (slice_index_or instances i None) in
        result ≡ (this.active && not (list_any (refers_to this.id) (take i instances))) }
{
    let this = told(top, i);
    this.active && !is_referred(top, i, this.id)
}

// Whether one of the first instances refers to a structure.
fn is_referred(top: &Top, count: u32, id: u32) -> bool
    requires { count ≤ length top.now.contents.instances }
    ensures { result ≡ list_any (refers_to id) (take count top.now.contents.instances) }
{
    for i in 0..count {
        if refers(told(top, i), id) {
            return true;
        }
    }
    false
}

// Whether an instance refers to a structure.
fn refers(told: Instance, id: u32) -> bool
    ensures { result ≡ (told.active && (told.id == id)) }
{
    told.active && told.id == id
}
