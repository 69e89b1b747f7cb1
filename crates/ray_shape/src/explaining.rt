ghost use Rattle.std.specs.Prelude.{◌≡◌, IfOk};
ghost use Rattle.serde_json.specs.View.{view};
ghost use Rattle.ray_shape.specs.Faults.{IsShapeFault};

use crate::shape::{Kind, Shape};
use crate::walking::find_wrong;
use crate::wrong::{Fault, Step, Wrong, further_in};
use serde_json::Value;
use std::alloc::{AllocError as NoMemory, Global};

/// Why a command of a JSON value is the first that has no shape of a command. (Own.)
#[derive(Debug, Drop)]
pub enum ShapeFault {
    /// The value is no list.
    NoList,
    /// Something in the command is wrong. The path is from the whole value on.
    Wrong(Wrong),
    /// The command, if there is one, is read: there are too many commands, or its lists and those
    /// before it have too many members together.
    TooMany,
}

/// What is wrong with the command of this number of a value that was refused at it. Own.
///
/// # Errors
///
/// For want of memory alone.
pub fn shape_fault(alloc: Global, value: &Value, command: u32) -> Result<ShapeFault, NoMemory>
    ensures { IfOk result (λ fault. IsShapeFault fault command (view value.now)) }
{
    if !value.is_array() {
        return Ok(ShapeFault::NoList);
    }
    match value.get(command as usize) {
        Some(found) => match find_wrong(alloc, Shape::Object(Kind::Command), found) {
            Ok(()) => Ok(ShapeFault::TooMany),
            Err(Fault::At(wrong)) => {
                Ok(ShapeFault::Wrong(further_in(wrong, Step::Item(command as usize))?))
            }
            Err(Fault::NoMemory) => Err(NoMemory),
        },
        None => Ok(ShapeFault::TooMany),
    }
}
