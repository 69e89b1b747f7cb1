ghost use Rattle.std.specs.Prelude.{Option};
ghost use Rattle.serde_json.specs.Data.{Data};
ghost use Rattle.serde_json.specs.View.{view};
ghost use Rattle.ray_json.specs.Outcome.{Gives};

use crate::fault::ReadFault;
use serde_json::Value;
use std::alloc::Global;

/// Reads an item of a list. A type that is read so has a reader beside it, so that a crate can say
/// how to read a type of another crate.
pub trait Reader {
    /// What is read.
    type Item: Drop;

    /// The grammar: what a value spells, if it spells an item.
    ghost spells: { Data → Option Self.Item };

    /// What the value spells.
    fn read(alloc: Global, value: &Value) -> Result<Self::Item, ReadFault>
        ensures { Gives result (spells (view value.now)) };
}
