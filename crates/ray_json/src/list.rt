ghost use Rattle.serde_json.specs.View.{view};
ghost use Rattle.ray_json.specs.Outcome.{Gives};
ghost use Rattle.ray_json.specs.Fields.{list_of};

use crate::fault::ReadFault;
use crate::listed::Listed;
use crate::reader::Reader;
use serde_json::Value;
use std::alloc::Global;

/// The items of an array, each read by the reader `R`.
pub fn read_list<R: Reader>(alloc: Global, value: &Value) -> Result<Listed<R::Item>, ReadFault>
    ensures { Gives result (list_of R.spells (view value.now)) }
{
    let items = value.as_array().ok_or(ReadFault::Shape)?;
    let mut list = Listed::new(alloc);
    for item in items {
        list.push(R::read(alloc, item)?)?;
    }
    Ok(list)
}
