ghost use Rattle.std.specs.Prelude.{Some};
ghost use Rattle.ray_top.specs.InstanceReading.{instance_read};
ghost use Rattle.ray_top.specs.Laws.{IsRead};

use crate::used::Used;
use ray_bytes::{InstanceRecord, structure_of};

/// The law of reading: each answer that an instance's record is read by has its cause. It is
/// inactive where its reference is 0; it breaks X5 where its reference is that of no structure in
/// use, X6 where its transform is beyond the limits, X7 where the transform doesn't keep the bounds
/// of the structure, and X8 where it forces both opaque and no opaque, each where it breaks none of
/// those before; and else it is the instance of its record. (Own: the rules.)
pub fn reading_law(_used: &[Used], _from: &InstanceRecord)
    ensures { IsRead _used.now _from.now (instance_read _used.now (Some _from.now)) }
{
    let _reference = structure_of(_from.reference);
}
