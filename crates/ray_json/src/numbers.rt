ghost use Rattle.std.specs.Prelude.{◌≢◌};
ghost use Rattle.serde_json.specs.View.{view};
ghost use Rattle.ray_json.specs.Outcome.{Gives};
ghost use Rattle.ray_json.specs.Fields.{u64_of, u32_of, bool_of};

use crate::fault::ReadFault;
use serde_json::Value;

/// A whole number from 0 to 2^64 - 1. It is whole where `serde_json` reads it as one: `1.0`, `1e0`
/// and `-0` aren't.
pub fn read_u64(value: &Value) -> Result<u64, ReadFault>
    ensures value { Gives result (u64_of (view value.now)) }
    ensures memory { result ≢ Err ReadFault.NoMemory }
{
    value.as_u64().ok_or(ReadFault::Shape)
}

/// A whole number from 0 to 2^32 - 1.
pub fn read_u32(value: &Value) -> Result<u32, ReadFault>
    ensures value { Gives result (u32_of (view value.now)) }
    ensures memory { result ≢ Err ReadFault.NoMemory }
{
    match value.as_u64() {
        Some(number) if number <= u64::from(u32::MAX) => Ok(number as u32),
        _ => Err(ReadFault::Shape),
    }
}

/// `true` or `false`.
pub fn read_bool(value: &Value) -> Result<bool, ReadFault>
    ensures value { Gives result (bool_of (view value.now)) }
    ensures memory { result ≢ Err ReadFault.NoMemory }
{
    value.as_bool().ok_or(ReadFault::Shape)
}
