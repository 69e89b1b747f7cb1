ghost use Rattle.serde_json.specs.View.{view};
ghost use Rattle.ray_json.specs.Outcome.{Gives};
ghost use Rattle.ray_json.specs.Fields.{hex_of};

use crate::bytes::Bytes;
use crate::fault::ReadFault;
use crate::words::read_text;
use hex::FromHexError;
use serde_json::Value;
use std::alloc::Global;

/// The bytes that a string's hexadecimal digits stand for, two digits a byte, of either case.
pub fn read_hex(alloc: Global, value: &Value) -> Result<Bytes, ReadFault>
    ensures { Gives result (hex_of (view value.now)) }
{
    let digits = read_text(value)?;
    match hex::decode(alloc, digits) {
        Ok(bytes) => Ok(Bytes::new(bytes)),
        Err(FromHexError::OutOfMemory) => Err(ReadFault::NoMemory),
        Err(_) => Err(ReadFault::Shape),
    }
}
