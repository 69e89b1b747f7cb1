ghost use Rattle.std.specs.Prelude.{◌≡◌, Err, IfOk};
ghost use Rattle.serde_json.specs.View.{view};
ghost use Rattle.vkray_cases.specs.Cases.{IsInput, IsNoInput};

use crate::piece::{PieceReader, bytes_of_pieces};
use ray_json::{ReadFault, optional_member, read_hex, read_list};
use serde_json::Value;
use std::alloc::Global;

/// The bytes that a case describes: a text that spells its `recording`, or its `pieces` one after
/// another, or what the digits of `hex` stand for.
///
/// # Errors
///
/// `Shape` where not exactly one of the three members is there, or it describes no bytes.
pub fn input(alloc: Global, case: &Value) -> Result<Vec<u8>, ReadFault>
    ensures bytes { IfOk result (λ bytes. IsInput (view case.now) bytes.items) }
    ensures shape { result ≡ Err ReadFault.Shape → IsNoInput (view case.now) }
{
    let recording = optional_member(case, "recording");
    let pieces = optional_member(case, "pieces");
    let hex = optional_member(case, "hex");
    match (recording, pieces, hex) {
        (Some(recording), None, None) => Ok(recording.to_vec(alloc)?),
        (None, Some(pieces), None) => {
            let pieces = read_list::<PieceReader>(alloc, pieces)?;
            Ok(bytes_of_pieces(alloc, pieces.as_slice())?)
        }
        (None, None, Some(hex)) => {
            let bytes = read_hex(alloc, hex)?;
            Ok(bytes.as_slice().to_vec(alloc)?)
        }
        _ => Err(ReadFault::Shape),
    }
}
