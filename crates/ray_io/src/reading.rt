//! Reading all of a source.

ghost use Rattle.std.specs.Prelude.{◌≡◌, ◌+◌, ◌<◌, ◌≤◌, ◌↔◌, [], length, drop, Some, IfOk, IfSome, IsErrOf, is_some, vec_len};
ghost use Rattle.ray_io.specs.Faults.{HasRisen};
ghost use Rattle.ray_io.specs.ReadAll.{LeavesAllBut};

use crate::read_error::ReadError;
use crate::source::Source;
use std::alloc::Global;

// How many bytes one read asks for at most.
const BUFFER: usize = 65536;

/// All the bytes that a source has left, of which `limit` are allowed. It never takes more than
/// `limit` bytes and the one by which there are too many. After an error what it took is lost.
/// `NoMemory` may come at any place (own).
pub fn read_all<S: Source>(alloc: Global, source: &mut S, limit: u32) -> Result<Vec<u8>, ReadError>
    ensures all { IfOk result (λ v. IfSome (S.left source.old) (λ bytes.
        (v.items ≡ bytes) × (S.left source.new ≡ Some []))) }
    ensures limited { IfOk result (λ v. vec_len v ≤ limit) }

    // Each error comes only for its cause.
    ensures fault { IsErrOf result ReadError.ReadFault → HasRisen (S.faults source.old) (S.faults source.new) }
    ensures too_long { IfSome (S.left source.old) (λ bytes. IsErrOf result ReadError.TooLong
        ↔ ((limit < length bytes) × (S.left source.new ≡ Some (drop (limit + 1) bytes)))) }

    // Whatever the answer, the source stands somewhere after where it stood.
    ensures left { IfSome (S.left source.old) (λ bytes. LeavesAllBut (limit + 1) bytes (S.left source.new)) }
    ensures telling { is_some (S.left source.new) ≡ is_some (S.left source.old) }
    ensures rising { S.faults source.old ≤ S.faults source.new }
{
    let limit = limit as usize;
    let mut memory = vec![in alloc; 0; BUFFER.min(limit + 1)]?;
    let buffer = memory.as_mut_slice();
    let mut bytes = Vec::new(alloc);
    loop {
        let spare = limit - bytes.len();
        let asked = buffer.len().min(spare + 1);
        let count = source.read(&mut buffer[..asked])?;
        if count == 0 {
            return Ok(bytes);
        }
        if count > spare {
            return Err(ReadError::TooLong);
        }
        bytes.extend_from_slice(&buffer[..count])?;
    }
}
