//! Writing all of a piece.

ghost use Rattle.std.specs.Prelude.{◌≡◌, ◌≤◌, ◌⊎◌, [], ◌++◌, Some, IsOk, OnOk, OnErr, IfSome, is_some};
ghost use Rattle.ray_io.specs.Faults.{HasRisen};
ghost use Rattle.ray_io.specs.WriteAll.{TakesSome};

use crate::sink::Sink;
use crate::write_fault::WriteFault;

/// Writes all of `bytes`, by as many writes as that takes. It gives up where a write fails or
/// takes nothing, when some of `bytes` may have been taken. Where there is nothing to write it
/// makes no call (own).
pub fn write_all<K: Sink>(sink: &mut K, bytes: &[u8]) -> Result<(), WriteFault>
    ensures ok { OnOk result (IfSome (K.taken sink.old) (λ before. K.taken sink.new ≡ Some (before ++ bytes.now))) }
    ensures err { OnErr result (IfSome (K.taken sink.old) (λ before. TakesSome before (K.taken sink.new) bytes.now)) }
    ensures fault { OnErr result (HasRisen (K.faults sink.old) (K.faults sink.new)
        ⊎ HasRisen (K.zero_writes sink.old) (K.zero_writes sink.new)) }
    ensures empty { bytes.now ≡ [] → IsOk result × (sink.new ≡ sink.old) }
    ensures telling { is_some (K.taken sink.new) ≡ is_some (K.taken sink.old) }
    ensures rising { K.faults sink.old ≤ K.faults sink.new }
    ensures zero_rising { K.zero_writes sink.old ≤ K.zero_writes sink.new }
    ensures zero_kept { OnOk result (K.zero_writes sink.new ≡ K.zero_writes sink.old) }
{
    let mut written = 0;
    while written < bytes.len() {
        let count = sink.write(&bytes[written..])?;
        if count == 0 {
            return Err(WriteFault);
        }
        written += count;
    }
    Ok(())
}
