ghost use Rattle.std.specs.Prelude.{◌≡◌, ◌+◌, ◌≤◌, length};
ghost use Rattle.ray_bytes.specs.Fields.{word_at};

use byteorder::{ByteOrder, LittleEndian};

// The 32-bit number at a place.
#[tactic(auto, unfolding(ray_bytes::specs::Fields::word_at))]
pub(crate) fn word(bytes: &[u8], at: usize) -> u32
    requires { at + 4 ≤ length bytes.now }
    ensures { result ≡ word_at bytes.now at }
{
    LittleEndian::read_u32(&bytes[at..])
}
