ghost use Rattle.std.specs.Prelude.{◌≡◌, ◌+◌, ◌≤◌, length};
ghost use Rattle.ray_bytes.specs.Fields.{half_at, short_at, word_at, signed_at, long_at};

use byteorder::{ByteOrder, LittleEndian};

// The 16-bit number at a place.
#[tactic(auto, unfolding(crate::specs::Fields::half_at))]
pub(crate) fn half(bytes: &[u8], at: usize) -> u16
    requires { at + 2 ≤ length bytes.now }
    ensures { result ≡ half_at bytes.now at }
{
    LittleEndian::read_u16(&bytes[at..])
}

// The signed 16-bit number at a place.
#[tactic(auto, unfolding(crate::specs::Fields::short_at, crate::specs::Fields::half_at))]
pub(crate) fn short(bytes: &[u8], at: usize) -> i32
    requires { at + 2 ≤ length bytes.now }
    ensures { result ≡ short_at bytes.now at }
{
    i32::from(LittleEndian::read_i16(&bytes[at..]))
}

// The 32-bit number at a place.
#[tactic(auto, unfolding(crate::specs::Fields::word_at))]
pub(crate) fn word(bytes: &[u8], at: usize) -> u32
    requires { at + 4 ≤ length bytes.now }
    ensures { result ≡ word_at bytes.now at }
{
    LittleEndian::read_u32(&bytes[at..])
}

// The signed 32-bit number at a place.
#[tactic(auto, unfolding(crate::specs::Fields::signed_at, crate::specs::Fields::word_at))]
pub(crate) fn signed(bytes: &[u8], at: usize) -> i32
    requires { at + 4 ≤ length bytes.now }
    ensures { result ≡ signed_at bytes.now at }
{
    LittleEndian::read_i32(&bytes[at..])
}

// The 64-bit number at a place.
#[tactic(auto, unfolding(crate::specs::Fields::long_at))]
pub(crate) fn long(bytes: &[u8], at: usize) -> u64
    requires { at + 8 ≤ length bytes.now }
    ensures { result ≡ long_at bytes.now at }
{
    LittleEndian::read_u64(&bytes[at..])
}
