ghost use Rattle.std.specs.Prelude.{◌≡◌, ◌≤◌, length};
ghost use Rattle.ray_bytes.specs.Records.{transform_of};

use crate::fields::signed;

// The three rows of four entries in the first 48 bytes.
pub(crate) fn transform(bytes: &[u8]) -> [i32; 12]
    requires { 48 ≤ length bytes.now }
    ensures { result ≡ transform_of bytes.now }
{
    [
        signed(bytes, 0),
        signed(bytes, 4),
        signed(bytes, 8),
        signed(bytes, 12),
        signed(bytes, 16),
        signed(bytes, 20),
        signed(bytes, 24),
        signed(bytes, 28),
        signed(bytes, 32),
        signed(bytes, 36),
        signed(bytes, 40),
        signed(bytes, 44),
    ]
}
