ghost use Rattle.std.specs.Prelude.{◌≡◌, IfSome, length};
ghost use Rattle.std.specs.Option.{option_copied};
ghost use Rattle.ray_bytes.specs.Slices.{record_at};

// The bytes of record i of those of `width` bytes that begin at `start` and stand `stride` apart.
// None exactly where not all of them are there.
pub(crate) fn slice<'a>(
    bytes: &'a [u8],
    start: u64,
    stride: u32,
    width: u32,
    i: u64,
) -> Option<&'a [u8]>
    ensures value { option_copied result ≡ record_at bytes.now start stride width i }
    ensures len { IfSome result (λ part. length part.now ≡ width) }
{
    let first = u128::from(start) + u128::from(i) * u128::from(stride);
    let end = first + u128::from(width);
    if end <= bytes.len() as u128 {
        Some(&bytes[first as usize..end as usize])
    } else {
        None
    }
}
