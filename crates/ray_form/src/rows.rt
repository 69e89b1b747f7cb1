ghost use Rattle.std.specs.Prelude.{◌≡◌, ◌≤◌, is_some, length};
ghost use Rattle.ray_form.specs.Rows.{row_total, row_size, geometries_in};

use crate::geometry::{after_first, count_in, is_geometry, is_sound, is_whole};

// How many elements n geometries have together, where those of one kind fill the bytes.
pub(crate) fn row_total(kind: u32, n: u32, bytes: &[u8]) -> Option<u64>
    ensures { result ≡ row_total kind n bytes.now }
{
    let mut rest = bytes;
    let mut total = 0;
    for i in 0..n {
        if !is_geometry(kind, rest) {
            return None;
        }
        total += u64::from(count_in(rest));
        rest = after_first(rest);
    }
    if rest.is_empty() { Some(total) } else { None }
}

// How many bytes the first n geometries take; those that are whole, where not all are.
pub(crate) fn row_size(n: u32, bytes: &[u8]) -> usize
    ensures value { result ≡ row_size n bytes.now }
    ensures limits { result ≤ length bytes.now }
{
    let mut rest = bytes;
    for i in 0..n {
        if !is_whole(rest) {
            return bytes.len() - rest.len();
        }
        rest = after_first(rest);
    }
    bytes.len() - rest.len()
}

// Whether n geometries are there, and each of their elements stands for a primitive.
pub(crate) fn are_sound(n: u32, bytes: &[u8]) -> bool
    ensures { result ≡ is_some (geometries_in n bytes.now) }
{
    let mut rest = bytes;
    for i in 0..n {
        if !is_sound(rest) {
            return false;
        }
        rest = after_first(rest);
    }
    true
}
