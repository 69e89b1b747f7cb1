ghost use Rattle.std.specs.Prelude.{◌≡◌, IfSome, length, All};
ghost use Rattle.std.specs.Option.{option_map, option_copied};
ghost use Rattle.ray_bytes.specs.Formats.{vertex_size};
ghost use Rattle.ray_bytes.specs.Slices.{record_at, records_from, AreFirst};
ghost use Rattle.ray_bytes.specs.Records.{vertex_of};

use crate::fields::{short, signed};
use crate::format::Format;
use crate::parts::Parts;
use crate::slice::slice;
use std::marker::Model;

/// The vertices in a buffer's bytes, read in place: number i begins at `start + i * stride`.
/// (VkAccelerationStructureGeometryTrianglesDataKHR)
#[derive(Debug, Drop)]
pub struct VertexView<'a> {
    bytes: &'a [u8],
    start: u64,
    stride: u32,
    format: Format,
}

impl<'a> Model for VertexView<'a> {
    ghost use Rattle.ray_bytes.specs.Views.{Vertices};

    ghost Value = { Vertices };

    ghost view = { λ v. record {
      bytes = v.bytes.now;
      start = v.start;
      stride = v.stride;
      format = v.format;
    } };
}

impl<'a> VertexView<'a> {
    /// The vertices of a format from `start` on, `stride` bytes apart.
    pub fn new(bytes: &'a [u8], start: u64, stride: u32, format: Format) -> VertexView<'a>
        ensures { result ≡ record {
          bytes = bytes.now;
          start = start;
          stride = stride;
          format = format;
        } }
    {
        VertexView {
            bytes,
            start,
            stride,
            format,
        }
    }

    /// The bytes of vertex `i`. None exactly where not all of them are there.
    pub fn part(&self, i: u64) -> Option<&'a [u8]>
        ensures value { let v = self.now in option_copied result
            ≡ record_at v.bytes v.start v.stride (vertex_size v.format) i }
        ensures len { IfSome result (λ part. length part.now ≡ vertex_size self.now.format) }
    {
        slice(self.bytes, self.start, self.stride, self.format.size(), i)
    }

    /// Vertex `i`: x, y and z. None exactly where it isn't whole.
    pub fn get(&self, i: u64) -> Option<[i32; 3]>
        ensures { let v = self.now in result ≡ option_map (vertex_of v.format)
            (record_at v.bytes v.start v.stride (vertex_size v.format) i) }
    {
        let part = self.part(i)?;
        Some(match self.format {
            Format::S32x3 => [signed(part, 0), signed(part, 4), signed(part, 8)],
            Format::S32x2 => [signed(part, 0), signed(part, 4), 0],
            Format::S16x3 => [short(part, 0), short(part, 2), short(part, 4)],
        })
    }

    /// The bytes of the first `count` vertices, up to the first that isn't whole.
    pub fn parts(&self, count: u32) -> Parts<'a>
        ensures value { let v = self.now in
            result ≡ records_from v.bytes v.start v.stride (vertex_size v.format) 0 count }
        ensures first { let v = self.now in
            AreFirst (record_at v.bytes v.start v.stride (vertex_size v.format)) count result }
        ensures sized { All (λ part. length part ≡ vertex_size self.now.format) result }
    {
        Parts::new(
            self.bytes,
            self.start,
            self.stride,
            self.format.size(),
            count,
        )
    }
}
