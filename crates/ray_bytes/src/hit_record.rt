ghost use Rattle.std.specs.Prelude.{◌≡◌, ◌<◌, ◌^◌, length, replicate, All};

use crate::fields::{long, word};
use byteorder::{ByteOrder, LittleEndian};

/// A hit as it is stored: 80 bytes, little-endian. A miss is 80 zero bytes. (Own: the layout; the
/// fields are those that a Vulkan ray query reports of its committed intersection.)
#[derive(Clone, Copy, Debug, PartialEq, Eq)]
pub struct HitRecord {
    /// 1 for a triangle, 2 for a box, 0 for a miss.
    pub kind: u32,
    /// The instance's number in its top structure.
    pub instance: u32,
    /// The instance's custom index.
    pub custom: u32,
    /// The instance's binding-table offset.
    pub sbt: u32,
    /// The geometry's number in its bottom structure.
    pub geometry: u32,
    /// The primitive's number in its geometry.
    pub primitive: u32,
    /// 1 for the front face, 2 for the back face, 0 for a box.
    pub face: u32,
    /// Zero.
    pub spare: u32,
    /// The distance: numerator and denominator in lowest terms.
    pub t: (u64, u64),
    /// The barycentric weight of the second vertex: numerator and denominator in lowest terms.
    pub u: (u64, u64),
    /// The barycentric weight of the third vertex: numerator and denominator in lowest terms.
    pub v: (u64, u64),
}

impl HitRecord {
    ghost use Rattle.ray_bytes.specs.Hits.{hit_words, hit_numbers, hit_bytes, hit_of_bytes, miss};

    /// How many bytes a record has.
    pub const SIZE: usize = 80;

    /// The record of a ray that hits nothing: all zero.
    pub const MISS: HitRecord = HitRecord {
        kind: 0,
        instance: 0,
        custom: 0,
        sbt: 0,
        geometry: 0,
        primitive: 0,
        face: 0,
        spare: 0,
        t: (0, 0),
        u: (0, 0),
        v: (0, 0),
    };

    /// Writes the record over `out`, which has 80 bytes.
    pub fn write(&self, out: &mut [u8])
        requires { length out.old ≡ 80 }
        ensures written { out.new ≡ hit_bytes self.now }
        ensures reads_back { hit_of_bytes out.new ≡ self.now }

        // A miss is 80 zero bytes.
        ensures miss { self.now ≡ miss → out.new ≡ replicate 80 0 }
    {
        let words = self.words();
        let numbers = self.numbers();
        let (head, tail) = out.split_at_mut(32);
        LittleEndian::write_u32_into(&words, head);
        LittleEndian::write_u64_into(&numbers, tail);
    }

    /// Reads a record from 80 bytes.
    pub fn read(bytes: &[u8]) -> HitRecord
        requires { length bytes.now ≡ 80 }
        ensures value { result ≡ hit_of_bytes bytes.now }
        ensures writes_back { hit_bytes result ≡ bytes.now }
    {
        HitRecord {
            kind: word(bytes, 0),
            instance: word(bytes, 4),
            custom: word(bytes, 8),
            sbt: word(bytes, 12),
            geometry: word(bytes, 16),
            primitive: word(bytes, 20),
            face: word(bytes, 24),
            spare: word(bytes, 28),
            t: (long(bytes, 32), long(bytes, 40)),
            u: (long(bytes, 48), long(bytes, 56)),
            v: (long(bytes, 64), long(bytes, 72)),
        }
    }

    // The eight words, in order.
    fn words(self) -> [u32; 8]
        ensures value { result ≡ hit_words self }
        ensures fit { All (λ word. word < 2 ^ 32) (hit_words self) }
    {
        [
            self.kind,
            self.instance,
            self.custom,
            self.sbt,
            self.geometry,
            self.primitive,
            self.face,
            self.spare,
        ]
    }

    // The numerators and denominators, in order.
    fn numbers(self) -> [u64; 6]
        ensures value { result ≡ hit_numbers self }
        ensures fit { All (λ number. number < 2 ^ 64) (hit_numbers self) }
    {
        [self.t.0, self.t.1, self.u.0, self.u.1, self.v.0, self.v.1]
    }
}
