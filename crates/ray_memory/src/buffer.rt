ghost use Rattle.std.specs.Prelude.{◌≡◌, ◌≤◌, ◌+◌, ◌-◌, ◌++◌, length, take, drop, slice_get};
ghost use Rattle.std.specs.Prelude.{Some, None, option_copied, IfOk};
ghost use Rattle.ray_memory.specs.Bytes.{IsFresh, IsNew, IsOverwritten, IsRefilled, IsWrittenIn};
ghost use Rattle.ray_memory.specs.Bytes.{byte_of_word, part_at};

use ray_rules::ByteRange;
use std::alloc::{AllocError as NoMemory, Global};
use std::marker::Model;

// A live buffer: its size, and its bytes, which are all there. One for scratch memory alone, or for
// structures alone, keeps none.
#[derive(Drop)]
pub(crate) struct Buffer {
    size: usize,
    bytes: Vec<u8>,
}

impl Model for Buffer {
    ghost use Rattle.ray_memory.specs.Bytes.{BufferValue};

    ghost Value = { BufferValue };

    ghost view = { λ b. record { size = b.size; bytes = b.bytes.items } };
}

impl Buffer {
    // The content, cut or filled up with zeros to `size` bytes.
    pub(crate) fn fresh(alloc: Global, size: usize, content: &[u8]) -> Result<Buffer, NoMemory>
        ensures { IfOk result (λ buffer. IsNew size (Some content.now) buffer) }
    {
        let bytes = fresh(alloc, size, content)?;
        Ok(Buffer { size, bytes })
    }

    // A buffer of `size` bytes that keeps none of them.
    pub(crate) fn bare(alloc: Global, size: usize) -> Buffer
        ensures { IsNew size None result }
    {
        Buffer {
            size,
            bytes: Vec::new(alloc),
        }
    }

    // How many bytes it has.
    pub(crate) fn size(&self) -> u64
        ensures { result ≡ self.now.size }
    {
        self.size as u64
    }

    // So many bytes from a place on, where all of them are there.
    pub(crate) fn part(&self, from: u128, size: u128) -> Option<&[u8]>
        ensures { option_copied result ≡ part_at self.now.bytes from size }
    {
        part_of(self.bytes.as_slice(), from, size)
    }

    // Writes the bytes over those of a range, as far as both go and the range is there.
    pub(crate) fn overwrite(&mut self, to: ByteRange, bytes: &[u8])
        ensures { IsWrittenIn to (slice_get bytes.now) self.old self.new }
    {
        overwrite(self.bytes.as_mut_slice(), to, bytes);
    }

    // Writes a word again and again over the bytes of a range, little-endian, as far as it is
    // there.
    pub(crate) fn refill(&mut self, to: ByteRange, value: u32)
        ensures { IsWrittenIn to (byte_of_word value) self.old self.new }
    {
        refill(self.bytes.as_mut_slice(), to, value);
    }
}

// The content, cut or filled up with zeros to `size` bytes.
fn fresh(alloc: Global, size: usize, content: &[u8]) -> Result<Vec<u8>, NoMemory>
    ensures { IfOk result (λ bytes. IsFresh size content.now bytes.items) }
{
    let mut bytes = Vec::with_capacity(alloc, size)?;
    bytes.extend_from_slice(&content[..content.len().min(size)])?;
    bytes.resize(size, 0)?;
    Ok(bytes)
}

// So many bytes from a place on, where all of them are there.
fn part_of(bytes: &[u8], from: u128, size: u128) -> Option<&[u8]>
    ensures { option_copied result ≡ part_at bytes.now from size }
{
    let len = bytes.len() as u128;
    if size <= len && from <= len - size {
        let from = from as usize;
        Some(&bytes[from..from + size as usize])
    } else {
        None
    }
}

// Writes the bytes over those of a range, as far as both go and the range is there.
fn overwrite(bytes: &mut [u8], to: ByteRange, from: &[u8])
    ensures { IsOverwritten to from.now bytes.old bytes.new }
{
    let len = bytes.len() as u128;
    if to.from < len {
        let start = to.from as usize;
        let room = to.size.min(len - to.from) as usize;
        let count = room.min(from.len());
        copy_to(bytes, start, &from[..count]);
    }
}

// Copies bytes over those from a place on.
fn copy_to(bytes: &mut [u8], start: usize, from: &[u8])
    requires { start + length from.now ≤ length bytes.old }
    ensures { bytes.new ≡ take start bytes.old
        ++ (from.now ++ drop (start + length from.now) bytes.old) }
{
    bytes[start..start + from.len()].copy_from_slice(from);
}

// Writes a word again and again over the bytes of a range, little-endian, as far as it is there.
fn refill(bytes: &mut [u8], to: ByteRange, value: u32)
    ensures { IsRefilled to value bytes.old bytes.new }
{
    let word = value.to_le_bytes();
    let len = bytes.len() as u128;
    if to.from < len {
        let start = to.from as usize;
        let count = to.size.min(len - to.from) as usize;
        for k in 0..count {
            bytes[start + k] = word[k % 4];
        }
    }
}
