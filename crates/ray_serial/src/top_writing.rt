ghost use Rattle.std.specs.Prelude.{◌≡◌, ◌<◌, ◌++◌, IfOk, OnOk, replicate};
ghost use Rattle.std.specs.List.{flat_map};
ghost use Rattle.std.specs.Int.{w32, cast_unsigned};
ghost use Rattle.std.specs.Int.RustNames.{FitsSigned};
ghost use Rattle.byteorder.specs.Endian.{little_bytes};
ghost use Rattle.ray_geom.specs.Transform.{rows_of};
ghost use Rattle.ray_serial.specs.TopWritten.{row_words, instance_words, FitsRow, FitsBits};
ghost use Rattle.ray_serial.specs.TopWritten.{placed_bytes, instance_bytes, all_instance_bytes};
ghost use Rattle.ray_serial.specs.TopWritten.{top_head, top_payload, top_form, IsRising, AreNarrow};
ghost use Rattle.ray_serial.specs.Meaning.{IsForm};
ghost use Rattle.ray_serial.specs.Standing.{StandsFor};

use crate::handles::{handle_number, handles_of, told};
use crate::writing::form_bytes;
use byteorder::{ByteOrder, LittleEndian};
use ray_bytes::{reference_of, sizes_of};
use ray_geom::Matrix;
use ray_top::{Instance, Top};
use std::alloc::{AllocError as NoMemory, Global};

// The mask and the flags stand above the low 24 bits.
const LOW: u32 = 1 << 24;

// A number as a word.
fn word(z: i64) -> u32
    requires { FitsSigned w32 z }
    ensures { result ≡ cast_unsigned w32 z }
{
    (z as i32).cast_unsigned()
}

// The words of a row of a transform.
fn row_words(row: [i64; 4]) -> [u32; 4]
    requires { FitsRow row }
    ensures { result ≡ row_words row }
{
    let [x, y, z, t] = row;
    [word(x), word(y), word(z), word(t)]
}

// The words of a transform.
fn matrix_words(m: &Matrix) -> [u32; 12]
    ensures { result ≡ flat_map row_words (rows_of m.now) }
{
    let [a, b, c] = m.rows();
    let [ax, ay, az, at] = row_words(a);
    let [bx, by, bz, bt] = row_words(b);
    let [cx, cy, cz, ct] = row_words(c);
    [ax, ay, az, at, bx, by, bz, bt, cx, cy, cz, ct]
}

// The words of an instance before its reference.
fn instance_words(told: Instance) -> [u32; 14]
    requires { FitsBits told }
    ensures { result ≡ instance_words told }
{
    let [a, b, c, d, e, f, g, h, i, j, k, l] = matrix_words(&told.matrix);
    let custom = told.custom + LOW * u32::from(told.mask);
    let sbt = told.sbt + LOW * u32::from(told.flags.0);
    [a, b, c, d, e, f, g, h, i, j, k, l, custom, sbt]
}

// Fourteen words.
fn append_words(bytes: &mut Vec<u8>, words: [u32; 14]) -> Result<(), NoMemory>
    ensures { OnOk result (bytes.new.items ≡ bytes.old.items ++ flat_map (little_bytes 4) words) }
{
    let mut head = [0; 56];
    LittleEndian::write_u32_into(&words, &mut head);
    bytes.extend_from_slice(&head)?;
    Ok(())
}

// An active instance with the number of its handle.
fn append_placed(bytes: &mut Vec<u8>, number: u64, told: Instance) -> Result<(), NoMemory>
    requires { FitsBits told }
    ensures { OnOk result (bytes.new.items ≡ bytes.old.items ++ placed_bytes number told) }
{
    append_words(bytes, instance_words(told))?;
    bytes.extend_from_slice(&number.to_le_bytes())?;
    Ok(())
}

// An instance.
#[tactic(auto, unfolding(crate::specs::TopWritten::instance_bytes))]
fn append_instance(bytes: &mut Vec<u8>, handles: &[u64], told: Instance) -> Result<(), NoMemory>
    requires fits { FitsBits told }
    requires rising { IsRising handles.now }
    ensures { OnOk result (bytes.new.items ≡ bytes.old.items ++ instance_bytes handles.now told) }
{
    if told.active {
        let number = handle_number(handles, reference_of(told.id));
        append_placed(bytes, number, told)
    } else {
        append_zeros(bytes)
    }
}

// An inactive instance.
fn append_zeros(bytes: &mut Vec<u8>) -> Result<(), NoMemory>
    ensures { OnOk result (bytes.new.items ≡ bytes.old.items ++ replicate 64 0) }
{
    bytes.extend_from_slice(&[0; 64])?;
    Ok(())
}

// All instances.
fn append_all(bytes: &mut Vec<u8>, handles: &[u64], top: &Top) -> Result<(), NoMemory>
    requires { IsRising handles.now }
    ensures { OnOk result (bytes.new.items
        ≡ bytes.old.items ++ all_instance_bytes handles.now top.now.contents.instances) }
{
    for i in 0..top.len() {
        append_instance(bytes, handles, told(top, i))?;
    }
    Ok(())
}

// The head of the payload and that of its geometry.
#[tactic(auto, unfolding(crate::specs::TopWritten::top_head, ray_geometries::specs::Storing::bytes_of_words))]
fn append_head(bytes: &mut Vec<u8>, flags: u32, count: u32) -> Result<(), NoMemory>
    ensures { OnOk result (bytes.new.items ≡ bytes.old.items ++ top_head flags count) }
{
    let mut head = [0; 48];
    LittleEndian::write_u32_into(&[1, flags, 1, 0, 2, 0, 0, 0, count, 0, 0, 0], &mut head);
    bytes.extend_from_slice(&head)?;
    Ok(())
}

// The payload.
fn top_payload(alloc: Global, handles: &[u64], top: &Top) -> Result<Vec<u8>, NoMemory>
    requires { IsRising handles.now }
    ensures { IfOk result (λ bytes.
        bytes.items ≡ top_payload handles.now top.now.contents) }
{
    let mut bytes = Vec::new(alloc);
    append_head(&mut bytes, top.flags().0, top.len())?;
    append_all(&mut bytes, handles, top)?;
    Ok(bytes)
}

/// The form of a top structure, where the flags of its build are flags that there are, which are
/// below 32. (Own: the form; vkCmdCopyAccelerationStructureToMemoryKHR.)
pub fn serialize_top(alloc: Global, top: &Top) -> Result<Vec<u8>, NoMemory>
    ensures value { IfOk result (λ bytes. bytes.items ≡ top_form top.now.contents) }
    ensures form { top.now.contents.flags.0 < 32 → IfOk result (λ bytes. IsForm bytes.items) }
    ensures stands { top.now.contents.flags.0 < 32 → IfOk result (λ bytes.
        StandsFor top.now.contents bytes.items) }
{
    // The instances are within the limits.
    let _len = top.len();
    top_form(alloc, top)
}

// The same, whose instances are known to be narrow.
#[tactic(auto, unfolding(crate::specs::TopWritten::top_form))]
fn top_form(alloc: Global, top: &Top) -> Result<Vec<u8>, NoMemory>
    ensures value { IfOk result (λ bytes. bytes.items ≡ top_form top.now.contents) }
    ensures narrow { OnOk result (AreNarrow top.now.contents.instances) }
{
    let handles = handles_of(alloc, top)?;
    let payload = top_payload(alloc, handles.as_slice(), top)?;
    let size = sizes_of(1, top.len()).structure;
    form_bytes(alloc, size, handles.as_slice(), payload.as_slice())
}
