// The counts of the records of a self run.
ghost use Rattle.std.specs.Prelude.{◌≡◌, ◌==◌, [], IfOk, option_copied, string_bytes, unwrap_or};
ghost use Rattle.ray_bytes.specs.Hits.{hit_of_bytes};
ghost use Rattle.ray_memory.specs.State.{memory_of};
ghost use Rattle.vkray.specs.Counting.{counts_line, is_read, last_shown_in, quiet_length, shown_by};
ghost use Rattle.vkray.specs.Counting.{count_of_kind, count_of_face};
ghost use Rattle.vkray.specs.Counting.{faces_text, kinds_text, records_line};
ghost use Rattle.vkray.specs.Endings.{IsCounted};

use crate::stop::Stop;
use byteorder::{ByteOrder, LittleEndian};
use ray_cmd::{Command, Recording};
use ray_memory::State;
use ray_rules::ByteRange;
use std::alloc::{AllocError as NoMemory, Global};

// The bytes that the last command of a recording reads of a state: none where it is another
// command, or where one of them is missing.
fn last_shown<'s>(state: &'s State, recording: &Recording) -> &'s [u8]
    ensures { result.now ≡ last_shown_in (memory_of state.now) recording.now }
{
    if recording.len() == 0 {
        return &[];
    }
    shown_by(state, recording.command(recording.len() - 1))
}

// The bytes that a command reads.
fn shown_by<'s>(state: &'s State, command: &Command) -> &'s [u8]
    ensures { result.now ≡ shown_by (memory_of state.now) command.now }
{
    match command {
        Command::Read {
            buffer,
            offset,
            size,
            ..
        } => {
            let range = ByteRange {
                buffer: *buffer,
                from: u128::from(*offset),
                size: u128::from(*size),
            };
            bytes_if(state.bytes(range))
        }
        _ => &[],
    }
}

// How many commands are run so that what the last one reads stands there: all but a last `read`.
pub(crate) fn quiet_length(recording: &Recording) -> u32
    ensures { result ≡ quiet_length recording.now }
{
    let count = recording.len();
    if count > 0 && is_read(recording.command(count - 1)) {
        count - 1
    } else {
        count
    }
}

// Whether a command reads bytes to show them.
fn is_read(command: &Command) -> bool
    ensures { result ≡ is_read command.now }
{
    matches!(command, Command::Read { .. })
}

// These bytes, and none where there aren't any.
fn bytes_if(bytes: Option<&[u8]>) -> &[u8]
    ensures { result.now ≡ unwrap_or (option_copied bytes.entry) [] }
{
    match bytes {
        Some(bytes) => bytes,
        None => &[],
    }
}

// The line of the counts of the records that a recording's last command reads of a state.
pub(crate) fn counted_line(
    alloc: Global,
    rays: u32,
    state: &State,
    recording: &Recording,
) -> Result<Vec<u8>, Stop>
    ensures { IsCounted (counts_line rays (last_shown_in (memory_of state.now) recording.now))
        result }
{
    match counts_line(alloc, rays, last_shown(state, recording)) {
        Ok(line) => Ok(line.into_bytes()),
        Err(_) => Err(Stop::NoMemory),
    }
}

// The line of the counts of the records in bytes, of so many rays.
#[tactic(auto, unfolding(crate::specs::Counting::counts_line))]
fn counts_line(alloc: Global, rays: u32, bytes: &[u8]) -> Result<String, NoMemory>
    ensures { IfOk result (λ line. string_bytes line ≡ counts_line rays bytes.now) }
{
    let (records, _) = bytes.as_chunks::<80>();
    records_line(alloc, rays, records)
}

// The same of the records.
fn records_line(alloc: Global, rays: u32, records: &[[u8; 80]]) -> Result<String, NoMemory>
    ensures { IfOk result (λ line. string_bytes line ≡ records_line rays records.now) }
{
    let kinds = kinds_text(alloc, rays, records)?;
    let faces = faces_text(alloc, records)?;
    format!(in alloc; "{kinds} {faces}\n")
}

// The rays, and the records of triangles, of boxes and of misses.
fn kinds_text(alloc: Global, rays: u32, records: &[[u8; 80]]) -> Result<String, NoMemory>
    ensures { IfOk result (λ text. string_bytes text ≡ kinds_text rays records.now) }
{
    let tri = count_of_kind(1, records);
    let boxes = count_of_kind(2, records);
    let none = count_of_kind(0, records);
    format!(in alloc; "rays {rays} tri {tri} box {boxes} none {none}")
}

// The records of front faces, and of back faces.
fn faces_text(alloc: Global, records: &[[u8; 80]]) -> Result<String, NoMemory>
    ensures { IfOk result (λ text. string_bytes text ≡ faces_text records.now) }
{
    let front = count_of_face(1, records);
    let back = count_of_face(2, records);
    format!(in alloc; "front {front} back {back}")
}

// How many records are of a kind.
fn count_of_kind(kind: u32, records: &[[u8; 80]]) -> usize
    ensures { result ≡ count_of_kind kind records.now }
{
    records.iter().filter(|hit| kind_of(hit) == kind).count()
}

// How many records have a face.
fn count_of_face(face: u32, records: &[[u8; 80]]) -> usize
    ensures { result ≡ count_of_face face records.now }
{
    records.iter().filter(|hit| face_of(hit) == face).count()
}

// The kind of the record that stands in 80 bytes.
#[tactic(auto, unfolding(ray_bytes::specs::Fields::word_at))]
fn kind_of(hit: &[u8; 80]) -> u32
    ensures { result ≡ (hit_of_bytes hit.now).kind }
{
    LittleEndian::read_u32(hit)
}

// The face of the record that stands in 80 bytes.
#[tactic(auto, unfolding(ray_bytes::specs::Fields::word_at))]
fn face_of(hit: &[u8; 80]) -> u32
    ensures { result ≡ (hit_of_bytes hit.now).face }
{
    LittleEndian::read_u32(&hit[24..])
}
