ghost use Rattle.std.specs.Prelude.{◌≡◌, ◌++◌, ◌<◌, ◌≤◌, ◌+◌, ◌*◌, [], take, drop, length, string_bytes, decimal, unwrap_or, if◌then◌else◌, IfOk, IsSome, OnErr, OnOk};
ghost use Rattle.ray_bytes.specs.Hits.{hit_of_bytes};
ghost use Rattle.ray_action.specs.Memory.{bytes_at};
ghost use Rattle.ray_action.specs.Clients.{Meaning};
ghost use Rattle.ray_action.specs.Outcomes.{outcome_of};
ghost use Rattle.ray_action.specs.Pieces.{command_at, host_action};
ghost use Rattle.ray_action.specs.Readiness.{IsReady, AreCounts};
ghost use Rattle.ray_action.specs.Running.{text_with};
ghost use Rattle.ray_action.specs.Text.{hit_line, hits_text, bytes_text, numbers_line, digits_line, sizes_text, sizes_line, after_blank, number_at};
ghost use Rattle.ray_memory.specs.State.{memory_of};

use crate::line::{MOST_LINE, put_line};
use crate::state::State;
use byteorder::{ByteOrder, LittleEndian};
use itoa::Buffer;
use ray_bytes::{HitRecord, Sizes, sizes_of};
use ray_cmd::{Command, ReadForm, Recording, StructureKind};
use ray_rules::ByteRange;
use std::alloc::{AllocError as NoMemory, Global};

impl State {
    /// Appends the text of command number `i` to `out`: of a `read` from the bytes as they are now,
    /// and of `sizes`; any other command has none. No client has a part in it. After a want of memory `out` is as before.
    #[tactic(auto, using(crate::proofs::Changing::command_is))]
    pub fn text(&self, rec: &Recording, i: u32, out: &mut Vec<u8>) -> Result<(), NoMemory>
        requires within { i < length rec.now }
        requires ready { IsReady (host_action (command_at rec.now i)) (memory_of self.now) }
        ensures ok { OnOk result ((meaning : Meaning) → out.new.items ≡ out.old.items
            ++ text_with (host_action (command_at rec.now i))
            (outcome_of meaning (host_action (command_at rec.now i)) (memory_of self.now))) }
        ensures err { OnErr result (out.new.items ≡ out.old.items) }
    {
        append(out, self.text_of(rec.command(i))?)
    }

    // The text of a command of the host.
    #[tactic(auto, unfolding(ray_action::specs::Pieces::host_action))]
    fn text_of(&self, command: &Command) -> Result<Vec<u8>, NoMemory>
        requires { IsReady (host_action command.now) (memory_of self.now) }
        ensures { IfOk result (λ text. (meaning : Meaning) → text.items
            ≡ text_with (host_action command.now)
            (outcome_of meaning (host_action command.now) (memory_of self.now))) }
    {
        match command {
            Command::Read {
                buffer,
                offset,
                size,
                form,
            } => {
                let from = ByteRange {
                    buffer: *buffer,
                    from: u128::from(*offset),
                    size: u128::from(*size),
                };
                self.read(from, *form)
            }
            Command::Sizes { kind, counts } => sizes(self.alloc, *kind, counts.as_slice()),
            _ => Ok(Vec::new(self.alloc)),
        }
    }

    // The text of the bytes of a range, in a form.
    fn read(&self, from: ByteRange, form: ReadForm) -> Result<Vec<u8>, NoMemory>
        requires { IsSome (bytes_at (memory_of self.now) from) }
        ensures { IfOk result (λ text. text.items
            ≡ bytes_text form (unwrap_or (bytes_at (memory_of self.now) from) [])) }
    {
        let bytes = self.bytes(from).unwrap_or(&[]);
        match form {
            ReadForm::Hex => digits_line(self.alloc, bytes),
            ReadForm::U64 => numbers_line(self.alloc, bytes),
            ReadForm::Hits => hits_text(self.alloc, bytes),
        }
    }
}

// Appends a text, all of it or nothing.
fn append(out: &mut Vec<u8>, text: Vec<u8>) -> Result<(), NoMemory>
    ensures ok { OnOk result (out.new.items ≡ out.old.items ++ text.items) }
    ensures err { OnErr result (out.new.items ≡ out.old.items) }
{
    if out.is_empty() {
        *out = text;
        return Ok(());
    }
    out.extend_from_slice(text.as_slice())
}

// The line of the digits of bytes, two a byte, in lower case.
fn digits_line(alloc: Global, bytes: &[u8]) -> Result<Vec<u8>, NoMemory>
    ensures { IfOk result (λ line. line.items ≡ digits_line bytes.now) }
{
    let mut line = hex::encode(alloc, bytes)?.into_bytes();
    line.push(b'\n')?;
    Ok(line)
}

// The line of the numbers of 64 bits, with a blank between each two.
#[tactic(auto, using(crate::proofs::Texts::numbers_none, crate::proofs::Texts::numbers_more, crate::proofs::Texts::numbers_all))]
fn numbers_line(alloc: Global, bytes: &[u8]) -> Result<Vec<u8>, NoMemory>
    ensures { IfOk result (λ line. line.items ≡ numbers_line bytes.now) }
{
    let mut line = Vec::new(alloc);
    for k in 0..bytes.len() / 8 {
        add_number(&mut line, k == 0, number(bytes, k))?;
    }
    line.push(b'\n')?;
    Ok(line)
}

// Appends a number, with a blank before it unless it is the first.
fn add_number(line: &mut Vec<u8>, is_first: bool, number: u64) -> Result<(), NoMemory>
    ensures { OnOk result (line.new.items ≡ line.old.items
        ++ (if is_first then decimal number else after_blank number)) }
{
    if !is_first {
        line.push(b' ')?;
    }
    let mut digits = Buffer::new();
    line.extend_from_slice(digits.format(number).as_bytes())
}

// Number `k` of 64 bits, little-endian.
#[tactic(auto, unfolding(ray_bytes::specs::Fields::long_at))]
fn number(bytes: &[u8], k: usize) -> u64
    requires { 8 * k + 8 ≤ length bytes.now }
    ensures { result ≡ number_at bytes.now k }
{
    LittleEndian::read_u64(&bytes[8 * k..])
}

// The lines of the hits, one a record of 80 bytes.
fn hits_text(alloc: Global, bytes: &[u8]) -> Result<Vec<u8>, NoMemory>
    ensures { IfOk result (λ text. text.items ≡ hits_text bytes.now) }
{
    let mut room = vec![in alloc; 0; MOST_LINE]?;
    hits_by(alloc, bytes, room.as_mut_slice())
}

// The same, line after line in the room for one.
#[tactic(auto, using(crate::proofs::Texts::hits_none, crate::proofs::Texts::hits_more, crate::proofs::Texts::hits_all))]
fn hits_by(alloc: Global, bytes: &[u8], room: &mut [u8]) -> Result<Vec<u8>, NoMemory>
    requires { length room.old ≡ 480 }
    ensures { IfOk result (λ text. text.items ≡ hits_text bytes.now) }
{
    let mut text = Vec::new(alloc);
    for k in 0..bytes.len() / 80 {
        add_line(&mut text, room, k, &hit(bytes, k))?;
    }
    Ok(text)
}

// Appends the line of hit number `k`, which is written into the room for a line.
fn add_line(text: &mut Vec<u8>, room: &mut [u8], k: usize, hit: &HitRecord) -> Result<(), NoMemory>
    requires { length room.old ≡ 480 }
    ensures text { OnOk result (text.new.items ≡ text.old.items ++ hit_line k hit.now) }
    ensures sized { length room.new ≡ 480 }
{
    let begin = put_line(room, k, hit);
    text.extend_from_slice(&room[begin..])
}

// Hit `k` of the records.
fn hit(bytes: &[u8], k: usize) -> HitRecord
    requires { 80 * k + 80 ≤ length bytes.now }
    ensures { result ≡ hit_of_bytes (take 80 (drop (80 * k) bytes.now)) }
{
    HitRecord::read(&bytes[80 * k..80 * k + 80])
}

// The line of the sizes of a structure and of its scratch memory.
fn sizes(alloc: Global, kind: StructureKind, counts: &[u32]) -> Result<Vec<u8>, NoMemory>
    requires { AreCounts counts.now }
    ensures { IfOk result (λ line. line.items ≡ sizes_text kind counts.now) }
{
    let geometries = match kind {
        StructureKind::Bottom => counts.len() as u32,
        StructureKind::Top => 1,
    };
    let line = sizes_line(alloc, geometries, counts.iter().sum())?;
    Ok(line.into_bytes())
}

// The same of so many geometries and primitives.
fn sizes_line(alloc: Global, geometries: u32, primitives: u32) -> Result<String, NoMemory>
    ensures { IfOk result (λ line. string_bytes line ≡ sizes_line geometries primitives) }
{
    let Sizes {
        structure,
        build_scratch,
        update_scratch,
    } = sizes_of(geometries, primitives);
    format!(in alloc; "sizes {structure} {build_scratch} {update_scratch}\n")
}
