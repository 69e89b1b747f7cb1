ghost use Rattle.std.specs.Prelude.{◌≡◌, ◌++◌, true, OnOk, IfOk, IfErr, length};
ghost use Rattle.ray_top.specs.Trees.{GivesTop};
ghost use Rattle.ray_form.specs.Form.{payload_in, instances_of_payload};
ghost use Rattle.ray_serial.specs.Meaning.{IsForm, is_top_form, HasRoom};
ghost use Rattle.ray_serial.specs.TopMeaning.{reference_in, not_zero, put_reference, put_part};
ghost use Rattle.ray_serial.specs.TopMeaning.{put_parts, top_in, IsLinkRule};

use crate::view::handle;
use ray_bytes::{InstanceRecord, InstanceView};
use ray_form::{flags_of_payload, instances_of_payload, payload_in, record_of};
use ray_top::{BuildFault, Top, Used};
use std::alloc::{AllocError as NoMemory, Global};
use std::thread::Threads;

// The top structure of a form, where these structures are in use: that of a buffer of its instances
// with the references that their handles are.
pub(crate) fn top_of<R: Threads + Sync>(
    rt: &R,
    alloc: Global,
    bytes: &[u8],
    used: &[Used],
) -> Result<Top, BuildFault>
    requires form { IsForm bytes.now }
    requires top { is_top_form bytes.now ≡ true }
    requires limits { HasRoom bytes.now }
    ensures value { GivesTop (top_in used.now bytes.now) result }
    ensures rules { IfErr (top_in used.now bytes.now) (λ fault. IsLinkRule fault.rule) }
{
    let payload = payload_in(bytes);
    let (parts, _) = instances_of_payload(payload).as_chunks::<64>();
    let buffer = put_parts(alloc, bytes, parts)?;
    let view = InstanceView::new(buffer.as_slice(), 0);
    let flags = flags_of_payload(payload);
    Top::build(rt, alloc, flags, view, parts.len() as u32, used)
}

// The instances with the references that are put.
fn put_parts(alloc: Global, bytes: &[u8], parts: &[[u8; 64]]) -> Result<Vec<u8>, NoMemory>
    requires { HasRoom bytes.now }
    ensures { IfOk result (λ buffer. buffer.items ≡ put_parts bytes.now parts.now) }
{
    let mut buffer = Vec::with_capacity(alloc, parts.len())?;
    for part in parts {
        append_part(&mut buffer, bytes, part)?;
    }
    Ok(buffer)
}

// One instance.
fn append_part(buffer: &mut Vec<u8>, bytes: &[u8], part: &[u8]) -> Result<(), NoMemory>
    requires sized { length part.now ≡ 64 }
    requires limits { HasRoom bytes.now }
    ensures { OnOk result (buffer.new.items ≡ buffer.old.items ++ put_part bytes.now part.now) }
{
    let (front, _) = part.split_at(56);
    let reference = put_reference(bytes, &record_of(part));
    buffer.extend_from_slice(front)?;
    buffer.extend_from_slice(&reference.to_le_bytes())?;
    Ok(())
}

// The reference that is put in place of the number of a handle.
#[tactic(auto, unfolding(crate::specs::TopMeaning::put_reference))]
fn put_reference(bytes: &[u8], from: &InstanceRecord) -> u64
    requires { HasRoom bytes.now }
    ensures { result ≡ put_reference bytes.now from.now }
{
    if from.reference != 0 {
        not_zero(reference_in(bytes, from))
    } else {
        0
    }
}

// A number above 0: 1 in place of 0.
fn not_zero(reference: u64) -> u64
    ensures { result ≡ not_zero reference }
{
    if reference == 0 { 1 } else { reference }
}

// The reference of an active instance.
#[tactic(auto, unfolding(crate::specs::TopMeaning::reference_in))]
fn reference_in(bytes: &[u8], from: &InstanceRecord) -> u64
    requires { HasRoom bytes.now }
    ensures { result ≡ reference_in bytes.now from.now }
{
    handle(bytes, from.reference.saturating_sub(1)).unwrap_or(0)
}
