ghost use Rattle.std.specs.Prelude.{◌≡◌, ◌≤◌, false, length, take};
ghost use Rattle.ray_top.specs.Contents.{has_both_fast};
ghost use Rattle.ray_form.specs.Form.{has_tree, has_other_form, body_in, payload_size};
ghost use Rattle.ray_form.specs.Form.{tree_part_in, ends_wrongly};
ghost use Rattle.ray_form.specs.Form.{handle_count_in, payload_in, is_top_payload};
ghost use Rattle.ray_form.specs.Form.{flags_of_payload, instances_of_payload};
ghost use Rattle.ray_form.specs.Rows.{row_total};
ghost use Rattle.ray_form.specs.Form.{geometry_count, row_of, has_other_size, lacks_room};
ghost use Rattle.ray_form.specs.Form.{at_most, or_else, bottom_total, top_total, has_flags};
ghost use Rattle.ray_form.specs.Form.{total_of_payload, has_other_structure_size};
ghost use Rattle.ray_form.specs.Form.{has_bad_element, broken_contents_line};
ghost use Rattle.ray_form.specs.Form.{broken_payload_line, broken_line};

use crate::fields::{long, word};
use crate::instances::are_instances;
use crate::rows::{are_sound, row_size, row_total};
use crate::texts::{DEVICE, FORM, FORM_2, lacks};
use bitflags::Flags;
use ray_bytes::sizes_of;
use ray_flags::BuildFlags;
use ray_tree_part::is_part;

/// The first of the eight lines of faults that bytes break.
#[tactic(auto, unfolding(crate::specs::Form::broken_line))]
pub fn broken_line(bytes: &[u8]) -> Option<u8>
    ensures { result ≡ broken_line bytes.now }
{
    if bytes.len() < 56 {
        return Some(1);
    }
    if lacks(&DEVICE, 0, bytes) {
        return Some(2);
    }
    if has_other_form(bytes) {
        return Some(3);
    }
    if has_other_size(bytes) {
        return Some(4);
    }
    if lacks_room(bytes) {
        return Some(5);
    }
    broken_payload_line(bytes)
}

/// Whether they are in form 2, which has a tree part after the elements.
#[tactic(auto, unfolding(crate::specs::Form::has_tree))]
pub fn has_tree(bytes: &[u8]) -> bool
    requires { 56 ≤ length bytes.now }
    ensures { result ≡ has_tree bytes.now }
{
    !lacks(&FORM_2, 16, bytes)
}

// Whether the second text is that of neither form.
#[tactic(auto, unfolding(crate::specs::Form::has_other_form))]
fn has_other_form(bytes: &[u8]) -> bool
    requires { 56 ≤ length bytes.now }
    ensures { result ≡ has_other_form bytes.now }
{
    lacks(&FORM, 16, bytes) && !has_tree(bytes)
}

// Whether the serialized size isn't the number of bytes.
#[tactic(auto, unfolding(crate::specs::Form::has_other_size))]
fn has_other_size(bytes: &[u8]) -> bool
    requires { 56 ≤ length bytes.now }
    ensures { result ≡ has_other_size bytes.now }
{
    long(bytes, 32) != bytes.len() as u64
}

/// How many handles there are.
#[tactic(auto, unfolding(crate::specs::Form::handle_count_in))]
pub fn handle_count_in(bytes: &[u8]) -> u64
    requires { 56 ≤ length bytes.now }
    ensures { result ≡ handle_count_in bytes.now }
{
    long(bytes, 48)
}

// Whether there are too many handles, or no room for them.
#[tactic(auto, unfolding(crate::specs::Form::lacks_room))]
fn lacks_room(bytes: &[u8]) -> bool
    requires { 56 ≤ length bytes.now }
    ensures { result ≡ lacks_room bytes.now }
{
    let count = handle_count_in(bytes);
    count > 65_536 || (bytes.len() as u64) < 56 + 8 * count + 16
}

// What follows the handles.
#[tactic(auto, unfolding(crate::specs::Form::body_in, crate::specs::Form::lacks_room))]
fn body_in(bytes: &[u8]) -> &[u8]
    requires whole { 56 ≤ length bytes.now }
    requires room { lacks_room bytes.now ≡ false }
    ensures value { result.now ≡ body_in bytes.now }
    ensures limits { 16 ≤ length result.now }
{
    let (_, body) = bytes.split_at(56 + 8 * handle_count_in(bytes) as usize);
    body
}

// How many bytes the payload takes where others follow it.
#[tactic(auto, unfolding(crate::specs::Form::payload_size, crate::specs::Form::row_of))]
fn payload_size(body: &[u8]) -> usize
    requires { 16 ≤ length body.now }
    ensures value { result ≡ payload_size body.now }
    ensures least { 16 ≤ result }
    ensures limits { result ≤ length body.now }
{
    16 + row_size(geometry_count(body), row_of(body))
}

/// The payload, without the tree part that follows it in form 2.
#[tactic(auto, unfolding(crate::specs::Form::payload_in))]
pub fn payload_in(bytes: &[u8]) -> &[u8]
    requires whole { 56 ≤ length bytes.now }
    requires room { lacks_room bytes.now ≡ false }
    ensures value { result.now ≡ payload_in bytes.now }
    ensures limits { 16 ≤ length result.now }
{
    let body = body_in(bytes);
    if has_tree(bytes) {
        front_of(body)
    } else {
        body
    }
}

// The payload, where others follow it.
fn front_of(body: &[u8]) -> &[u8]
    requires { 16 ≤ length body.now }
    ensures value { result.now ≡ take (payload_size body.now) body.now }
    ensures limits { 16 ≤ length result.now }
{
    let (front, _) = body.split_at(payload_size(body));
    front
}

/// The tree part, which follows the payload in form 2.
#[tactic(auto, unfolding(crate::specs::Form::tree_part_in))]
pub fn tree_part_in(bytes: &[u8]) -> &[u8]
    requires whole { 56 ≤ length bytes.now }
    requires room { lacks_room bytes.now ≡ false }
    ensures { result.now ≡ tree_part_in bytes.now }
{
    let body = body_in(bytes);
    let (_, part) = body.split_at(payload_size(body));
    part
}

/// Whether it is that of a top structure.
#[tactic(auto, unfolding(crate::specs::Form::is_top_payload))]
pub fn is_top_payload(payload: &[u8]) -> bool
    requires { 16 ≤ length payload.now }
    ensures { result ≡ is_top_payload payload.now }
{
    word(payload, 0) == 1
}

/// The flags of its build.
#[tactic(auto, unfolding(crate::specs::Form::flags_of_payload))]
pub fn flags_of_payload(payload: &[u8]) -> BuildFlags
    requires { 16 ≤ length payload.now }
    ensures { result ≡ flags_of_payload payload.now }
{
    BuildFlags(word(payload, 4))
}

/// How many geometries it has.
#[tactic(auto, unfolding(crate::specs::Form::geometry_count))]
pub fn geometry_count(payload: &[u8]) -> u32
    requires { 16 ≤ length payload.now }
    ensures { result ≡ geometry_count payload.now }
{
    word(payload, 8)
}

/// Its geometries.
#[tactic(auto, unfolding(crate::specs::Form::row_of))]
pub fn row_of(payload: &[u8]) -> &[u8]
    requires { 16 ≤ length payload.now }
    ensures { result.now ≡ row_of payload.now }
{
    let (_, row) = payload.split_at(16);
    row
}

/// The instances of a top structure.
#[tactic(auto, unfolding(crate::specs::Form::instances_of_payload))]
pub fn instances_of_payload(payload: &[u8]) -> &[u8]
    ensures { result.now ≡ instances_of_payload payload.now }
{
    let (_, instances) = payload.split_at(48_usize.min(payload.len()));
    instances
}

// A number, where it is at most this.
fn at_most(greatest: u32, number: Option<u64>) -> Option<u32>
    ensures { result ≡ at_most greatest number }
{
    match number {
        Some(n) => {
            if n <= u64::from(greatest) {
                Some(n as u32)
            } else {
                None
            }
        }
        None => None,
    }
}

// How many elements the geometries of a bottom structure have.
#[tactic(auto, unfolding(crate::specs::Form::bottom_total))]
fn bottom_total(payload: &[u8]) -> Option<u32>
    requires { 16 ≤ length payload.now }
    ensures { result ≡ bottom_total payload.now }
{
    let count = geometry_count(payload);
    if count <= 256 {
        at_most(1_048_576, bottom_row_total(count, row_of(payload)))
    } else {
        None
    }
}

// The same of geometries of either kind.
fn bottom_row_total(n: u32, row: &[u8]) -> Option<u64>
    ensures { result ≡ or_else (row_total 0 n row.now) (row_total 1 n row.now) }
{
    match row_total(0, n, row) {
        Some(total) => Some(total),
        None => row_total(1, n, row),
    }
}

// How many instances a top structure has.
#[tactic(auto, unfolding(crate::specs::Form::top_total))]
fn top_total(payload: &[u8]) -> Option<u32>
    requires { 16 ≤ length payload.now }
    ensures { result ≡ top_total payload.now }
{
    if geometry_count(payload) == 1 {
        at_most(65_536, row_total(2, 1, row_of(payload)))
    } else {
        None
    }
}

// Whether flags ask both for fast traces and for fast builds.
fn has_both_fast(flags: BuildFlags) -> bool
    ensures { result ≡ has_both_fast flags }
{
    flags.contains(BuildFlags::PREFER_FAST_TRACE) && flags.contains(BuildFlags::PREFER_FAST_BUILD)
}

// Whether the payload's head has flags of a build, and its last word is 0.
#[tactic(auto, unfolding(crate::specs::Form::has_flags))]
fn has_flags(payload: &[u8]) -> bool
    requires { 16 ≤ length payload.now }
    ensures { result ≡ has_flags payload.now }
{
    word(payload, 4) < 32 && !has_both_fast(flags_of_payload(payload)) && word(payload, 12) == 0
}

// How many elements the payload has, where it is that of a structure.
#[tactic(auto, unfolding(crate::specs::Form::total_of_payload))]
fn total_of_payload(handles: u64, payload: &[u8]) -> Option<u32>
    requires { 16 ≤ length payload.now }
    ensures { result ≡ total_of_payload handles payload.now }
{
    if has_flags(payload) {
        if word(payload, 0) == 0 {
            if handles == 0 {
                bottom_total(payload)
            } else {
                None
            }
        } else if word(payload, 0) == 1 {
            top_total(payload)
        } else {
            None
        }
    } else {
        None
    }
}

// Whether form 2 is that of a top structure, or what follows the elements hasn't the size of a tree
// part.
#[tactic(auto, unfolding(crate::specs::Form::ends_wrongly))]
fn ends_wrongly(bytes: &[u8]) -> bool
    requires whole { 56 ≤ length bytes.now }
    requires room { lacks_room bytes.now ≡ false }
    ensures { result ≡ ends_wrongly bytes.now }
{
    has_tree(bytes) && (is_top_payload(payload_in(bytes)) || !is_part(tree_part_in(bytes)))
}

// Whether the deserialized size isn't that of a structure of these geometries and elements.
#[tactic(auto, unfolding(crate::specs::Form::has_other_structure_size))]
fn has_other_structure_size(size: u64, geometries: u32, total: u32) -> bool
    ensures { result ≡ has_other_structure_size size geometries total }
{
    size != sizes_of(geometries, total).structure
}

// Whether an element stands for none.
#[tactic(auto, unfolding(crate::specs::Form::has_bad_element))]
fn has_bad_element(handles: u64, payload: &[u8]) -> bool
    requires { 16 ≤ length payload.now }
    ensures { result ≡ has_bad_element handles payload.now }
{
    if is_top_payload(payload) {
        !are_instances(handles, instances_of_payload(payload))
    } else {
        !are_sound(geometry_count(payload), row_of(payload))
    }
}

// The first of the lines 7 and 8 that bytes break.
#[tactic(auto, unfolding(crate::specs::Form::broken_contents_line))]
fn broken_contents_line(bytes: &[u8], total: u32) -> Option<u8>
    requires whole { 56 ≤ length bytes.now }
    requires room { lacks_room bytes.now ≡ false }
    ensures { result ≡ broken_contents_line bytes.now total }
{
    let payload = payload_in(bytes);
    if has_other_structure_size(long(bytes, 40), geometry_count(payload), total) {
        return Some(7);
    }
    if has_bad_element(handle_count_in(bytes), payload) {
        return Some(8);
    }
    None
}

// The first of the lines 6 to 8 that bytes break.
#[tactic(auto, unfolding(crate::specs::Form::broken_payload_line))]
fn broken_payload_line(bytes: &[u8]) -> Option<u8>
    requires whole { 56 ≤ length bytes.now }
    requires room { lacks_room bytes.now ≡ false }
    ensures { result ≡ broken_payload_line bytes.now }
{
    if ends_wrongly(bytes) {
        return Some(6);
    }
    match total_of_payload(handle_count_in(bytes), payload_in(bytes)) {
        Some(total) => broken_contents_line(bytes, total),
        None => Some(6),
    }
}
