use ray_serial::{SerialFault, SerialView, StoredFault, serialize, serialize_form_2};
use std::alloc::{AllocError, Global};
use std::test::Fail;
use std::thread::Threads;

// The form of one opaque triangle (0,0,0), (4,0,0), (0,4,0), in the format s32x3 without indices.
const TEXTS: &[u8] = b"vkray-software-1vkray-form-00001";

const SIZES: [u64; 3] = [152, 512, 0];

const WORDS: [u32; 24] = [
    0, 0, 1, 0, //
    0, 1, 0, 0, 1, 0, 0, 0, //
    0, 0, 0, 4, 0, 0, 0, 4, 0, 0, 0, 0,
];

// The bytes of words.
fn bytes_of(alloc: Global, words: &[u32]) -> Result<Vec<u8>, AllocError> {
    let mut bytes = Vec::new(alloc);
    for word in words {
        bytes.extend_from_slice(&word.to_le_bytes())?;
    }
    Ok(bytes)
}

// The 152 bytes.
fn form(alloc: Global) -> Result<Vec<u8>, AllocError> {
    let mut bytes = Vec::new(alloc);
    bytes.extend_from_slice(TEXTS)?;
    for size in &SIZES {
        bytes.extend_from_slice(&size.to_le_bytes())?;
    }
    bytes.extend_from_slice(bytes_of(alloc, &WORDS)?.as_slice())?;
    Ok(bytes)
}

// The same in form 2.
const TEXTS_2: &[u8] = b"vkray-software-1vkray-form-00002";

const SIZES_2: [u64; 3] = [196, 512, 0];

// Its tree part: one leaf from (0,0,0) to (4,4,0) over item 0.
const PART: [u32; 11] = [1, 1, 0, 0, 0, 4, 4, 0, 1, 0, 0];

// The 196 bytes.
fn form_2(alloc: Global) -> Result<Vec<u8>, AllocError> {
    let mut bytes = Vec::new(alloc);
    bytes.extend_from_slice(TEXTS_2)?;
    for size in &SIZES_2 {
        bytes.extend_from_slice(&size.to_le_bytes())?;
    }
    bytes.extend_from_slice(bytes_of(alloc, &WORDS)?.as_slice())?;
    bytes.extend_from_slice(bytes_of(alloc, &PART)?.as_slice())?;
    Ok(bytes)
}

// The fault of bytes, if they aren't a form.
fn fault_of(bytes: &[u8]) -> u8 {
    match SerialView::open(bytes) {
        Ok(_) => 0,
        Err(SerialFault(line)) => line,
    }
}

// Cut short, the form breaks line 1 and then line 4.
#[test]
fn refuses_what_is_cut(rt: HostRuntime) -> Result<(), Fail> {
    let bytes = form(rt.alloc())?;
    for n in 0..bytes.len() {
        let want = if n < 56 { 1 } else { 4 };
        assert!(rt; fault_of(&bytes.as_slice()[..n]) == want, "{n}");
    }
    assert!(rt; fault_of(bytes.as_slice()) == 0);
    Ok(())
}

// Whether bytes are refused, are a form 2 that carries no tree, or are a form that is written again
// as it was.
fn refused_or_again<R: AllocGlobal + Threads + Sync>(
    rt: &R,
    bytes: &[u8],
) -> Result<bool, AllocError> {
    match SerialView::open(bytes) {
        Ok(view) => {
            if view.is_top() {
                return Ok(false);
            }
            match view.to_bottom(rt, rt.alloc()) {
                Ok(bottom) => {
                    let first = serialize(rt.alloc(), &bottom)?;
                    let second = serialize_form_2(rt.alloc(), &bottom)?;
                    Ok(first.as_slice() == bytes || second.as_slice() == bytes)
                }
                Err(StoredFault::BadTree) => Ok(true),
                Err(StoredFault::NoMemory) => Err(AllocError),
            }
        }
        Err(_) => Ok(true),
    }
}

// Each bit of the form changed: refused, or written again as it was.
#[test]
fn keeps_each_changed_bit(rt: HostRuntime) -> Result<(), Fail> {
    let mut bytes = form(rt.alloc())?;
    assert!(rt; refused_or_again(&rt, bytes.as_slice())?);
    for at in 0..bytes.len() {
        for bit in 0..8_u32 {
            let whole = bytes.as_slice()[at];
            bytes[at] = whole ^ (1 << bit);
            assert!(rt; refused_or_again(&rt, bytes.as_slice())?, "{at} {bit}");
            bytes[at] = whole;
        }
    }
    Ok(())
}

// The same of form 2. A tree part with another bit is none, since one item has one tree.
#[test]
fn keeps_each_changed_bit_of_form_2(rt: HostRuntime) -> Result<(), Fail> {
    let mut bytes = form_2(rt.alloc())?;
    assert!(rt; refused_or_again(&rt, bytes.as_slice())?);
    for at in 0..bytes.len() {
        for bit in 0..8_u32 {
            let whole = bytes.as_slice()[at];
            bytes[at] = whole ^ (1 << bit);
            assert!(rt; refused_or_again(&rt, bytes.as_slice())?, "{at} {bit}");
            bytes[at] = whole;
        }
    }
    Ok(())
}

// A count of handles of 2^64 - 1.
#[test]
fn refuses_a_hostile_count(rt: HostRuntime) -> Result<(), Fail> {
    let mut bytes = form(rt.alloc())?;
    for at in 48..56 {
        if at < bytes.len() {
            bytes[at] = 255;
        }
    }
    assert!(rt; fault_of(bytes.as_slice()) == 5);
    Ok(())
}
