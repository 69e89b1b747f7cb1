ghost use Rattle.std.specs.Prelude.{◌≡◌, ◌++◌, IfOk, OnOk, map, string_bytes};
ghost use Rattle.std.specs.List.{flat_map};
ghost use Rattle.ray_cert.specs.Spelling.{digit_code, head_text, hit_text, kind_word, line_of};
ghost use Rattle.ray_cert.specs.Spelling.{string_text};

use crate::cert::{Cert, Digits};
use crate::named::Named;
use ray_flags::Kind;
use std::alloc::{AllocError as NoMemory, Global};

// The word of a kind.
fn kind_text(alloc: Global, kind: Kind) -> Result<String, NoMemory>
    ensures { IfOk result (λ text. string_bytes text ≡ kind_word kind) }
{
    match kind {
        Kind::Triangle => format!(in alloc; "tri"),
        Kind::Aabb => format!(in alloc; "box"),
    }
}

// A hit that is named.
#[tactic(auto, unfolding(crate::specs::Spelling::hit_text))]
fn named_text(alloc: Global, named: &Named) -> Result<String, NoMemory>
    ensures { IfOk result (λ text. string_bytes text ≡ hit_text (Some named.now)) }
{
    let kind = kind_text(alloc, named.kind)?;
    let (num, den) = named.t.lowest();
    let (instance, geometry, primitive) = (named.instance, named.geometry, named.primitive);
    format!(in alloc; "{kind} {instance} {geometry} {primitive} {num}/{den}")
}

// The hit that is named, if any.
#[tactic(auto, unfolding(crate::specs::Spelling::hit_text))]
fn hit_text(alloc: Global, named: Option<Named>) -> Result<String, NoMemory>
    ensures { IfOk result (λ text. string_bytes text ≡ hit_text named) }
{
    match named {
        None => format!(in alloc; "none"),
        Some(named) => named_text(alloc, &named),
    }
}

// What stands before the strings.
#[tactic(auto, unfolding(crate::specs::Spelling::head_text))]
fn head_text(
    alloc: Global,
    command: u32,
    ray: u32,
    named: Option<Named>,
) -> Result<String, NoMemory>
    ensures { IfOk result (λ text. string_bytes text ≡ head_text command ray named) }
{
    let hit = hit_text(alloc, named)?;
    format!(in alloc; "cert {command} {ray} {hit} |")
}

// A digit.
fn digit_code(digit: bool) -> u8
    ensures { result ≡ digit_code digit }
{
    if digit { b'1' } else { b'0' }
}

// Adds digits.
fn add_digits(line: &mut Vec<u8>, digits: &[bool]) -> Result<(), NoMemory>
    ensures { OnOk result (line.new.items ≡ line.old.items ++ map digit_code digits.now) }
{
    for digit in digits {
        line.push(digit_code(*digit))?;
    }
    Ok(())
}

// Adds a string after a space.
fn add_string(line: &mut Vec<u8>, digits: &[bool]) -> Result<(), NoMemory>
    ensures { OnOk result (line.new.items ≡ line.old.items ++ string_text digits.now) }
{
    line.push(b' ')?;
    if digits.is_empty() {
        line.push(b'-')?;
        return Ok(());
    }
    add_digits(line, digits)
}

// Adds all strings.
fn add_strings(line: &mut Vec<u8>, strings: &[Digits]) -> Result<(), NoMemory>
    ensures { OnOk result (line.new.items ≡ line.old.items ++ flat_map string_text strings.now) }
{
    for string in strings {
        add_string(line, string.as_slice())?;
    }
    Ok(())
}

/// The spelling of a certificate of the ray of a number in a trace command: `cert I K HIT |` and
/// after a space each string, `-` for an empty one. HIT is `none`, or `tri A B C N/D` or
/// `box A B C N/D` with the instance, the geometry, the primitive and the distance. (Own.)
///
/// # Errors
///
/// For want of memory alone.
pub fn write_cert(alloc: Global, cert: &Cert, command: u32, ray: u32) -> Result<Vec<u8>, NoMemory>
    ensures { IfOk result (λ line. line.items ≡ line_of command ray cert.now) }
{
    let head = head_text(alloc, command, ray, cert.named())?;
    let mut line = head.into_bytes();
    add_strings(&mut line, cert.strings())?;
    Ok(line)
}
