ghost use Rattle.std.specs.Prelude.{◌≡◌, ◌++◌, IfOk, OnOk, decimal, option_map, string_bytes};
ghost use Rattle.serde_json.specs.View.{view};
ghost use Rattle.ray_shape.specs.Pointer.{pointer_of, token_of};
ghost use Rattle.ray_shape.specs.Wrong.{stands, step};

use crate::wrong::Step;
use itoa::Buffer;
use serde_json::Value;
use std::alloc::{AllocError as NoMemory, Global};

/// A path as a JSON pointer (RFC 6901), as `/8/infos/0/dst`. A `/` or a `~` within a name stands as
/// it is: no name of the grammar has one.
///
/// # Errors
///
/// For want of memory alone.
pub fn pointer_text(alloc: Global, path: &[Step]) -> Result<String, NoMemory>
    ensures { IfOk result (λ text. string_bytes text ≡ pointer_of path.now) }
{
    let mut text = String::new(alloc);
    for step in path {
        push_step(&mut text, step)?;
    }
    Ok(text)
}

// Puts one more step at the end.
fn push_step(text: &mut String, step: &Step) -> Result<(), NoMemory>
    ensures { OnOk result (string_bytes text.new ≡ string_bytes text.old ++ token_of step.now) }
{
    text.push_str("/")?;
    match step {
        Step::Member(name) => text.push_str(name.as_str()),
        Step::Item(number) => push_number(text, *number),
    }
}

// Puts a number at the end, in decimal digits.
fn push_number(text: &mut String, number: usize) -> Result<(), NoMemory>
    ensures { OnOk result (string_bytes text.new ≡ string_bytes text.old ++ decimal number) }
{
    let mut buffer = Buffer::new();
    text.push_str(buffer.format(number))
}

/// What stands at the end of a path into a value. None where nothing does.
pub fn value_at<'a>(value: &'a Value, path: &[Step]) -> Option<&'a Value>
    ensures { option_map (λ v. view v.now) result ≡ stands path.now (view value.now) }
{
    let mut here = value;
    for step in path {
        here = part_of(here, step)?;
    }
    Some(here)
}

// What is one step into a value.
fn part_of<'a>(value: &'a Value, by: &Step) -> Option<&'a Value>
    ensures { option_map (λ v. view v.now) result ≡ step by.now (view value.now) }
{
    match by {
        Step::Member(name) => value.get(name.as_str()),
        Step::Item(number) => value.get(*number),
    }
}
