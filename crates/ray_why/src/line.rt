ghost use Rattle.std.specs.Prelude.{◌≡◌, string_bytes, IfOk};
ghost use Rattle.ray_why.specs.Lines as lines;

use crate::reasons::Why;
use ray_bytes::DataRule;
use ray_cmd::{Place, Refusal, Rule};
use std::alloc::{AllocError as NoMemory, Global};

/// The first line: what `vkray check` writes of the same bytes, with a newline. Own.
///
/// # Errors
///
/// For want of memory alone.
pub fn first_line(alloc: Global, why: &Why) -> Result<String, NoMemory>
    ensures { IfOk result (λ line. string_bytes line ≡ lines.line_of why.now) }
{
    match why {
        Why::Kept => String::from_str(alloc, "ok\n"),
        Why::NotJson(_) => String::from_str(alloc, "not-json\n"),
        Why::BadShape(misshapen) => bad_shape_line(alloc, misshapen.command),
        Why::Refused(broken) => refusal_line(alloc, &broken.refusal),
    }
}

// The line of a command that has no shape of a command.
fn bad_shape_line(alloc: Global, command: u32) -> Result<String, NoMemory>
    ensures { IfOk result (λ line. string_bytes line ≡ lines.bad_shape_line command) }
{
    format!(in alloc; "bad-shape {command}\n")
}

/// The line of a refusal: `refused I RULE` and its place, and a newline. (Own.)
///
/// # Errors
///
/// For want of memory alone.
pub fn refusal_line(alloc: Global, refusal: &Refusal) -> Result<String, NoMemory>
    ensures { IfOk result (λ line. string_bytes line ≡ lines.refusal_line refusal.now) }
{
    let command = refusal.command;
    let rule = rule_text(alloc, refusal.rule)?;
    let place = place_text(alloc, refusal.place)?;
    format!(in alloc; "refused {command} {rule}{place}\n")
}

// A rule: `V` or `X` and its number.
fn rule_text(alloc: Global, rule: Rule) -> Result<String, NoMemory>
    ensures { IfOk result (λ text. string_bytes text ≡ lines.rule_text rule) }
{
    match rule {
        Rule::V(number) => format!(in alloc; "V{number}"),
        Rule::X(rule) => {
            let number = data_rule_number(rule);
            format!(in alloc; "X{number}")
        }
    }
}

// The number of a data rule.
fn data_rule_number(rule: DataRule) -> u8
    ensures { result ≡ lines.number_of rule }
{
    match rule {
        DataRule::X1 => 1,
        DataRule::X2 => 2,
        DataRule::X3 => 3,
        DataRule::X4 => 4,
        DataRule::X5 => 5,
        DataRule::X6 => 6,
        DataRule::X7 => 7,
        DataRule::X8 => 8,
        DataRule::X9 => 9,
        DataRule::X10 => 10,
        DataRule::X11 => 11,
        DataRule::X12 => 12,
        DataRule::X13 => 13,
    }
}

// A place, with the blank before it.
fn place_text(alloc: Global, place: Place) -> Result<String, NoMemory>
    ensures { IfOk result (λ text. string_bytes text ≡ lines.place_text place) }
{
    match place {
        Place::Whole => Ok(String::new(alloc)),
        Place::Part(part) => format!(in alloc; " at {part}"),
        Place::Geometry(info, geometry) => format!(in alloc; " at {info}.{geometry}"),
        Place::Element(info, geometry, element) => {
            format!(in alloc; " at {info}.{geometry}.{element}")
        }
        Place::Earlier(command) => format!(in alloc; " with {command}"),
    }
}
