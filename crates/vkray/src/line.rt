ghost use Rattle.std.specs.Prelude.{◌≡◌, string_bytes, IfOk};
ghost use Rattle.vkray.specs.Lines as lines;

use ray_bytes::DataRule;
use ray_certify::Verdict;
use ray_cmd::{Place, Refusal, Rule};
use std::alloc::{AllocError as NoMemory, Global};

// The line of a command that has no shape of a command.
pub(crate) fn bad_shape_line(alloc: Global, command: u32) -> Result<String, NoMemory>
    ensures { IfOk result (λ line. string_bytes line ≡ lines.bad_shape_line command) }
{
    format!(in alloc; "bad-shape {command}\n")
}

// The line of the first entry of `tables` that is bad.
pub(crate) fn bad_table_line(alloc: Global, entry: u32) -> Result<String, NoMemory>
    ensures { IfOk result (λ line. string_bytes line ≡ lines.bad_table_line entry) }
{
    format!(in alloc; "bad-table {entry}\n")
}

// The line of the first entry of `submits` that is bad.
pub(crate) fn bad_submits_line(alloc: Global, entry: u32) -> Result<String, NoMemory>
    ensures { IfOk result (λ line. string_bytes line ≡ lines.bad_submits_line entry) }
{
    format!(in alloc; "bad-submits {entry}\n")
}

// The line of a verdict on so many lines: `yes N`, or `no I K`.
pub(crate) fn verdict_line(
    alloc: Global,
    count: usize,
    verdict: Verdict,
) -> Result<String, NoMemory>
    ensures { IfOk result (λ line. string_bytes line ≡ lines.verdict_line count verdict) }
{
    match verdict {
        Verdict::Certified => format!(in alloc; "yes {count}\n"),
        Verdict::Uncertified { command, ray } => format!(in alloc; "no {command} {ray}\n"),
    }
}

/// The line of a refusal: `refused I RULE` and its place, and a newline. (Own.)
///
/// # Errors
///
/// For want of memory alone.
pub fn refusal_line(alloc: Global, refusal: &Refusal) -> Result<String, NoMemory>
    ensures { IfOk result (λ line. string_bytes line ≡ lines.refusal_line refusal.now) }
{
    let command = refusal.command;
    let rule = rule_text(alloc, refusal.rule)?;
    let place = place_text(alloc, refusal.place)?;
    format!(in alloc; "refused {command} {rule}{place}\n")
}

// A rule: `V` or `X` and its number.
fn rule_text(alloc: Global, rule: Rule) -> Result<String, NoMemory>
    ensures { IfOk result (λ text. string_bytes text ≡ lines.rule_text rule) }
{
    match rule {
        Rule::V(number) => format!(in alloc; "V{number}"),
        Rule::X(rule) => {
            let number = data_rule_number(rule);
            format!(in alloc; "X{number}")
        }
    }
}

// The number of a data rule.
fn data_rule_number(rule: DataRule) -> u8
    ensures { result ≡ lines.number_of rule }
{
    match rule {
        DataRule::X1 => 1,
        DataRule::X2 => 2,
        DataRule::X3 => 3,
        DataRule::X4 => 4,
        DataRule::X5 => 5,
        DataRule::X6 => 6,
        DataRule::X7 => 7,
        DataRule::X8 => 8,
        DataRule::X9 => 9,
        DataRule::X10 => 10,
        DataRule::X11 => 11,
        DataRule::X12 => 12,
        DataRule::X13 => 13,
    }
}

// A place, with the blank before it.
fn place_text(alloc: Global, place: Place) -> Result<String, NoMemory>
    ensures { IfOk result (λ text. string_bytes text ≡ lines.place_text place) }
{
    match place {
        Place::Whole => Ok(String::new(alloc)),
        Place::Part(part) => format!(in alloc; " at {part}"),
        Place::Geometry(info, geometry) => format!(in alloc; " at {info}.{geometry}"),
        Place::Element(info, geometry, element) => {
            format!(in alloc; " at {info}.{geometry}.{element}")
        }
        Place::Earlier(command) => format!(in alloc; " with {command}"),
    }
}
