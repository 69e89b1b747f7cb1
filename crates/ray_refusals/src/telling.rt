ghost use Rattle.std.specs.Prelude.{◌≡◌, ◌++◌, IfOk, OnOk, string_bytes};
ghost use Rattle.ray_why.specs.Lines.{refusal_line};
ghost use Rattle.ray_refusals.specs.Told.{every_told, left_out, lines_of, refusals_text, unlooked};

use crate::every::Every;
use ray_cmd::Refusal;
use ray_why::refusal_line;
use std::alloc::{AllocError as NoMemory, Global};

// So many lines are written at most.
const MOST_LINES: usize = 1000;

// What stands above them.
const HEAD: &str = "all refusals, where each command is taken as it is; this is advice, since \
                    one that breaks a rule leaves no defined state:\n";

/// What is told of all refusals of a recording: a line for each, as `vkray check` writes it, those
/// of static rules before those of rules on hazards, 1,000 at most; and from where on no hazard is
/// looked for. (Own.)
///
/// # Errors
///
/// For want of memory alone.
pub fn every_text(alloc: Global, every: &Every) -> Result<String, NoMemory>
    ensures { IfOk result (λ text. string_bytes text ≡ every_told every.now) }
{
    let refusals = refusals_text(alloc, every)?;
    let left = left_out(alloc, every.statics.len() + every.hazards.len())?;
    let unlooked = unlooked(alloc, every)?;
    format!(in alloc; "{HEAD}{refusals}{left}{unlooked}")
}

// The lines of static rules, and after them those of rules on hazards.
fn refusals_text(alloc: Global, every: &Every) -> Result<String, NoMemory>
    ensures { IfOk result (λ text. string_bytes text ≡ refusals_text every.now) }
{
    let statics = lines_of(alloc, every.statics.as_slice(), MOST_LINES)?;
    let left = MOST_LINES.saturating_sub(every.statics.len());
    let hazards = lines_of(alloc, every.hazards.as_slice(), left)?;
    format!(in alloc; "{statics}{hazards}")
}

// The lines of so many refusals.
fn lines_of(alloc: Global, refusals: &[Refusal], most: usize) -> Result<String, NoMemory>
    ensures { IfOk result (λ text. string_bytes text ≡ lines_of refusals.now most) }
{
    let mut text = String::new(alloc);
    let count = refusals.len().min(most);
    for n in 0..count {
        write_line(alloc, &mut text, &refusals[n])?;
    }
    Ok(text)
}

// Puts the line of a refusal behind a text.
fn write_line(alloc: Global, text: &mut String, refusal: &Refusal) -> Result<(), NoMemory>
    ensures { OnOk result (string_bytes text.new
        ≡ string_bytes text.old ++ refusal_line refusal.now) }
{
    let line = refusal_line(alloc, refusal)?;
    text.push_str(line.as_str())
}

// How many are left out.
fn left_out(alloc: Global, count: usize) -> Result<String, NoMemory>
    ensures { IfOk result (λ text. string_bytes text ≡ left_out count) }
{
    if MOST_LINES < count {
        let more = count - MOST_LINES;
        format!(in alloc; "and {more} more\n")
    } else {
        Ok(String::new(alloc))
    }
}

// From where on no hazard is looked for, if that is before the end.
fn unlooked(alloc: Global, every: &Every) -> Result<String, NoMemory>
    ensures { IfOk result (λ text. string_bytes text ≡ unlooked every.now) }
{
    if every.going < every.commands {
        let from = every.going;
        format!(in alloc;
            "no hazard is looked for from command {from} on, which leaves no status\n"
        )
    } else {
        Ok(String::new(alloc))
    }
}
