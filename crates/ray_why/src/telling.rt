ghost use Rattle.std.specs.Prelude.{◌≡◌, ◌++◌, IfOk, List, codes, string_bytes, ℕ};
ghost use Rattle.ray_shape.specs.Pointer.{pointer_of};
ghost use Rattle.ray_why.specs.Lines.{line_of};
ghost use Rattle.ray_told.specs.Builds.{misbuilt_told};
ghost use Rattle.ray_told.specs.Causes.{cause_told};
ghost use Rattle.ray_told.specs.Conflicts.{conflict_told};
ghost use Rattle.ray_told.specs.Crowds.{crowd_told};
ghost use Rattle.ray_told.specs.Ends.{end_told};
ghost use Rattle.ray_told.specs.Grounds.{ground_told};
ghost use Rattle.ray_told.specs.Limits.{limit_told};
ghost use Rattle.ray_told.specs.Misfits.{misfit_told};
ghost use Rattle.ray_told.specs.Updates.{update_told};
ghost use Rattle.ray_why.specs.Told.{counted_told, further_told, parts_told, place_of, rule_told};
ghost use Rattle.ray_why.specs.Told.{static_told, told_last};

use crate::line::first_line;
use crate::reasons::{Broken, Misshapen, Why};
use crate::sentences::sentence;
use crate::wanted::wanted_words;
use ray_builds::Misbuilt;
use ray_causes::Cause;
use ray_conflicts::Conflict;
use ray_crowds::Crowd;
use ray_grounds::Ground;
use ray_kinds::Misfit;
use ray_limits::Limit;
use ray_rules::Phase;
use ray_shape::{ShapeFault, Wrong, pointer_text};
use ray_told::{
    cause_text, clash_told, conflict_text, crowd_text, end_text, ground_text, limit_text,
    misbuilt_text, misfit_text, update_text,
};
use ray_updates::Update;
use std::alloc::{AllocError as NoMemory, Global};

/// What is told of a recording: the first line, below it why in words, and last by what member of
/// the command a static rule is broken. Own.
///
/// # Errors
///
/// For want of memory alone.
pub fn told(alloc: Global, why: &Why) -> Result<String, NoMemory>
    ensures { IfOk result (λ text. (words : List ℕ)
        × (string_bytes text ≡ line_of why.now ++ (words ++ told_last why.now))) }
{
    let first = first_line(alloc, why)?;
    let words = words_on(alloc, why)?;
    let last = causes_of(alloc, why)?;
    joined(alloc, first.as_str(), words.as_str(), last.as_str())
}

// Three texts, one after the other.
fn joined(alloc: Global, first: &str, words: &str, last: &str) -> Result<String, NoMemory>
    ensures { IfOk result (λ text. string_bytes text ≡ first.now ++ (words.now ++ last.now)) }
{
    format!(in alloc; "{first}{words}{last}")
}

// What stands below the first line, in words.
fn words_on(alloc: Global, why: &Why) -> Result<String, NoMemory> {
    match why {
        Why::Kept => Ok(String::new(alloc)),
        Why::NotJson(words) => format!(in alloc; "{words}\n"),
        Why::BadShape(misshapen) => shape_facts(alloc, misshapen),
        Why::Refused(broken) => {
            let sentence = sentence(broken.refusal.rule);
            format!(in alloc; "{sentence}\n")
        }
    }
}

// What is told last: by what a static rule is broken.
fn causes_of(alloc: Global, why: &Why) -> Result<String, NoMemory>
    ensures { IfOk result (λ text. string_bytes text ≡ told_last why.now) }
{
    match why {
        Why::Refused(broken) => by_rule(alloc, broken),
        _ => Ok(String::new(alloc)),
    }
}

// The same of the command for which a recording is refused.
fn by_rule(alloc: Global, broken: &Broken) -> Result<String, NoMemory>
    ensures { IfOk result (λ text. string_bytes text ≡ rule_told broken.now) }
{
    let static_text = by_static_rule(alloc, broken)?;
    let clash = clash_told(alloc, broken.refusal, &broken.clash)?;
    both(alloc, static_text.as_str(), clash.as_str())
}

// Two texts, one after the other.
fn both(alloc: Global, first: &str, second: &str) -> Result<String, NoMemory>
    ensures { IfOk result (λ text. string_bytes text ≡ first.now ++ second.now) }
{
    format!(in alloc; "{first}{second}")
}

// The same by what a static rule compares.
fn by_static_rule(alloc: Global, broken: &Broken) -> Result<String, NoMemory>
    ensures { IfOk result (λ text. string_bytes text ≡ static_told broken.now) }
{
    let cause = cause_of(alloc, broken.refusal.command, broken.cause)?;
    let ground = ground_of(alloc, broken.refusal.command, broken.grounds)?;
    let further = further(alloc, broken)?;
    joined(alloc, cause.as_str(), ground.as_str(), further.as_str())
}

// The same by numbers, kinds and flags.
fn further(alloc: Global, broken: &Broken) -> Result<String, NoMemory>
    ensures { IfOk result (λ text. string_bytes text ≡ further_told broken.now) }
{
    let limit = limit_of(alloc, broken.refusal.command, broken.limits)?;
    let misfit = misfit_of(alloc, broken.refusal.command, broken.misfits)?;
    let counted = counted(alloc, broken)?;
    joined(alloc, limit.as_str(), misfit.as_str(), counted.as_str())
}

// The same by counts, by the source of an update, by parts that conflict and by geometries.
fn counted(alloc: Global, broken: &Broken) -> Result<String, NoMemory>
    ensures { IfOk result (λ text. string_bytes text ≡ counted_told broken.now) }
{
    let crowd = crowd_of(alloc, broken.refusal.command, broken.crowds)?;
    let update = update_of(alloc, broken.refusal.command, broken.updates)?;
    let parts = parts(alloc, broken)?;
    joined(alloc, crowd.as_str(), update.as_str(), parts.as_str())
}

// The same by parts that conflict, by geometries and of the end.
fn parts(alloc: Global, broken: &Broken) -> Result<String, NoMemory>
    ensures { IfOk result (λ text. string_bytes text ≡ parts_told broken.now) }
{
    let conflict = conflict_of(alloc, broken.refusal.command, broken.conflicts)?;
    let misbuilt = misbuilt_of(alloc, broken.refusal.command, broken.builds)?;
    let end = end_of(alloc, broken.unfinished)?;
    joined(alloc, conflict.as_str(), misbuilt.as_str(), end.as_str())
}

// The same of the end, where it is refused.
fn end_of(alloc: Global, found: Option<Phase>) -> Result<String, NoMemory>
    ensures { IfOk result (λ text. string_bytes text ≡ end_told found) }
{
    match found {
        Some(found) => end_text(alloc, found),
        None => Ok(String::new(alloc)),
    }
}

// The same of a command, where a cause is known.
fn cause_of(alloc: Global, command: u32, cause: Option<Cause>) -> Result<String, NoMemory>
    ensures { IfOk result (λ text. string_bytes text ≡ cause_told command cause) }
{
    match cause {
        Some(cause) => cause_text(alloc, command, cause),
        None => Ok(String::new(alloc)),
    }
}

// The same of a ground, where one is known.
fn ground_of(alloc: Global, command: u32, basis: Option<Ground>) -> Result<String, NoMemory>
    ensures { IfOk result (λ text. string_bytes text ≡ ground_told command basis) }
{
    match basis {
        Some(basis) => ground_text(alloc, command, basis),
        None => Ok(String::new(alloc)),
    }
}

// The same of a limit, where one is known.
fn limit_of(alloc: Global, command: u32, limit: Option<Limit>) -> Result<String, NoMemory>
    ensures { IfOk result (λ text. string_bytes text ≡ limit_told command limit) }
{
    match limit {
        Some(limit) => limit_text(alloc, command, limit),
        None => Ok(String::new(alloc)),
    }
}

// The same of what doesn't fit, where that is known.
fn misfit_of(alloc: Global, command: u32, misfit: Option<Misfit>) -> Result<String, NoMemory>
    ensures { IfOk result (λ text. string_bytes text ≡ misfit_told command misfit) }
{
    match misfit {
        Some(misfit) => misfit_text(alloc, command, misfit),
        None => Ok(String::new(alloc)),
    }
}

// The same of that of which there is too much, where it is known.
fn crowd_of(alloc: Global, command: u32, crowd: Option<Crowd>) -> Result<String, NoMemory>
    ensures { IfOk result (λ text. string_bytes text ≡ crowd_told command crowd) }
{
    match crowd {
        Some(crowd) => crowd_text(alloc, command, crowd),
        None => Ok(String::new(alloc)),
    }
}

// The same of an update that differs from its source, where it is known.
fn update_of(alloc: Global, command: u32, update: Option<Update>) -> Result<String, NoMemory>
    ensures { IfOk result (λ text. string_bytes text ≡ update_told command update) }
{
    match update {
        Some(update) => update_text(alloc, command, update),
        None => Ok(String::new(alloc)),
    }
}

// The same of parts that conflict, where they are known.
fn conflict_of(alloc: Global, command: u32, conflict: Option<Conflict>) -> Result<String, NoMemory>
    ensures { IfOk result (λ text. string_bytes text ≡ conflict_told command conflict) }
{
    match conflict {
        Some(conflict) => conflict_text(alloc, command, conflict),
        None => Ok(String::new(alloc)),
    }
}

// The same of what a structure is built of, where that is known.
fn misbuilt_of(alloc: Global, command: u32, misbuilt: Option<Misbuilt>) -> Result<String, NoMemory>
    ensures { IfOk result (λ text. string_bytes text ≡ misbuilt_told command misbuilt) }
{
    match misbuilt {
        Some(misbuilt) => misbuilt_text(alloc, command, misbuilt),
        None => Ok(String::new(alloc)),
    }
}

// What is wrong with a command without a shape.
fn shape_facts(alloc: Global, misshapen: &Misshapen) -> Result<String, NoMemory> {
    match &misshapen.fault {
        ShapeFault::NoList => String::from_str(alloc, "wanted: a list of commands\n"),
        ShapeFault::TooMany => String::from_str(alloc, TOO_MANY),
        ShapeFault::Wrong(wrong) => match &misshapen.found {
            Some(found) => place_facts(alloc, wrong, found.as_str()),
            None => place_facts(alloc, wrong, "nothing"),
        },
    }
}

// What is told where the command itself is read.
const TOO_MANY: &str = "a recording has at most 65536 commands, whose lists have at most 67108864 \
                        members together\n";

// What is told of a place that is wrong: its pointer, what stands there and what is wanted.
fn place_facts(alloc: Global, wrong: &Wrong, found: &str) -> Result<String, NoMemory>
    ensures { IfOk result (λ text. (words : List ℕ)
        × (string_bytes text ≡ place_of (pointer_of wrong.now.path.items) found.now words)) }
{
    let pointer = pointer_text(alloc, wrong.path.as_slice())?;
    let words = wanted_words(wrong.wanted);
    place_text(alloc, pointer.as_str(), found, words)
}

// The same of three texts.
fn place_text(alloc: Global, pointer: &str, found: &str, words: &str) -> Result<String, NoMemory>
    ensures { IfOk result (λ text. string_bytes text
        ≡ place_of pointer.now found.now words.now) }
{
    format!(in alloc; "at: {pointer}\nfound: {found}\nwanted: {words}\n")
}
