ghost use Rattle.std.specs.Prelude.{◌≡◌, IfErr, IfOk, Some, is_some};
ghost use Rattle.ray_cmd.specs.Json.{json_of};
ghost use Rattle.serde_json.specs.View.{view};
ghost use Rattle.ray_rules.specs.Order.{barriers};
ghost use Rattle.ray_rules.specs.Verdict.{rule_refusal};
ghost use Rattle.ray_shape.specs.Wrong.{stands};
ghost use Rattle.ray_why.specs.Reasons.{AreFound, IsMisshapen, IsOfError, IsUnread};
ghost use Rattle.ray_why.specs.Reasons.{IsOfRules, IsWhy, IsWhyOf};

use crate::rules::Rules;
use ray_builds::{Misbuilt, misbuilt_of};
use ray_causes::{Cause, cause_of};
use ray_clash::{Clash, clash_of};
use ray_cmd::{Recording, RecordingFault, Refusal, recording_of};
use ray_conflicts::{Conflict, conflict_of};
use ray_crowds::{Crowd, crowd_of};
use ray_grounds::{Ground, ground_of, unfinished_of};
use ray_kinds::{Misfit, misfit_of};
use ray_limits::{Limit, limit_of};
use ray_rules::Phase;
use ray_shape::{ShapeFault, Step, shape_fault, value_at};
use ray_updates::{Update, update_of};
use serde_json::{Error, Value};
use std::alloc::{AllocError as NoMemory, Global};

/// Why a recording is refused, or that it isn't. (Own.)
#[derive(Debug, Drop)]
pub enum Why {
    /// It breaks no rule V1 to V32.
    Kept,
    /// It is no JSON: the reader's own words, with the line and the column.
    NotJson(String),
    /// A command has no shape of a command.
    BadShape(Misshapen),
    /// A command breaks a rule.
    Refused(Broken),
}

/// The first command that breaks a rule. (Own.)
#[derive(Debug, Drop)]
pub struct Broken {
    /// Its least rule that is broken, with the place.
    pub refusal: Refusal,
    /// By what it breaks a static rule, where that is told: of V1, V3, V4, V5 and V12.
    pub cause: Option<Cause>,
    /// The same of V13, V14, V17, V18, V20, V21, V28, V29 and V30.
    pub grounds: Option<Ground>,
    /// The same of V2, V6, V11 and V31.
    pub limits: Option<Limit>,
    /// The same of V7, V9, V19, V22 and V24, and of V3 where a buffer is made or read.
    pub misfits: Option<Misfit>,
    /// The same of V10 and V23.
    pub crowds: Option<Crowd>,
    /// The same of V15.
    pub updates: Option<Update>,
    /// The same of V16.
    pub conflicts: Option<Conflict>,
    /// The same of V8, which is always told.
    pub builds: Option<Misbuilt>,
    /// In which state the command buffer is at the end, where the end is refused; always told.
    pub unfinished: Option<Phase>,
    /// By which accesses it is at odds with an earlier command: of V25, V26, V27 and V32.
    pub clash: Option<Clash>,
}

/// The first command that has no shape of a command. (Own.)
#[derive(Debug, Drop)]
pub struct Misshapen {
    /// Its number, from 0.
    pub command: u32,
    /// What is wrong with it.
    pub fault: ShapeFault,
    /// The JSON of what stands at the place that is wrong, if anything does: of more than 60
    /// characters the first 60.
    pub found: Option<String>,
}

/// Why the bytes of a recording are refused, or that they aren't, where `R` decides the rules. Own.
///
/// # Errors
///
/// For want of memory alone.
pub fn why_of<R: Rules>(alloc: Global, bytes: &[u8]) -> Result<Why, NoMemory>
    ensures { IfOk result (λ why. IsWhy why bytes.now) }
{
    match json(alloc, bytes) {
        Ok(value) => of_value::<R>(alloc, &value),
        Err(Unread::NotJson(words)) => Ok(Why::NotJson(words)),
        Err(Unread::NoMemory) => Err(NoMemory),
    }
}

// Why bytes have no JSON value.
#[derive(Drop)]
enum Unread {
    // They are no JSON, in the reader's own words.
    NotJson(String),
    // There was no memory to tell.
    NoMemory,
}

// The JSON value of bytes.
fn json(alloc: Global, bytes: &[u8]) -> Result<Value, Unread>
    ensures ok { IfOk result (λ v. json_of bytes.now ≡ Some (view v)) }
    ensures err { IfErr result (λ e. IsUnread e (json_of bytes.now)) }
{
    match Value::from_slice(alloc, bytes) {
        Ok(value) => Ok(value),
        Err(error) => Err(told_by(alloc, &error)),
    }
}

// What an error of the reader says, in its own words, if it isn't want of memory.
fn told_by(alloc: Global, error: &Error) -> Unread
    ensures { IsOfError result error.now }
{
    if error.is_memory() {
        return Unread::NoMemory;
    }
    match words_of(alloc, error) {
        Ok(words) => Unread::NotJson(words),
        Err(NoMemory) => Unread::NoMemory,
    }
}

// The words of an error, with its line and column.
fn words_of(alloc: Global, error: &Error) -> Result<String, NoMemory> {
    format!(in alloc; "{error}")
}

// Why a JSON value is refused.
fn of_value<R: Rules>(alloc: Global, value: &Value) -> Result<Why, NoMemory>
    ensures { IfOk result (λ why. IsWhyOf why (view value.now)) }
{
    match recording_of(alloc, value) {
        Ok(recording) => of_recording::<R>(alloc, &recording),
        Err(RecordingFault::BadShape(command)) => {
            let misshapen = misshapen_of(alloc, value, command)?;
            Ok(Why::BadShape(misshapen))
        }
        Err(RecordingFault::NotJson | RecordingFault::NoMemory) => Err(NoMemory),
    }
}

// Why a recording that was read is refused.
fn of_recording<R: Rules>(alloc: Global, recording: &Recording) -> Result<Why, NoMemory>
    ensures { IfOk result (λ why. IsOfRules why recording.now) }
{
    match R::refusal(alloc, recording)? {
        Some(refusal) => refused_by(alloc, recording, refusal),
        None => Ok(Why::Kept),
    }
}

// The command for which a recording is refused, and by what it breaks its rule.
fn refused_by(alloc: Global, recording: &Recording, refusal: Refusal) -> Result<Why, NoMemory>
    requires { rule_refusal (barriers recording.now) recording.now ≡ Some refusal }
    ensures { IfOk result (λ why. IsOfRules why recording.now) }
{
    let cause = cause_of(alloc, recording, refusal)?;
    let grounds = ground_of(alloc, recording, refusal)?;
    let limits = limit_of(alloc, recording, refusal)?;
    let misfits = misfit_of(alloc, recording, refusal)?;
    let crowds = crowd_of(alloc, recording, refusal)?;
    let clash = clash_of(alloc, recording, refusal)?;
    let updates = update_of(alloc, recording, refusal)?;
    let builds = misbuilt_of(alloc, recording, refusal)?;
    let unfinished = unfinished_of(alloc, recording, refusal)?;
    Ok(Why::Refused(Broken {
        refusal,
        cause,
        grounds,
        limits,
        misfits,
        crowds,
        clash,
        updates,
        conflicts: conflict_of(recording, refusal),
        builds,
        unfinished,
    }))
}

// What is wrong with the command of this number.
fn misshapen_of(alloc: Global, value: &Value, command: u32) -> Result<Misshapen, NoMemory>
    ensures command { IfOk result (λ m. m.command ≡ command) }
    ensures is { IfOk result (λ m. IsMisshapen m (view value.now)) }
{
    let fault = shape_fault(alloc, value, command)?;
    let found = found(alloc, value, &fault)?;
    Ok(Misshapen {
        command,
        fault,
        found,
    })
}

// The JSON of what stands at the place of a fault.
fn found(alloc: Global, value: &Value, fault: &ShapeFault) -> Result<Option<String>, NoMemory>
    ensures { IfOk result (λ found. AreFound fault.now found (view value.now)) }
{
    match fault {
        ShapeFault::Wrong(wrong) => found_at(alloc, value, wrong.path.as_slice()),
        ShapeFault::NoList | ShapeFault::TooMany => Ok(None),
    }
}

// The JSON of what stands at the end of a path, if anything does.
fn found_at(alloc: Global, value: &Value, path: &[Step]) -> Result<Option<String>, NoMemory>
    ensures { IfOk result (λ found. is_some found ≡ is_some (stands path.now (view value.now))) }
{
    match value_at(value, path) {
        Some(found) => Ok(Some(cut(alloc, found)?)),
        None => Ok(None),
    }
}

// The JSON of a value: of more than 60 characters the first 60.
fn cut(alloc: Global, value: &Value) -> Result<String, NoMemory> {
    let whole = value.to_string(alloc)?;
    let mut text = String::new(alloc);
    for character in whole.as_str().chars().take(60) {
        text.push(character)?;
    }
    Ok(text)
}
