ghost use Rattle.std.specs.Prelude.{◌≡◌, IfOk, string_bytes};
ghost use Rattle.ray_told.specs.Grounds.{fact_member, fact_text, flight_text, ground_member};
ghost use Rattle.ray_told.specs.Grounds.{ground_text, ground_words, phase_word, phases_text};
ghost use Rattle.ray_told.specs.Grounds.{held_text, origin_member, unbuilt_text};

use crate::origins::origin_text;
use ray_causes::{Member, Name, member_text};
use ray_grounds::{Fact, Ground, Origin};
use ray_rules::Phase;
use std::alloc::{AllocError as NoMemory, Global};

/// What is told of the ground on which a command is refused: the member, and what was compared.
/// Own.
///
/// # Errors
///
/// For want of memory alone.
pub fn ground_text(alloc: Global, command: u32, basis: Ground) -> Result<String, NoMemory>
    ensures { IfOk result (λ text. string_bytes text ≡ ground_text command basis) }
{
    let member = member_text(alloc, command, ground_member(basis))?;
    let compared = ground_words(alloc, basis)?;
    format!(in alloc; "at: {member}\ncompared: {compared}\n")
}

// The member of a command by which it breaks a rule.
fn ground_member(basis: Ground) -> Member
    ensures { result ≡ ground_member basis }
{
    match basis {
        Ground::Standing(fact) => fact_member(fact),
        Ground::Built(origin) => origin_member(origin),
        Ground::InFlight(_) => Member::Own(Name::Op),
    }
}

// The same of a fact.
fn fact_member(fact: Fact) -> Member
    ensures { result ≡ fact_member fact }
{
    match fact {
        Fact::Unbuilt(member, _, _) => member,
        Fact::WrongPhase(_, _) => Member::Own(Name::Op),
        Fact::Held(_, _, _) => Member::Own(Name::Id),
    }
}

// The same of what something was built by.
fn origin_member(origin: Origin) -> Member
    ensures { result ≡ origin_member origin }
{
    match origin {
        Origin::Lacking(member, _, _, _) => member,
        Origin::Stale(_, _, _) => Member::Own(Name::Top),
    }
}

// What was compared.
fn ground_words(alloc: Global, basis: Ground) -> Result<String, NoMemory>
    ensures { IfOk result (λ text. string_bytes text ≡ ground_words basis) }
{
    match basis {
        Ground::Standing(fact) => fact_text(alloc, fact),
        Ground::Built(origin) => origin_text(alloc, origin),
        Ground::InFlight(submit) => flight_text(alloc, submit),
    }
}

// The command that submits.
fn flight_text(alloc: Global, submit: u32) -> Result<String, NoMemory>
    ensures { IfOk result (λ text. string_bytes text ≡ flight_text submit) }
{
    format!(in alloc; "command {submit} submits, and no wait is behind it")
}

// A fact.
fn fact_text(alloc: Global, fact: Fact) -> Result<String, NoMemory>
    ensures { IfOk result (λ text. string_bytes text ≡ fact_text fact) }
{
    match fact {
        Fact::Unbuilt(_, id, made) => unbuilt_text(alloc, id, made),
        Fact::WrongPhase(needed, found) => {
            phases_text(alloc, phase_word(found), phase_word(needed))
        }
        Fact::Held(buffer, id, made) => held_text(alloc, buffer, id, made),
    }
}

// A buffer, and a structure that it holds.
fn held_text(alloc: Global, buffer: u32, id: u32, made: u32) -> Result<String, NoMemory>
    ensures { IfOk result (λ text. string_bytes text ≡ held_text buffer id made) }
{
    format!(in alloc; "buffer {buffer} holds structure {id}, which command {made} made")
}

// A structure that isn't built.
fn unbuilt_text(alloc: Global, id: u32, made: u32) -> Result<String, NoMemory>
    ensures { IfOk result (λ text. string_bytes text ≡ unbuilt_text id made) }
{
    format!(in alloc; "structure {id}, made by command {made}, isn't built")
}

// The state in which the command buffer is, and the one that is needed.
fn phases_text(alloc: Global, found: &str, needed: &str) -> Result<String, NoMemory>
    ensures { IfOk result (λ text. string_bytes text ≡ phases_text found.now needed.now) }
{
    format!(in alloc; "the command buffer is {found}, and this command needs it {needed}")
}

// A state of the command buffer.
pub(crate) fn phase_word(phase: Phase) -> &'static str
    ensures { result.now ≡ phase_word phase }
{
    match phase {
        Phase::Idle => "idle",
        Phase::Recording => "begun",
        Phase::Ended => "ended",
    }
}
