//! The program `ray_pairs`: goes over made-up recordings by the definition of the order of barriers,
//! pair by pair, and compares the first hazard with that of `check_rules`, whose program keeps
//! fronts and cells. `ray_pairs 1000 1` makes up 1,000 recordings, those of the seeds from 1 on,
//! and prints how many were answered alike, and how many of them have a hazard, and a line for each
//! that is answered otherwise. Without words it does so with 256. Other words give the line
//! `bad-words` and status 3.
//!
//! A recording has three buffers, fills, copies, barriers of all kinds over three stages, some
//! limited to buffers, waits and reads, and keeps every rule but those on hazards. What
//! `check_rules` answers is proved; what is compared shows that its definition says what its words
//! say, by a plain program of quadratic time, or cubic with the barriers between.
#![tactic(auto)]

mod made;
mod making;
mod numbers;
mod pair_error;
mod pairs;
mod telling;

use crate::made::Made;
use crate::making::commands_of;
use crate::pair_error::PairError;
use crate::pairs::{Hazard, HazardRule, first_hazard};
use crate::telling::text_of;
use ray_check::check_rules;
use ray_cmd::{Place, Recording, Refusal, Rule, read_recording};
use std::alloc::Global;
use std::env;
use std::process::ExitCode;
use std::rt::Env;

fn main(rt: HostRuntime) -> ExitCode {
    match run(&rt) {
        Ok(()) => ExitCode::SUCCESS,
        Err(error) => {
            // The status tells of a failed write, too.
            let _ = println!(rt; "{error}");
            ExitCode::from(error.status())
        }
    }
}

// What the words ask for.
fn run<R: Env + AllocGlobal + Print>(rt: &R) -> Result<(), PairError> {
    let words: Vec<String> = env::args(rt)?.skip(1).collect(rt.alloc())?;
    match words.as_slice() {
        [] => report(rt, 256, 1),
        [count, seed] => {
            let (Ok(count), Ok(seed)) = (
                count.as_str().parse::<u32>(),
                seed.as_str().parse::<u32>(),
            ) else {
                return Err(PairError::BadWords);
            };
            report(rt, count, seed)
        }
        _ => Err(PairError::BadWords),
    }
}

// Compares both answers over so many recordings, and prints how many are alike, and how many have a
// hazard.
fn report<R: AllocGlobal + Print>(rt: &R, count: u32, first: u32) -> Result<(), PairError> {
    let mut alike: u32 = 0;
    let mut hazards: u32 = 0;
    for k in 0..count {
        let seed = u64::from(first) + u64::from(k);
        let commands = commands_of(rt.alloc(), seed)?;
        let by_pairs = first_hazard(commands.as_slice());
        let is_alike = is_said(by_pairs, said_of(rt.alloc(), commands.as_slice())?);
        alike = alike.saturating_add(u32::from(is_alike));
        hazards = hazards.saturating_add(u32::from(by_pairs.is_some()));
        if !is_alike {
            println!(rt; "seed {seed}: by pairs {by_pairs:?}")?;
        }
    }
    println!(rt; "pairs {count} alike {alike} hazards {hazards}")?;
    Ok(())
}

// What the rules say of commands.
fn said_of(alloc: Global, commands: &[Made]) -> Result<Option<Refusal>, PairError> {
    let text = text_of(alloc, commands)?;
    match read_recording(alloc, text.as_str().as_bytes()) {
        Ok(recording) => checked(alloc, &recording),
        Err(_) => Err(PairError::NotRead),
    }
}

// What the rules say of a recording.
fn checked(alloc: Global, recording: &Recording) -> Result<Option<Refusal>, PairError> {
    Ok(check_rules(alloc, recording)?)
}

// Whether a hazard by pairs is what the rules say.
fn is_said(hazard: Option<Hazard>, said: Option<Refusal>) -> bool {
    match (hazard, said) {
        (None, None) => true,
        (Some(hazard), Some(refusal)) => {
            refusal.command as usize == hazard.command
                && is_earlier(refusal.place, hazard.earlier)
                && refusal.rule == Rule::V(number_of(hazard.rule))
        }
        _ => false,
    }
}

// Whether a place is an earlier command of a number.
fn is_earlier(place: Place, earlier: usize) -> bool {
    match place {
        Place::Earlier(command) => command as usize == earlier,
        _ => false,
    }
}

// The number of a rule.
fn number_of(rule: HazardRule) -> u8 {
    match rule {
        HazardRule::ReadAfterWrite => 25,
        HazardRule::WriteAfterWrite => 26,
        HazardRule::WriteAfterRead => 27,
        HazardRule::HostAfterWrite => 32,
    }
}
