ghost use Rattle.std.specs.Prelude.{◌≡◌, ◌++◌, ◌+◌, ◌<◌, ◌^◌, [], IfOk, OnOk, length};
ghost use Rattle.std.specs.List.{cons_option};
ghost use Rattle.ray_valid.specs.Going.{goes_on};
ghost use Rattle.ray_refusals.specs.Every.{going_below, next_going, passed, statics_of};

use ray_cmd::{Command, Recording, Refusal};
use ray_status::Status;
use ray_valid::{goes_on, refusal_at_end, refusal_of};
use std::alloc::{AllocError as NoMemory, Global};

// The refusals of a recording by static rules, and how many of its first commands go on.
#[derive(Drop)]
pub(crate) struct Statics {
    pub(crate) refusals: Vec<Refusal>,
    pub(crate) going: u32,
}

// The refusals of all commands by static rules, and that of the end.
pub(crate) fn statics_of(alloc: Global, rec: &Recording) -> Result<Statics, NoMemory>
    ensures refusals { IfOk result (λ s. s.refusals.items ≡ statics_of rec.now) }
    ensures going { IfOk result (λ s. s.going ≡ going_below rec.now (length rec.now)) }
{
    let mut refusals = Vec::new(alloc);
    let mut status = Status::new(alloc);
    let mut going = 0;
    for i in 0..rec.len() {
        let command = rec.command(i);
        let refusal = refusal_of(alloc, rec, i, &status, command)?;
        note(&mut refusals, refusal)?;
        let goes = goes_on(&status, command);
        going = next_going(going, i, goes);
        pass(&mut status, i, command, goes)?;
    }
    note(&mut refusals, refusal_at_end(rec.len(), &status))?;
    Ok(Statics { refusals, going })
}

// Goes on past a command, if it goes on.
fn pass(status: &mut Status, i: u32, command: &Command, goes: bool) -> Result<(), NoMemory>
    requires { goes ≡ goes_on status.old command.now }
    ensures { OnOk result (status.new ≡ passed i command.now status.old) }
{
    if goes {
        status.step(i, command)?;
    }
    Ok(())
}

// How many commands go on before one doesn't, with one more.
fn next_going(going: u32, i: u32, goes: bool) -> u32
    requires { i + 1 < 2 ^ 32 }
    ensures { result ≡ next_going going i goes }
{
    if going == i && goes { i + 1 } else { going }
}

// Puts a refusal behind others, where there is one.
fn note(refusals: &mut Vec<Refusal>, refusal: Option<Refusal>) -> Result<(), NoMemory>
    ensures { OnOk result (refusals.new.items ≡ refusals.old.items ++ cons_option refusal []) }
{
    if let Some(refusal) = refusal {
        refusals.push(refusal)?;
    }
    Ok(())
}
