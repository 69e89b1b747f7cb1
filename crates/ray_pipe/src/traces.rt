ghost use Rattle.std.specs.Prelude.{◌≡◌, ◌++◌, ◌∷◌, [], IfOk, OnOk, slice_index_or, false};
ghost use Rattle.ray_pipe.specs.Tables.{counts_of, traces_of};

use ray_cmd::{Command, Recording};
use std::alloc::{AllocError as NoMemory, Global};

// The traces of a recording, each by whether it has a script of its own, and of each command how
// many of them come before it.
#[derive(Drop)]
pub(crate) struct Traces {
    pub(crate) scripted: Vec<bool>,
    pub(crate) counts: Vec<u32>,
}

// Those of a recording.
pub(crate) fn traces_of(alloc: Global, rec: &Recording) -> Result<Traces, NoMemory>
    ensures scripted { IfOk result (λ traces. traces.scripted.items ≡ traces_of rec.now) }
    ensures counts { IfOk result (λ traces. traces.counts.items ≡ counts_of rec.now) }
{
    let mut scripted = Vec::new(alloc);
    let mut counts = Vec::new(alloc);
    for i in 0..rec.len() {
        counts.push(scripted.len() as u32)?;
        add_trace(&mut scripted, rec.command(i))?;
    }
    Ok(Traces { scripted, counts })
}

// One more where the command is a trace.
fn add_trace(scripted: &mut Vec<bool>, command: &Command) -> Result<(), NoMemory>
    ensures { OnOk result
        (scripted.new.items ≡ scripted.old.items ++ traces_of (command.now ∷ [])) }
{
    match command {
        Command::Trace { script, .. } => {
            scripted.push(!script.as_slice().is_empty())?;
            Ok(())
        }
        _ => Ok(()),
    }
}

// Whether trace number `k` is there and has a script of its own.
pub(crate) fn is_scripted(scripted: &[bool], k: usize) -> bool
    ensures { result ≡ slice_index_or scripted.now k false }
{
    match scripted.get(k) {
        Some(is_scripted) => *is_scripted,
        None => false,
    }
}
