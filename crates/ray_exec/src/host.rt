ghost use Rattle.std.specs.Prelude.{◌≡◌, ◌<◌, length, not, OnOk};
ghost use Rattle.ray_action.specs.Clients.{Meaning};
ghost use Rattle.ray_action.specs.Pieces.{command_at, host_action};
ghost use Rattle.ray_action.specs.Readiness.{IsReady};
ghost use Rattle.ray_device.specs.Pieces.{is_device};
ghost use Rattle.ray_memory.specs.State.{memory_of};
ghost use Rattle.ray_exec.specs.Steps.{IsShown};

use ray_cmd::{Command, Recording};
use ray_memory::State;
use ray_rules::{Kind, kind_of};
use std::alloc::AllocError as NoMemory;

// Whether a command is done by the host.
pub(crate) fn is_host(command: &Command) -> bool
    ensures { result ≡ not (is_device command.now) }
{
    match kind_of(command) {
        Kind::HostCommand => true,
        Kind::Device(_) | Kind::Barrier => false,
    }
}

// Does a command of the host: its text is appended, and what it makes is in the state. No client has
// a part in it.
#[tactic(auto, using(crate::proofs::Hosting::is_shown))]
pub(crate) fn act(
    state: &mut State,
    rec: &Recording,
    command: u32,
    text: &mut Vec<u8>,
) -> Result<(), NoMemory>
    requires within { command < length rec.now }
    requires ready { IsReady (host_action (command_at rec.now command)) (memory_of state.old) }
    ensures { OnOk result ((meaning : Meaning) → IsShown meaning
        (host_action (command_at rec.now command)) (memory_of state.old) (memory_of state.new)
        text.old.items text.new.items) }
{
    state.text(rec, command, text)?;
    state.host(rec, command)?;
    Ok(())
}
