ghost use Rattle.std.specs.Prelude.{◌≡◌, ◌<◌, length, if◌then◌else◌};
ghost use Rattle.ray_action.specs.Pieces.{command_at};
ghost use Rattle.ray_device.specs.Pieces.{is_device, piece_count};

use ray_cmd::{Command, Recording};
use ray_rules::{Kind, kind_of};

// How many rays a piece of a trace has at most.
pub(crate) const RAYS_A_PIECE: u32 = 64;

/// How many pieces command number `i` has: none where it is a host command, one an info of a build,
/// a region of a copy or a run of 64 rays of a trace, and else one. (Own.)
#[tactic(auto, using(crate::proofs::Commands::command_is))]
pub fn pieces(rec: &Recording, i: u32) -> u32
    requires { i < length rec.now }
    ensures { result ≡ piece_count (command_at rec.now i) }
{
    pieces_of(rec.command(i))
}

// How many pieces a command has.
fn pieces_of(command: &Command) -> u32
    ensures { result ≡ piece_count command.now }
{
    match command {
        Command::Copy { regions, .. } => regions.as_slice().len() as u32,
        Command::Build { infos } => infos.as_slice().len() as u32,
        Command::Trace { count, .. } => count.div_ceil(RAYS_A_PIECE),
        _ => one_of_device(command),
    }
}

// One where the device does a command.
fn one_of_device(command: &Command) -> u32
    ensures { result ≡ if is_device command.now then 1 else 0 }
{
    match kind_of(command) {
        Kind::HostCommand => 0,
        Kind::Device(_) | Kind::Barrier => 1,
    }
}
