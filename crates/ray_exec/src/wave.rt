ghost use Rattle.std.specs.Prelude.{◌≡◌, ◌<◌, ◌≤◌, ◌++◌, ℕ, [], All, length, IfOk, OnOk};
ghost use Rattle.std.specs.Prelude.{nat_lt, if◌then◌else◌};
ghost use Rattle.ray_action.specs.Pieces.{command_at};
ghost use Rattle.ray_exec.specs.Waves.{AreEmpty, AreWavesOf, HasOneMore};
ghost use Rattle.ray_exec.specs.Waves.{commands_of_wave, part_count, pieces_below, pieces_of, wave_at};

use crate::host::is_host;
use ray_cmd::Recording;
use ray_device::{Piece, pieces};
use std::alloc::{AllocError as NoMemory, Global};

// The commands of each wave of those below `until`, in recording order: a list for each wave, of
// which there are at most as many as commands. Waves are numbered by rank.
pub(crate) fn waves_of(alloc: Global, ranks: &[u32], until: u32) -> Result<Vec<Vec<u32>>, NoMemory>
    requires ordered { until ≤ length ranks.now }
    requires short { (i : ℕ) → i < until → wave_at ranks.now i < until }
    ensures { IfOk result (λ v. AreWavesOf ranks.now until until v.items) }
{
    let mut waves = none(alloc, until)?;
    for command in 0..until {
        add(&mut waves, ranks[command as usize] as usize, command)?;
    }
    Ok(waves)
}

// The commands of a wave.
pub(crate) fn commands_of<'a>(
    waves: &'a Vec<Vec<u32>>,
    ranks: &[u32],
    until: u32,
    wave: usize,
) -> &'a [u32]
    requires waves { AreWavesOf ranks.now until until waves.now.items }
    requires wave { wave < length waves.now.items }
    ensures { result.now ≡ commands_of_wave ranks.now until wave }
{
    waves[wave].as_slice()
}

// So many empty lists.
fn none(alloc: Global, count: u32) -> Result<Vec<Vec<u32>>, NoMemory>
    ensures { IfOk result (λ v. AreEmpty count v.items) }
{
    let mut lists = Vec::new(alloc);
    for _k in 0..count {
        lists.push(Vec::new(alloc))?;
    }
    Ok(lists)
}

// Puts a command behind those of a wave.
fn add(waves: &mut Vec<Vec<u32>>, wave: usize, command: u32) -> Result<(), NoMemory>
    requires { wave < length waves.old.items }
    ensures { OnOk result (HasOneMore wave command waves.old.items waves.new.items) }
{
    waves[wave].push(command)?;
    Ok(())
}

// The pieces of commands below a bound, in recording order.
pub(crate) fn pieces_below(
    alloc: Global,
    rec: &Recording,
    commands: &[u32],
    bound: u32,
) -> Result<Vec<Piece>, NoMemory>
    requires within { All (λ i. i < length rec.now) commands.now }
    ensures { IfOk result (λ v. v.items ≡ pieces_below rec.now bound commands.now) }
{
    let mut pieces = Vec::new(alloc);
    for command in commands {
        add_below(&mut pieces, rec, *command, bound)?;
    }
    Ok(pieces)
}

// Adds the pieces of a command that is below a bound.
fn add_below(
    pieces: &mut Vec<Piece>,
    rec: &Recording,
    command: u32,
    bound: u32,
) -> Result<(), NoMemory>
    requires { command < length rec.now }
    ensures { OnOk result (pieces.new.items ≡ pieces.old.items
        ++ (if nat_lt command bound then pieces_of rec.now command else [])) }
{
    if command < bound {
        add_pieces(pieces, rec, command)
    } else {
        Ok(())
    }
}

// Adds the pieces of a command.
fn add_pieces(pieces: &mut Vec<Piece>, rec: &Recording, command: u32) -> Result<(), NoMemory>
    requires { command < length rec.now }
    ensures { OnOk result (pieces.new.items ≡ pieces.old.items ++ pieces_of rec.now command) }
{
    for part in 0..part_count(rec, command) {
        pieces.push(Piece { command, part })?;
    }
    Ok(())
}

// How many pieces a command has, where what the host does counts as one.
fn part_count(rec: &Recording, command: u32) -> u32
    requires { command < length rec.now }
    ensures { result ≡ part_count (command_at rec.now command) }
{
    if is_host(rec.command(command)) {
        1
    } else {
        pieces(rec, command)
    }
}
