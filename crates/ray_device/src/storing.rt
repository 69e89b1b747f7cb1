ghost use Rattle.std.specs.Prelude.{◌≡◌, ◌<◌, ◌+◌, ◌*◌};
ghost use Rattle.ray_action.specs.Memory.{Location};
ghost use Rattle.ray_action.specs.Outcomes.{Gives};
ghost use Rattle.ray_action.specs.Storing.{put};
ghost use Rattle.ray_memory.specs.State.{memory_of};
ghost use Rattle.ray_device.specs.Fetched.{given};
ghost use Rattle.ray_device.specs.Pieces.{IsPiece, piece_action, piece_count};
ghost use Rattle.ray_device.specs.Storing.{IsStorable, CanHold, CanStore};
ghost use Rattle.ray_device.specs.Storing.{put_part, put_bytes, put_contents};
ghost use Rattle.ray_device.specs.Storing.{property_range};
ghost use Rattle.ray_action.specs.Pieces.{hits_range};

use crate::output::Output;
use crate::parts::RAYS_A_PIECE;
use crate::piece_out::PieceOut;
use ray_cmd::{Command, Recording, Spot};
use ray_memory::State;
use ray_rules::ByteRange;

/// Writes the output of a fetched piece, and nothing else: its bytes as far as the range is there,
/// or what its destination holds, which is live and of the output's kind. (The operations of each
/// device command of Vulkan.)
#[tactic(auto, using(crate::proofs::Commands::can_store, crate::proofs::Commands::part_within, crate::proofs::Commands::stores))]
pub fn store(state: &mut State, rec: &Recording, out: PieceOut)
    requires piece { IsPiece rec.now out.piece }
    requires storable { IsStorable (piece_action rec.now out.piece) out.output (memory_of state.old) }
    ensures { (l : Location) → memory_of state.new l
        ≡ put (piece_action rec.now out.piece) (Gives out.output) (memory_of state.old) l }
{
    let command = rec.command(out.piece.command);
    store_part(state, command, out.piece.part, out.output);
}

// Writes the output of part number `part` of a command.
#[tactic(auto, unfolding(crate::specs::Storing::put_part))]
fn store_part(state: &mut State, command: &Command, part: u32, output: Output)
    requires within { part < piece_count command.now }
    requires fits { CanStore command.now part (given output) (memory_of state.old) }
    ensures { (l : Location) → memory_of state.new l
        ≡ put_part command.now part (given output) (memory_of state.old) l }
{
    match command {
        Command::Update {
            buffer,
            offset,
            content,
        } => {
            let content = content.as_slice();
            state.write(range(*buffer, *offset, content.len() as u64), content);
        }
        Command::Fill {
            buffer,
            offset,
            size,
            value,
        } => state.fill(range(*buffer, *offset, *size), *value),
        Command::Copy { dst, regions, .. } => {
            let region = &regions.as_slice()[part as usize];
            store_bytes(state, range(*dst, region.dst_offset, region.size), output);
        }
        Command::Build { infos } => {
            store_contents(state, infos.as_slice()[part as usize].dst, output)
        }
        Command::CopyStructure { dst, .. } => store_contents(state, *dst, output),
        Command::Serialize { dst, .. } => {
            store_bytes(state, range(dst.buffer, dst.offset, dst.size), output);
        }
        Command::Deserialize { dst, .. } => store_contents(state, *dst, output),
        Command::Property {
            structures,
            dst,
            ..
        } => store_bytes(state, range_of_numbers(*dst, structures.as_slice()), output),
        Command::Trace { count, hits, .. } => {
            store_bytes(state, hits_of_piece(*hits, *count, part), output)
        }
        _ => {}
    }
}

// So many bytes of a buffer from an offset on.
pub(crate) fn range(buffer: u32, from: u64, size: u64) -> ByteRange
    ensures { result ≡ record { buffer = buffer; from = from; size = size } }
{
    ByteRange {
        buffer,
        from: u128::from(from),
        size: u128::from(size),
    }
}

// Where the hits of a piece of a trace stand.
fn hits_of_piece(hits: Spot, count: u32, part: u32) -> ByteRange
    ensures { result ≡ hits_range hits count part }
{
    let first = u128::from(RAYS_A_PIECE) * u128::from(part);
    let rays = u128::from(RAYS_A_PIECE).min(u128::from(count).saturating_sub(first));
    ByteRange {
        buffer: hits.buffer,
        from: u128::from(hits.offset) + 80 * first,
        size: 80 * rays,
    }
}

// Where the numbers stand that are asked of structures.
fn range_of_numbers(dst: Spot, structures: &[u32]) -> ByteRange
    ensures { result ≡ property_range dst structures.now }
{
    ByteRange {
        buffer: dst.buffer,
        from: u128::from(dst.offset),
        size: 8 * structures.len() as u128,
    }
}

// Writes the bytes of an output.
fn store_bytes(state: &mut State, to: ByteRange, output: Output)
    ensures { (l : Location) → memory_of state.new l
        ≡ put_bytes to (given output) (memory_of state.old) l }
{
    match output {
        Output::Bytes(bytes) => state.write(to, bytes.as_slice()),
        Output::Nothing | Output::Bottom(_) | Output::Top(_) => {}
    }
}

// Writes what a structure holds.
fn store_contents(state: &mut State, dst: u32, output: Output)
    requires { CanHold dst (given output) (memory_of state.old) }
    ensures { (l : Location) → memory_of state.new l
        ≡ put_contents dst (given output) (memory_of state.old) l }
{
    match output {
        Output::Bottom(bottom) => state.hold_bottom(dst, bottom),
        Output::Top(top) => state.hold_top(dst, top),
        Output::Nothing | Output::Bytes(_) => {}
    }
}
