ghost use Rattle.std.specs.Prelude.{◌≡◌, ◌<◌, ◌≤◌, ◌+◌};
ghost use Rattle.ray_action.specs.Clients.{HasScript, rules_of, scripts};
ghost use Rattle.ray_action.specs.Outcomes.{outcome_of};
ghost use Rattle.ray_action.specs.Pieces.{command_at};
ghost use Rattle.ray_action.specs.Readiness.{IsReady};
ghost use Rattle.ray_memory.specs.State.{memory_of};
ghost use Rattle.ray_device.specs.Bounds.{most_tested};
ghost use Rattle.ray_device.specs.Fetching.{IsFetched, IsPieceFetched, OnAnswered};
ghost use Rattle.ray_device.specs.Parts.{part_given, CanFetch};
ghost use Rattle.ray_action.specs.Pieces.{rays_range};
ghost use Rattle.ray_device.specs.Pieces.{IsPiece, piece_action, piece_count};
ghost use Rattle.ray_rules.specs.Access.{rays_of_piece};

use crate::copying::{copied_bytes, copied_structure, told_numbers};
use crate::fetch_fault::FetchFault;
use crate::infos::built;
use crate::output::Output;
use crate::parts::RAYS_A_PIECE;
use crate::piece::Piece;
use crate::piece_out::PieceOut;
use crate::serializing::{deserialized, serialized};
use crate::storing::range;
use crate::tracing::traced_rays;
use ray_candidates::QueryOptions;
use ray_cmd::{Command, Recording, Spot};
use ray_geom::Steps;
use ray_memory::State;
use ray_query::Client;
use ray_rules::ByteRange;
use ray_script::{BadScript, RawRule, script_of};
use std::alloc::Global;
use std::sync::ledger::Ledger;
use std::thread::Threads;

/// What a piece gives of the memory as it is, or the first data rule that what it reads breaks,
/// with its place. The piece's action is ready there, and the command's script, where it is a
/// trace, is one (V23). A piece of a trace takes a step for each primitive that it tests, no more
/// than those of the leaves that its rays open, also where a ray is refused; every other piece
/// takes none. (The operations of each device command of Vulkan.)
pub fn fetch<R: Threads + Sync, L: Ledger>(
    rt: &R,
    alloc: Global,
    state: &State,
    rec: &Recording,
    piece: Piece,
    steps: &mut Steps<L>,
) -> Result<PieceOut, FetchFault>
    requires piece { IsPiece rec.now piece }
    requires script { HasScript (command_at rec.now piece.command) }
    requires ready { IsReady (piece_action rec.now piece) (memory_of state.now) }
    ensures value { IsPieceFetched piece (outcome_of (scripts rec.now piece.command)
        (piece_action rec.now piece) (memory_of state.now)) result }
    ensures bound { OnAnswered result (steps.new ≤ steps.old
        + most_tested state.now (scripts rec.now piece.command) (command_at rec.now piece.command)
        piece.part) }
    ensures rising { steps.old ≤ steps.new }
{
    match script_of(alloc, rules_of(rec.command(piece.command))) {
        Ok(script) => fetch_with(rt, alloc, state, rec, piece, &script, steps),
        Err(BadScript::NoMemory) => Err(FetchFault::NoMemory),
        Err(BadScript::At(_)) => unreachable!("the rules are a script"),
    }
}

// The rules of a command's script: none but a trace has any.
fn rules_of(command: &Command) -> &[RawRule]
    ensures { result.now ≡ rules_of command.now }
{
    match command {
        Command::Trace { script, .. } => script.as_slice(),
        _ => &[],
    }
}

/// The same where a client decides on the candidates of a trace, in place of its script.
#[tactic(auto, using(crate::proofs::Commands::part_within))]
pub fn fetch_with<R: Threads + Sync, C: Client, L: Ledger>(
    rt: &R,
    alloc: Global,
    state: &State,
    rec: &Recording,
    piece: Piece,
    client: &C,
    steps: &mut Steps<L>,
) -> Result<PieceOut, FetchFault>
    requires piece { IsPiece rec.now piece }
    requires ready { IsReady (piece_action rec.now piece) (memory_of state.now) }
    ensures value { IsPieceFetched piece (outcome_of (C.meaning client.now)
        (piece_action rec.now piece) (memory_of state.now)) result }
    ensures bound { OnAnswered result (steps.new ≤ steps.old
        + most_tested state.now (C.meaning client.now) (command_at rec.now piece.command)
        piece.part) }
    ensures rising { steps.old ≤ steps.new }
{
    let command = rec.command(piece.command);
    match fetch_part(rt, alloc, state, command, piece.part, client, steps) {
        Ok(output) => Ok(PieceOut { piece, output }),
        Err(fault) => Err(fault),
    }
}

// What part number `part` of a command gives.
#[tactic(auto, unfolding(crate::specs::Parts::part_given))]
fn fetch_part<R: Threads + Sync, C: Client, L: Ledger>(
    rt: &R,
    alloc: Global,
    state: &State,
    command: &Command,
    part: u32,
    client: &C,
    steps: &mut Steps<L>,
) -> Result<Output, FetchFault>
    requires within { part < piece_count command.now }
    requires can { CanFetch (memory_of state.now) command.now part }
    ensures value { IsFetched
        (part_given (memory_of state.now) (C.meaning client.now) command.now part) result }
    ensures bound { OnAnswered result (steps.new ≤ steps.old
        + most_tested state.now (C.meaning client.now) command.now part) }
    ensures rising { steps.old ≤ steps.new }
{
    match command {
        Command::Copy { src, regions, .. } => {
            let region = &regions.as_slice()[part as usize];
            copied_bytes(alloc, state, range(*src, region.src_offset, region.size))
        }
        Command::Build { infos } => {
            built(rt, alloc, state, part, &infos.as_slice()[part as usize])
        }
        Command::CopyStructure { mode, src, dst } => {
            copied_structure(alloc, state, *mode, *src, *dst)
        }
        Command::Serialize { src, dst, form } => {
            serialized(
                alloc,
                state,
                *src,
                *form,
                range(dst.buffer, dst.offset, dst.size),
            )
        }
        Command::Deserialize { src, dst, uses } => deserialized(
            rt,
            alloc,
            state,
            range(src.buffer, src.offset, src.size),
            *dst,
            uses.as_slice(),
        ),
        Command::Property {
            what,
            structures,
            ..
        } => told_numbers(alloc, state, *what, structures.as_slice()),
        Command::Trace {
            top,
            rays,
            count,
            flags,
            mask,
            ..
        } => traced_rays(
            alloc,
            state,
            *top,
            rays_of_part(*rays, *count, part),
            rays_in_part(*count, part),
            QueryOptions {
                number: RAYS_A_PIECE * part,
                flags: *flags,
                mask: (*mask % 256) as u8,
            },
            client,
            steps,
        ),
        _ => Ok(Output::Nothing),
    }
}

// Where the rays of a part of a trace stand.
fn rays_of_part(rays: Spot, count: u32, part: u32) -> ByteRange
    ensures { result ≡ rays_range rays count part }
{
    let first = u128::from(RAYS_A_PIECE) * u128::from(part);
    let count = u128::from(RAYS_A_PIECE).min(u128::from(count).saturating_sub(first));
    ByteRange {
        buffer: rays.buffer,
        from: u128::from(rays.offset) + 40 * first,
        size: 40 * count,
    }
}

// How many rays a part of a trace has.
fn rays_in_part(count: u32, part: u32) -> u32
    ensures { result ≡ rays_of_piece count part }
{
    let first = u64::from(RAYS_A_PIECE) * u64::from(part);
    u64::from(RAYS_A_PIECE).min(u64::from(count).saturating_sub(first)) as u32
}
