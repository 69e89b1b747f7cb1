ghost use Rattle.std.specs.Prelude.{◌≡◌};
ghost use Rattle.std.specs.Option.{option_copied};
ghost use Rattle.ray_rules.specs.Buffers.{is_alone, is_held, is_longer, is_no_usage, v2, v3, v30};

use crate::place::whole;
use ray_cmd::{Bytes, Command, Place, Thing, Usage};
use ray_infos::first_lacking_usage;
use ray_status::{
    Status, is_private, is_private_at, lacks_storage, lacks_structures, lacks_transfer_dst,
    lacks_transfer_src,
};

// The most bytes that all live buffers have together, 2^28.
const MOST_BYTES: u128 = 268_435_456;

// V2: `buffer`: size 0, data longer than size, or live sizes together above 2^28; `structure`:
// size 0.
#[tactic(auto, unfolding(ray_rules::specs::Buffers::v2))]
pub(crate) fn v2(status: &Status, command: &Command) -> Option<Place>
    ensures { result ≡ v2 status.now command.now }
{
    match command {
        Command::Buffer { size, content, .. } => whole(
            *size == 0
                || is_longer(content.as_ref(), *size)
                || MOST_BYTES < u128::from(status.live_bytes()) + u128::from(*size),
        ),
        Command::Structure { size, .. } => whole(*size == 0),
        _ => None,
    }
}

// Whether content, where there is any, is longer than a size.
fn is_longer(content: Option<&Bytes>, size: u64) -> bool
    ensures { result ≡ is_longer (option_copied content.entry) size }
{
    match content {
        Some(bytes) => size < bytes.as_slice().len() as u64,
        None => false,
    }
}

// V3: `buffer`: no usage, or `scratch` or `structure` with another usage or with data; a buffer
// lacks the usage that the command needs; `read` of a scratch or structure buffer.
#[tactic(auto, unfolding(ray_rules::specs::Buffers::v3))]
pub(crate) fn v3(status: &Status, command: &Command) -> Option<Place>
    ensures { result ≡ v3 status.now command.now }
{
    match command {
        Command::Buffer { usage, content, .. } => whole(is_no_usage(*usage, content.as_ref())),
        Command::Structure { buffer, .. } => whole(lacks_structures(status, *buffer)),
        Command::Read { buffer, .. } => whole(is_private_at(status, *buffer)),
        Command::Update { buffer, .. } => whole(lacks_transfer_dst(status, *buffer)),
        Command::Fill { buffer, .. } => whole(lacks_transfer_dst(status, *buffer)),
        Command::Copy { src, dst, .. } => {
            whole(lacks_transfer_src(status, *src) || lacks_transfer_dst(status, *dst))
        }
        Command::Build { infos } => first_lacking_usage(status, infos),
        Command::Serialize { dst, .. } => whole(lacks_transfer_dst(status, dst.buffer)),
        Command::Deserialize { src, .. } => whole(lacks_transfer_src(status, src.buffer)),
        Command::Property { dst, .. } => whole(lacks_transfer_dst(status, dst.buffer)),
        Command::Trace { rays, hits, .. } => {
            whole(lacks_storage(status, rays.buffer) || lacks_storage(status, hits.buffer))
        }
        Command::Destroy { .. }
        | Command::Sizes { .. }
        | Command::Begin
        | Command::End
        | Command::Submit
        | Command::Wait
        | Command::CopyStructure { .. }
        | Command::Barrier { .. } => None,
    }
}

// Whether a buffer can't be made for a usage: it is none, or is private and has another one or
// content beside it.
fn is_no_usage(usage: Usage, content: Option<&Bytes>) -> bool
    ensures { result ≡ is_no_usage usage (option_copied content.entry) }
{
    usage.0 == 0 || (is_private(usage) && (!is_alone(usage) || content.is_some()))
}

// Whether a usage is for scratch memory alone, or for structures alone.
fn is_alone(usage: Usage) -> bool
    ensures { result ≡ is_alone usage }
{
    usage == Usage::SCRATCH || usage == Usage::STRUCTURE
}

// V30: `destroy` with a `submit` after the last `wait`, or of a buffer that holds a live structure.
#[tactic(auto, unfolding(ray_rules::specs::Buffers::v30))]
pub(crate) fn v30(status: &Status, command: &Command) -> Option<Place>
    ensures { result ≡ v30 status.now command.now }
{
    match command {
        Command::Destroy { what, id } => whole(status.pending() || is_held(status, *what, *id)),
        _ => None,
    }
}

// Whether a buffer that is destroyed holds a live structure.
fn is_held(status: &Status, what: Thing, id: u32) -> bool
    ensures { result ≡ is_held status.now what id }
{
    match what {
        Thing::Buffer => status.holds_structure(id),
        Thing::Structure => false,
    }
}
