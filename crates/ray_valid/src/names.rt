ghost use Rattle.std.specs.Prelude.{◌≡◌};
ghost use Rattle.std.specs.List.{list_any};
ghost use Rattle.ray_rules.specs.Names.{lacks_buffer, lacks_limit, lacks_thing, v1};

use crate::place::whole;
use ray_cmd::{Command, Listed, Place, Thing};
use ray_infos::first_lacking;
use ray_status::{Status, lacks_a_structure, lacks_buffer, lacks_structure};

// V1: a named buffer or structure isn't live, or a created one already is.
#[tactic(auto, unfolding(ray_rules::specs::Names::v1))]
pub(crate) fn v1(status: &Status, command: &Command) -> Option<Place>
    ensures { result ≡ v1 status.now command.now }
{
    match command {
        Command::Buffer { id, .. } => whole(status.buffer(*id).is_some()),
        Command::Structure { id, buffer, .. } => {
            whole(status.structure(*id).is_some() || lacks_buffer(status, *buffer))
        }
        Command::Destroy { what, id } => whole(lacks_thing(status, *what, *id)),
        Command::Read { buffer, .. } => whole(lacks_buffer(status, *buffer)),
        Command::Update { buffer, .. } => whole(lacks_buffer(status, *buffer)),
        Command::Fill { buffer, .. } => whole(lacks_buffer(status, *buffer)),
        Command::Copy { src, dst, .. } => {
            whole(lacks_buffer(status, *src) || lacks_buffer(status, *dst))
        }
        Command::Build { infos } => first_lacking(status, infos),
        Command::CopyStructure { src, dst, .. } => {
            whole(lacks_structure(status, *src) || lacks_structure(status, *dst))
        }
        Command::Serialize { src, dst, .. } => {
            whole(lacks_structure(status, *src) || lacks_buffer(status, dst.buffer))
        }
        Command::Deserialize { src, dst, uses } => whole(
            lacks_buffer(status, src.buffer)
                || lacks_structure(status, *dst)
                || lacks_a_structure(status, uses.as_slice()),
        ),
        Command::Property {
            structures,
            dst,
            ..
        } => whole(
            lacks_a_structure(status, structures.as_slice()) || lacks_buffer(status, dst.buffer),
        ),
        Command::Trace {
            top,
            rays,
            hits,
            ..
        } => whole(
            lacks_structure(status, *top)
                || lacks_buffer(status, rays.buffer)
                || lacks_buffer(status, hits.buffer),
        ),
        Command::Sizes { .. } | Command::Begin | Command::End | Command::Submit | Command::Wait =>
            None,
        Command::Barrier { buffers, .. } => whole(lacks_limit(status, buffers)),
    }
}

// Whether nothing of a kind has an id.
fn lacks_thing(status: &Status, what: Thing, id: u32) -> bool
    ensures { result ≡ lacks_thing status.now what id }
{
    match what {
        Thing::Buffer => lacks_buffer(status, id),
        Thing::Structure => lacks_structure(status, id),
    }
}

// Whether a buffer to which a barrier is limited, where it is limited, isn't live.
fn lacks_limit(status: &Status, buffers: &Option<Listed<u32>>) -> bool
    ensures { result ≡ lacks_limit status.now buffers.now }
{
    match buffers {
        Some(ids) => lacks_a_buffer(status, ids.as_slice()),
        None => false,
    }
}

// Whether one of these ids is that of no live buffer.
fn lacks_a_buffer(status: &Status, ids: &[u32]) -> bool
    ensures { result ≡ list_any (lacks_buffer status.now) ids.now }
{
    ids.iter().any(|id| lacks_buffer(status, *id))
}
