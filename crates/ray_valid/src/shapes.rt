ghost use Rattle.std.specs.Prelude.{◌≡◌, false, length, nat_lt, sum};
ghost use Rattle.std.specs.Option.{option_map_or, option_or};
ghost use Rattle.ray_rules.specs.Shapes.{asks_wrongly, compacts_wrongly, serializes_wrongly, is_too_large, v7, v8, v9, v10};
ghost use Rattle.ray_rules.specs.Places.{first_part, part_at};

use crate::place::{part_at, whole};
use ray_cmd::{Asked, Command, CopyMode, Info, Listed, Place, is_form_2};
use ray_infos::{
    first_mismatched, first_misshapen, first_preferring_both, first_too_large, is_too_many,
};
use ray_status::{Status, has_top, is_bottom_at, is_top, is_top_at, uses_wrongly};

// The most entries of a list of infos, of uses, of structures or of buffers, and the most live
// structures.
const MOST_ENTRIES: usize = 4096;

// V7: trace's `top` is a bottom; a `uses` entry is a top; `uses` isn't empty for a bottom; update's
// `src` and `dst` differ in kind; `compacted` or `serialized_form_2` isn't asked of a bottom;
// `compact`, or `serialize` as form 2, isn't of a bottom.
#[tactic(auto, unfolding(ray_rules::specs::Shapes::v7))]
pub(crate) fn v7(status: &Status, command: &Command) -> Option<Place>
    ensures { result ≡ v7 status.now command.now }
{
    match command {
        Command::Build { infos } => first_mismatched(status, infos),
        Command::CopyStructure { mode, src, .. } => whole(compacts_wrongly(status, *mode, *src)),
        Command::Serialize { src, form, .. } => whole(serializes_wrongly(status, *form, *src)),
        Command::Deserialize { dst, uses, .. } => {
            whole(uses_wrongly(status, *dst, uses.as_slice()))
        }
        Command::Property {
            what,
            structures,
            ..
        } => whole(asks_wrongly(status, *what, structures.as_slice())),
        Command::Trace { top, .. } => whole(is_bottom_at(status, *top)),
        _ => None,
    }
}

// Whether what is asked is asked of a top, and only of bottoms can be.
fn asks_wrongly(status: &Status, what: Asked, structures: &[u32]) -> bool
    ensures { result ≡ asks_wrongly status.now what structures.now }
{
    match what {
        Asked::Compacted | Asked::SerializedForm2 => has_top(status, structures),
        Asked::Serialized | Asked::Handles | Asked::Size => false,
    }
}

// Whether a top is to be serialized in form 2.
fn serializes_wrongly(status: &Status, form: Option<u32>, src: u32) -> bool
    ensures { result ≡ serializes_wrongly status.now form src }
{
    is_form_2(form) && is_top_at(status, src)
}

// Whether a top is to be compacted.
fn compacts_wrongly(status: &Status, mode: CopyMode, src: u32) -> bool
    ensures { result ≡ compacts_wrongly status.now mode src }
{
    match mode {
        CopyMode::Clone => false,
        CopyMode::Compact => is_top_at(status, src),
    }
}

// V8: a top info hasn't exactly one geometry, of instances; a bottom info has instances or two
// kinds; `sizes` of a top hasn't one count.
#[tactic(auto, unfolding(ray_rules::specs::Shapes::v8))]
pub(crate) fn v8(status: &Status, command: &Command) -> Option<Place>
    ensures { result ≡ v8 status.now command.now }
{
    match command {
        Command::Sizes { kind, counts } => whole(is_top(*kind) && counts.as_slice().len() != 1),
        Command::Build { infos } => first_misshapen(status, infos),
        _ => None,
    }
}

// V9: both fast flags.
#[tactic(auto, unfolding(ray_rules::specs::Shapes::v9))]
pub(crate) fn v9(command: &Command) -> Option<Place>
    ensures { result ≡ v9 command.now }
{
    match command {
        Command::Build { infos } => first_preferring_both(infos),
        _ => None,
    }
}

// V10: geometries above 256, primitives above 2^20, instances above 2^16, rays above 2^20, live
// structures above 4,096, `infos`, `uses`, `structures` or `buffers` longer than 4,096.
#[tactic(auto, unfolding(ray_rules::specs::Shapes::v10))]
pub(crate) fn v10(status: &Status, command: &Command) -> Option<Place>
    ensures { result ≡ v10 status.now command.now }
{
    match command {
        Command::Structure { .. } => whole(MOST_ENTRIES <= status.structure_count()),
        Command::Sizes { kind, counts } => {
            let counts = counts.as_slice();
            whole(is_too_many(is_top(*kind), counts.len(), total(counts)))
        }
        Command::Build { infos } => first_too_large_or_long(status, infos),
        Command::Deserialize { uses, .. } => whole(MOST_ENTRIES < uses.as_slice().len()),
        Command::Property { structures, .. } => whole(MOST_ENTRIES < structures.as_slice().len()),
        Command::Barrier { buffers, .. } => whole(is_limited_too_long(buffers)),
        Command::Trace { count, .. } => whole(1_048_576 < *count),
        _ => None,
    }
}

// The least info that has too much, and else number 4,096 where there are more infos.
fn first_too_large_or_long(status: &Status, infos: &Listed<Info>) -> Option<Place>
    ensures { result ≡ option_or (first_part (is_too_large status.now) infos.now)
        (part_at 4096 (nat_lt 4096 (length infos.now))) }
{
    match first_too_large(status, infos) {
        Some(place) => Some(place),
        None => part_at(4096, MOST_ENTRIES < infos.as_slice().len()),
    }
}

// Whether a barrier is limited to too many buffers.
fn is_limited_too_long(buffers: &Option<Listed<u32>>) -> bool
    ensures { result ≡ option_map_or (λ ids. nat_lt 4096 (length ids)) buffers.now false }
{
    match buffers {
        Some(ids) => MOST_ENTRIES < ids.as_slice().len(),
        None => false,
    }
}

// The sum of counts.
fn total(counts: &[u32]) -> u128
    ensures { result ≡ sum counts.now }
{
    let mut total = 0;
    for count in counts {
        total += u128::from(*count);
    }
    total
}
