ghost use Rattle.std.specs.Prelude.{◌≡◌, ℕ, List, length};
ghost use Rattle.std.specs.Option.{option_and_then};
ghost use Rattle.ray_causes.specs.Naming.{at_buffers, at_structures, at_uses};
ghost use Rattle.ray_crowds.specs.Counts.{count, counts_entries, entries_at, info_entries};
ghost use Rattle.ray_crowds.specs.Counts.{infos_entries, member_entries, own_entries};

use crate::counting::count;
use crate::crowd::Count;
use crate::spot::Spot;
use ray_causes::{Member, Name, info_at};
use ray_cmd::{Command, Info, Listed};

// How many entries the list at a spot has, and how many it may have.
pub(crate) fn entries_at(command: &Command, spot: Spot) -> Option<Count>
    ensures { result ≡ entries_at command.now spot }
{
    match spot {
        Spot::Member(member) => member_entries(command, member),
        Spot::Counts => counts_entries(command),
        Spot::Count => None,
        Spot::Infos => infos_entries(command),
        Spot::Geometry(..) => None,
        Spot::Script => None,
        Spot::Rule(_) => None,
        Spot::Geometries(number) => match info_at(command, number) {
            Some(info) => Some(entries(info.geometries.as_slice().len(), 256)),
            None => None,
        },
    }
}

// So many entries, of so many that there may be.
fn entries(number: usize, most: u32) -> Count
    ensures { result ≡ count number most }
{
    count(number as u128, most)
}

// The same of a list that ray_causes names.
fn member_entries(command: &Command, member: Member) -> Option<Count>
    ensures { result ≡ member_entries command.now member }
{
    match member {
        Member::Own(name) => own_entries(command, name),
        Member::Info(number, name) => match info_at(command, number) {
            Some(info) => info_entries(name, info),
            None => None,
        },
        _ => None,
    }
}

// The same of a list of an info.
fn info_entries(name: Name, info: &Info) -> Option<Count>
    ensures { result ≡ info_entries name info.now }
{
    at_uses(name, entries(info.uses.as_slice().len(), 4096))
}

// The same of a list of the command itself.
fn own_entries(command: &Command, name: Name) -> Option<Count>
    ensures { result ≡ own_entries command.now name }
{
    match command {
        Command::Deserialize { uses, .. } => { at_uses(name, entries(uses.as_slice().len(), 4096)) }
        Command::Property { structures, .. } => {
            at_structures(name, entries(structures.as_slice().len(), 4096))
        }
        Command::Barrier { buffers, .. } => limits_entries(name, buffers),
        _ => None,
    }
}

// The same of the buffers to which a barrier is limited, where it is.
fn limits_entries(name: Name, buffers: &Option<Listed<u32>>) -> Option<Count>
    ensures { result ≡ option_and_then
        (λ (ids : List ℕ). at_buffers name (count (length ids) 4096)) buffers.now }
{
    match buffers {
        Some(ids) => at_buffers(name, entries(ids.as_slice().len(), 4096)),
        None => None,
    }
}

// The same of the counts of a `sizes`.
fn counts_entries(command: &Command) -> Option<Count>
    ensures { result ≡ counts_entries command.now }
{
    match command {
        Command::Sizes { counts, .. } => Some(entries(counts.as_slice().len(), 256)),
        _ => None,
    }
}

// The same of the infos of a build.
fn infos_entries(command: &Command) -> Option<Count>
    ensures { result ≡ infos_entries command.now }
{
    match command {
        Command::Build { infos } => Some(entries(infos.as_slice().len(), 4096)),
        _ => None,
    }
}

// A count, at the name of `uses` alone.
fn at_uses(name: Name, value: Count) -> Option<Count>
    ensures { result ≡ at_uses name value }
{
    match name {
        Name::Uses => Some(value),
        _ => None,
    }
}

// The same at the name of `structures`.
fn at_structures(name: Name, value: Count) -> Option<Count>
    ensures { result ≡ at_structures name value }
{
    match name {
        Name::Structures => Some(value),
        _ => None,
    }
}

// The same at the name of `buffers`.
fn at_buffers(name: Name, value: Count) -> Option<Count>
    ensures { result ≡ at_buffers name value }
{
    match name {
        Name::Buffers => Some(value),
        _ => None,
    }
}
