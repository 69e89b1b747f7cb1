ghost use Rattle.std.specs.Prelude.{◌≡◌};
ghost use Rattle.ray_cmd.specs.declared.rule.Rule.TheVariants.{V};
ghost use Rattle.ray_grounds.specs.Origins.{asks_origin, compacts, is_compact, is_compacted};
ghost use Rattle.ray_grounds.specs.Origins.{is_read, is_src, is_update_source};

use crate::origin::Lack;
use ray_causes::{Member, Name};
use ray_cmd::{Asked, Command, CopyMode};

// Whether the rule V of a number asks of the structure which a member names that it doesn't lack
// this.
pub(crate) fn asks_origin(number: u8, command: &Command, member: Member, lack: Lack) -> bool
    ensures { result ≡ asks_origin (V number) command.now member lack }
{
    match lack {
        Lack::Update => number == 14 && is_update_source(member),
        Lack::Compaction => number == 18 && (compacts(command) && is_read(member)),
        Lack::Build => {
            (number == 13 && is_update_source(member))
                || (number == 18 && (compacts(command) && is_read(member)))
        }
    }
}

// Whether a member is the source of an update.
fn is_update_source(member: Member) -> bool
    ensures { result ≡ is_update_source member }
{
    match member {
        Member::Info(_, name) => is_src(name),
        _ => false,
    }
}

// Whether a member is the source of a copy, or an item of a list.
fn is_read(member: Member) -> bool
    ensures { result ≡ is_read member }
{
    match member {
        Member::Own(name) => is_src(name),
        Member::Item(..) => true,
        _ => false,
    }
}

// Whether a name is that of a source.
fn is_src(name: Name) -> bool
    ensures { result ≡ is_src name }
{
    matches!(name, Name::Src)
}

// Whether a command compacts what it reads, or asks how large it would be then.
fn compacts(command: &Command) -> bool
    ensures { result ≡ compacts command.now }
{
    match command {
        Command::CopyStructure { mode, .. } => is_compact(*mode),
        Command::Property { what, .. } => is_compacted(*what),
        _ => false,
    }
}

// Whether a copy is compact.
fn is_compact(mode: CopyMode) -> bool
    ensures { result ≡ is_compact mode }
{
    match mode {
        CopyMode::Clone => false,
        CopyMode::Compact => true,
    }
}

// Whether the size of a compact copy is asked.
fn is_compacted(what: Asked) -> bool
    ensures { result ≡ is_compacted what }
{
    match what {
        Asked::Compacted => true,
        Asked::Serialized | Asked::SerializedForm2 | Asked::Handles | Asked::Size => false,
    }
}
