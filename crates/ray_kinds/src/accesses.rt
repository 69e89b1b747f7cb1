ghost use Rattle.std.specs.Prelude.{◌≡◌, ◌∷◌, IfSome, [], true};
ghost use Rattle.std.specs.List.{list_any};
ghost use Rattle.ray_flags.specs.Flags.{Build, StructureCopy, Transfer, stages_have};
ghost use Rattle.ray_kinds.specs.Words.{at_access, lacks_at, lacks_support, own_side};
ghost use Rattle.ray_kinds.specs.Words.{side, side_at};

use crate::misfit::Side;
use crate::words::AccessWord;
use bitflags::Flags;
use ray_causes::{Member, Name};
use ray_cmd::{Access, Command, Stages};

// The accesses in the order in which they are told.
const WORDS: &[AccessWord] = &[
    AccessWord::TransferRead,
    AccessWord::TransferWrite,
    AccessWord::ShaderRead,
    AccessWord::ShaderWrite,
    AccessWord::StructureRead,
    AccessWord::StructureWrite,
    AccessWord::HostRead,
    AccessWord::HostWrite,
    AccessWord::MemoryRead,
    AccessWord::MemoryWrite,
];

// The first access that a side of a barrier names, and that no stage of it supports.
pub(crate) fn unsupported(command: &Command, member: Member) -> Option<AccessWord>
    ensures { IfSome result (λ word. lacks_at command.now member word ≡ true) }
{
    unsupported_in(command, member, WORDS)
}

// The same of these accesses.
fn unsupported_in(command: &Command, member: Member, words: &[AccessWord]) -> Option<AccessWord>
    ensures { IfSome result (λ word. lacks_at command.now member word ≡ true) }
{
    for word in words {
        let word = *word;
        if lacks_at(command, member, word) {
            return Some(word);
        }
    }
    None
}

// Whether the side of a member names an access, and no stage that supports it.
fn lacks_at(command: &Command, member: Member, word: AccessWord) -> bool
    ensures { result ≡ lacks_at command.now member word }
{
    match side_at(command, member) {
        Some(side) => lacks_support(side, word),
        None => false,
    }
}

// The side of a member.
fn side_at(command: &Command, member: Member) -> Option<Side>
    ensures { result ≡ side_at command.now member }
{
    match member {
        Member::Own(name) => own_side(command, name),
        _ => None,
    }
}

// The same of a member of the command itself.
fn own_side(command: &Command, name: Name) -> Option<Side>
    ensures { result ≡ own_side command.now name }
{
    match command {
        Command::Barrier {
            src_stages,
            src_access,
            dst_stages,
            dst_access,
            ..
        } => at_access(
            name,
            side(*src_stages, *src_access),
            side(*dst_stages, *dst_access),
        ),
        _ => None,
    }
}

// Stages and accesses.
fn side(stages: Stages, access: Access) -> Side
    ensures { result ≡ side stages access }
{
    Side { stages, access }
}

// One side of a barrier at a name.
fn at_access(name: Name, src: Side, dst: Side) -> Option<Side>
    ensures { result ≡ at_access name src dst }
{
    match name {
        Name::SrcAccess => Some(src),
        Name::DstAccess => Some(dst),
        _ => None,
    }
}

// Whether a side names an access, and no stage that supports it.
fn lacks_support(side: Side, word: AccessWord) -> bool
    ensures { result ≡ lacks_support side word }
{
    let access = side.access;
    let stages = side.stages;
    let build = stages.contains(Stages::BUILD);
    let copies = stages.contains(Stages::STRUCTURE_COPY);
    let compute = stages.contains(Stages::COMPUTE);
    let host = stages.contains(Stages::HOST);
    match word {
        AccessWord::TransferRead => {
            access.contains(Access::TRANSFER_READ) && !moves_bytes(stages)
        }
        AccessWord::TransferWrite => {
            access.contains(Access::TRANSFER_WRITE) && !moves_bytes(stages)
        }
        AccessWord::ShaderRead => access.contains(Access::SHADER_READ) && !(build || compute),
        AccessWord::ShaderWrite => access.contains(Access::SHADER_WRITE) && !compute,
        AccessWord::StructureRead => {
            access.contains(Access::STRUCTURE_READ) && !(build || copies || compute)
        }
        AccessWord::StructureWrite => {
            access.contains(Access::STRUCTURE_WRITE) && !(build || copies)
        }
        AccessWord::HostRead => access.contains(Access::HOST_READ) && !host,
        AccessWord::HostWrite => access.contains(Access::HOST_WRITE) && !host,
        AccessWord::MemoryRead => access.contains(Access::MEMORY_READ) && stages.0 == 0,
        AccessWord::MemoryWrite => access.contains(Access::MEMORY_WRITE) && stages.0 == 0,
    }
}

// Whether stages have one that moves bytes of buffers.
fn moves_bytes(stages: Stages) -> bool
    ensures { result ≡ list_any (stages_have stages) (Transfer ∷ Build ∷ StructureCopy ∷ []) }
{
    stages.contains(Stages::TRANSFER)
        || (stages.contains(Stages::BUILD) || stages.contains(Stages::STRUCTURE_COPY))
}
