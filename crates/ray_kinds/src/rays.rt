ghost use Rattle.std.specs.Prelude.{◌≡◌, IfSome, true};
ghost use Rattle.ray_flags.specs.Flags.{ray_has};
ghost use Rattle.ray_kinds.specs.Words.{are_exclusive, exclude, excludes_cull_back_facing};
ghost use Rattle.ray_kinds.specs.Words.{excludes_cull_opaque, excludes_no_opaque, excludes_opaque};
ghost use Rattle.ray_kinds.specs.Words.{excludes_skip_triangles, ray_flag, traced_has};

use crate::misfit::Clash;
use crate::words::RayWord;
use bitflags::Flags;
use ray_cmd::{Command, RayFlags};

// The flags in the order in which they are told.
const WORDS: &[RayWord] = &[
    RayWord::Opaque,
    RayWord::NoOpaque,
    RayWord::CullOpaque,
    RayWord::CullNoOpaque,
    RayWord::SkipTriangles,
    RayWord::CullBackFacing,
    RayWord::CullFrontFacing,
    RayWord::SkipAabbs,
];

// The first two flags of a trace that exclude one another.
pub(crate) fn exclusive(command: &Command) -> Option<Clash>
    ensures { IfSome result (λ two. are_exclusive command.now two.one two.other ≡ true) }
{
    exclusive_in(command, WORDS)
}

// The same of these flags.
fn exclusive_in(command: &Command, words: &[RayWord]) -> Option<Clash>
    ensures { IfSome result (λ two. are_exclusive command.now two.one two.other ≡ true) }
{
    for word in words {
        if let Some(two) = exclusive_with(command, *word, words) {
            return Some(two);
        }
    }
    None
}

// The same of one flag, and one of others.
fn exclusive_with(command: &Command, one: RayWord, others: &[RayWord]) -> Option<Clash>
    ensures { IfSome result (λ two. are_exclusive command.now two.one two.other ≡ true) }
{
    for other in others {
        let other = *other;
        if are_exclusive(command, one, other) {
            return Some(Clash { one, other });
        }
    }
    None
}

// Whether a trace has two flags that exclude one another.
fn are_exclusive(command: &Command, one: RayWord, other: RayWord) -> bool
    ensures { result ≡ are_exclusive command.now one other }
{
    exclude(one, other) && (traced_has(command, one) && traced_has(command, other))
}

// Whether a trace has a flag.
fn traced_has(command: &Command, word: RayWord) -> bool
    ensures { result ≡ traced_has command.now word }
{
    match command {
        Command::Trace { flags, .. } => has_word(*flags, word),
        _ => false,
    }
}

// Whether flags have this one.
fn has_word(flags: RayFlags, word: RayWord) -> bool
    ensures { result ≡ ray_has flags (ray_flag word) }
{
    match word {
        RayWord::Opaque => flags.contains(RayFlags::OPAQUE),
        RayWord::NoOpaque => flags.contains(RayFlags::NO_OPAQUE),
        RayWord::CullOpaque => flags.contains(RayFlags::CULL_OPAQUE),
        RayWord::CullNoOpaque => flags.contains(RayFlags::CULL_NO_OPAQUE),
        RayWord::SkipTriangles => flags.contains(RayFlags::SKIP_TRIANGLES),
        RayWord::CullBackFacing => flags.contains(RayFlags::CULL_BACK_FACING),
        RayWord::CullFrontFacing => flags.contains(RayFlags::CULL_FRONT_FACING),
        RayWord::SkipAabbs => flags.contains(RayFlags::SKIP_AABBS),
    }
}

// Whether two flags exclude one another, and stand in this order.
fn exclude(one: RayWord, other: RayWord) -> bool
    ensures { result ≡ exclude one other }
{
    match one {
        RayWord::Opaque => excludes_opaque(other),
        RayWord::NoOpaque => excludes_no_opaque(other),
        RayWord::CullOpaque => excludes_cull_opaque(other),
        RayWord::SkipTriangles => excludes_skip_triangles(other),
        RayWord::CullBackFacing => excludes_cull_back_facing(other),
        _ => false,
    }
}

// Whether a flag excludes `opaque`, and comes behind it.
fn excludes_opaque(word: RayWord) -> bool
    ensures { result ≡ excludes_opaque word }
{
    match word {
        RayWord::NoOpaque => true,
        RayWord::CullOpaque => true,
        RayWord::CullNoOpaque => true,
        _ => false,
    }
}

// The same of `no_opaque`.
fn excludes_no_opaque(word: RayWord) -> bool
    ensures { result ≡ excludes_no_opaque word }
{
    match word {
        RayWord::CullOpaque => true,
        RayWord::CullNoOpaque => true,
        _ => false,
    }
}

// The same of `cull_opaque`.
fn excludes_cull_opaque(word: RayWord) -> bool
    ensures { result ≡ excludes_cull_opaque word }
{
    match word {
        RayWord::CullNoOpaque => true,
        _ => false,
    }
}

// The same of `skip_triangles`.
fn excludes_skip_triangles(word: RayWord) -> bool
    ensures { result ≡ excludes_skip_triangles word }
{
    match word {
        RayWord::CullBackFacing => true,
        RayWord::CullFrontFacing => true,
        RayWord::SkipAabbs => true,
        _ => false,
    }
}

// The same of `cull_back_facing`.
fn excludes_cull_back_facing(word: RayWord) -> bool
    ensures { result ≡ excludes_cull_back_facing word }
{
    match word {
        RayWord::CullFrontFacing => true,
        _ => false,
    }
}
