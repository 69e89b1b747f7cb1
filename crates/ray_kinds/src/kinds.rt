ghost use Rattle.std.specs.Prelude.{◌≡◌, IfSome, Some};
ghost use Rattle.std.specs.Option.{option_and_then};
ghost use Rattle.ray_cmd.specs.declared.rule.Rule.TheVariants.{V};
ghost use Rattle.ray_cmd.specs.declared.structure_kind.StructureKind.TheVariants.{Top};
ghost use Rattle.ray_causes.specs.Names.{structure_named};
ghost use Rattle.ray_causes.specs.Naming.{at_src, at_top};
ghost use Rattle.ray_kinds.specs.Kinds.{asked_kind, copied_kind, is_other_kind, item_kind};
ghost use Rattle.ray_kinds.specs.Kinds.{kind_wanted, own_kind, serialized_kind};
ghost use Rattle.ray_kinds.specs.Misfits.{IsMisfit};

use crate::misfit::Misfit;
use ray_causes::{Member, Name, structure_named};
use ray_cmd::{Asked, Command, CopyMode, StructureKind, is_form_2};
use ray_status::{Status, is_bottom_at, is_top_at};

// That a member names a structure of the wrong kind.
pub(crate) fn wrong_kind(status: &Status, command: &Command, member: Member) -> Option<Misfit>
    ensures { IfSome result (λ misfit. IsMisfit status.now command.now (V 7) misfit) }
{
    match kind_wanted(command, member) {
        Some(wanted) => wrong_kind_by(status, command, member, wanted),
        None => None,
    }
}

// The same where this kind is wanted.
fn wrong_kind_by(
    status: &Status,
    command: &Command,
    member: Member,
    wanted: StructureKind,
) -> Option<Misfit>
    requires { kind_wanted command.now member ≡ Some wanted }
    ensures { IfSome result (λ misfit. IsMisfit status.now command.now (V 7) misfit) }
{
    match structure_named(command, member) {
        Some(id) => {
            if is_other_kind(status, wanted, id) {
                Some(Misfit::WrongKind(member, id, wanted))
            } else {
                None
            }
        }
        None => None,
    }
}

// Whether the structure of an id is live and of the other kind.
fn is_other_kind(status: &Status, wanted: StructureKind, id: u32) -> bool
    ensures { result ≡ is_other_kind status.now wanted id }
{
    match wanted {
        StructureKind::Bottom => is_top_at(status, id),
        StructureKind::Top => is_bottom_at(status, id),
    }
}

// The kind of which the structure has to be that a member names.
fn kind_wanted(command: &Command, member: Member) -> Option<StructureKind>
    ensures { result ≡ kind_wanted command.now member }
{
    match member {
        Member::Own(name) => own_kind(command, name),
        Member::Item(..) => item_kind(command),
        Member::InfoItem(..) => Some(StructureKind::Bottom),
        _ => None,
    }
}

// The same of a member of the command itself.
fn own_kind(command: &Command, name: Name) -> Option<StructureKind>
    ensures { result ≡ own_kind command.now name }
{
    match command {
        Command::CopyStructure { mode, .. } => source_kind(name, copied_kind(*mode)),
        Command::Serialize { form, .. } => source_kind(name, serialized_kind(*form)),
        Command::Trace { .. } => top_kind(name),
        _ => None,
    }
}

// The same of a trace.
fn top_kind(name: Name) -> Option<StructureKind>
    ensures { result ≡ at_top name Top }
{
    match name {
        Name::Top => Some(StructureKind::Top),
        _ => None,
    }
}

// A kind, where the name is that of a source.
fn source_kind(name: Name, kind: Option<StructureKind>) -> Option<StructureKind>
    ensures { result ≡ option_and_then (at_src name) kind }
{
    match kind {
        Some(kind) => at_src(name, kind),
        None => None,
    }
}

// A kind, at the name of a source alone.
fn at_src(name: Name, kind: StructureKind) -> Option<StructureKind>
    ensures { result ≡ at_src name kind }
{
    match name {
        Name::Src => Some(kind),
        _ => None,
    }
}

// The kind of which the source of a copy has to be.
fn copied_kind(mode: CopyMode) -> Option<StructureKind>
    ensures { result ≡ copied_kind mode }
{
    match mode {
        CopyMode::Clone => None,
        CopyMode::Compact => Some(StructureKind::Bottom),
    }
}

// The same of a source that is serialized.
fn serialized_kind(form: Option<u32>) -> Option<StructureKind>
    ensures { result ≡ serialized_kind form }
{
    if is_form_2(form) {
        Some(StructureKind::Bottom)
    } else {
        None
    }
}

// The same of an item of a list of the command itself.
fn item_kind(command: &Command) -> Option<StructureKind>
    ensures { result ≡ item_kind command.now }
{
    match command {
        Command::Deserialize { .. } => Some(StructureKind::Bottom),
        Command::Property { what, .. } => asked_kind(*what),
        _ => None,
    }
}

// The same of a structure of which something is asked.
fn asked_kind(what: Asked) -> Option<StructureKind>
    ensures { result ≡ asked_kind what }
{
    match what {
        Asked::Compacted | Asked::SerializedForm2 => Some(StructureKind::Bottom),
        Asked::Serialized | Asked::Handles | Asked::Size => None,
    }
}
