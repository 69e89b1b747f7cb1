ghost use Rattle.std.specs.Prelude.{◌≡◌, IfSome};
ghost use Rattle.ray_cmd.specs.declared.rule.Rule.TheVariants.{V};
ghost use Rattle.ray_causes.specs.Naming.{at_dst, at_src};
ghost use Rattle.ray_kinds.specs.Kinds.{asks_pair, info_pair, own_pair, pair, pair_at};
ghost use Rattle.ray_kinds.specs.Kinds.{rule_of_pair};
ghost use Rattle.ray_kinds.specs.Misfits.{IsMisfit};

use crate::misfit::{Misfit, Pair};
use ray_causes::{Member, Name, info_at};
use ray_cmd::{Command, Info};
use ray_status::{Status, differ_in_kind};

// That the source and the destination at a member are of two kinds, where the rule V of a number
// asks that they aren't.
pub(crate) fn two_kinds(
    status: &Status,
    command: &Command,
    number: u8,
    member: Member,
) -> Option<Misfit>
    ensures { IfSome result (λ misfit. IsMisfit status.now command.now (V number) misfit) }
{
    if asks_pair(number, member) {
        match pair_at(command, member) {
            Some(two) => {
                if differ_in_kind(status, two.src, two.dst) {
                    Some(Misfit::TwoKinds(member, two))
                } else {
                    None
                }
            }
            None => None,
        }
    } else {
        None
    }
}

// Whether the rule V of a number asks that a source and a destination are of one kind.
fn asks_pair(number: u8, member: Member) -> bool
    ensures { result ≡ asks_pair (V number) member }
{
    rule_of_pair(member) == number
}

// The number of that rule, 0 for none.
fn rule_of_pair(member: Member) -> u8
    ensures { result ≡ rule_of_pair member }
{
    match member {
        Member::Own(_) => 19,
        Member::Info(..) => 7,
        _ => 0,
    }
}

// That the source and the destination of a copy are one structure, or of two kinds.
pub(crate) fn wrong_copy(status: &Status, command: &Command) -> Option<Misfit>
    ensures { IfSome result (λ misfit. IsMisfit status.now command.now (V 19) misfit) }
{
    match own_pair(command, Name::Dst) {
        Some(two) => {
            if two.src == two.dst {
                Some(Misfit::Same(two))
            } else {
                two_kinds(status, command, 19, Member::Own(Name::Dst))
            }
        }
        None => None,
    }
}

// The source and the destination at a member.
fn pair_at(command: &Command, member: Member) -> Option<Pair>
    ensures { result ≡ pair_at command.now member }
{
    match member {
        Member::Own(name) => own_pair(command, name),
        Member::Info(number, name) => match info_at(command, number) {
            Some(info) => info_pair(name, info),
            None => None,
        },
        _ => None,
    }
}

// Those of a copy.
fn own_pair(command: &Command, name: Name) -> Option<Pair>
    ensures { result ≡ own_pair command.now name }
{
    match command {
        Command::CopyStructure { src, dst, .. } => at_dst(name, pair(*src, *dst)),
        _ => None,
    }
}

// Those of an update.
fn info_pair(name: Name, info: &Info) -> Option<Pair>
    ensures { result ≡ info_pair name info.now }
{
    match info.src {
        Some(src) => at_src(name, pair(src, info.dst)),
        None => None,
    }
}

// A source and a destination.
fn pair(src: u32, dst: u32) -> Pair
    ensures { result ≡ pair src dst }
{
    Pair { src, dst }
}

// Those, at the name of a source alone.
fn at_src(name: Name, two: Pair) -> Option<Pair>
    ensures { result ≡ at_src name two }
{
    match name {
        Name::Src => Some(two),
        _ => None,
    }
}

// Those, at the name of a destination alone.
fn at_dst(name: Name, two: Pair) -> Option<Pair>
    ensures { result ≡ at_dst name two }
{
    match name {
        Name::Dst => Some(two),
        _ => None,
    }
}
