//! How far one command has been handed on where a later one stands, gone over command by command.
ghost use Rattle.std.specs.Prelude.{◌≡◌, ◌<◌, ◌≤◌, ◌&&◌, ◌||◌, IfOk, length};
ghost use Rattle.std.specs.List.{list_any};
ghost use Rattle.ray_rules.specs.declared.access_type.AccessType.{AccessType as AnAccess};
ghost use Rattle.ray_rules.specs.declared.stage.Stage.{Stage as AStage};
ghost use Rattle.ray_rules.specs.Makers.{is_one, maker_of_buffer};
ghost use Rattle.ray_rules.specs.Order.{Handed, acts_on, handed_after, handed_on};
ghost use Rattle.ray_rules.specs.Order.{handed_to_device, holds_access, holds_stage, is_device};
ghost use Rattle.ray_rules.specs.Order.{meets_stages, not_handed, reaches};
ghost use Rattle.ray_rules.specs.Verdict.{GoOn};
ghost use Rattle.ray_clash.specs.Handing.{IsPassed, acts_on_deed, deed_after, deed_at};
ghost use Rattle.ray_clash.specs.Handing.{reached_at, takes_deed};

use ray_causes::status_before;
use ray_cmd::{Access, Command, Listed, Recording, Stages};
use ray_rules::{AccessType, Stage};
use ray_status::Status;
use ray_sync::{holds_access, holds_stage};
use std::alloc::{AllocError as NoMemory, Global};

/// What is handed on of a command. Own.
#[derive(Clone, Copy, Debug)]
pub enum Deed {
    /// Whatever it did.
    Any,
    /// What it wrote with an access to a thing: a buffer, by the command that made it, or a
    /// structure, which is none.
    Write(AccessType, Option<u32>),
}

/// How far it has been handed on: which stages it has reached, and whether it is visible to the
/// access that is asked for. Own.
#[derive(Clone, Copy, Debug)]
pub struct Passed {
    /// Whether it has reached transfers.
    pub transfer: bool,
    /// Whether it has reached builds.
    pub build: bool,
    /// Whether it has reached copies of structures.
    pub structure_copy: bool,
    /// Whether it has reached traces.
    pub compute: bool,
    /// Whether it has reached the host.
    pub host: bool,
    /// Whether it is visible to the access that is asked for.
    pub seen: bool,
}

// What is asked: how far what a command of a stage did is handed on to an access at a stage.
#[derive(Clone, Copy, Debug)]
pub(crate) struct Asking {
    pub(crate) stage: Stage,
    pub(crate) deed: Deed,
    pub(crate) to: Stage,
    pub(crate) access: AccessType,
}

// How far command number `i` has been handed on where command number `j` stands.
pub(crate) fn passed_to(
    alloc: Global,
    rec: &Recording,
    i: u32,
    j: u32,
    asking: &Asking,
) -> Result<Passed, NoMemory>
    requires order { i < j }
    requires within { j ≤ length rec.now }
    requires go_on { GoOn rec.now j }
    ensures { IfOk result (IsPassed asking.now.to asking.now.access
        (deed_at rec.now i asking.now.stage asking.now.deed j)) }
{
    let mut status = status_before(alloc, rec, i + 1)?;
    let mut passed = nowhere();
    for n in i + 1..j {
        let command = rec.command(n);
        passed = next(passed, &status, asking, command);
        status.step(n, command)?;
    }
    Ok(passed)
}

// How far it has been handed on after one more command, before which a status stands.
fn next(passed: Passed, status: &Status, asking: &Asking, command: &Command) -> Passed
    ensures { (h : Handed) → IsPassed asking.now.to asking.now.access h passed
        → IsPassed asking.now.to asking.now.access
        (deed_after asking.now.stage asking.now.deed status.now command.now h) result }
{
    if acts(status, asking.deed, command) {
        after(passed, asking, command)
    } else {
        passed
    }
}

// Not at all.
fn nowhere() -> Passed
    ensures { (to : AStage) (x : AnAccess) → IsPassed to x not_handed result }
{
    Passed {
        transfer: false,
        build: false,
        structure_copy: false,
        compute: false,
        host: false,
        seen: false,
    }
}

// Whether a command acts on what is handed on where a status stands.
fn acts(status: &Status, deed: Deed, command: &Command) -> bool
    ensures { result ≡ acts_on_deed deed status.now command.now }
{
    match deed {
        Deed::Any => true,
        Deed::Write(_, thing) => acts_on(status, thing, command),
    }
}

// The same of what was written to a thing.
fn acts_on(status: &Status, thing: Option<u32>, command: &Command) -> bool
    ensures { result ≡ acts_on thing status.now command.now }
{
    match command {
        Command::Barrier { buffers, .. } => reaches(status, buffers, thing),
        _ => true,
    }
}

// Whether a barrier with these limits reaches a thing.
fn reaches(status: &Status, buffers: &Option<Listed<u32>>, thing: Option<u32>) -> bool
    ensures { result ≡ reaches status.now buffers.now thing }
{
    match buffers {
        Some(ids) => reaches_one(status, ids.as_slice(), thing),
        None => true,
    }
}

// Whether one of the buffers of these ids is a thing.
fn reaches_one(status: &Status, ids: &[u32], thing: Option<u32>) -> bool
    ensures { result ≡ list_any (λ id. is_one (maker_of_buffer status.now id) thing) ids.now }
{
    ids.iter().any(|id| is_of(status, *id, thing))
}

// Whether the buffer of an id is a thing.
fn is_of(status: &Status, id: u32, thing: Option<u32>) -> bool
    ensures { result ≡ is_one (maker_of_buffer status.now id) thing }
{
    match (status.maker_of_buffer(id), thing) {
        (Some(made), Some(thing)) => made == thing,
        _ => false,
    }
}

// How far it has been handed on after one more command that acts.
fn after(passed: Passed, asking: &Asking, command: &Command) -> Passed
    ensures { (h : Handed) → IsPassed asking.now.to asking.now.access h passed
        → IsPassed asking.now.to asking.now.access
        (handed_after (takes_deed asking.now.stage asking.now.deed) command.now h) result }
{
    match command {
        Command::Barrier {
            src_stages,
            src_access,
            dst_stages,
            dst_access,
            ..
        } => {
            let direct = takes(asking.stage, asking.deed, *src_stages, *src_access);
            let taken = direct || meets(*src_stages, passed);
            handed_on(passed, asking, taken, *dst_stages, *dst_access)
        }
        Command::Wait => waited(passed, asking),
        _ => passed,
    }
}

// Whether a barrier with this source takes it up directly.
fn takes(stage: Stage, deed: Deed, src_stages: Stages, src_access: Access) -> bool
    ensures { result ≡ takes_deed stage deed src_stages src_access }
{
    match deed {
        Deed::Any => holds_stage(src_stages, stage),
        Deed::Write(access, _) => {
            holds_stage(src_stages, stage) && holds_access(src_access, access)
        }
    }
}

// Whether it has reached one of these stages.
fn meets(stages: Stages, passed: Passed) -> bool
    ensures { result ≡ meets_stages stages (reached_at passed) }
{
    let transfer = holds_stage(stages, Stage::Transfer) && passed.transfer;
    let build = holds_stage(stages, Stage::Build) && passed.build;
    let copy = holds_stage(stages, Stage::StructureCopy) && passed.structure_copy;
    let compute = holds_stage(stages, Stage::Compute) && passed.compute;
    let host = holds_stage(stages, Stage::Host) && passed.host;
    transfer || build || copy || compute || host
}

// Handed on once more to the destination of a barrier, where its source takes it up.
fn handed_on(
    passed: Passed,
    asking: &Asking,
    taken: bool,
    dst_stages: Stages,
    dst_access: Access,
) -> Passed
    ensures { (h : Handed) → IsPassed asking.now.to asking.now.access h passed
        → IsPassed asking.now.to asking.now.access
        (handed_on taken dst_stages dst_access h) result }
{
    let shown = is_shown(dst_stages, dst_access, asking.to, asking.access);
    Passed {
        transfer: raised(passed.transfer, taken, dst_stages, Stage::Transfer),
        build: raised(passed.build, taken, dst_stages, Stage::Build),
        structure_copy: raised(
            passed.structure_copy,
            taken,
            dst_stages,
            Stage::StructureCopy,
        ),
        compute: raised(passed.compute, taken, dst_stages, Stage::Compute),
        host: raised(passed.host, taken, dst_stages, Stage::Host),
        seen: or_shown(passed.seen, taken, shown),
    }
}

// Whether a stage is reached, where it was before, or is reached by what is taken up.
fn raised(was: bool, taken: bool, dst_stages: Stages, stage: Stage) -> bool
    ensures { result ≡ (was || (taken && holds_stage dst_stages stage)) }
{
    was || (taken && holds_stage(dst_stages, stage))
}

// Whether something was visible, or is shown by what is taken up.
fn or_shown(was: bool, taken: bool, shown: bool) -> bool
    ensures { result ≡ (was || (taken && shown)) }
{
    was || (taken && shown)
}

// Whether a barrier's destination holds a stage and an access.
fn is_shown(dst_stages: Stages, dst_access: Access, to: Stage, access: AccessType) -> bool
    ensures { result ≡ (holds_stage dst_stages to && holds_access dst_access access) }
{
    holds_stage(dst_stages, to) && holds_access(dst_access, access)
}

// Handed on to all that the device does later.
fn waited(passed: Passed, asking: &Asking) -> Passed
    ensures { (h : Handed) → IsPassed asking.now.to asking.now.access h passed
        → IsPassed asking.now.to asking.now.access (handed_to_device h) result }
{
    Passed {
        transfer: true,
        build: true,
        structure_copy: true,
        compute: true,
        host: passed.host,
        seen: passed.seen || is_device(asking.to),
    }
}

// Whether a stage is one of the device.
fn is_device(stage: Stage) -> bool
    ensures { result ≡ is_device stage }
{
    match stage {
        Stage::Transfer | Stage::Build | Stage::StructureCopy | Stage::Compute => true,
        Stage::Host => false,
    }
}
