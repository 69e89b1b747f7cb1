ghost use Rattle.std.specs.Prelude.{◌≡◌, ◌≤◌, IfOk, IfNone, IfSome, None, length, true};
ghost use Rattle.ray_rules.specs.Buffers.{v2};
ghost use Rattle.ray_rules.specs.Names.{v1};
ghost use Rattle.ray_rules.specs.Refusals.{AreKept, IsLeastBroken, refusal_at_end, refused, static_refusal, static_refusal_of, static_table};
ghost use Rattle.ray_rules.specs.Sources.{v21};

use crate::buffers::{v2, v3, v30};
use crate::conflicts::v16;
use crate::flags::{v22, v23, v24};
use crate::fresh::Fresh;
use crate::names::v1;
use crate::phases::{v28, v28_at_end, v29};
use crate::shapes::{v7, v8, v9, v10};
use crate::sources::{v13, v14, v15, v17, v18, v20, v21_unless};
use crate::spans::{v4, v5, v12, v31};
use crate::structures::{v6, v11, v19};
use ray_cmd::{Command, Place, Recording, Refusal, Rule};
use ray_status::Status;
use std::alloc::{AllocError as NoMemory, Global};

/// The refusal of the first command of a recording that breaks one of the static rules V1 to V24 or
/// V28 to V31, by the least rule that it breaks, with its place. None exactly where none does. The
/// end of the recording counts as one further command, which can break V28 alone.
///
/// # Errors
///
/// For want of memory alone.
#[tactic(auto, unfolding(ray_rules::specs::Refusals::static_refusal))]
pub fn check_static(alloc: Global, rec: &Recording) -> Result<Option<Refusal>, NoMemory>
    ensures value { IfOk result (λ refusal. refusal ≡ static_refusal rec.now) }
    ensures within { IfOk result (λ refusal. IfSome refusal (λ r. r.command ≤ length rec.now)) }
{
    let mut status = Status::new(alloc);
    let mut fresh = Fresh::none(alloc);
    for i in 0..rec.len() {
        let command = rec.command(i);
        let known = fresh.knows(command);
        if let Some(refusal) = refusal_unless(known, alloc, rec, i, &status, command)? {
            return Ok(Some(refusal));
        }
        status.step(i, command)?;
        fresh.pass(alloc, command)?;
    }
    Ok(refusal_at_end(rec.len(), &status))
}

/// The refusal of command number `i` by the least static rule that it breaks, where this status
/// stands before it. None exactly where it breaks none.
///
/// # Errors
///
/// For want of memory alone.
pub fn refusal_of(
    alloc: Global,
    rec: &Recording,
    i: u32,
    status: &Status,
    command: &Command,
) -> Result<Option<Refusal>, NoMemory>
    ensures value { IfOk result (λ refusal. refusal ≡ static_refusal_of rec.now i status.now command.now) }

    ensures at { IfOk result (λ refusal. IfSome refusal (λ r. r.command ≡ i)) }

    // The rule is the first of the table that is broken, or all are kept.
    ensures least { IfOk result (λ refusal. IfSome refusal (λ r.
        IsLeastBroken (static_table rec.now status.now command.now) r)) }
    ensures kept { IfOk result (λ refusal. IfNone refusal
        (AreKept (static_table rec.now status.now command.now))) }
{
    refusal_unless(false, alloc, rec, i, status, command)
}

// The same, where it may be known already that the command keeps V21.
#[tactic(auto, unfolding(ray_rules::specs::Refusals::static_refusal_of))]
fn refusal_unless(
    known: bool,
    alloc: Global,
    rec: &Recording,
    i: u32,
    status: &Status,
    command: &Command,
) -> Result<Option<Refusal>, NoMemory>
    requires { known ≡ true → v21 rec.now status.now command.now ≡ None }
    ensures value { IfOk result (λ refusal. refusal ≡ static_refusal_of rec.now i status.now command.now) }
    ensures at { IfOk result (λ refusal. IfSome refusal (λ r. r.command ≡ i)) }
    ensures least { IfOk result (λ refusal. IfSome refusal (λ r.
        IsLeastBroken (static_table rec.now status.now command.now) r)) }
    ensures kept { IfOk result (λ refusal. IfNone refusal
        (AreKept (static_table rec.now status.now command.now))) }
{
    if let Some(place) = v1(status, command) {
        return Ok(Some(refused(i, 1, place)));
    }
    if let Some(place) = v2(status, command) {
        return Ok(Some(refused(i, 2, place)));
    }
    if let Some(place) = v3(status, command) {
        return Ok(Some(refused(i, 3, place)));
    }
    if let Some(place) = v4(status, command) {
        return Ok(Some(refused(i, 4, place)));
    }
    if let Some(place) = v5(command) {
        return Ok(Some(refused(i, 5, place)));
    }
    if let Some(place) = v6(status, command) {
        return Ok(Some(refused(i, 6, place)));
    }
    if let Some(place) = v7(status, command) {
        return Ok(Some(refused(i, 7, place)));
    }
    if let Some(place) = v8(status, command) {
        return Ok(Some(refused(i, 8, place)));
    }
    if let Some(place) = v9(command) {
        return Ok(Some(refused(i, 9, place)));
    }
    if let Some(place) = v10(status, command) {
        return Ok(Some(refused(i, 10, place)));
    }
    if let Some(place) = v11(status, command) {
        return Ok(Some(refused(i, 11, place)));
    }
    if let Some(place) = v12(status, command) {
        return Ok(Some(refused(i, 12, place)));
    }
    if let Some(place) = v13(rec, status, command) {
        return Ok(Some(refused(i, 13, place)));
    }
    if let Some(place) = v14(rec, status, command) {
        return Ok(Some(refused(i, 14, place)));
    }
    if let Some(place) = v15(rec, status, command) {
        return Ok(Some(refused(i, 15, place)));
    }
    if let Some(place) = v16(alloc, command)? {
        return Ok(Some(refused(i, 16, place)));
    }
    if let Some(place) = v17(status, command) {
        return Ok(Some(refused(i, 17, place)));
    }
    if let Some(place) = v18(rec, status, command) {
        return Ok(Some(refused(i, 18, place)));
    }
    if let Some(place) = v19(status, command) {
        return Ok(Some(refused(i, 19, place)));
    }
    if let Some(place) = v20(status, command) {
        return Ok(Some(refused(i, 20, place)));
    }
    if let Some(place) = v21_unless(known, rec, status, command) {
        return Ok(Some(refused(i, 21, place)));
    }
    if let Some(place) = v22(command) {
        return Ok(Some(refused(i, 22, place)));
    }
    if let Some(place) = v23(command) {
        return Ok(Some(refused(i, 23, place)));
    }
    if let Some(place) = v24(command) {
        return Ok(Some(refused(i, 24, place)));
    }
    if let Some(place) = v28(status, command) {
        return Ok(Some(refused(i, 28, place)));
    }
    if let Some(place) = v29(status, command) {
        return Ok(Some(refused(i, 29, place)));
    }
    if let Some(place) = v30(status, command) {
        return Ok(Some(refused(i, 30, place)));
    }
    if let Some(place) = v31(command) {
        return Ok(Some(refused(i, 31, place)));
    }
    Ok(None)
}

// The refusal of command number `i` by a static rule at a place.
fn refused(i: u32, number: u8, place: Place) -> Refusal
    ensures { result ≡ refused i number place }
{
    Refusal {
        command: i,
        rule: Rule::V(number),
        place,
    }
}

/// The refusal of the end of a recording of `i` commands, where this status stands there. (Own.)
pub fn refusal_at_end(i: u32, status: &Status) -> Option<Refusal>
    ensures value { result ≡ refusal_at_end i status.now }
    ensures at { IfSome result (λ r. r.command ≡ i) }
{
    match v28_at_end(status) {
        Some(place) => Some(refused(i, 28, place)),
        None => None,
    }
}
