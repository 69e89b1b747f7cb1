ghost use Rattle.std.specs.Prelude.{◌≡◌, All, IfOk, length, option_copied};
ghost use Rattle.ray_bytes.specs.References.{structure_of};
ghost use Rattle.ray_contents.specs.Limits.{matrix_within};
ghost use Rattle.ray_geom.specs.Transform.{IsMatrix};
ghost use Rattle.ray_primitives.specs.Outcomes.{Gives};
ghost use Rattle.ray_primitives.specs.Updates.{old_at};
ghost use Rattle.ray_top.specs.Contents.{IsInstance};
ghost use Rattle.ray_top.specs.Instances.{matrix_from, forces_both};
ghost use Rattle.ray_top.specs.InstanceReading.{bounds_kept, forced, bounded, limited, in_use};
ghost use Rattle.ray_top.specs.InstanceReading.{referring, instance_read, instance_after};
ghost use Rattle.ray_top.specs.InstanceReading.{updated_instance, instance_element};
ghost use Rattle.ray_top.specs.InstanceReading.{instances_read};

use crate::placed::Placed;
use crate::used_index::UsedIndex;
use bitflags::Flags;
use ray_bytes::{DataFault, DataRule, InstanceRecord, InstanceView, Reference, structure_of};
use ray_contents::{Elements, keeps_bounds, matrix_within};
use ray_flags::InstanceFlags;
use ray_geom::{Box3, Matrix};
use ray_primitives::BuildFault;
use std::alloc::Global;

// The first instances of a buffer, as an update of old ones where there are some. Data comes
// exactly where one of X5 to X9 is broken, and is the first: by instance, and for one instance the
// least.
pub(crate) fn read_instances(
    alloc: Global,
    used: &UsedIndex<'_>,
    view: &InstanceView<'_>,
    olds: Option<&[Option<Placed>]>,
    count: u32,
) -> Result<Elements<Option<Placed>>, BuildFault>
    ensures value { Gives (instances_read used.now view.now (option_copied olds.entry) count)
        result }
    ensures count { IfOk result (λ instances. length instances ≡ count) }
    ensures limits { IfOk result (All (IsInstance used.now)) }
{
    read(alloc, used, view, olds, count)
}

// The same instances.
#[tactic(auto, using(ray_contents::proofs::Gathered::gathering))]
fn read(
    alloc: Global,
    used: &UsedIndex<'_>,
    view: &InstanceView<'_>,
    olds: Option<&[Option<Placed>]>,
    count: u32,
) -> Result<Elements<Option<Placed>>, BuildFault>
    ensures { Gives (instances_read used.now view.now (option_copied olds.entry) count) result }
{
    let mut kept = Vec::with_capacity(alloc, count as usize)?;
    for i in 0..count {
        kept.push(element(used, view, olds, i)?)?;
    }
    Ok(Elements::new(kept))
}

// Instance i, or the least rule that it breaks, with its place.
#[tactic(auto, unfolding(crate::specs::InstanceReading::instance_element))]
fn element(
    used: &UsedIndex<'_>,
    view: &InstanceView<'_>,
    olds: Option<&[Option<Placed>]>,
    i: u32,
) -> Result<Option<Placed>, DataFault>
    ensures { result ≡ instance_element used.now view.now (option_copied olds.entry) i }
{
    match updated(old(olds, i), made(used, view.get(i))) {
        Ok(instance) => Ok(instance),
        Err(rule) => Err(DataFault {
            rule,
            geometry: 0,
            element: Some(i),
        }),
    }
}

// The old instance of this number.
fn old<'a>(olds: Option<&'a [Option<Placed>]>, i: u32) -> Option<&'a Option<Placed>>
    ensures { option_copied result ≡ old_at (option_copied olds.entry) i }
{
    match olds {
        Some(olds) => olds.get(i as usize),
        None => None,
    }
}

// An instance that is read, as an update of the old one.
fn updated(
    old: Option<&Option<Placed>>,
    read: Result<Option<Placed>, DataRule>,
) -> Result<Option<Placed>, DataRule>
    ensures { result ≡ updated_instance (option_copied old.entry) read }
{
    match read {
        Ok(instance) => after(old, instance),
        Err(rule) => Err(rule),
    }
}

// An instance, as an update of the old one.
fn after(old: Option<&Option<Placed>>, instance: Option<Placed>) -> Result<Option<Placed>, DataRule>
    ensures { result ≡ instance_after (option_copied old.entry) instance }
{
    match old {
        Some(old) => {
            if old.is_some() == instance.is_some() {
                Ok(instance)
            } else {
                Err(DataRule::X9)
            }
        }
        None => Ok(instance),
    }
}

// The instance of a record.
fn made(used: &UsedIndex<'_>, from: Option<InstanceRecord>) -> Result<Option<Placed>, DataRule>
    ensures { result ≡ instance_read used.now from }
{
    match from {
        Some(from) => referring(used, &from, structure_of(from.reference)),
        None => Ok(None),
    }
}

// The instance of a record with what it refers to.
fn referring(
    used: &UsedIndex<'_>,
    from: &InstanceRecord,
    reference: Reference,
) -> Result<Option<Placed>, DataRule>
    ensures { result ≡ referring used.now from.now reference }
{
    match reference {
        Reference::Inactive => Ok(None),
        Reference::Structure(id) => in_use(from, id, used.get(id)),
        Reference::Unknown => Err(DataRule::X5),
    }
}

// The instance of a record and an id, with what stands beside the id.
fn in_use(
    from: &InstanceRecord,
    id: u32,
    bounds: Option<Option<Box3>>,
) -> Result<Option<Placed>, DataRule>
    ensures { result ≡ in_use from.now id bounds }
{
    match bounds {
        Some(bounds) => limited(from, id, bounds),
        None => Err(DataRule::X5),
    }
}

// The same of a structure in use.
#[tactic(auto, unfolding(crate::specs::Instances::matrix_from))]
fn limited(from: &InstanceRecord, id: u32, bounds: Option<Box3>) -> Result<Option<Placed>, DataRule>
    ensures { result ≡ limited from.now id bounds (matrix_within (matrix_from from.now.rows)) }
{
    match matrix_within(from.rows) {
        Some(m) => bounded(from, id, bounds, &m),
        None => Err(DataRule::X6),
    }
}

// The same where the transform is within the limits.
fn bounded(
    from: &InstanceRecord,
    id: u32,
    bounds: Option<Box3>,
    m: &Matrix,
) -> Result<Option<Placed>, DataRule>
    requires { IsMatrix (matrix_from from.now.rows) }
    ensures { result ≡ bounded from.now id bounds m.now }
{
    if kept(m, bounds) {
        forced(from, id)
    } else {
        Err(DataRule::X7)
    }
}

// The same where the transform keeps the bounds.
fn forced(from: &InstanceRecord, id: u32) -> Result<Option<Placed>, DataRule>
    requires { IsMatrix (matrix_from from.now.rows) }
    ensures { result ≡ forced from.now id }
{
    if forces_both(InstanceFlags(from.flags % 16)) {
        Err(DataRule::X8)
    } else {
        Ok(Some(Placed::new(from, id)))
    }
}

// Whether flags force opaque, and force no opaque.
fn forces_both(flags: InstanceFlags) -> bool
    ensures { result ≡ forces_both flags }
{
    flags.contains(InstanceFlags::FORCE_OPAQUE) && flags.contains(InstanceFlags::FORCE_NO_OPAQUE)
}

// Whether the images of the corners of bounds are within the limits.
fn kept(m: &Matrix, bounds: Option<Box3>) -> bool
    ensures { result ≡ bounds_kept m.now bounds }
{
    keeps_bounds(m, bounds)
}
