ghost use Rattle.std.specs.Prelude.{◌≡◌, ◌<◌, None, IfOk, OnOk, length, slice_index_or};
ghost use Rattle.ray_top.specs.Instances.{told_instance};
ghost use Rattle.ray_serial.specs.TopWritten.{with_handle, handles_of, handle_number};
ghost use Rattle.ray_serial.specs.TopWritten.{FitsBits, IsRising};
ghost use Rattle.ray_serial.specs.TopWritten.{FitsTold, AreNarrow};

use ray_bytes::reference_of;
use ray_top::{Instance, Top};
use std::alloc::{AllocError as NoMemory, Global};
use std::collections::BTreeSet;

// An instance of a top structure, as it is told.
pub(crate) fn told(top: &Top, i: u32) -> Instance
    requires { i < length top.now.contents.instances }
    ensures value { result ≡ told_instance (slice_index_or top.now.contents.instances i None) }
    ensures limits { FitsBits result }
{
    // The instances are within the limits.
    let _len = top.len();
    top.instance(i).unwrap()
}

// The distinct references of the active instances, in rising order.
pub(crate) fn handles_of(alloc: Global, top: &Top) -> Result<Vec<u64>, NoMemory>
    ensures value { IfOk result (λ handles.
        handles.items ≡ handles_of top.now.contents.instances) }
    ensures rising { IfOk result (λ handles. IsRising handles.items) }
    ensures narrow { OnOk result (AreNarrow top.now.contents.instances) }
{
    let noted = noted(alloc, top)?;
    listed(alloc, &noted)
}

// The same as a set.
fn noted(alloc: Global, top: &Top) -> Result<BTreeSet<u64>, NoMemory>
    ensures value { IfOk result (λ noted. noted.keys ≡ handles_of top.now.contents.instances) }
    ensures narrow { OnOk result (AreNarrow top.now.contents.instances) }
{
    let mut noted = BTreeSet::new(alloc);
    for i in 0..top.len() {
        note(&mut noted, told(top, i))?;
    }
    Ok(noted)
}

// One instance more.
fn note(noted: &mut BTreeSet<u64>, told: Instance) -> Result<(), NoMemory>
    ensures value { OnOk result (noted.new.keys ≡ with_handle noted.old.keys told) }
    ensures narrow { FitsTold told }
{
    if told.active {
        noted.insert(reference_of(told.id))?;
    }
    Ok(())
}

// The members of a set, in order.
fn listed(alloc: Global, noted: &BTreeSet<u64>) -> Result<Vec<u64>, NoMemory>
    ensures value { IfOk result (λ handles. handles.items ≡ noted.now.keys) }
    ensures rising { IsRising noted.now.keys }
{
    noted.iter().copied().collect(alloc)
}

// The number of a reference among the handles, from 1 on.
#[tactic(auto, unfolding(crate::specs::TopWritten::handle_number))]
pub(crate) fn handle_number(handles: &[u64], reference: u64) -> u64
    requires { IsRising handles.now }
    ensures { result ≡ handle_number handles.now reference }
{
    match handles.binary_search(&reference) {
        Ok(k) => k as u64 + 1,
        Err(_) => handles.len() as u64 + 1,
    }
}
